//! What the contexts of `fx_frames` give back, a context of each kind: so each call is seen to succeed, which
//! no contract says, and each context to have the clean-up that is meant.
#![tactic(auto)]

#[cfg(test)]
mod frames;
