//! What the masks of `fx_mask` answer in one run of their calls, so that each call is seen to succeed, which no
//! contract says.
#![tactic(auto)]

#[cfg(test)]
mod masks;
