//! What the ports of `fx_port` do, on one thread and on two, so that each call is seen to succeed, which
//! no contract says, and whom they wake, which is kept behind locks.
#![tactic(auto)]

#[cfg(test)]
mod port;
