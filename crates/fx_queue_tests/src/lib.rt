//! What the queues of `fx_queue` answer, on one thread and on four, so that each call is seen to
//! succeed, which no contract says, and in what order waiters come.
#![tactic(auto)]

#[cfg(test)]
mod queue;
