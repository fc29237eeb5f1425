//! What the words of `fx_word` answer, on one thread and on four, so that each call is seen to
//! succeed, which no contract says.
#![tactic(auto)]

#[cfg(test)]
mod words;
