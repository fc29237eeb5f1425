//! Runs of scripts over words and rings, and whom the ports wake.

mod one_thread;
mod play;
mod two_threads;
mod wakes;
