//! Puts, gets, refusals and waiters.
mod four_threads;
mod one_thread;
mod putting;
mod waiters;
