//! Counts the rows that pass.

use crate::harness::Wrong;
use crate::refuser::Refuser;
use std::alloc::AllocGlobal;
use std::process::ExitCode;

/// How many rows passed, and how many failed.
#[derive(Drop)]
pub struct Tally<'a, R> {
    pub rt: &'a R,
    passed: u32,
    failed: u32,
}

impl<'a, R: Print + AllocGlobal> Tally<'a, R> {
    /// The count before any row. Where nobody refuses memory there is none, and that is said.
    pub fn new(rt: &'a R) -> Option<Tally<'a, R>> {
        if !Refuser::new(rt.alloc()).is_there() {
            let _ = println!(rt; "nobody refuses memory");
            return None;
        }
        Some(Tally {
            rt,
            passed: 0,
            failed: 0,
        })
    }

    /// Prints a line on the row of this call on that, which makes so many requests.
    pub fn tell(&mut self, call: &str, of: &str, count: Result<u32, Wrong>) {
        match count {
            Ok(count) => self.passes(call, of, count),
            Err(wrong) => self.fails(call, of, wrong.words()),
        }
    }

    fn passes(&mut self, call: &str, of: &str, count: u32) {
        self.passed = self.passed.saturating_add(1);
        let _ = println!(self.rt; "{call}, {of}: {count} requests");
    }

    fn fails(&mut self, call: &str, of: &str, words: &str) {
        self.failed = self.failed.saturating_add(1);
        let _ = println!(self.rt; "{call}, {of}: FAILED: {words}");
    }

    /// Prints how many passed and failed, and gives the status of the program: whether none failed.
    pub fn end(self) -> ExitCode {
        let (passed, failed) = (self.passed, self.failed);
        let _ = println!(self.rt; "{passed} passed, {failed} failed");
        ExitCode::from(if failed == 0 { 0 } else { 1 })
    }
}
