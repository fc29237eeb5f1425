//! Words on standard error while a search goes on.

use fx_command::command::{Progress, SoFar};
use std::time::{Duration, Instant};

/// Says on standard error how far a search has come: at most once a second, and not in the first one. Nothing is promised
/// of it: where the clock or standard error cannot be had, nothing is said.
#[derive(Drop)]
pub(crate) struct Ticker<'a> {
    rt: &'a HostRuntime,
    // when it spoke last, or heard something first
    last: Option<Instant>,
}

impl<'a> Ticker<'a> {
    /// One that has heard nothing.
    pub(crate) fn new(rt: &'a HostRuntime) -> Ticker<'a> {
        Ticker { rt, last: None }
    }

    /// Is it time to say something? The first second begins with the first question.
    fn is_time(&mut self) -> bool {
        let Ok(now) = Instant::now(self.rt) else {
            return false;
        };
        let Some(last) = self.last else {
            self.last = Some(now);
            return false;
        };
        match last.checked_add(Duration::from_secs(1)) {
            Some(next) if next <= now => {
                self.last = Some(now);
                true
            }
            _ => false,
        }
    }
}

impl Progress for Ticker<'_> {
    ghost hears = { λ old so_far new. Unit {0} };

    fn tell(&mut self, so_far: SoFar) {
        if self.is_time() {
            let left = so_far.met.saturating_sub(so_far.expanded);
            let _ = eprintln!(self.rt; "explored {} states, {left} to go on from", so_far.expanded);
        }
    }
}
