//! What stands last in a lane.
ghost use Rattle.std.specs.Prelude.{◌≡◌, nat_le};
ghost use Rattle.fx_picture.specs.Folds.{is_work, is_linked, is_quiet, run_below};

use crate::cause::has_caused;
use crate::drawn::Drawn;
use crate::layout::MOST_EVENTS;
use crate::stood::{Stood, told_cause};
use fx_order::Occurrence;
use fx_term::Event;

/// How many events a run has at least that stands in one row. Fewer are drawn one by one.
pub(crate) const LEAST_RUN: usize = 8;

/// What stands last in a lane: how many quiet events, one after the other, and the row of the last one.
#[derive(Clone, Copy)]
pub(crate) struct Tail {
    pub run: usize,
    pub row: u32,
}

/// Whether the event does something to a queue or a resource.
fn is_work(event: Event) -> bool
    ensures { result ≡ is_work event }
{
    match event {
        Event::Put(_, _) | Event::Got(_, _) | Event::Refused(_) | Event::Empty(_) => true,
        Event::Acquired(_) | Event::Begin(_) | Event::End(_) => true,
        _ => false,
    }
}

/// Whether an arrow may begin or end at such work, where this is told of a run.
fn is_linked(stood: &[Stood], it: Occurrence) -> bool
    ensures { result ≡ is_linked stood.now it }
{
    match it.event {
        Event::Put(_, _) => has_caused(stood, it),
        Event::Got(_, _) => told_cause(stood, it.fiber, it.place).is_some(),
        _ => false,
    }
}

/// Whether no arrow can begin or end at the event.
pub(crate) fn is_quiet(stood: &[Stood], it: Occurrence) -> bool
    ensures { result ≡ is_quiet stood.now it }
{
    it.place != 0 && is_work(it.event) && !is_linked(stood, it)
}

/// Whether a run of that fiber, of which so many events stand above, is long with those of these that go on with it.
fn is_long(stood: &[Stood], fiber: u32, above: usize, below: &[Occurrence]) -> bool
    ensures { result ≡ nat_le LEAST_RUN (run_below stood.now fiber above below.now) }
{
    let mut run = above;
    let mut rest = below;
    while run < LEAST_RUN {
        let Some((it, more)) = rest.split_first() else {
            return false;
        };
        if it.fiber == fiber {
            if !is_quiet(stood, *it) {
                return false;
            }
            run += 1;
        }
        rest = more;
    }
    true
}

impl Tail {
    ghost use Rattle.std.specs.Prelude.{◌≡◌, ◌≤◌, ◌+◌, length};
    ghost use Rattle.fx_picture.specs.Folds.{no_tail, next_by, tail_by, joins};

    /// What stands last in the lane of that fiber below one event more, which is quiet or not.
    fn below(self, fiber: u32, it: Drawn, is_quiet: bool) -> Tail
        requires { self.run ≤ MOST_EVENTS }
        ensures is { result ≡ next_by fiber self it is_quiet }
        ensures few { result.run ≤ self.run + 1 }
    {
        if it.event.fiber != fiber {
            return self;
        }
        let run = if is_quiet { self.run + 1 } else { 0 };
        Tail { run, row: it.row }
    }

    /// What stands last in the lane of that fiber, where these are drawn, each of them quiet or not.
    pub(crate) fn of(fiber: u32, above: &[Drawn], quiet: &[bool]) -> Tail
        requires { length above.now ≤ MOST_EVENTS }
        ensures is { result ≡ tail_by fiber no_tail above.now quiet.now }
        ensures few { result.run ≤ length above.now }
    {
        let mut tail = Tail { run: 0, row: 0 };
        for (it, is_quiet) in above.iter().zip(quiet) {
            tail = tail.below(fiber, *it, *is_quiet);
        }
        tail
    }

    /// Whether that event goes into its row. These follow it.
    pub(crate) fn takes(self, stood: &[Stood], it: Occurrence, below: &[Occurrence]) -> bool
        requires { self.run ≤ MOST_EVENTS }
        ensures { result ≡ joins stood.now self it below.now }
    {
        is_quiet(stood, it) && 0 < self.run && is_long(stood, it.fiber, self.run + 1, below)
    }
}
