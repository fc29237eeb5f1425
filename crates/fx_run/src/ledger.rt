//! What traces tell, by fiber number.
ghost use Rattle.std.specs.Prelude.{◌≡◌, ℕ, ◌<◌, true, false, IfOk, IfSome, IfNone};
ghost use Rattle.fx_term.specs.Stamped.{events_in};
ghost use Rattle.fx_run.specs.Ledger.{empty_ledger, with_given, with_start, with_request, with_end};
ghost use Rattle.fx_run.specs.Ledger.{with_event, with_events, with_trace, with_fibers, with_requests};
ghost use Rattle.fx_run.specs.Ledger.{with_marks};
ghost use Rattle.fx_run.specs.Ledger.{is_lost_in, IsFirstLost};

use fx_fiber::Bare;
use fx_port::{Noted, RunBrand};
use fx_term::{Event, Memory, Outcome, Stamped};
use std::alloc::Global;
use std::marker::Model;

/// What the traces of fibers tell of each number below a total: whether that fiber was given, who first
/// started it, whether it is requested, and how it ended. And the least number from the total on that a
/// trace starts.
#[derive(Drop)]
pub(crate) struct Ledger {
    given: Vec<bool>,
    parents: Vec<Option<u32>>,
    requested: Vec<bool>,
    outcomes: Vec<Option<Outcome>>,
    beyond: Option<u32>,
}

impl Model for Ledger {
    ghost use Rattle.fx_run.specs.Ledger.{LedgerView};

    ghost Value = { LedgerView };

    ghost view = { λ l. record {
      given = l.given.items;
      parents = l.parents.items;
      requested = l.requested.items;
      outcomes = l.outcomes.items;
      beyond = l.beyond;
    } };
}

impl Ledger {
    /// Of so many numbers nothing is told.
    pub fn new(alloc: Global, total: u32) -> Result<Ledger, Memory>
        ensures { IfOk result (λ ledger. ledger ≡ empty_ledger total) }
    {
        let total = total as usize;
        Ok(Ledger {
            given: vec![in alloc; false; total]?,
            parents: vec![in alloc; None; total]?,
            requested: vec![in alloc; false; total]?,
            outcomes: vec![in alloc; None; total]?,
            beyond: None,
        })
    }

    fn start(&mut self, id: u32, child: u32)
        ensures { self.new ≡ with_start id child self.old }
    {
        match self.parents.get_mut(child as usize) {
            Some(parent) => {
                if parent.is_none() {
                    *parent = Some(id);
                }
            }
            None => {
                self.beyond = match self.beyond {
                    Some(least) if least <= child => Some(least),
                    _ => Some(child),
                };
            }
        }
    }

    fn request(&mut self, place: usize)
        ensures { self.new ≡ with_request place self.old }
    {
        if let Some(is_requested) = self.requested.get_mut(place) {
            *is_requested = true;
        }
    }

    fn end(&mut self, id: u32, outcome: Outcome)
        ensures { self.new ≡ with_end id outcome self.old }
    {
        if let Some(end) = self.outcomes.get_mut(id as usize) {
            if end.is_none() {
                *end = Some(outcome);
            }
        }
    }

    /// The fiber of this number showed this.
    #[inline(always)]
    pub fn event(&mut self, id: u32, event: Event)
        ensures { self.new ≡ with_event id event self.old }
    {
        match event {
            Event::Start(child) => self.start(id, child),
            Event::Request(other) => self.request(other as usize),
            Event::Ended(outcome) => self.end(id, outcome),
            _ => {}
        }
    }

    fn events(&mut self, id: u32, trace: &[Stamped])
        ensures { self.new ≡ with_events id (events_in trace.now) self.old }
    {
        for k in 0..trace.len() {
            self.event(id, trace[k].event);
        }
    }

    /// The fiber of this number was given.
    pub fn give(&mut self, id: u32)
        ensures { self.new ≡ with_given id self.old }
    {
        if let Some(is_given) = self.given.get_mut(id as usize) {
            *is_given = true;
        }
    }

    /// The fiber of this number was given, with this trace.
    fn fiber(&mut self, id: u32, trace: &[Stamped])
        ensures { self.new ≡ with_trace id (events_in trace.now) self.old }
    {
        self.give(id);
        self.events(id, trace);
    }

    /// These fibers were given.
    pub fn fibers(&mut self, bares: &[Bare])
        ensures { self.new ≡ with_fibers bares.now self.old }
    {
        for k in 0..bares.len() {
            self.fiber(bares[k].id(), bares[k].trace());
        }
    }

    /// These were requested from outside.
    pub fn requests(&mut self, outside: &[u32])
        ensures { self.new ≡ with_requests outside.now self.old }
    {
        for k in 0..outside.len() {
            self.request(outside[k] as usize);
        }
    }

    /// Those that are marked were requested from outside.
    pub fn marks<N: RunBrand>(&mut self, marks: &Noted<N>)
        ensures { self.new ≡ with_marks 0 marks.now self.old }
    {
        for id in 0..marks.end() {
            if marks.is_marked(id) {
                self.request(id as usize);
            }
        }
    }

    /// Whether the fiber of this number is lost.
    fn is_lost(&self, id: u32) -> bool
        ensures { result ≡ is_lost_in self.now id }
    {
        let is_given = self.given.get(id as usize).copied().unwrap_or(false);
        let parent = self.parents.get(id as usize).copied().unwrap_or(None);
        !is_given && (id == 0 || parent.is_some())
    }

    /// The least fiber below the total that is lost, if one is.
    fn first_lost(&self, total: u32) -> Option<u32>
        ensures lost { IfSome result (λ f. (f < total) × (is_lost_in self.now f ≡ true)) }
        ensures least { IfSome result (λ f. (g : ℕ) → g < f → is_lost_in self.now g ≡ false) }
        ensures none { IfNone result ((g : ℕ) → g < total → is_lost_in self.now g ≡ false) }
    {
        for id in 0..total {
            if self.is_lost(id) {
                return Some(id);
            }
        }
        None
    }

    /// The least fiber that is lost, if one is.
    pub fn lost(&self, total: u32) -> Option<u32>
        ensures { IsFirstLost total self.now result }
    {
        match self.first_lost(total) {
            Some(id) => Some(id),
            None => self.beyond,
        }
    }

    /// By number: who first started each fiber, which are requested, and how each ended.
    pub fn into_tables(self) -> (Vec<Option<u32>>, Vec<bool>, Vec<Option<Outcome>>)
        ensures parents { result.0.items ≡ self.parents }
        ensures requested { result.1.items ≡ self.requested }
        ensures outcomes { result.2.items ≡ self.outcomes }
    {
        (self.parents, self.requested, self.outcomes)
    }
}
