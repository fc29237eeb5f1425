//! What fibers have done between two rounds.
ghost use Rattle.std.specs.Prelude.{◌≡◌, IfOk};
ghost use Rattle.fx_term.specs.Stamped.{events_in};
ghost use Rattle.fx_text.specs.View.{meaning};
ghost use Rattle.fx_report.specs.Script.{script_of};
ghost use Rattle.fx_run.specs.Flows.{rests_in};
ghost use Rattle.fx_run.specs.Ledger.{with_given, with_marks};
ghost use Rattle.fx_run.specs.Tally.{empty_tally, with_shown, with_all_shown, with_live, with_lives};

use crate::flows::Flows;
use crate::ledger::Ledger;
use fx_port::{Noted, RunBrand, ThreadPort};
use fx_sched::Resting;
use fx_term::{Event, Memory, Outcome, Stamped};
use fx_text::Script;
use std::alloc::Global;
use std::marker::Model;
use std::sync::Wait;

/// What the traces of fibers tell by fiber number, and how many elements they put into each queue and
/// got from it.
#[derive(Drop)]
pub(crate) struct Tally {
    ledger: Ledger,
    flows: Flows,
}

impl Model for Tally {
    ghost use Rattle.fx_run.specs.Tally.{TallyView};

    ghost Value = { TallyView };

    ghost view = { λ t. record { ledger = t.ledger; flows = t.flows } };
}

impl Tally {
    /// Of a script's run nothing is told.
    pub fn new(alloc: Global, script: &Script) -> Result<Tally, Memory>
        ensures { IfOk result (λ tally. tally ≡ empty_tally (script_of (meaning script.now))) }
    {
        Ok(Tally {
            ledger: Ledger::new(alloc, script.total())?,
            flows: Flows::new(alloc, script.queues.len())?,
        })
    }

    /// The fiber of this number is there.
    fn give(&mut self, id: u32)
        ensures { self.new ≡ record self.old { ledger = with_given id self.old.ledger } }
    {
        self.ledger.give(id);
    }

    /// Those that are marked were requested from outside.
    fn marks<N: RunBrand>(&mut self, marks: &Noted<N>)
        ensures { self.new ≡ record self.old { ledger = with_marks 0 marks.now self.old.ledger } }
    {
        self.ledger.marks(marks);
    }

    /// The fiber of this number showed this.
    #[inline(always)]
    fn event(&mut self, id: u32, event: Event)
        ensures { self.new ≡ with_shown id event self.old }
    {
        match event {
            Event::Put(..) | Event::Got(..) => self.flows.event(event),
            _ => self.ledger.event(id, event),
        }
    }

    /// It showed all of these, which are walked once for the ledger and the flows.
    fn events(&mut self, id: u32, trace: &[Stamped])
        ensures { self.new ≡ with_all_shown id (events_in trace.now) self.old }
    {
        for k in 0..trace.len() {
            self.event(id, trace[k].event);
        }
    }

    fn fiber<'a, R: Wait, N: RunBrand>(&mut self, fiber: &Resting<ThreadPort<'a, R, N>>)
        ensures { self.new ≡ with_live fiber.now self.old }
    {
        let id = fiber.id();
        self.give(id);
        self.events(id, fiber.trace());
        self.marks(fiber.port().noted());
    }

    /// These fibers are there.
    pub fn fibers<'a, R: Wait, N: RunBrand>(&mut self, fibers: &[Resting<ThreadPort<'a, R, N>>])
        ensures { self.new ≡ with_lives fibers.now self.old }
    {
        for k in 0..fibers.len() {
            self.fiber(&fibers[k]);
        }
    }

    /// How many elements are left in each queue, and by number how each fiber ended, and which are
    /// requested.
    pub fn into_lists(
        self,
        alloc: Global,
    ) -> Result<(Vec<u32>, Vec<Option<Outcome>>, Vec<bool>), Memory>
        ensures rests { IfOk result (λ lists. lists.0.items ≡ rests_in self.flows) }
        ensures outcomes { IfOk result (λ lists. lists.1.items ≡ self.ledger.outcomes) }
        ensures requested { IfOk result (λ lists. lists.2.items ≡ self.ledger.requested) }
    {
        let Tally { ledger, flows } = self;
        let rests = flows.rests(alloc)?;
        let (_, requested, outcomes) = ledger.into_tables();
        Ok((rests, outcomes, requested))
    }
}
