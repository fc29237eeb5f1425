//! A fiber that has started.
ghost use Rattle.std.specs.Prelude.{◌≡◌, ◌^◌, ◌-◌, true, false, IfOk, slice_get};
ghost use Rattle.std.specs.Bool.{OnTrue};
ghost use Rattle.fx_term.specs.Stamped.{events_in};
ghost use Rattle.fx_model.specs.Step.{has_ended};
ghost use Rattle.fx_fiber.specs.Fiber.{progress};
ghost use Rattle.fx_fiber.specs.MakesStep.{DoesStep};
ghost use Rattle.fx_fiber.specs.Bursts.{Bursts};
ghost use Rattle.fx_fiber.specs.QueueSteps.{StandsAtQueue, is_due};
ghost use Rattle.fx_plain.specs.PlainCalls.{plain_theory};
ghost use Rattle.fx_plain.specs.Started.{FlowsFrom, reported, wait_of};
ghost use Rattle.fx_plain.specs.ToldWay.{IsBeforeStep};

use crate::plain_port::PlainPort;
use crate::plain_world::PlainWorld;
use fx_fiber::{Fiber, FiberReport, Flow, State, Stepped};
use fx_model::Source;
use fx_report::{Wait, state_at_halt};
use fx_term::{Code, CodeBrand, Event, Memory, NodeId, Stamped};
use std::marker::Model;
use std::snapshot::Snapshot;

/// How many events a fiber has shown before a step, and where it stands: at which node, whether a look comes
/// first there, and what it waits for there, if it can.
#[derive(Clone, Copy)]
pub(crate) struct BeforeStep {
    pub shown: usize,
    pub node: Option<NodeId>,
    pub is_open: bool,
    pub waits: Option<Source>,
}

/// What is kept of a fiber that has ended. What it was is known to proofs alone.
#[derive(Drop)]
pub(crate) struct Ended<J: CodeBrand> {
    id: u32,
    trace: Vec<Stamped>,
    was: Snapshot<Fiber<PlainPort<J>>>,
}

impl<J: CodeBrand> Ended<J> {
    ghost use Rattle.fx_plain.specs.Started.{IsKeptOf};

    /// What is kept of this one.
    fn of(fiber: Fiber<PlainPort<J>>) -> Ended<J>
        requires { has_ended (progress J.nodes fiber) ≡ true }
        ensures was { result.was.value ≡ fiber }
        ensures kept { IsKeptOf J.nodes result fiber }
    {
        let was = Snapshot::of(&fiber);
        let id = fiber.id();
        let trace = fiber.into_trace();
        Ended { id, trace, was }
    }
}

/// A fiber, whole or by what is kept of it.
#[derive(Drop)]
pub(crate) enum Stage<J: CodeBrand> {
    /// It has its machine.
    Going(Fiber<PlainPort<J>>),
    /// It has ended, and has given back all memory but that of its trace.
    Over(Ended<J>),
}

/// Lets the fiber make rules in one go that need no other fiber, if it stands with a result, and answers how many it made.
#[inline(always)]
fn burst_from_result<J: CodeBrand>(
    fiber: &mut Fiber<PlainPort<J>>,
    code: &Code,
    world: &mut PlainWorld,
) -> Result<u32, Memory>
    requires code { code.now.nodes ≡ J.nodes }
    ensures ok { IfOk result (λ n. Bursts (plain_theory J.nodes) (2 ^ 32 - 1) n
        fiber.old world.old fiber.new world.new) }
{
    if !fiber.stands_with_result() {
        return Ok(0);
    }
    fiber.burst_from_result(code, world, u32::MAX)
}

/// Lets the fiber make steps in one go from an `offer` or a `take` on, and answers what it waits for then, if it does.
#[inline(always)]
fn flow<J: CodeBrand>(
    fiber: &mut Fiber<PlainPort<J>>,
    code: &Code,
    world: &mut PlainWorld,
) -> Result<Option<Source>, Memory>
    requires code { code.now.nodes ≡ J.nodes }
    requires stands { StandsAtQueue J.nodes fiber.old.focus (is_due fiber.old) }
    ensures ok { IfOk result (λ wait. FlowsFrom J.nodes fiber.old world.old wait fiber.new world.new) }
    ensures number { fiber.new.port.number ≡ fiber.old.port.number }
    ensures beginning { fiber.new.port.beginning ≡ fiber.old.port.beginning }
{
    match fiber.flow(code, world, u32::MAX) {
        Flow::Stops(_) => Ok(None),
        Flow::Waits(_) => Ok(fiber.waits_at_queue(code)),
        Flow::Memory => Err(Memory),
    }
}

/// A fiber that has started, and who started it.
#[derive(Drop)]
pub(crate) struct Started<J: CodeBrand> {
    parent: Option<u32>,
    stage: Stage<J>,
}

impl<J: CodeBrand> Model for Started<J> {
    ghost use Rattle.fx_plain.specs.Started.{StartedView, fiber_of, IsKeptWell};

    ghost Value = { StartedView J };

    ghost view = { λ s. record { parent = s.parent; fiber = fiber_of s.stage } };

    ghost invariant = { λ s. IsKeptWell J.nodes s.stage };
}

impl<J: CodeBrand> Started<J> {
    /// A fiber that this one started, or nobody.
    pub fn new(parent: Option<u32>, fiber: Fiber<PlainPort<J>>) -> Started<J>
        ensures { result ≡ record { parent = parent; fiber = fiber } }
    {
        let stage = Stage::Going(fiber);
        Started { parent, stage }
    }

    /// What it waits for, if its leaf is one that can wait.
    pub fn wait(&self, code: &Code) -> Option<Wait>
        requires { code.now.nodes ≡ J.nodes }
        ensures { result ≡ wait_of J.nodes self.now }
    {
        let Stage::Going(fiber) = &self.stage else {
            return None;
        };
        let source = fiber.waits_for(code)?;
        Some(Wait {
            fiber: fiber.id(),
            source,
        })
    }

    /// Its events so far with their stamps.
    fn trace(&self) -> &[Stamped]
        ensures { events_in result.now ≡ self.now.fiber.trace }
    {
        match &self.stage {
            Stage::Going(fiber) => fiber.trace(),
            Stage::Over(kept) => &kept.trace,
        }
    }

    /// The event at this place of its trace, if there is one.
    pub fn event(&self, place: usize) -> Option<Event>
        ensures { result ≡ slice_get self.now.fiber.trace place }
    {
        let stamped = self.trace().get(place)?;
        Some(stamped.event)
    }

    /// How many events it has shown, and where it stands.
    pub fn before_step(&self, code: &Code) -> BeforeStep
        requires { code.now.nodes ≡ J.nodes }
        ensures { IsBeforeStep J.nodes self.now result }
    {
        let shown = self.trace().len();
        match &self.stage {
            Stage::Going(fiber) => BeforeStep {
                shown,
                node: fiber.node(code),
                is_open: fiber.is_open(code),
                waits: fiber.waits_for(code),
            },
            Stage::Over(_) => BeforeStep {
                shown,
                node: None,
                is_open: false,
                waits: None,
            },
        }
    }

    /// Lets it make one step.
    pub fn step(
        &mut self,
        code: &Code,
        world: &mut PlainWorld,
    ) -> Result<Stepped<PlainPort<J>>, Memory>
        requires code { code.now.nodes ≡ J.nodes }
        requires going { has_ended (progress J.nodes self.old.fiber) ≡ false }
        ensures ok { IfOk result (λ answer. DoesStep (plain_theory J.nodes)
            self.old.fiber world.old answer self.new.fiber world.new) }
        ensures same { self.new ≡ record self.old { fiber = self.new.fiber } }
        ensures number { self.new.fiber.port.number ≡ self.old.fiber.port.number }
        ensures beginning { self.new.fiber.port.beginning ≡ self.old.fiber.port.beginning }
    {
        let Stage::Going(fiber) = &mut self.stage else {
            unreachable!();
        };
        fiber.step(code, world)
    }

    /// Lets it make steps in one go that need no other fiber, as many as it can, and answers how many it
    /// made.
    pub fn burst(&mut self, code: &Code, world: &mut PlainWorld) -> Result<u32, Memory>
        requires code { code.now.nodes ≡ J.nodes }
        requires going { has_ended (progress J.nodes self.old.fiber) ≡ false }
        ensures ok { IfOk result (λ n. Bursts (plain_theory J.nodes) (2 ^ 32 - 1) n
            self.old.fiber world.old self.new.fiber world.new) }
        ensures same { self.new ≡ record self.old { fiber = self.new.fiber } }
    {
        let Stage::Going(fiber) = &mut self.stage else {
            unreachable!();
        };
        fiber.burst(code, world, u32::MAX)
    }

    /// Whether it stands at an `offer` or a `take`, and cancellation is not due there.
    #[inline(always)]
    pub fn stands_at_queue(&self, code: &Code) -> bool
        requires { code.now.nodes ≡ J.nodes }
        ensures { OnTrue result (StandsAtQueue J.nodes self.now.fiber.focus (is_due self.now.fiber)) }
    {
        match &self.stage {
            Stage::Going(fiber) => fiber.stands_at_queue(code),
            Stage::Over(_) => false,
        }
    }

    /// Lets it make rules in one go that need no other fiber, if it stands with a result, and answers how many it made.
    #[inline(always)]
    pub fn burst_from_result(&mut self, code: &Code, world: &mut PlainWorld) -> Result<u32, Memory>
        requires code { code.now.nodes ≡ J.nodes }
        requires going { has_ended (progress J.nodes self.old.fiber) ≡ false }
        ensures ok { IfOk result (λ n. Bursts (plain_theory J.nodes) (2 ^ 32 - 1) n
            self.old.fiber world.old self.new.fiber world.new) }
        ensures same { self.new ≡ record self.old { fiber = self.new.fiber } }
    {
        let Stage::Going(fiber) = &mut self.stage else {
            unreachable!();
        };
        burst_from_result(fiber, code, world)
    }

    /// Lets it make steps in one go from an `offer` or a `take` on, for as long as it is the least one that is ready, and
    /// answers what it waits for then, if it does.
    #[inline(always)]
    pub fn flow(&mut self, code: &Code, world: &mut PlainWorld) -> Result<Option<Source>, Memory>
        requires code { code.now.nodes ≡ J.nodes }
        requires going { has_ended (progress J.nodes self.old.fiber) ≡ false }
        requires stands { StandsAtQueue J.nodes self.old.fiber.focus (is_due self.old.fiber) }
        ensures ok { IfOk result (λ wait. FlowsFrom J.nodes
            self.old.fiber world.old wait self.new.fiber world.new) }
        ensures same { self.new ≡ record self.old { fiber = self.new.fiber } }
        ensures number { self.new.fiber.port.number ≡ self.old.fiber.port.number }
        ensures beginning { self.new.fiber.port.beginning ≡ self.old.fiber.port.beginning }
    {
        let Stage::Going(fiber) = &mut self.stage else {
            unreachable!();
        };
        flow(fiber, code, world)
    }

    /// The same fiber, without the memory that it does not need once it has ended: the next one to start
    /// may have that.
    pub fn without_spare(self) -> Started<J>
        ensures { result ≡ self }
    {
        let Started { parent, stage } = self;
        let stage = match stage {
            Stage::Going(fiber) => {
                if fiber.has_ended() {
                    Stage::Over(Ended::of(fiber))
                } else {
                    Stage::Going(fiber)
                }
            }
            Stage::Over(kept) => Stage::Over(kept),
        };
        Started { parent, stage }
    }

    /// What is reported of it.
    pub fn into_report(self) -> FiberReport
        ensures { result ≡ reported J.nodes self }
    {
        let parent = self.parent;
        match self.stage {
            Stage::Going(fiber) => FiberReport {
                id: fiber.id(),
                parent,
                state: state_at_halt(fiber.has_ended()),
                trace: fiber.into_trace(),
            },
            Stage::Over(Ended { id, trace, .. }) => FiberReport {
                id,
                parent,
                state: State::Ended,
                trace,
            },
        }
    }
}
