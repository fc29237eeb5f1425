//! A fiber over a port.
ghost use Rattle.std.specs.Prelude.{◌≡◌, ◌<◌, ◌≤◌, ◌^◌, [], true, false, Some, None, IfOk, OnErr};

use crate::bare::Bare;
use crate::begin::main_begin;
use crate::ended::{Counted, Ended};
use crate::machine::focus::Focus;
use crate::port::Port;
use crate::stepped::Stepped;
use fx_model::{Closed, Source};
use fx_term::{Code, Memory, NodeId, Stamped};
use std::alloc::Global;
use std::marker::Model;

mod advance;
pub(crate) mod ahead;
pub(crate) mod body;
mod burst;
mod child;
pub(crate) mod flow;
mod fork;
pub(crate) mod glide;
pub(crate) mod queue_step;
mod queue_uses;
pub(crate) mod rules;
mod start;
mod step;
mod tell;
mod trace_room;

use body::Body;
use burst::burst;
use flow::{Flow, burst_from_result, flow_on, stands_at_queue, stands_with_result};
use step::step;

/// A fiber: a running term, what it keeps beside it, its trace, and its port. By its type the trace
/// is that of a run from what the port says that the fiber began with, and the port agrees with what
/// the fiber did in that run. Beside its port it is one word, so that it is handed on cheaply.
#[derive(Drop)]
pub struct Fiber<P: Port> {
    port: P,
    body: Box<Body>,
}

impl<P: Port> Model for Fiber<P> {
    ghost use Rattle.std.specs.Prelude.{◌≡◌, ◌<◌};
    ghost use Rattle.fx_fiber.specs.Fiber.{FiberView, fiber_at, IsKept};

    ghost Value = { FiberView P };

    ghost view = { λ f. fiber_at f.port f.body.value.trace.items f.body.value.machine
        f.body.value.source };

    ghost invariant = { λ f. ((P.theory.facts f.port).number ≡ f.body.value.id)
        × IsKept P.theory f.port f.body.value.trace.items f.body.value.clock
        f.body.value.machine
        × ((P.theory.facts f.port).number < P.theory.total) };
}

impl<P: Port> Fiber<P> {
    ghost use Rattle.fx_term.specs.Meaning.{root_term};
    ghost use Rattle.fx_term.specs.Stamped.{events_in, stamps_in};
    ghost use Rattle.fx_model.specs.Origin.{origin_of, main_origin, main_begin_of};
    ghost use Rattle.fx_model.specs.Run.{first_counts};
    ghost use Rattle.fx_fiber.specs.PortFacts.{first_facts};
    ghost use Rattle.fx_model.specs.Work.{work_left};
    ghost use Rattle.fx_fiber.specs.Body.{IsFirstBody};
    ghost use Rattle.fx_model.specs.Scopes.{IsScopedOver};
    ghost use Rattle.fx_fiber.specs.Bare.{bare_of, reached};
    ghost use Rattle.fx_fiber.specs.Ended.{IsEnded, IsEndOf};
    ghost use Rattle.fx_model.specs.NeedLeft.{HasRoom};
    ghost use Rattle.fx_fiber.specs.Fiber.{is_fiber_number, IsAtFirst, IsLawful, IsUnchanged, progress};
    ghost use Rattle.fx_fiber.specs.MakesStep.{DoesStep};
    ghost use Rattle.fx_fiber.specs.Bursts.{Bursts, BurstsShort};
    ghost use Rattle.fx_fiber.specs.Flows.{FlowsTo};
    ghost use Rattle.fx_fiber.specs.QueueSteps.{StandsAtQueue, StandsWithResult, is_due};
    ghost use Rattle.std.specs.Bool.{OnTrue};
    ghost use Rattle.fx_fiber.specs.Cancels.{CancelsAmong};
    ghost use Rattle.fx_fiber.specs.NodePlaces.{is_open_at, IsPlaceOf, HasNoNode};
    ghost use Rattle.std.specs.Prelude.{option_and_then, MatchOption};
    ghost use Rattle.fx_model.specs.Step.{Runs, leaf_at, has_ended};
    ghost use Rattle.fx_model.specs.Waiting.{wait_at};
    ghost use Rattle.fx_model.specs.Outside.{can_step};
    ghost use Rattle.fx_model.specs.Closed.{outside_of};

    /// The main fiber before its first step.
    pub fn new(alloc: Global, code: &Code, port: P) -> Result<Fiber<P>, Memory>
    where
        P: Drop,
        requires code { code.now.nodes ≡ P.theory.code }
        requires facts { P.theory.facts port ≡ first_facts 0 (main_begin_of code.now.nodes) }
        requires total { (main_begin_of code.now.nodes).end ≤ P.theory.total }
        requires fresh { P.theory.agrees port [] }
        ensures port { IfOk result (λ fiber. fiber.port ≡ port) }
        ensures trace { IfOk result (λ fiber. fiber.trace ≡ []) }
        ensures stamps { IfOk result (λ fiber. fiber.stamps ≡ []) }
        ensures counts { IfOk result
            (λ fiber. fiber.counts ≡ first_counts (main_origin (root_term code.now.nodes))) }
        ensures progress { IfOk result
            (λ fiber. progress code.now.nodes fiber ≡ Runs (root_term code.now.nodes)) }
        ensures source { IfOk result (λ fiber. fiber.source ≡ None) }
    {
        let begin = main_begin(alloc, code);
        let mut body = Body::beginning(alloc, 0, &begin)?;
        // It often has many events, so its list begins with room for more than that of a child.
        body.trace.reserve_exact(64)?;
        body.have(begin.slots);
        Ok(Fiber::beginning(port, body))
    }

    /// The fiber over this port before its first step.
    pub(crate) fn beginning(port: P, body: Box<Body>) -> Fiber<P>
        requires body { IsFirstBody P.theory.code (P.theory.facts port).number (P.theory.facts port).beginning body.value }
        requires countable { work_left (Runs (origin_of P.theory.code (P.theory.facts port).beginning).term) < 2 ^ 63 }
        requires scoped { IsScopedOver is_fiber_number (origin_of P.theory.code (P.theory.facts port).beginning).term }
        requires room { HasRoom (origin_of P.theory.code (P.theory.facts port).beginning) }
        requires word { (P.theory.facts port).beginning.end < 2 ^ 32 }
        requires within { (P.theory.facts port).beginning.end ≤ P.theory.total }
        requires below { (P.theory.facts port).number < P.theory.total }
        requires facts { P.theory.facts port ≡ first_facts (P.theory.facts port).number (P.theory.facts port).beginning }
        requires fresh { P.theory.agrees port [] }
        ensures port { result.port ≡ port }
        ensures first { IsAtFirst P.theory.code (origin_of P.theory.code (P.theory.facts port).beginning) result }
    {
        Fiber { port, body }
    }

    /// The fiber's number.
    pub fn id(&self) -> u32
        ensures is { result ≡ (P.theory.facts self.now.port).number }
        ensures below { result < P.theory.total }
    {
        self.body.id
    }

    /// The fiber's port.
    pub fn port(&self) -> &P
        ensures { result.now ≡ self.now.port }
    {
        &self.port
    }

    /// The events so far with their stamps, the first one first, where the fiber is not needed any more.
    pub fn into_trace(self) -> Vec<Stamped>
    where
        P: Drop,
        ensures events { events_in result.items ≡ self.trace }
        ensures stamps { stamps_in result.items ≡ self.stamps }
    {
        Box::into_inner(self.body).trace
    }

    /// The events so far with their stamps, the first one first.
    pub fn trace(&self) -> &[Stamped]
        ensures events { events_in result.now ≡ self.now.trace }
        ensures stamps { stamps_in result.now ≡ self.now.stamps }
        ensures lawful { IsLawful P.theory.code (P.theory.facts self.now.port).beginning (P.theory.agrees self.now.port)
            self.now.trace self.now.stamps self.now.counts (progress P.theory.code self.now) }
    {
        &self.body.trace
    }

    /// Whether the fiber has ended.
    pub fn has_ended(&self) -> bool
        ensures ended { result ≡ has_ended (progress P.theory.code self.now) }
        ensures finished { result ≡ (P.theory.facts self.now.port).has_finished }
    {
        matches!(self.body.machine.focus, Focus::Ended(_))
    }

    /// Whether the fiber can step where the outside is as a run left it: it has not ended, and is due to
    /// be canceled, or has a request to see, or what its leaf waits for is there. It makes no step.
    pub fn can_step(&self, code: &Code, closed: &Closed) -> bool
        requires code { code.now.nodes ≡ P.theory.code }
        ensures { result ≡ can_step (outside_of closed.now) (P.theory.facts self.now.port).number
            self.now.counts (progress P.theory.code self.now) }
    {
        self.body.machine.can_step(code, self.id(), closed)
    }

    /// What the fiber waits for where it stands, if that is a place where a fiber can wait. A step that
    /// answers that the fiber waits answers this too.
    pub fn waits_for(&self, code: &Code) -> Option<Source>
        requires code { code.now.nodes ≡ P.theory.code }
        ensures { result ≡ option_and_then wait_at (leaf_at (progress P.theory.code self.now)) }
    {
        self.body.machine.waits_for(code)
    }

    /// The same, soonest at an `offer` or a `take`.
    #[inline(always)]
    pub fn waits_at_queue(&self, code: &Code) -> Option<Source>
        requires code { code.now.nodes ≡ P.theory.code }
        ensures { result ≡ option_and_then wait_at (leaf_at (progress P.theory.code self.now)) }
    {
        self.body.machine.waits_at_queue(code)
    }

    /// Whether the place where the fiber stands is open: nothing closes it, so a request is seen there before any
    /// rule but that of a cancellation. Between clean-ups and at its end it has no place.
    pub fn is_open(&self, code: &Code) -> bool
        requires code { code.now.nodes ≡ P.theory.code }
        ensures { result ≡ is_open_at (progress P.theory.code self.now) }
    {
        self.body.machine.is_open_at_leaf(code)
    }

    /// The node of the leaf where the fiber stands, or of the loop of which a turn comes next; none where it
    /// stands with a result, awaits a fiber that it canceled, is between two clean-ups or has ended. Terms do
    /// not name their nodes, so the contract tells a node by what it reads as.
    pub fn node(&self, code: &Code) -> Option<NodeId>
        requires code { code.now.nodes ≡ P.theory.code }
        ensures { MatchOption result (HasNoNode (leaf_at (progress P.theory.code self.now)))
            (IsPlaceOf P.theory.code self.now.registers (leaf_at (progress P.theory.code self.now))) }
    {
        self.body.machine.node(code)
    }

    /// The numbers of those whom the fiber can cancel: each `cancel` in what it has left has one of these.
    /// There may be more, since one of a fiber that is to be started is read by what its slot has now.
    pub fn cancels(&self, code: &Code) -> Result<Vec<u64>, Memory>
        requires code { code.now.nodes ≡ P.theory.code }
        ensures { IfOk result (λ numbers. CancelsAmong numbers.items (progress P.theory.code self.now)) }
    {
        self.body.machine.cancels(code)
    }

    /// What the fiber last registered for, if it has not yielded since.
    pub fn source(&self) -> Option<Source>
        ensures { result ≡ self.now.source }
    {
        self.body.source
    }

    /// Registers the fiber with what it waits for, by its port.
    #[inline(always)]
    pub fn wait_on(&mut self, shared: &mut P::Shared, source: Source)
        ensures told { P.theory.calls.waits self.old.port shared.old source self.new.port shared.new }
        ensures same { self.new ≡ record self.old { port = self.new.port; source = Some source } }
        ensures facts { P.theory.facts self.new.port ≡ P.theory.facts self.old.port }
    {
        self.port.wait_on(shared, source);
        self.body.source = Some(source);
    }

    /// Notes that the fiber yielded, so that it counts as registered for nothing.
    pub fn yields(&mut self)
        ensures { self.new ≡ record self.old { source = None } }
    {
        self.body.source = None;
    }

    /// Requests the cancellation of a fiber from outside, by this fiber's port, and changes nothing else.
    pub fn outside(&mut self, shared: &mut P::Shared, id: u32)
        requires may { P.theory.may id ≡ true }
        ensures told { P.theory.calls.outsides self.old.port shared.old id self.new.port shared.new }
        ensures same { self.new ≡ record self.old { port = self.new.port } }
        ensures facts { P.theory.facts self.new.port ≡ P.theory.facts self.old.port }
    {
        self.port.outside(shared, id);
    }

    /// The fiber without its port, and the port.
    pub fn part(self, code: &Code) -> (Bare, P)
        requires code { code.now.nodes ≡ P.theory.code }
        ensures port { result.1 ≡ self.port }
        ensures bare { result.0 ≡ bare_of P.theory.code (P.theory.facts self.port).number self }
        ensures lawful { IsLawful P.theory.code (P.theory.facts result.1).beginning (P.theory.agrees result.1)
            result.0.trace result.0.stamps result.0.counts (reached result.0) }
        ensures finished { (P.theory.facts result.1).has_finished ≡ has_ended (reached result.0) }
    {
        let Fiber { port, body } = self;
        (Bare::new(body, code), port)
    }

    /// What is kept of the fiber, which has ended, and its port.
    pub fn into_ended(self) -> (Ended, P)
        requires { has_ended (progress P.theory.code self) ≡ true }
        ensures port { result.1 ≡ self.port }
        ensures end { IsEndOf P.theory.code self result.0 }
        ensures ended { IsEnded P.theory result.1 result.0 }
    {
        let Fiber { port, body } = self;
        let body = Box::into_inner(body);
        let Focus::Ended(outcome) = body.machine.focus else {
            unreachable!()
        };
        let ended = Ended {
            id: body.id,
            trace: body.trace,
            outcome,
            counted: Counted {
                masks: body.machine.masks.entries(),
                acquired: body.machine.acquired,
                next: body.machine.next,
                end: body.machine.end,
                known: body.machine.known,
            },
        };
        (ended, port)
    }

    /// Makes exactly one rule; or answers that the fiber waits, and has changed nothing. Room for what
    /// it needs is had before anything is done through the port, so that want of memory leaves the
    /// fiber and the outside as they were.
    pub fn step(&mut self, code: &Code, shared: &mut P::Shared) -> Result<Stepped<P>, Memory>
        requires code { code.now.nodes ≡ P.theory.code }
        requires going { has_ended (progress P.theory.code self.old) ≡ false }
        ensures ok { IfOk result (λ answer. DoesStep P.theory
            self.old shared.old answer self.new shared.new) }
        ensures err { OnErr result
            (IsUnchanged P.theory.code self.old self.new × (shared.new ≡ shared.old)) }
        ensures number { (P.theory.facts self.new.port).number ≡ (P.theory.facts self.old.port).number }
        ensures beginning { (P.theory.facts self.new.port).beginning ≡ (P.theory.facts self.old.port).beginning }
        ensures source { self.new.source ≡ self.old.source }
    {
        step(&mut self.port, &mut self.body, code, shared)
    }

    /// Makes rules in one go, at most so many: those that show nothing, and those of a bracket. It stops at
    /// the latest before the first one that shows something else, asks the port for something or yields.
    /// At an open place it looks, once, since nothing is asked after that; where it sees a request, that is
    /// its last step. It answers how many steps it made. Want of memory leaves the rules that were made
    /// before it.
    pub fn burst(&mut self, code: &Code, shared: &mut P::Shared, most: u32) -> Result<u32, Memory>
        requires code { code.now.nodes ≡ P.theory.code }
        ensures ok { IfOk result (λ n. Bursts P.theory most n
            self.old shared.old self.new shared.new) }
        ensures err { OnErr result (BurstsShort P.theory most
            self.old shared.old self.new shared.new) }
        ensures number { (P.theory.facts self.new.port).number ≡ (P.theory.facts self.old.port).number }
        ensures beginning { (P.theory.facts self.new.port).beginning ≡ (P.theory.facts self.old.port).beginning }
        ensures source { self.new.source ≡ self.old.source }
    {
        burst(&mut self.port, &mut self.body, code, shared, most)
    }

    /// Whether it stands at an `offer` or a `take`, in no context that is yet to be entered, and cancellation is not due.
    #[inline(always)]
    pub fn stands_at_queue(&self, code: &Code) -> bool
        requires code { code.now.nodes ≡ P.theory.code }
        ensures { OnTrue result (StandsAtQueue P.theory.code self.now.focus (is_due self.now)) }
    {
        stands_at_queue(&self.body, code)
    }

    /// Whether it stands with a result, and cancellation is not due there.
    #[inline(always)]
    pub fn stands_with_result(&self) -> bool
        ensures { OnTrue result (StandsWithResult self.now.focus (is_due self.now)) }
    {
        stands_with_result(&self.body)
    }

    /// Makes the rules of a burst, as `burst` does, of a fiber that stands with a result: for one who hopes that they lead
    /// to an `offer` or a `take`, as they do in the loops of most scripts.
    #[inline(always)]
    pub fn burst_from_result(
        &mut self,
        code: &Code,
        shared: &mut P::Shared,
        most: u32,
    ) -> Result<u32, Memory>
        requires code { code.now.nodes ≡ P.theory.code }
        requires some { 0 < most }
        requires stands { StandsWithResult self.old.focus (is_due self.old) }
        ensures ok { IfOk result (λ n. Bursts P.theory most n
            self.old shared.old self.new shared.new) }
        ensures err { OnErr result (BurstsShort P.theory most
            self.old shared.old self.new shared.new) }
        ensures number { (P.theory.facts self.new.port).number ≡ (P.theory.facts self.old.port).number }
        ensures beginning { (P.theory.facts self.new.port).beginning ≡ (P.theory.facts self.old.port).beginning }
        ensures source { self.new.source ≡ self.old.source }
    {
        burst_from_result(&mut self.port, &mut self.body, code, shared, most)
    }

    /// Makes steps in one go, at most so many, of a fiber that stands at an `offer` or a `take`: beside the rules of a
    /// burst those of offers and takes, for as long as these have room or elements and its port says that it goes on.
    /// It makes a step at least, unless the fiber waits where it stands.
    #[inline(always)]
    pub fn flow(&mut self, code: &Code, shared: &mut P::Shared, most: u32) -> Flow
        requires code { code.now.nodes ≡ P.theory.code }
        requires some { 0 < most }
        requires stands { StandsAtQueue P.theory.code self.old.focus (is_due self.old) }
        ensures to { FlowsTo P.theory most
            self.old shared.old result self.new shared.new }
        ensures number { (P.theory.facts self.new.port).number ≡ (P.theory.facts self.old.port).number }
        ensures beginning { (P.theory.facts self.new.port).beginning ≡ (P.theory.facts self.old.port).beginning }
        ensures source { self.new.source ≡ self.old.source }
    {
        flow_on(&mut self.port, &mut self.body, code, shared, most)
    }
}
