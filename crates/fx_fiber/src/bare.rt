//! A fiber without its port.
ghost use Rattle.std.specs.Prelude.{◌≡◌};

use crate::ended::Ended;
use crate::fiber::body::Body;
use crate::machine::focus::Focus;
use fx_model::{Closed, Source};
use fx_term::{Code, NodeId, Stamped};
use std::marker::Model;
use std::snapshot::Snapshot;

/// What there is of a fiber without its port.
#[derive(Drop)]
pub(crate) enum Kept {
    /// All of it.
    Standing(Box<Body>),
    /// What is kept of one that has ended.
    Over(Ended),
}

/// A fiber without its port, as [`Fiber::part`](crate::Fiber::part) leaves it. By its type its trace is
/// that of a run of its code, which is known to proofs alone. It holds on to nothing that a port does.
#[derive(Drop)]
pub struct Bare {
    kept: Kept,
    code: Snapshot<Code>,
}

impl Model for Bare {
    ghost use Rattle.fx_fiber.specs.Bare.{BareView, HasOwnRun, reached};
    ghost use Rattle.fx_fiber.specs.Ended.{bare_in, IsKeptSound};

    ghost Value = { BareView };

    ghost view = { λ b. bare_in b.code.value.nodes b.kept };

    ghost invariant = { λ b. IsKeptSound b.code.value.nodes b.kept
        × HasOwnRun b.code.value.nodes (bare_in b.code.value.nodes b.kept).trace
        (bare_in b.code.value.nodes b.kept).counts (reached (bare_in b.code.value.nodes b.kept)) };
}

impl Bare {
    ghost use Rattle.fx_term.specs.Stamped.{events_in, stamps_in};
    ghost use Rattle.fx_fiber.specs.Bare.{bare_at, HasOwnRun, reached};
    ghost use Rattle.fx_fiber.specs.Ended.{ended_bare};
    ghost use Rattle.fx_fiber.specs.Fiber.{is_fiber_number};
    ghost use Rattle.fx_fiber.specs.Machine.{counts_of, progress_of};
    ghost use Rattle.fx_fiber.specs.NodePlaces.{HasNoNode, IsPlaceOf};
    ghost use Rattle.fx_fiber.specs.Sound.{IsSoundMachine};
    ghost use Rattle.fx_model.specs.Closed.{outside_of};
    ghost use Rattle.fx_model.specs.Outside.{can_step};
    ghost use Rattle.fx_model.specs.Scopes.{IsProgressScopedOver};
    ghost use Rattle.fx_model.specs.Step.{has_ended, leaf_at};
    ghost use Rattle.fx_model.specs.Waiting.{wait_at};
    ghost use Rattle.std.specs.Prelude.{MatchOption, option_and_then};

    /// The fiber of this code that has this beside its port.
    pub(crate) fn new(body: Box<Body>, code: &Code) -> Bare
        requires sound { IsSoundMachine code.now.nodes body.value.machine }
        requires scoped { IsProgressScopedOver is_fiber_number
            (progress_of code.now.nodes body.value.machine) }
        requires run { HasOwnRun code.now.nodes (events_in body.value.trace.items)
            (counts_of body.value.machine) (progress_of code.now.nodes body.value.machine) }
        ensures { result
            ≡ bare_at code.now.nodes body.value.id body.value.trace.items body.value.machine }
    {
        Bare {
            kept: Kept::Standing(body),
            code: Snapshot::of(code),
        }
    }

    /// The fiber of this code of which that is kept, once it has ended.
    pub fn of_ended(ended: Ended, code: &Code) -> Bare
        requires { HasOwnRun code.now.nodes (ended_bare code.now.nodes ended).trace
            (ended_bare code.now.nodes ended).counts (reached (ended_bare code.now.nodes ended)) }
        ensures { result ≡ ended_bare code.now.nodes ended }
    {
        Bare {
            kept: Kept::Over(ended),
            code: Snapshot::of(code),
        }
    }

    /// The fiber's number.
    pub fn id(&self) -> u32
        ensures { result ≡ self.now.id }
    {
        match &self.kept {
            Kept::Standing(body) => body.id,
            Kept::Over(ended) => ended.id,
        }
    }

    /// The events with their stamps, the first one first.
    pub fn trace(&self) -> &[Stamped]
        ensures events { events_in result.now ≡ self.now.trace }
        ensures stamps { stamps_in result.now ≡ self.now.stamps }
        ensures run { HasOwnRun self.now.nodes self.now.trace self.now.counts
            (reached self.now) }
    {
        match &self.kept {
            Kept::Standing(body) => &body.trace,
            Kept::Over(ended) => &ended.trace,
        }
    }

    /// The events with their stamps, the first one first, where the fiber is not needed any more.
    pub fn into_trace(self) -> Vec<Stamped>
        ensures events { events_in result.items ≡ self.trace }
        ensures stamps { stamps_in result.items ≡ self.stamps }
    {
        let Bare { kept, .. } = self;
        match kept {
            Kept::Standing(body) => Box::into_inner(body).trace,
            Kept::Over(ended) => ended.trace,
        }
    }

    /// Whether the fiber has ended.
    pub fn has_ended(&self) -> bool
        ensures { result ≡ has_ended (reached self.now) }
    {
        match &self.kept {
            Kept::Standing(body) => matches!(body.machine.focus, Focus::Ended(_)),
            Kept::Over(_) => true,
        }
    }

    /// What the fiber waits for where it stands, as [`Fiber::waits_for`](crate::Fiber::waits_for) tells.
    pub fn waits_for(&self, code: &Code) -> Option<Source>
        requires code { code.now.nodes ≡ self.now.nodes }
        ensures { result ≡ option_and_then wait_at (leaf_at (reached self.now)) }
    {
        match &self.kept {
            Kept::Standing(body) => body.machine.waits_for(code),
            Kept::Over(_) => None,
        }
    }

    /// The node where the fiber stands, as [`Fiber::node`](crate::Fiber::node) tells.
    pub fn node(&self, code: &Code) -> Option<NodeId>
        requires code { code.now.nodes ≡ self.now.nodes }
        ensures { MatchOption result (HasNoNode (leaf_at (reached self.now)))
            (IsPlaceOf self.now.nodes self.now.registers (leaf_at (reached self.now))) }
    {
        match &self.kept {
            Kept::Standing(body) => body.machine.node(code),
            Kept::Over(_) => None,
        }
    }

    /// Whether the fiber can step where the outside is as a run left it, as
    /// [`Fiber::can_step`](crate::Fiber::can_step) tells.
    pub fn can_step(&self, code: &Code, closed: &Closed) -> bool
        requires code { code.now.nodes ≡ self.now.nodes }
        ensures { result ≡ can_step (outside_of closed.now) self.now.id self.now.counts
            (reached self.now) }
    {
        match &self.kept {
            Kept::Standing(body) => body.machine.can_step(code, body.id, closed),
            Kept::Over(_) => false,
        }
    }
}
