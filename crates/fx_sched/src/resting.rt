//! A fiber that rests.
ghost use Rattle.std.specs.Prelude.{◌≡◌, ◌<◌, false};
ghost use Rattle.fx_term.specs.Stamped.{events_in, stamps_in};
ghost use Rattle.fx_model.specs.Closed.{outside_of};
ghost use Rattle.fx_model.specs.Outside.{can_step};
ghost use Rattle.fx_model.specs.Step.{has_ended};
ghost use Rattle.fx_fiber.specs.Bare.{bare_of, reached};
ghost use Rattle.fx_fiber.specs.Fiber.{IsLawful, progress};
ghost use Rattle.fx_sched.specs.Resting.{StandsAs};

use fx_fiber::{Bare, Closed, Ended, Fiber, Port};
use fx_term::{Code, Stamped};
use std::marker::Model;

/// A fiber, whole or by what is kept of it.
#[derive(Drop)]
pub(crate) enum Stage<P: Port> {
    /// All of it.
    Whole(Fiber<P>),
    /// What is kept of one that has ended, and its port.
    Over(Ended, P),
}

/// A fiber that rests: it has no turn until it is woken, or has ended. Of one that has ended no more may be there than
/// is told of it.
#[derive(Drop)]
pub struct Resting<P: Port> {
    stage: Stage<P>,
}

impl<P: Port> Model for Resting<P> {
    ghost use Rattle.fx_fiber.specs.Fiber.{FiberView};
    ghost use Rattle.fx_sched.specs.Resting.{fiber_of, IsKeptWell};

    ghost Value = { FiberView P };

    ghost view = { λ r. fiber_of r.stage };

    ghost invariant = { λ r. IsKeptWell P.theory r.stage };
}

impl<P: Port> Resting<P> {
    /// All of this fiber.
    pub fn whole(fiber: Fiber<P>) -> Resting<P>
        ensures { result ≡ fiber }
    {
        let stage = Stage::Whole(fiber);
        Resting { stage }
    }

    /// This fiber, without the memory that it does not need once it has ended.
    pub fn without_spare(fiber: Fiber<P>) -> Resting<P>
        ensures { StandsAs P.theory fiber result }
    {
        if !fiber.has_ended() {
            return Resting::whole(fiber);
        }
        let (ended, port) = fiber.into_ended();
        let stage = Stage::Over(ended, port);
        Resting { stage }
    }

    /// The fiber's number.
    pub fn id(&self) -> u32
        ensures is { result ≡ (P.theory.facts self.now.port).number }
        ensures below { result < P.theory.total }
    {
        match &self.stage {
            Stage::Whole(fiber) => fiber.id(),
            Stage::Over(ended, _) => ended.id(),
        }
    }

    /// The fiber's port.
    pub fn port(&self) -> &P
        ensures { result.now ≡ self.now.port }
    {
        match &self.stage {
            Stage::Whole(fiber) => fiber.port(),
            Stage::Over(_, port) => port,
        }
    }

    /// The events so far with their stamps, the first one first.
    pub fn trace(&self) -> &[Stamped]
        ensures events { events_in result.now ≡ self.now.trace }
        ensures stamps { stamps_in result.now ≡ self.now.stamps }
    {
        match &self.stage {
            Stage::Whole(fiber) => fiber.trace(),
            Stage::Over(ended, _) => ended.trace(),
        }
    }

    /// Whether the fiber has ended.
    pub fn has_ended(&self) -> bool
        ensures { result ≡ has_ended (progress P.theory.code self.now) }
    {
        match &self.stage {
            Stage::Whole(fiber) => fiber.has_ended(),
            Stage::Over(..) => true,
        }
    }

    /// Whether the fiber can step where the outside is as a run left it, as [`Fiber::can_step`] tells.
    pub fn can_step(&self, code: &Code, closed: &Closed) -> bool
        requires code { code.now.nodes ≡ P.theory.code }
        ensures { result ≡ can_step (outside_of closed.now) (P.theory.facts self.now.port).number
            self.now.counts (progress P.theory.code self.now) }
    {
        match &self.stage {
            Stage::Whole(fiber) => fiber.can_step(code, closed),
            Stage::Over(..) => false,
        }
    }

    /// The fiber itself, which has not ended.
    pub fn into_fiber(self) -> Fiber<P>
        requires { has_ended (progress P.theory.code self) ≡ false }
        ensures { result ≡ self }
    {
        match self.stage {
            Stage::Whole(fiber) => fiber,
            Stage::Over(_ended, _port) => unreachable!(),
        }
    }

    /// The fiber without its port, and the port, as [`Fiber::part`] gives them.
    pub fn part(self, code: &Code) -> (Bare, P)
        requires code { code.now.nodes ≡ P.theory.code }
        ensures port { result.1 ≡ self.port }
        ensures bare { result.0 ≡ bare_of P.theory.code (P.theory.facts self.port).number self }
        ensures lawful { IsLawful P.theory.code (P.theory.facts result.1).beginning (P.theory.agrees result.1)
            result.0.trace result.0.stamps result.0.counts (reached result.0) }
        ensures finished { (P.theory.facts result.1).has_finished ≡ has_ended (reached result.0) }
    {
        match self.stage {
            Stage::Whole(fiber) => fiber.part(code),
            Stage::Over(ended, port) => (Bare::of_ended(ended, code), port),
        }
    }
}
