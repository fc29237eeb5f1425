//! A turn of a fiber at a gate.
ghost use Rattle.std.specs.Prelude.{◌≡◌, ℕ, true};
ghost use Rattle.fx_fiber.specs.Turns.{Turns, come_to};
ghost use Rattle.fx_sched.specs.GatedTurns.{HasGatedTurn, RequestsNamed};

use crate::gate::Gate;
use futures::Future;
use futures::task::{Context, Doorbell, Poll, Solo};
use fx_fiber::{Fiber, Port, Turn, Turned};
use fx_term::{Code, Memory};
use std::alloc::AllocGlobal;
use std::random::RandomSource;

/// What a worker polls with: it begins a context, and [`leave`]s it after its last turn.
pub fn solo<R: RandomSource + AllocGlobal>(rt: &R) -> Result<Solo, Memory> {
    Solo::new(rt, Doorbell::spinning()).map_err(|_| Memory)
}

/// Leaves a context whose turns are over.
pub fn leave(mut cx: Context<'_>) {
    let _: Poll<()> = cx.yield_now();
    cx.park();
}

/// Asks the gate, requests from outside what it names, and then lets the fiber have its turn. The context is ready
/// for the next turn after it.
// (laid into the loop of a worker with all that it calls, or else LLVM makes a call of a turn there)
#[inline(always)]
pub fn gated_turn<P: Port, G: Gate>(
    cx: &mut Context<'_>,
    gate: &G,
    worker: u32,
    fiber: &mut Fiber<P>,
    code: &Code,
    shared: &mut P::Shared,
) -> Poll<Turned<P>>
    requires code { code.now.nodes ≡ P.theory.code }
    requires gate { (id : ℕ) → G.may gate.now id ≡ true → P.theory.may id ≡ true }
    ensures number { (P.theory.facts fiber.new.port).number ≡ (P.theory.facts fiber.old.port).number }
    ensures beginning { (P.theory.facts fiber.new.port).beginning ≡ (P.theory.facts fiber.old.port).beginning }
    ensures turn { HasGatedTurn P.theory
        (G.answers gate.now worker ((P.theory.facts fiber.old.port).number)) fiber.old shared.old
        (come_to result) fiber.new shared.new }
{
    if let Some(id) = gate.turn(worker, fiber.id()) {
        fiber.outside(shared, id);
    }
    one_turn(fiber, code, shared, cx)
}

/// Makes one turn of the fiber.
// (as `gated_turn` is)
#[inline(always)]
fn one_turn<P: Port>(
    fiber: &mut Fiber<P>,
    code: &Code,
    shared: &mut P::Shared,
    cx: &mut Context<'_>,
) -> Poll<Turned<P>>
    requires { code.now.nodes ≡ P.theory.code }
    ensures number { (P.theory.facts fiber.new.port).number ≡ (P.theory.facts fiber.old.port).number }
    ensures beginning { (P.theory.facts fiber.new.port).beginning ≡ (P.theory.facts fiber.old.port).beginning }
    ensures turns { Turns P.theory fiber.old shared.old
        (come_to result) fiber.new shared.new }
{
    let mut turn = Turn::new(fiber, code, shared);
    turn.poll(cx)
}
