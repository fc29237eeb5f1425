//! One step of what a fiber has.
ghost use Rattle.std.specs.Prelude.{◌≡◌, false, IfOk, OnErr};
ghost use Rattle.fx_model.specs.Step.{has_ended};
ghost use Rattle.fx_fiber.specs.Fiber.{IsKept, IsUnchanged, fiber_at};
ghost use Rattle.fx_fiber.specs.Machine.{progress_of};
ghost use Rattle.fx_fiber.specs.MakesStep.{DoesStep};

use crate::fiber::advance::advance;
use crate::fiber::body::Body;
use crate::fiber::start::start;
use crate::fiber::tell::tell;
use crate::fiber::trace_room::have_room;
use crate::machine::made::Made;
use crate::port::Port;
use crate::stepped::Stepped;
use fx_term::{Code, Memory};

/// Makes exactly one rule, and tells it; or answers that the fiber waits. The room for its event is had
/// first.
pub(crate) fn step<P: Port>(
    port: &mut P,
    body: &mut Body,
    code: &Code,
    shared: &mut P::Shared,
) -> Result<Stepped<P>, Memory>
    requires code { code.now.nodes ≡ P.theory.code }
    requires kept { IsKept P.theory port.old
        body.old.trace.items body.old.clock body.old.machine }
    requires going { has_ended (progress_of P.theory.code body.old.machine) ≡ false }
    ensures ok { IfOk result (λ answer. DoesStep P.theory
        (fiber_at port.old body.old.trace.items body.old.machine body.old.source) shared.old answer
        (fiber_at port.new body.new.trace.items body.new.machine body.new.source) shared.new) }
    ensures err { OnErr result (IsUnchanged P.theory.code
        (fiber_at port.old body.old.trace.items body.old.machine body.old.source)
        (fiber_at port.new body.new.trace.items body.new.machine body.new.source) × (shared.new ≡ shared.old)) }
    ensures kept { IsKept P.theory port.new
        body.new.trace.items body.new.clock body.new.machine }
    ensures id { body.new.id ≡ body.old.id }
    ensures source { body.new.source ≡ body.old.source }
    ensures number { (P.theory.facts port.new).number ≡ (P.theory.facts port.old).number }
    ensures beginning { (P.theory.facts port.new).beginning ≡ (P.theory.facts port.old).beginning }
{
    have_room(&mut body.trace)?;
    let made = advance(port, &mut body.machine, code, shared, &mut body.clock)?;
    if let Made::Starts(slot, started, then) = made {
        let child = start(port, body, code, shared, slot, started, then)?;
        return Ok(Stepped::Child(child));
    }
    Ok(tell(port, body, shared, made))
}
