//! What a fiber makes in a step.
ghost use Rattle.std.specs.Prelude.{◌≡◌, ◌^◌, ◌<◌, ◌++◌, ◌∷◌, ◌&&◌, ◌||◌, [], Some, List, IfOk, OnErr};
ghost use Rattle.fx_fiber.specs.Sound.{IsSoundMachine};
ghost use Rattle.fx_fiber.specs.Places.{IsSame, IsGoing, is_open_machine};
ghost use Rattle.fx_fiber.specs.Interruption.{ComesFirst};
ghost use Rattle.fx_fiber.specs.Advances.{Advances};
ghost use Rattle.fx_fiber.specs.Fiber.{is_fiber_number};
ghost use Rattle.fx_model.specs.Scopes.{IsProgressScopedOver};
ghost use Rattle.fx_fiber.specs.Machine.{progress_of};

use crate::clock::raise;
use crate::machine::Machine;
use crate::machine::entry::is_canceled;
use crate::machine::focus::Focus;
use crate::machine::interruption::Interruption;
use crate::machine::made::Made;
use crate::port::Port;
use fx_term::{Code, Memory};

/// What comes before the rule of the place: at an open one cancellation where it is due, and else a
/// request where a look finds one, to whose stamp the clock is raised.
#[inline(always)]
fn interruption<P: Port>(
    port: &mut P,
    machine: &Machine,
    shared: &mut P::Shared,
    clock: &mut u64,
    at_canceled: bool,
) -> Option<Interruption>
    ensures first { let opened = is_open_machine machine.now in
        ComesFirst P.theory opened (opened && (machine.now.known || at_canceled)) result
        clock.old port.old shared.old clock.new port.new shared.new }
    ensures facts { P.theory.facts port.new ≡ P.theory.facts port.old }
{
    if !machine.is_open() {
        return None;
    }
    if machine.known || at_canceled {
        return Some(Interruption::Cancellation);
    }
    let stamp = port.look(shared)?;
    raise(clock, stamp);
    Some(Interruption::Request)
}

/// Makes one rule, or none where the fiber waits. At an open place cancellation comes first, and then
/// a request that is seen. The clock is raised to the stamp of what the port gave.
pub(crate) fn advance<P: Port>(
    port: &mut P,
    machine: &mut Machine,
    code: &Code,
    shared: &mut P::Shared,
    clock: &mut u64,
) -> Result<Made, Memory>
    requires code { code.now.nodes ≡ P.theory.code }
    requires sound { IsSoundMachine P.theory.code machine.old }
    requires going { IsGoing machine.old.focus }
    requires masks_countable { machine.old.masks.entries < 2 ^ 63 }
    requires resources_countable { machine.old.acquired < 2 ^ 63 }
    requires puts_countable { (P.theory.facts port.old).puts < 2 ^ 63 }
    requires scoped { IsProgressScopedOver is_fiber_number (progress_of P.theory.code machine.old) }
    ensures ok { IfOk result (λ made. Advances P.theory
        clock.old machine.old port.old shared.old made clock.new machine.new port.new shared.new) }
    ensures same { OnErr result (IsSame P.theory.code machine.old machine.new) }
    ensures unchanged { OnErr result ((port.new ≡ port.old) × (shared.new ≡ shared.old) × (clock.new ≡ clock.old)) }
{
    match machine.focus {
        Focus::Eval(from) => {
            let (id, node) = machine.enter(code, from)?;
            match interruption(port, machine, shared, clock, is_canceled(node)) {
                Some(first) => machine.interrupted(first),
                None => machine.leaf_rule(port, shared, clock, id, node),
            }
        }
        Focus::Return(done) => match interruption(port, machine, shared, clock, false) {
            Some(first) => machine.interrupted(first),
            None => machine.result_rule(code, done),
        },
        Focus::Turn(id, turn) => match interruption(port, machine, shared, clock, false) {
            Some(first) => machine.interrupted(first),
            None => {
                machine.turn_rule(id, turn, code.node(id))?;
                Ok(Made::Silent)
            }
        },
        Focus::Await(fiber) => Ok(machine.awaits(port, shared, clock, fiber)),
        Focus::Unwinding => Ok(machine.unwinds()),
        Focus::Ended(_) => unreachable!(),
    }
}
