//! Rules in one go.
ghost use Rattle.std.specs.Prelude.{◌≡◌, IfOk, OnErr};
ghost use Rattle.fx_fiber.specs.Fiber.{IsKept, fiber_at};
ghost use Rattle.fx_fiber.specs.Bursts.{Outset, outset_at, Bursts, BurstsShort};

use crate::clock::raise;
use crate::fiber::body::Body;
use crate::fiber::rules::{Reached, rules_after_look, rules_before_look};
use crate::fiber::trace_room::have_room;
use crate::port::Port;
use fx_term::{Code, Event, Memory};

/// Makes silent rules and those of brackets, at most so many steps, and answers how many it made; where it
/// saw a request, that is the last of them. The room for the event of a step is had before it.
pub(crate) fn burst<P: Port>(
    port: &mut P,
    body: &mut Body,
    code: &Code,
    shared: &mut P::Shared,
    most: u32,
) -> Result<u32, Memory>
    ghost outset: { Outset P P.Shared }
    requires begins { outset ≡ outset_at port.old shared.old body.old }
    requires code { code.now.nodes ≡ P.theory.code }
    requires kept { IsKept P.theory port.old
        body.old.trace.items body.old.clock body.old.machine }
    ensures ok { IfOk result (λ n. Bursts P.theory most n
        (fiber_at port.old body.old.trace.items body.old.machine body.old.source) shared.old
        (fiber_at port.new body.new.trace.items body.new.machine body.new.source) shared.new) }
    ensures err { OnErr result (BurstsShort P.theory most
        (fiber_at port.old body.old.trace.items body.old.machine body.old.source) shared.old
        (fiber_at port.new body.new.trace.items body.new.machine body.new.source) shared.new) }
    ensures kept { IsKept P.theory port.new
        body.new.trace.items body.new.clock body.new.machine }
    ensures id { body.new.id ≡ body.old.id }
    ensures source { body.new.source ≡ body.old.source }
    ensures number { (P.theory.facts port.new).number ≡ (P.theory.facts port.old).number }
    ensures beginning { (P.theory.facts port.new).beginning ≡ (P.theory.facts port.old).beginning }
{
    if most == 0 {
        return Ok(0);
    }
    have_room(&mut body.trace)?;
    let made = match rules_before_look::<P>(body, code, most)? {
        Reached::Stops(made) => return Ok(made),
        Reached::Looks(made) => made,
    };
    match port.look(shared) {
        None => match rules_after_look::<P>(body, code, made, most)? {
            Reached::Looks(made) | Reached::Stops(made) => Ok(made),
        },
        Some(stamp) => {
            raise(&mut body.clock, stamp);
            let _ = body.machine.seen();
            body.show(Event::Seen);
            Ok(made + 1)
        }
    }
}
