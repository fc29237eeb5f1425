//! The rule of `start`.
ghost use Rattle.std.specs.Prelude.{◌≡◌, ◌<◌, false, IfOk, OnErr};
ghost use Rattle.std.specs.Vec.{vec_len, vec_capacity};
ghost use Rattle.fx_term.specs.declared.node.Node.TheVariants as node;
ghost use Rattle.fx_term.specs.declared.node.NodeId.{NodeId};
ghost use Rattle.fx_fiber.specs.Fiber.{IsKept};
ghost use Rattle.fx_fiber.specs.MakesStart.{MakesStart};
ghost use Rattle.fx_fiber.specs.Places.{IsSame, StandsAt};

use crate::clock::after;
use crate::fiber::Fiber;
use crate::fiber::body::Body;
use crate::fiber::child::child_of;
use crate::machine::focus::Focus;
use crate::port::Port;
use fx_term::{Code, Event, Memory, NodeId};

/// Starts a fiber that runs one part, under no mask and not canceled, with the numbers of the names in
/// scope; the other part goes on with the fiber's number by this name. All memory is had before the
/// port starts the fiber. Its event has its room in the trace.
pub(crate) fn start<P: Port>(
    port: &mut P,
    body: &mut Body,
    code: &Code,
    shared: &mut P::Shared,
    slot: u32,
    started: NodeId,
    then: NodeId,
) -> Result<Fiber<P>, Memory>
    requires code { code.now.nodes ≡ P.theory.code }
    requires stands { (id : NodeId)
        × StandsAt P.theory.code body.old.machine id (node.Start slot started then) }
    requires kept { IsKept P.theory port.old
        body.old.trace.items body.old.clock body.old.machine }
    requires going { (P.theory.facts port.old).has_finished ≡ false }
    requires room { vec_len body.old.trace < vec_capacity body.old.trace }
    ensures started { IfOk result (λ child. MakesStart P.theory body.old.clock body.old.machine port.old
        shared.old body.old.trace.items child body.new.machine port.new shared.new
        body.new.trace.items) }
    ensures kept { IfOk result (λ child. IsKept P.theory port.new
        body.new.trace.items body.new.clock body.new.machine) }
    ensures same { OnErr result (IsSame P.theory.code body.old.machine body.new.machine) }
    ensures trace { OnErr result (body.new.trace.items ≡ body.old.trace.items) }
    ensures clock { OnErr result (body.new.clock ≡ body.old.clock) }
    ensures unchanged { OnErr result ((port.new ≡ port.old) × (shared.new ≡ shared.old)) }
    ensures id { body.new.id ≡ body.old.id }
    ensures source { body.new.source ≡ body.old.source }
    ensures number { (P.theory.facts port.new).number ≡ (P.theory.facts port.old).number }
    ensures beginning { (P.theory.facts port.new).beginning ≡ (P.theory.facts port.old).beginning }
{
    let id = body.machine.next;
    let stamp = after(body.clock);
    let (begin, mut child) = child_of(&mut body.machine, code, slot, started, stamp)?;
    let own = port.start(shared, id, &begin)?;
    body.machine.next = begin.end;
    body.machine.focus = Focus::Eval(then);
    body.show(Event::Start(id));
    child.have(begin.slots);
    Ok(Fiber::beginning(own, child))
}
