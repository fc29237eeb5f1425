//! The child of a start, before its port is asked for.
ghost use Rattle.std.specs.Prelude.{◌≡◌, ◌+◌, ◌^◌, ◌<◌, ◌≤◌, List, Some, IfOk, OnOk, OnErr};
ghost use Rattle.fx_term.specs.declared.node.Node.{Node};
ghost use Rattle.fx_term.specs.declared.node.Node.TheVariants as node;
ghost use Rattle.fx_term.specs.declared.node.NodeId.{NodeId};
ghost use Rattle.fx_term.specs.Meaning.{term_of};
ghost use Rattle.fx_term.specs.Need.{need};
ghost use Rattle.fx_term.specs.Registers.{with_number};
ghost use Rattle.fx_fiber.specs.Body.{IsFirstBody, with_slots};
ghost use Rattle.fx_fiber.specs.MakesStart.{child_begin};
ghost use Rattle.fx_fiber.specs.Places.{IsEvaluating};

use crate::fiber::body::Body;
use crate::machine::Machine;
use fx_term::{Begin, Code, Memory, NodeId};

/// What the child of a `start` begins with, and what it has beside its port, but for the numbers of the
/// names in scope: it is under no mask and not canceled, and begins with the stamp of
/// its start. Its own number is had by this name.
// (laid into each step, of which there is one for each port: LLVM alone would call it)
#[inline(always)]
pub(crate) fn child_of(
    machine: &mut Machine,
    code: &Code,
    slot: u32,
    started: NodeId,
    stamp: u64,
) -> Result<(Begin, Box<Body>), Memory>
    ghost nodes: { List Node }
    requires code { code.now.nodes ≡ nodes }
    requires stands { (id : NodeId) × (then : NodeId)
        × IsEvaluating nodes machine.old id (node.Start slot started then) }
    requires room { machine.old.next + 1 + need (term_of nodes started.0) ≤ machine.old.end }
    requires word { machine.old.end < 2 ^ 32 }
    ensures begin { IfOk result (λ child. child.0 ≡ child_begin nodes machine.old started stamp) }
    ensures body { IfOk result
        (λ child. IsFirstBody nodes machine.old.next child.0 (with_slots child.0.slots child.1.value)) }
    ensures named { OnOk result (machine.new ≡ record machine.old {
      registers = with_number (Some slot) machine.old.next machine.old.registers;
    }) }
    ensures err { OnErr result (machine.new ≡ machine.old) }
{
    let alloc = machine.alloc;
    let id = machine.next;
    let next = id + 1;
    let begin = Begin {
        node: started,
        slots: machine.registers.copied(alloc)?,
        next,
        end: next + code.need(started),
        stamp,
    };
    let child = Body::beginning(alloc, id, &begin)?;
    machine.registers.bind(Some(slot), u64::from(id))?;
    Ok((begin, child))
}
