//! Which names are right at a node: which are in scope there, and what they stand for.
ghost use Rattle.std.specs.Prelude.{◌≡◌, ◌↔◌, Some, slice_get, IsTrue};
ghost use Rattle.fx_term.specs.Scope.{IsArgBelow, IsArgOf, IsBinderAt, bound_under};
ghost use Rattle.fx_term.specs.Pending.{seen_past};
ghost use Rattle.fx_term.specs.WellPlaced.{IsNextBinder, IsQueueBelow, HasRightSlots, HasRightNumbers, HasRightKinds};

use crate::code::signature::{Part, Use};
use crate::name_kind::NameKind;
use crate::node::{Arg, Node};

/// Is it a number, or a name in scope?
fn is_in_scope(arg: Arg, names: usize) -> bool
    ensures { IsTrue result ↔ IsArgBelow names arg }
{
    match arg {
        Arg::Number(_) => true,
        Arg::Slot(slot) => (slot as usize) < names,
    }
}

/// Has the binder no name, or the next slot?
fn is_next(binder: Option<u32>, names: usize) -> bool
    ensures { IsTrue result ↔ IsBinderAt names binder }
{
    match binder {
        None => true,
        Some(slot) => slot as usize == names,
    }
}

/// Has the binder no name, or the next slot inside of the other binder?
fn is_next_inside(outer: Option<u32>, binder: Option<u32>, names: usize) -> bool
    ensures { IsTrue result ↔ IsBinderAt (bound_under names outer) binder }
{
    match (outer, binder) {
        (_, None) => true,
        (None, Some(slot)) => slot as usize == names,
        (Some(_), Some(slot)) => slot > 0 && slot as usize - 1 == names,
    }
}

/// Has each binder of the part no name, or the next slot?
fn has_next_slots(part: Part, names: usize) -> bool
    ensures { IsTrue result ↔ IsNextBinder names part }
{
    is_next(part.binder, names) && is_next_inside(part.binder, part.inner, names)
}

/// Does it name no queue, or one of so many?
fn is_queue_there(queue: Option<u8>, queues: u8) -> bool
    ensures { IsTrue result ↔ IsQueueBelow queues queue }
{
    match queue {
        None => true,
        Some(queue) => queue < queues,
    }
}

/// Are the slots of this node right where so many names are in scope, and is the queue that it names
/// one of so many?
pub(crate) fn has_right_numbers(node: Node, names: usize, queues: u8) -> bool
    ensures { IsTrue result ↔ HasRightNumbers queues names (Some node) }
{
    has_right_slots(node, names) && is_queue_there(node.queue(), queues)
}

/// Are the slots of this node right where so many names are in scope?
fn has_right_slots(node: Node, names: usize) -> bool
    ensures { IsTrue result ↔ HasRightSlots names (Some node) }
{
    let uses = node.uses();
    let parts = node.parts();
    uses.iter().all(|entry| entry.is_none_or(|used| is_in_scope(used.arg, names)))
        && parts.iter().all(|entry| entry.is_none_or(|part| has_next_slots(part, names)))
}

/// What the name of this slot stands for in a fiber, where names of these kinds are in scope, so
/// many of them, the outermost ones, outside of the fiber.
#[tactic(auto, using(crate::proofs::SeenLaws::get_foreign, crate::proofs::SeenLaws::get_own))]
fn kind_of(slot: u32, kinds: &[NameKind], foreign: usize) -> Option<NameKind>
    ensures { result ≡ slice_get (seen_past foreign kinds.now) slot }
{
    let kind = *kinds.get(slot as usize)?;
    if (slot as usize) < foreign {
        return Some(kind.elsewhere());
    }
    Some(kind)
}

/// Is it a number, or a name of the kind that it is used as?
fn is_of_kind(used: Use, kinds: &[NameKind], foreign: usize) -> bool
    ensures { IsTrue result ↔ IsArgOf used.kind
        (λ x. slice_get (seen_past foreign kinds.now) x) used.arg }
{
    match used.arg {
        Arg::Number(_) => true,
        Arg::Slot(slot) => kind_of(slot, kinds, foreign) == Some(used.kind),
    }
}

/// Is each name that this node uses of the kind that it uses it as, where names of these kinds are
/// in scope, so many of them, the outermost ones, outside of its fiber?
pub(crate) fn has_right_kinds(node: Node, kinds: &[NameKind], foreign: usize) -> bool
    ensures { IsTrue result ↔ HasRightKinds (seen_past foreign kinds.now) (Some node) }
{
    let uses = node.uses();
    uses.iter().all(|entry| entry.is_none_or(|used| is_of_kind(used, kinds, foreign)))
}
