//! How often loops run their parts.
ghost use Rattle.std.specs.Prelude.{◌≡◌, ◌↔◌, ◌<◌, ◌≤◌, Some, None, IfSome, IsTrue};
ghost use Rattle.fx_term.specs.Turns.{most_turns, turns_inside, turns_of_loop, HasFewInside};
ghost use Rattle.fx_term.specs.WellPlaced.{HasRightTurns};

use crate::node::Node;

/// How often the loops round a part may run it at most.
pub const MOST_TURNS: u32 = 1_000_000;

/// The turns of the part of a loop of this count, where the loop itself is run so many times; nothing
/// where they are more than [`MOST_TURNS`]. A count of 0 is taken as 1, so that the part's own loops
/// are tested too.
pub fn turns_of_loop(turns: u32, count: u64) -> Option<u32>
    ensures few { IfSome result
        (λ inside. inside ≡ turns_of_loop turns count × inside ≤ most_turns) }
    ensures too_many { result ≡ None → most_turns < turns_of_loop turns count }
{
    let inside = u64::from(turns).checked_mul(count.max(1))?;
    if inside > u64::from(MOST_TURNS) {
        return None;
    }
    Some(inside as u32)
}

/// Has a part few turns, which a loop of this count repeats, if there is a count, and the loop itself
/// is run so many times?
fn has_few_inside(turns: u32, count: Option<u32>) -> bool
    ensures { IsTrue result ↔ HasFewInside turns count }
{
    match count {
        None => true,
        Some(count) => turns_of_loop(turns, u64::from(count)).is_some(),
    }
}

/// Has each part of this node few turns, where the node is run so many times?
pub(crate) fn has_right_turns(node: Node, turns: u32) -> bool
    ensures { IsTrue result ↔ HasRightTurns turns (Some node) }
{
    let parts = node.parts();
    parts.iter().all(|entry| entry.is_none_or(|part| has_few_inside(turns, part.count)))
}

/// The turns of such a part, where they are few.
pub(crate) fn turns_inside(turns: u32, count: Option<u32>) -> u32
    requires { HasFewInside turns count }
    ensures { result ≡ turns_inside turns count }
{
    match count {
        None => turns,
        Some(count) => turns * count.max(1),
    }
}
