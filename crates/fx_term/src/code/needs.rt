//! How many fiber numbers each node can use.
ghost use Rattle.std.specs.Prelude.{◌≡◌, ◌↔◌, ◌<◌, Some, length, slice_index, All, IfOk, IfErr, IsTrue};
ghost use Rattle.fx_term.specs.Tree.{children, ChildrenComeFirst};
ghost use Rattle.fx_term.specs.NodeNeed.{capped, need_of_part, need_of_both, need_of_node, AreNeeds};
ghost use Rattle.fx_term.specs.WellPlaced.{IsWithinLimits};

use crate::code::CodeFault;
use crate::code::signature::{Part, Running};
use crate::code::turns::has_right_turns;
use crate::node::Node;
use std::alloc::Global;

/// How many fiber numbers a script can use at most, besides that of its main fiber.
pub const MOST_NEED: u32 = 4_095;

/// All needs above [`MOST_NEED`] are taken for this one, so that no sum of needs is large.
const TOO_MANY: u32 = MOST_NEED + 1;

/// The need of a part, from those of the nodes before its parent.
fn need_of_part(part: Part, needs: &[u32]) -> u32
    requires { part.node.0 < length needs.now }
    ensures { result ≡ capped (need_of_part (λ id. slice_index needs.now id) part) }
{
    let need = needs[part.node.0 as usize];
    let in_all_turns = match part.count {
        None => need,
        Some(count) => count.saturating_mul(need),
    };
    let own = if part.elsewhere { 1 } else { 0 };
    in_all_turns.saturating_add(own).min(TOO_MANY)
}

/// The need of a part and of those after it.
fn need_of_both(running: Running, part: u32, after: u32) -> u32
    ensures { result ≡ capped (need_of_both running part after) }
{
    let need = match running {
        Running::Beside => part.saturating_add(after),
        Running::Instead => part.max(after),
    };
    need.min(TOO_MANY)
}

/// The need of a node's term, the number of fibers that it can start, from those of the nodes before
/// it. All needs above [`MOST_NEED`] are taken for the next number, in what it takes and what it gives.
pub fn need_of_node(node: Node, needs: &[u32]) -> u32
    requires { All (λ c. c < length needs.now) (children node) }
    ensures { result ≡ capped (need_of_node (λ id. slice_index needs.now id) node) }
{
    let parts = node.parts();
    let mut need = 0;
    for index in (0..parts.len()).rev() {
        let Some(part) = parts[index] else { continue };
        need = need_of_both(part.running, need_of_part(part, needs), need);
    }
    need
}

/// The need of each node, from the first one on: children come before their parents.
pub(crate) fn needs_of_nodes(alloc: Global, nodes: &[Node]) -> Result<Vec<u32>, CodeFault>
    requires { ChildrenComeFirst nodes.now }
    ensures needs { IfOk result (λ needs. AreNeeds nodes.now (length nodes.now) needs.items) }
    ensures memory { IfErr result (λ fault. fault ≡ CodeFault.Memory) }
{
    let mut needs = Vec::new(alloc);
    for node in nodes {
        let need = need_of_node(*node, &needs);
        needs.push(need)?;
    }
    Ok(needs)
}

/// Does this node, which is run so many times and has this need, keep the limits?
pub(crate) fn is_within_limits(node: Node, turns: u32, need: u32) -> bool
    ensures { IsTrue result ↔ IsWithinLimits turns need (Some node) }
{
    has_right_turns(node, turns) && need <= MOST_NEED
}
