//! At which node each fiber stood last.
ghost use Rattle.std.specs.Prelude.{◌≡◌, slice_set};
ghost use Rattle.fx_command.specs.ToldText.{last_node, node_of, stood_after};

use fx_plain::Told;
use fx_term::NodeId;

/// A node, or the one before where there is none.
fn last_node(before: Option<NodeId>, node: Option<NodeId>) -> Option<NodeId>
    ensures { result ≡ last_node before node }
{
    match node {
        Some(node) => Some(node),
        None => before,
    }
}

/// The node of a step, or, if it has none of its own, the last one at which its fiber stood, where fibers stood last at these,
/// by their numbers.
pub(crate) fn node_of(stood: &[Option<NodeId>], told: Told) -> Option<NodeId>
    ensures { result ≡ node_of stood.now told }
{
    match told {
        Told::Step(made) => match stood.get(made.fiber as usize) {
            Some(before) => last_node(*before, made.node),
            None => made.node,
        },
        Told::Request(_) | Told::Passed(_) => None,
    }
}

/// Puts a node for a fiber, if it has a place there.
fn put(stood: &mut Vec<Option<NodeId>>, fiber: usize, node: Option<NodeId>)
    ensures { stood.new.items ≡ slice_set stood.old.items fiber node }
{
    if fiber < stood.len() {
        stood[fiber] = node;
    }
}

/// Notes where a fiber stood last, after its step.
pub(crate) fn note(stood: &mut Vec<Option<NodeId>>, told: Told)
    ensures { stood.new.items ≡ stood_after stood.old.items told }
{
    let node = node_of(stood, told);
    match told {
        Told::Step(made) => put(stood, made.fiber as usize, node),
        Told::Request(_) | Told::Passed(_) => {}
    }
}
