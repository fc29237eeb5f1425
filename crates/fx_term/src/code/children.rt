//! The marks of the nodes that are children already.
ghost use Rattle.std.specs.Prelude.{◌≤◌, ◌∷◌, [], length};
ghost use Rattle.fx_term.specs.Tree.{children};
ghost use Rattle.fx_term.specs.Children.{TakesChildren};

use crate::node::{Node, NodeId};

/// Marks a child of this parent. It answers false, and marks nothing, where the child does not stand
/// before the parent or is marked already.
fn take_child(taken: &mut [bool], parent: u32, child: NodeId) -> bool
    requires { parent ≤ length taken.old }
    ensures { TakesChildren parent (child.0 ∷ []) taken.old result taken.new }
{
    if child.0 >= parent || taken[child.0 as usize] {
        return false;
    }
    taken[child.0 as usize] = true;
    true
}

/// Marks the children of this parent in the order of the text, up to the first that cannot be marked.
pub(crate) fn take_children(taken: &mut [bool], parent: u32, node: Node) -> bool
    requires { parent ≤ length taken.old }
    ensures { TakesChildren parent (children node) taken.old result taken.new }
{
    for entry in node.parts() {
        if let Some(part) = entry {
            if !take_child(taken, parent, part.node) {
                return false;
            }
        }
    }
    true
}
