//! The test that a list of nodes is one tree.
ghost use Rattle.std.specs.Prelude.{◌≡◌, ℕ, ◌+◌, ◌^◌, ◌<◌, length, vec_len, IfOk, OnOk, IfErr, Contains};
ghost use Rattle.fx_term.specs.Tree.{all_children, IsForest, IsOneTree};
ghost use Rattle.fx_term.specs.Children.{AreMarks};
ghost use Rattle.fx_term.specs.Code.{IsFault, IsRefusal};

use crate::code::CodeFault;
use crate::code::children::take_children;
use crate::node::{Node, NodeId};
use std::alloc::Global;

/// Marks the children of each node, from the first node on.
fn mark_children(alloc: Global, nodes: &[Node]) -> Result<Vec<bool>, CodeFault>
    requires { length nodes.now < 2 ^ 32 }
    ensures forest { OnOk result (IsForest nodes.now) }
    ensures marks { IfOk result (λ taken. AreMarks (all_children nodes.now) taken.items) }
    ensures each_node { IfOk result (λ taken. vec_len taken ≡ length nodes.now) }
    ensures fault { IfErr result (λ f. (queues : ℕ) → IsRefusal queues nodes.now f) }
{
    let mut taken = vec![in alloc; false; nodes.len()]?;
    for (id, node) in nodes.iter().enumerate() {
        if !take_children(&mut taken, id as u32, *node) {
            return Err(CodeFault::Child(NodeId(id as u32)));
        }
    }
    Ok(taken)
}

/// Tests that each node but the last is marked as a child.
fn check_parents(nodes: &[Node], taken: &[bool]) -> Result<(), CodeFault>
    requires fits { length nodes.now < 2 ^ 32 }
    requires some_node { 0 < length nodes.now }
    requires forest { IsForest nodes.now }
    requires marks { AreMarks (all_children nodes.now) taken.now }
    requires each_node { length taken.now ≡ length nodes.now }
    ensures each { OnOk result ((id : ℕ) → id + 1 < length nodes.now
        → Contains (all_children nodes.now) id) }
    ensures fault { IfErr result (λ f. (queues : ℕ) → IsFault queues nodes.now f) }
{
    for id in 0..nodes.len() - 1 {
        if !taken[id] {
            return Err(CodeFault::Child(NodeId(id as u32)));
        }
    }
    Ok(())
}

/// Tests that the nodes are one tree.
pub(crate) fn check_tree(alloc: Global, nodes: &[Node]) -> Result<(), CodeFault>
    requires fits { length nodes.now < 2 ^ 32 }
    requires some_node { 0 < length nodes.now }
    ensures tree { OnOk result (IsOneTree nodes.now) }
    ensures fault { IfErr result (λ f. (queues : ℕ) → IsRefusal queues nodes.now f) }
{
    let taken = mark_children(alloc, nodes)?;
    check_parents(nodes, &taken)
}
