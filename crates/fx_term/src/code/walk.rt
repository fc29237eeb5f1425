//! The walk through a tree from its root, a parent before its children.
ghost use Rattle.std.specs.Prelude.{◌≡◌, ◌^◌, ◌<◌, ◌≤◌, List, ◌++◌, ◌∷◌, [], length, Some, All, OnOk, IfErr};
ghost use Rattle.fx_term.specs.Tree.{IsOneTree};
ghost use Rattle.fx_term.specs.Turns.{HasFewInside};
ghost use Rattle.fx_term.specs.Walk.{spots, spots_below};
ghost use Rattle.fx_term.specs.WellPlaced.{HasRightTurns, IsWellPlaced};
ghost use Rattle.fx_term.specs.NodeNeed.{AreNeeds};
ghost use Rattle.fx_term.specs.Pending.{with_own, path_to, seen_past, under, ArePushed};
ghost use Rattle.fx_term.specs.Code.{IsRefusal};

use crate::code::CodeFault;
use crate::code::needs::is_within_limits;
use crate::code::scope::{has_right_kinds, has_right_numbers};
use crate::code::signature::Part;
use crate::code::turns::turns_inside;
use crate::name_kind::NameKind;
use crate::node::{Node, NodeId};
use std::alloc::Global;

/// A node that is still to be looked at, how many names are in scope where its parent stands, how
/// many of these outside of the fiber that runs the node, the kinds of the names that the parent binds
/// for it, the inner one last, and how often the loops round it run it.
#[derive(Clone, Copy)]
pub(crate) struct Pending {
    node: NodeId,
    outer: usize,
    foreign: usize,
    own: Option<NameKind>,
    inner: Option<NameKind>,
    turns: u32,
}

/// Enters the scope of a name of this kind, if there is one.
fn push_name(path: &mut Vec<NameKind>, own: Option<NameKind>) -> Result<(), CodeFault>
    ensures entered { OnOk result (path.new.items ≡ with_own own path.old.items) }
    ensures memory { IfErr result (λ fault. fault ≡ CodeFault.Memory) }
{
    if let Some(kind) = own {
        path.push(kind)?;
    }
    Ok(())
}

/// Leaves the scopes that are not round this node, and enters its own.
fn enter(path: &mut Vec<NameKind>, pending: Pending) -> Result<(), CodeFault>
    ensures entered { OnOk result (path.new.items ≡ path_to path.old.items pending) }
    ensures memory { IfErr result (λ fault. fault ≡ CodeFault.Memory) }
{
    path.truncate(pending.outer);
    push_name(path, pending.own)?;
    push_name(path, pending.inner)
}

/// Pushes a part of this parent, where names of these kinds are in scope.
fn push_part(
    stack: &mut Vec<Pending>,
    part: Part,
    path: &[NameKind],
    parent: Pending,
) -> Result<(), CodeFault>
    requires { HasFewInside parent.turns part.count }
    ensures pushed { OnOk result
        (stack.new.items ≡ stack.old.items ++ under path.now parent part ∷ []) }
    ensures memory { IfErr result (λ fault. fault ≡ CodeFault.Memory) }
{
    stack.push(Pending {
        node: part.node,
        outer: path.len(),
        foreign: if part.elsewhere {
            path.len()
        } else {
            parent.foreign
        },
        own: part.binder.map(|_| part.kind),
        inner: part.inner.map(|_| NameKind::Value),
        turns: turns_inside(parent.turns, part.count),
    })?;
    Ok(())
}

/// Pushes the parts of this parent, whose node it is, where names of these kinds are in scope, the
/// last part first.
fn push_parts(
    stack: &mut Vec<Pending>,
    node: Node,
    path: &[NameKind],
    parent: Pending,
) -> Result<(), CodeFault>
    requires turns { HasRightTurns parent.turns (Some node) }
    requires foreign { parent.foreign ≤ length path.now }
    ensures pushed { OnOk result (ArePushed path.now
        (spots_below (Some node) (seen_past parent.foreign path.now) parent.turns)
        stack.old.items stack.new.items) }
    ensures memory { IfErr result (λ fault. fault ≡ CodeFault.Memory) }
{
    let parts = node.parts();
    for index in (0..parts.len()).rev() {
        let Some(part) = parts[index] else { continue };
        push_part(stack, part, path, parent)?;
    }
    Ok(())
}

/// Tests the names, the queue and the limits of each node of a tree, from its root down, where there
/// are so many queues.
pub(crate) fn check_names(
    alloc: Global,
    nodes: &[Node],
    needs: &[u32],
    queues: u8,
) -> Result<(), CodeFault>
    requires fits { length nodes.now < 2 ^ 32 }
    requires tree { IsOneTree nodes.now }
    requires needs { AreNeeds nodes.now (length nodes.now) needs.now }
    ensures placed { OnOk result (All (IsWellPlaced queues nodes.now) (spots nodes.now)) }
    ensures fault { IfErr result (IsRefusal queues nodes.now) }
{
    let mut path = Vec::new(alloc);
    let mut stack = Vec::new(alloc);
    stack.push(Pending {
        node: NodeId((nodes.len() - 1) as u32),
        outer: 0,
        foreign: 0,
        own: None,
        inner: None,
        turns: 1,
    })?;
    while let Some(pending) = stack.pop() {
        enter(&mut path, pending)?;
        let kinds = path.as_slice();
        let node = nodes[pending.node.0 as usize];
        if !has_right_numbers(node, kinds.len(), queues) {
            return Err(CodeFault::Slot(pending.node));
        }
        if !has_right_kinds(node, kinds, pending.foreign) {
            return Err(CodeFault::Kind(pending.node));
        }
        if !is_within_limits(node, pending.turns, needs[pending.node.0 as usize]) {
            return Err(CodeFault::Limit(pending.node));
        }
        push_parts(&mut stack, node, kinds, pending)?;
    }
    Ok(())
}
