//! The checked code of a script.
ghost use Rattle.std.specs.Prelude.{◌≡◌, ℕ, ◌+◌, ◌^◌, ◌<◌, Some, length, slice_get, IfOk, IfErr, OnOk, IsOkUnless};
ghost use Rattle.fx_term.specs.Code.{IsCode, IsFault, IsRefusal};
ghost use Rattle.fx_term.specs.NodeNeed.{AreNeeds};

mod brand;
mod children;
mod needs;
mod scope;
mod signature;
mod tree;
mod turns;
mod walk;

use crate::code::needs::needs_of_nodes;
use crate::code::tree::check_tree;
use crate::code::walk::check_names;
use crate::node::{Node, NodeId};
pub use brand::CodeBrand;
pub use needs::{MOST_NEED, need_of_node};
use std::alloc::{AllocError, AllocFailed, Global};
use std::marker::Model;
use thiserror::Error;
pub use turns::{MOST_TURNS, turns_of_loop};

/// Why a list of nodes is no code: the first fault in the order of the tests.
#[derive(Clone, Copy, PartialEq, Eq, Debug, Error)]
pub enum CodeFault {
    /// A child of this node does not stand before it, or is a child already; or this node, which is
    /// not the last, is nobody's child; or, at node 0, there is no node or there are more than
    /// 4,294,967,295.
    #[error("node {}: a child that is not before its parent, or a node that is not one node's child", .0.0)]
    Child(NodeId),
    /// A binder of this node has another slot than the next, or a slot that it uses is not bound, or
    /// the script has no queue of the number that it names.
    #[error("node {}: a slot that is not bound, a binder with a wrong slot, or no such queue", .0.0)]
    Slot(NodeId),
    /// A slot that this node uses is that of a name of another kind, as a poll's where a value is to
    /// stand, or that of a poll of another fiber.
    #[error("node {}: a slot that is that of a name of another kind", .0.0)]
    Kind(NodeId),
    /// The need of this node, the number of fibers that it can start, is above 4,095; or, with this
    /// loop's count, the product of the counts of the loops round its part, a count of 0 taken as 1,
    /// is above 1,000,000.
    #[error("node {}: a need above 4095, or a count that takes the turns of a part above 1000000", .0.0)]
    Limit(NodeId),
    /// Memory ran out before a fault was found.
    #[error("out of memory")]
    Memory,
}

impl CodeFault {
    ghost use Rattle.fx_term.specs.Code.{fault_number};

    /// The number of the fault's kind.
    pub fn number(&self) -> u8
        ensures { result ≡ fault_number self.now }
    {
        match self {
            CodeFault::Child(_) => 1,
            CodeFault::Slot(_) => 2,
            CodeFault::Kind(_) => 3,
            CodeFault::Memory => 4,
            CodeFault::Limit(_) => 5,
        }
    }
}

impl From<AllocError> for CodeFault {
    ghost use Rattle.fx_term.specs.declared.code.CodeFault.TheVariants.{Memory};

    ghost from_gives = { λ _ fault. fault ≡ Memory };

    fn from(_refused: AllocError) -> CodeFault {
        CodeFault::Memory
    }
}

impl<T: Drop> From<AllocFailed<T>> for CodeFault {
    ghost use Rattle.fx_term.specs.declared.code.CodeFault.TheVariants.{Memory};

    ghost from_gives = { λ _ fault. fault ≡ Memory };

    fn from(_refused: AllocFailed<T>) -> CodeFault {
        CodeFault::Memory
    }
}

/// A node's number fits in 32 bits.
const MOST_NODES: usize = u32::MAX as usize;

/// Tests that there is a node, and that there are not too many.
fn check_count(nodes: &[Node]) -> Result<(), CodeFault>
    ensures some_node { OnOk result (0 < length nodes.now) }
    ensures fits { OnOk result (length nodes.now < 2 ^ 32) }
    ensures fault { IfErr result (λ f. (queues : ℕ) → IsFault queues nodes.now f) }
{
    if nodes.is_empty() || nodes.len() > MOST_NODES {
        return Err(CodeFault::Child(NodeId(0)));
    }
    Ok(())
}

/// The tests of a whole list, each of which may suppose what those before it found. It answers the
/// needs of the nodes.
fn check_nodes(alloc: Global, nodes: &[Node], queues: u8) -> Result<Vec<u32>, CodeFault>
    ensures code { OnOk result (IsCode queues nodes.now) }
    ensures needs { IfOk result (λ needs. AreNeeds nodes.now (length nodes.now) needs.items) }
    ensures fault { IfErr result (IsRefusal queues nodes.now) }
{
    check_count(nodes)?;
    check_tree(alloc, nodes)?;
    let needs = needs_of_nodes(alloc, nodes)?;
    check_names(alloc, nodes, &needs, queues)?;
    Ok(needs)
}

/// One well-scoped term, as the list of its nodes, each with its need, and the number of queues that
/// they may name. Contracts see it as the list and that number.
#[derive(Drop)]
pub struct Code {
    nodes: Vec<Node>,
    needs: Vec<u32>,
    queues: u8,
}

impl Model for Code {
    ghost use Rattle.std.specs.Prelude.{length};
    ghost use Rattle.fx_term.specs.Code.{CodeView, IsCode};
    ghost use Rattle.fx_term.specs.NodeNeed.{AreNeeds};

    ghost Value = { CodeView };

    ghost view = { λ c. record { nodes = c.nodes.items; queues = c.queues } };

    ghost invariant = { λ c. IsCode c.queues c.nodes.items
        × AreNeeds c.nodes.items (length c.nodes.items) c.needs.items };
}

impl Code {
    ghost use Rattle.std.specs.Prelude.{◌≤◌};
    ghost use Rattle.fx_term.specs.Need.{need, most_need};
    ghost use Rattle.fx_term.specs.Meaning.{term_of};
    ghost use Rattle.fx_term.specs.declared.code.CodeFault.{CodeFault};
    ghost use Rattle.fx_term.specs.declared.code.CodeFault.TheVariants.{Memory};

    /// The code of these nodes, of which the last is the root. Its answer is the first fault in the
    /// order of the tests; a list has one such fault at most ([`laws`](crate::laws::faults)). It takes
    /// time and memory in proportion to the number of nodes. `queues` is the number of the script's
    /// queues, which the nodes may name.
    pub fn build(alloc: Global, nodes: Vec<Node>, queues: u8) -> Result<Code, CodeFault>
        ensures built { IfOk result (λ code. code.nodes ≡ nodes.items × code.queues ≡ queues) }
        ensures code { OnOk result (IsCode queues nodes.items) }
        ensures accepts { IsCode queues nodes.items → IsOkUnless result CodeFault.Memory }
        ensures first_fault { IfErr result (IsRefusal queues nodes.items) }
    {
        let needs = check_nodes(alloc, &nodes, queues)?;
        Ok(Code {
            nodes,
            needs,
            queues,
        })
    }

    /// The number of nodes, which is not 0.
    pub fn len(&self) -> u32
        ensures len { result ≡ length self.now.nodes }
        ensures code { IsCode self.now.queues self.now.nodes }
    {
        self.nodes.len() as u32
    }

    /// The node of the whole term, which is the last.
    pub fn root(&self) -> NodeId
        ensures last { result.0 + 1 ≡ length self.now.nodes }
        ensures code { IsCode self.now.queues self.now.nodes }
    {
        NodeId(self.len() - 1)
    }

    /// The node of this number.
    pub fn node(&self, id: NodeId) -> &Node
        requires { id.0 < length self.now.nodes }
        ensures node { slice_get self.now.nodes id.0 ≡ Some result.now }
        ensures code { IsCode self.now.queues self.now.nodes }
    {
        &self.nodes[id.0 as usize]
    }

    /// The need of the node of this number: how many fiber numbers its term can use. That of the root
    /// is the number of fibers that the whole term can start.
    pub fn need(&self, id: NodeId) -> u32
        requires { id.0 < length self.now.nodes }
        ensures need { result ≡ need (term_of self.now.nodes id.0) }
        ensures few { result ≤ most_need }
    {
        self.needs[id.0 as usize]
    }
}
