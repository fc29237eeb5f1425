//! Reads terms.
ghost use Rattle.std.specs.Prelude.{◌<◌, length, IfOk};
ghost use Rattle.fx_term.specs.Tree.{children};
ghost use Rattle.fx_text.specs.Limits.{most_nodes, term_spares, form_spares};
ghost use Rattle.fx_text.specs.Reading.{group_at, parts_at};
ghost use Rattle.fx_text.specs.Needs.{AreMade};
ghost use Rattle.fx_text.specs.Trees.{AllBelow};
ghost use Rattle.fx_text.specs.ReaderState.{scope_of, IsReady, ReadsTerm, Adds};
ghost use Rattle.fx_text.specs.Head.{spared, TurnsFit, HeadFits, part_at, still};

mod binding;
pub(crate) mod cases;
mod fibers;
pub(crate) mod head;
mod leaves;
mod loops;
mod masking;
mod opening;
mod queues;
mod races;
mod resources;

use crate::fault::ReadError;
use crate::place::Place;
use crate::scope::Bound;
use fx_term::{Node, NodeId, need_of_node};
use head::{Ahead, Head, Inner};
use std::alloc::{AllocError, Global};

/// The names in scope that have slots, what else is known of this place, the nodes so far, each with its need, and
/// where memory comes from.
#[derive(Drop)]
pub(crate) struct Reader<'a> {
    pub(crate) alloc: Global,
    pub(crate) names: Vec<Bound<'a>>,
    pub(crate) place: Place<'a>,
    pub(crate) nodes: Vec<Node>,
    pub(crate) needs: Vec<u32>,
}

impl<'a> Reader<'a> {
    pub(crate) fn add(&mut self, node: Node) -> Result<NodeId, AllocError>
        requires made { AreMade self.old.nodes.items self.old.needs.items }
        requires children { AllBelow (length self.old.nodes.items) (children node) }
        requires small { length self.old.nodes.items < most_nodes }
        ensures { IfOk result (λ id. Adds self.old self.new node id.0) }
    {
        let id = NodeId(self.nodes.len() as u32);
        let need = need_of_node(node, &self.needs);
        self.nodes.push(node)?;
        self.needs.push(need)?;
        Ok(id)
    }

    /// A part of a form, where so many more `(` may be open.
    #[cycle(terms)]
    pub(crate) fn term(
        &mut self,
        inner: Inner<'a>,
        room: usize,
        bytes: &'a [u8],
    ) -> Result<(NodeId, &'a [u8]), ReadError>
        requires ready { IsReady (spared inner) self.old bytes.now }
        requires turns { TurnsFit self.old.place.turns inner }
        ensures { ReadsTerm term_spares self.old self.new bytes.now
            (part_at room inner.entry (scope_of self.old) bytes.now) result }
    {
        let outside = self.outside();
        let opened = self.open(inner, room, bytes)?;
        let (root, rest) = self.parts(opened.head, opened.room, opened.rest)?;
        let rest = self.close(inner, outside, root, opened.inside, rest)?;
        Ok((root, rest))
    }

    /// What is still to come of a form after its first tokens.
    #[cycle(terms)]
    fn parts(
        &mut self,
        head: Head<'a>,
        room: usize,
        bytes: &'a [u8],
    ) -> Result<(NodeId, &'a [u8]), ReadError>
        requires ready { IsReady 2 self.old bytes.now }
        requires fits { HeadFits self.old.place.turns head }
        ensures { ReadsTerm form_spares self.old self.new bytes.now
            (parts_at (group_at room) (still self.old.nodes.items head.entry (scope_of self.old))
            bytes.now) result }
    {
        let (mut inner, mut then) = match head {
            Head::Leaf(node) => return self.leaf(node, bytes),
            Head::Seq => return self.seq(room, bytes),
            Head::Using => return self.using(room, bytes),
            Head::Part(inner, then) => (inner, then),
        };
        let mut rest = bytes;
        loop {
            let (part, after) = self.term(inner, room, rest)?;
            let (ahead, after) = self.go_on(then, part, after)?;
            match ahead {
                Ahead::End(whole) => return self.end_whole(whole, after),
                Ahead::Part(next, more) => {
                    inner = next;
                    then = more;
                    rest = after;
                }
            }
        }
    }
}
