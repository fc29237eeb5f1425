//! Reads the forms that do one term after another.
ghost use Rattle.std.specs.Prelude.{◌≤◌, ◌+◌, ◌∷◌, length, IfOk};
ghost use Rattle.fx_text.specs.Limits.{most_nodes, form_spares};
ghost use Rattle.fx_text.specs.Head.{ReadsHead, CanGoOn, GoesOn};
ghost use Rattle.fx_text.specs.Shape.{shape};
ghost use Rattle.fx_text.specs.Reading.{group_at, parts_at};
ghost use Rattle.fx_text.specs.Needs.{AreMade};
ghost use Rattle.fx_text.specs.Trees.{AllBelow};
ghost use Rattle.fx_text.specs.ReaderState.{scope_of, ids, IsReady, ReadsTerm, Joins};

use crate::fault::ReadError;
use crate::form::Form;
use crate::part::{binder, closing, is_closing};
use crate::reader::Reader;
use crate::reader::head::{Ahead, Double, Head, Inner, Then};
use fx_term::{Arg, NameKind, Node, NodeId};
use std::alloc::AllocError;

impl<'a> Reader<'a> {
    #[tactic(auto, using(crate::proofs::ScopeLaws::slot_at))]
    pub(super) fn let_head(&self, bytes: &'a [u8]) -> Result<(Head<'a>, &'a [u8]), ReadError>
        requires { IsReady 2 self.now bytes.now }
        ensures { ReadsHead Form.Let self.now bytes.now result }
    {
        let (x, rest) = binder(&self.names, self.place, bytes)?;
        let slot = self.names.len() as u32;
        let then = Then::Two(Inner::Name(NameKind::Value, x), Double::Let(slot));
        Ok((Head::Part(Inner::Same, then), rest))
    }

    /// The name of the error of a `handle`.
    pub(super) fn handle(
        &self,
        handled: NodeId,
        bytes: &'a [u8],
    ) -> Result<(Ahead<'a>, &'a [u8]), ReadError>
        requires { CanGoOn self.now Then.Handle handled }
        ensures { GoesOn self.now self.now Then.Handle handled bytes.now result }
    {
        let (x, rest) = binder(&self.names, self.place, bytes)?;
        let slot = self.names.len() as u32;
        let then = Then::SecondOfTwo(Double::Handle(slot), handled);
        Ok((Ahead::Part(Inner::Name(NameKind::Value, x), then), rest))
    }

    /// The first part of a `forcer`, which goes on after an error as after the value 0.
    pub(super) fn forcer(
        &mut self,
        forced: NodeId,
        bytes: &'a [u8],
    ) -> Result<(Ahead<'a>, &'a [u8]), ReadError>
        requires { CanGoOn self.old Then.Forcer forced }
        ensures { GoesOn self.old self.new Then.Forcer forced bytes.now result }
    {
        let zero = self.add(Node::Pure(Arg::Number(0)))?;
        let handled = self.add(Node::Handle(forced, None, zero))?;
        let then = Then::SecondOfTwo(Double::Forcer, handled);
        Ok((Ahead::Part(Inner::Same, then), bytes))
    }

    #[cycle(terms)]
    pub(super) fn seq(
        &mut self,
        room: usize,
        bytes: &'a [u8],
    ) -> Result<(NodeId, &'a [u8]), ReadError>
        requires { IsReady 0 self.old bytes.now }
        ensures { ReadsTerm form_spares self.old self.new bytes.now
            (parts_at (group_at room) (shape Form.Seq (scope_of self.old)) bytes.now) result }
    {
        let (first, mut rest) = self.term(Inner::Same, room, bytes)?;
        let mut others = Vec::new(self.alloc);
        while !is_closing(rest) {
            let (other, after) = self.term(Inner::Same, room, rest)?;
            others.push(other)?;
            rest = after;
        }
        let rest = closing(rest)?;
        Ok((self.in_order(first, others)?, rest))
    }

    /// The terms in order, made one from the last to the first: each but the last stands in a `let`
    /// that drops its value.
    pub(crate) fn in_order(
        &mut self,
        first: NodeId,
        mut others: Vec<NodeId>,
    ) -> Result<NodeId, AllocError>
        requires made { AreMade self.old.nodes.items self.old.needs.items }
        requires below { AllBelow (length self.old.nodes.items) (ids (first ∷ others.items)) }
        requires small { length self.old.nodes.items + length others.items ≤ most_nodes }
        ensures { IfOk result (λ root. Joins self.old self.new first others.items root.0) }
    {
        let Some(mut root) = others.pop() else {
            return Ok(first);
        };
        while let Some(part) = others.pop() {
            root = self.add(Node::Let(None, part, root))?;
        }
        self.add(Node::Let(None, first, root))
    }
}
