//! Reads the forms that start fibers and wait for them.
ghost use Rattle.fx_text.specs.ReaderState.{IsReady};
ghost use Rattle.fx_text.specs.Head.{ReadsHead};

use crate::fault::ReadError;
use crate::form::Form;
use crate::part::{binder, name};
use crate::reader::Reader;
use crate::reader::head::{Double, Head, Inner, Then, Triple};
use fx_term::{NameKind, Node};

impl<'a> Reader<'a> {
    #[tactic(auto, using(crate::proofs::ScopeLaws::slot_at))]
    pub(super) fn start_head(&self, bytes: &'a [u8]) -> Result<(Head<'a>, &'a [u8]), ReadError>
        requires { IsReady 2 self.now bytes.now }
        ensures { ReadsHead Form.Start self.now bytes.now result }
    {
        let (h, rest) = binder(&self.names, self.place, bytes)?;
        let slot = self.names.len() as u32;
        let then = Then::Two(Inner::Name(NameKind::Fiber, h), Double::Start(slot));
        Ok((Head::Part(Inner::Elsewhere, then), rest))
    }

    pub(super) fn cancel_head(&self, bytes: &'a [u8]) -> Result<(Head<'a>, &'a [u8]), ReadError>
        requires { IsReady 2 self.now bytes.now }
        ensures { ReadsHead Form.Cancel self.now bytes.now result }
    {
        let (fiber, rest) = name(&self.names, self.place, NameKind::Fiber, bytes)?;
        Ok((Head::Leaf(Node::Cancel(fiber)), rest))
    }

    pub(super) fn first_head(&self, bytes: &'a [u8]) -> Result<(Head<'a>, &'a [u8]), ReadError>
        requires { IsReady 2 self.now bytes.now }
        ensures { ReadsHead Form.First self.now bytes.now result }
    {
        let (left, rest) = name(&self.names, self.place, NameKind::Fiber, bytes)?;
        let (right, rest) = name(&self.names, self.place, NameKind::Fiber, rest)?;
        Ok((Head::Leaf(Node::First(left, right)), rest))
    }

    #[tactic(auto, using(crate::proofs::ScopeLaws::slot_at))]
    pub(super) fn join_head(&self, bytes: &'a [u8]) -> Result<(Head<'a>, &'a [u8]), ReadError>
        requires { IsReady 2 self.now bytes.now }
        ensures { ReadsHead Form.Join self.now bytes.now result }
    {
        let (fiber, rest) = name(&self.names, self.place, NameKind::Fiber, bytes)?;
        let slot = self.names.len() as u32;
        let then = Then::Three(Inner::Outcome, Inner::Same, Triple::Join(fiber, slot));
        Ok((Head::Part(Inner::Outcome, then), rest))
    }
}
