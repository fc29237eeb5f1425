//! Reads the forms that put into queues and take out of them.
ghost use Rattle.fx_text.specs.Head.{ReadsHead};
ghost use Rattle.fx_text.specs.ReaderState.{IsReady};

use crate::fault::ReadError;
use crate::form::Form;
use crate::part::{binder, queue, value};
use crate::reader::Reader;
use crate::reader::head::{Double, Head, Inner, Then};
use fx_term::{NameKind, Node};

impl<'a> Reader<'a> {
    pub(super) fn offer_head(&self, bytes: &'a [u8]) -> Result<(Head<'a>, &'a [u8]), ReadError>
        requires { IsReady 2 self.now bytes.now }
        ensures { ReadsHead Form.Offer self.now bytes.now result }
    {
        let (queue, rest) = queue(self.place, bytes)?;
        let (v, rest) = value(&self.names, self.place, rest)?;
        Ok((Head::Leaf(Node::Offer(queue, v)), rest))
    }

    pub(super) fn take_head(&self, bytes: &'a [u8]) -> Result<(Head<'a>, &'a [u8]), ReadError>
        requires { IsReady 2 self.now bytes.now }
        ensures { ReadsHead Form.Take self.now bytes.now result }
    {
        let (queue, rest) = queue(self.place, bytes)?;
        Ok((Head::Leaf(Node::Take(queue)), rest))
    }

    pub(super) fn try_offer_head(&self, bytes: &'a [u8]) -> Result<(Head<'a>, &'a [u8]), ReadError>
        requires { IsReady 2 self.now bytes.now }
        ensures { ReadsHead Form.TryOffer self.now bytes.now result }
    {
        let (queue, rest) = queue(self.place, bytes)?;
        let (v, rest) = value(&self.names, self.place, rest)?;
        Ok((Head::Leaf(Node::TryOffer(queue, v)), rest))
    }

    #[tactic(auto, using(crate::proofs::ScopeLaws::slot_at))]
    pub(super) fn try_take_head(&self, bytes: &'a [u8]) -> Result<(Head<'a>, &'a [u8]), ReadError>
        requires { IsReady 2 self.now bytes.now }
        ensures { ReadsHead Form.TryTake self.now bytes.now result }
    {
        let (queue, rest) = queue(self.place, bytes)?;
        let (x, rest) = binder(&self.names, self.place, rest)?;
        let slot = self.names.len() as u32;
        let taken = Inner::Name(NameKind::Value, x);
        let then = Then::Two(Inner::Same, Double::TryTake(queue, slot));
        Ok((Head::Part(taken, then), rest))
    }
}
