//! Reads masks and polls.
ghost use Rattle.fx_text.specs.Head.{ReadsHead};
ghost use Rattle.fx_text.specs.ReaderState.{IsReady};

use crate::fault::ReadError;
use crate::form::Form;
use crate::part::{binder, name};
use crate::reader::Reader;
use crate::reader::head::{Head, Inner, Single, Then};
use fx_term::NameKind;

impl<'a> Reader<'a> {
    #[tactic(auto, using(crate::proofs::ScopeLaws::slot_at))]
    pub(super) fn mask_head(&self, bytes: &'a [u8]) -> Result<(Head<'a>, &'a [u8]), ReadError>
        requires { IsReady 2 self.now bytes.now }
        ensures { ReadsHead Form.Mask self.now bytes.now result }
    {
        let (p, rest) = binder(&self.names, self.place, bytes)?;
        let slot = self.names.len() as u32;
        let then = Then::One(Single::Mask(slot));
        Ok((Head::Part(Inner::Name(NameKind::Poll, p), then), rest))
    }

    pub(super) fn poll_head(&self, bytes: &'a [u8]) -> Result<(Head<'a>, &'a [u8]), ReadError>
        requires { IsReady 2 self.now bytes.now }
        ensures { ReadsHead Form.Poll self.now bytes.now result }
    {
        let (slot, rest) = name(&self.names, self.place, NameKind::Poll, bytes)?;
        Ok((Head::Part(Inner::Same, Then::One(Single::Poll(slot))), rest))
    }
}
