//! Reads choices and loops.
ghost use Rattle.fx_text.specs.Head.{ReadsHead};
ghost use Rattle.fx_text.specs.ReaderState.{IsReady};

use crate::fault::ReadError;
use crate::form::Form;
use crate::part::{binder, count, value};
use crate::reader::Reader;
use crate::reader::head::{Double, Head, Inner, Single, Then};

impl<'a> Reader<'a> {
    pub(super) fn if_head(&self, bytes: &'a [u8]) -> Result<(Head<'a>, &'a [u8]), ReadError>
        requires { IsReady 2 self.now bytes.now }
        ensures { ReadsHead Form.If self.now bytes.now result }
    {
        let (v, rest) = value(&self.names, self.place, bytes)?;
        let then = Then::Two(Inner::Same, Double::If(v));
        Ok((Head::Part(Inner::Same, then), rest))
    }

    #[tactic(auto, using(crate::proofs::ScopeLaws::slot_at))]
    pub(super) fn for_head(&self, bytes: &'a [u8]) -> Result<(Head<'a>, &'a [u8]), ReadError>
        requires { IsReady 2 self.now bytes.now }
        ensures { ReadsHead Form.For self.now bytes.now result }
    {
        let (i, rest) = binder(&self.names, self.place, bytes)?;
        let slot = self.names.len() as u32;
        let (n, rest) = count(self.place, rest)?;
        let then = Then::One(Single::For(slot, n));
        Ok((Head::Part(Inner::Loop(n, i), then), rest))
    }
}
