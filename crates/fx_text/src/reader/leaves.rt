//! Reads the forms that have no term in them.
ghost use Rattle.fx_text.specs.Head.{ReadsHead};
ghost use Rattle.fx_text.specs.ReaderState.{IsReady};

use crate::fault::ReadError;
use crate::form::Form;
use crate::part::value;
use crate::reader::Reader;
use crate::reader::head::Head;
use fx_term::Node;

impl<'a> Reader<'a> {
    pub(super) fn pure_head(&self, bytes: &'a [u8]) -> Result<(Head<'a>, &'a [u8]), ReadError>
        requires { IsReady 2 self.now bytes.now }
        ensures { ReadsHead Form.Pure self.now bytes.now result }
    {
        let (v, rest) = value(&self.names, self.place, bytes)?;
        Ok((Head::Leaf(Node::Pure(v)), rest))
    }

    pub(super) fn raise_head(&self, bytes: &'a [u8]) -> Result<(Head<'a>, &'a [u8]), ReadError>
        requires { IsReady 2 self.now bytes.now }
        ensures { ReadsHead Form.Raise self.now bytes.now result }
    {
        let (v, rest) = value(&self.names, self.place, bytes)?;
        Ok((Head::Leaf(Node::Raise(v)), rest))
    }
}
