//! The standard streams that the program writes to.
ghost use Rattle.std.specs.Prelude.{◌≡◌, ◌<◌, ◌≤◌, OnOk, OnErr, IfOk, length, take, false, true};
ghost use Rattle.std.specs.Io.KnownBytes.{Appends, Keeps};
ghost use Rattle.fx_command.specs.Stream.{TakesWhole, TakesPart};

use std::io::Write;
use std::marker::Model;
use std::snapshot::Snapshot;

/// A write was refused, so the text was cut short.
#[derive(Clone, Copy, PartialEq, Eq, Debug)]
pub(crate) struct CutShort;

/// A standard stream: a writer, of which proofs know whether it has refused a write. It refuses one by
/// an error, or by taking no byte; nothing else is told as a refusal. So a contract can tell a text that
/// was cut short from one that nobody wrote.
#[derive(Drop)]
pub struct Stream<W: Write> {
    writer: W,
    has_refused: Snapshot<bool>,
}

impl<W: Write> Model for Stream<W> {
    ghost use Rattle.fx_command.specs.Stream.{StreamView};

    ghost Value = { StreamView };

    ghost view = { λ s. record {
      written = W.contents s.writer;
      has_refused = s.has_refused.value;
    } };
}

impl<W: Write> Stream<W> {
    /// The stream of this writer, which has refused nothing.
    pub fn new(writer: W) -> Stream<W>
        ensures { result ≡ record { written = W.contents writer; has_refused = false } }
    {
        Stream {
            writer,
            has_refused: Snapshot::of(&false),
        }
    }

    /// Its writer, with all that it has taken.
    pub fn into_writer(self) -> W
        ensures { W.contents result ≡ self.written }
    {
        self.writer
    }

    /// Hands these bytes to the writer, which takes some of them, or refuses.
    fn hand(&mut self, bytes: &[u8]) -> Result<usize, CutShort>
        requires { 0 < length bytes.now }
        ensures some { IfOk result (λ n. 0 < n) }
        ensures within { IfOk result (λ n. n ≤ length bytes.now) }
        ensures taken { IfOk result (λ n. Appends self.old.written self.new.written (take n bytes.now)) }
        ensures none_refused { OnOk result (self.new.has_refused ≡ self.old.has_refused) }
        ensures kept { OnErr result (Keeps self.old.written self.new.written) }
        ensures refused { OnErr result (self.new.has_refused ≡ true) }
    {
        match self.writer.write(bytes) {
            Err(_) | Ok(0) => {
                self.has_refused = Snapshot::of(&true);
                Err(CutShort)
            }
            Ok(n) => Ok(n),
        }
    }

    /// Writes the text, up to the first write that is refused.
    pub(crate) fn write(&mut self, text: &str) -> Result<(), CutShort>
        ensures whole { OnOk result (TakesWhole text.now self.old self.new) }
        ensures part { OnErr result (TakesPart text.now self.old self.new) }
    {
        let bytes = text.as_bytes();
        let mut at = 0;
        while at < bytes.len() {
            at += self.hand(&bytes[at..])?;
        }
        Ok(())
    }
}
