//! Reads a text, and no more of it than is wanted.
ghost use Rattle.std.specs.Prelude.{◌≡◌, ◌≢◌, ◌≤◌, ◌<◌, IfOk, IfErr};
ghost use Rattle.std.specs.Io.KnownBytes.{Keeps};
ghost use Rattle.fx_report.specs.declared.answer_fault.AnswerFault.TheVariants.{Read, Write};
ghost use Rattle.fx_report.specs.Input.{TakesPiece, TakesPrefix, TakesAtMost, FailsToRead};

use crate::answer_fault::AnswerFault;
use fx_text::MOST_SCRIPT_BYTES;
use std::alloc::Global;
use std::io::Read;

/// One byte more than a script may have, so that a text that is too long is known to be.
pub const MOST_OF_SCRIPT: usize = MOST_SCRIPT_BYTES + 1;

const PIECE: usize = 4096;

/// Reads one piece of the text, of at most `room` bytes, and appends it. An empty one is the end.
fn read_piece<R: Read>(
    reader: &mut R,
    text: &mut Vec<u8>,
    room: usize,
) -> Result<usize, AnswerFault>
    requires { 0 < room }
    ensures count { IfOk result (λ n. n ≤ room) }
    ensures piece { IfOk result (λ n. TakesPiece
        (R.remaining reader.old) (R.remaining reader.new) text.old.items text.new.items n) }
    ensures kept { IfErr result
        (λ fault. fault ≡ Read → Keeps (R.remaining reader.old) (R.remaining reader.new)) }
    ensures most { IfErr result
        (λ fault. TakesAtMost room (R.remaining reader.old) (R.remaining reader.new)) }
    ensures fault { IfErr result (λ fault. fault ≢ Write) }
{
    let mut piece = [0u8; PIECE];
    let wanted = room.min(PIECE);
    match reader.read(&mut piece[..wanted]) {
        Err(_) => Err(AnswerFault::Read),
        Ok(n) => {
            text.extend_from_slice(&piece[..n])?;
            Ok(n)
        }
    }
}

/// The text that the reader has left: all of it, or its first `most` bytes where it has more. A fault
/// is `Read` or `Memory`.
pub fn read_text<R: Read>(
    alloc: Global,
    reader: &mut R,
    most: usize,
) -> Result<Vec<u8>, AnswerFault>
    ensures text { IfOk result
        (λ text. TakesPrefix most (R.remaining reader.old) (R.remaining reader.new) text.items) }
    ensures fault { IfErr result
        (λ fault. FailsToRead most fault (R.remaining reader.old) (R.remaining reader.new)) }
{
    let mut text = Vec::new(alloc);
    while text.len() < most {
        let room = most - text.len();
        if read_piece(reader, &mut text, room)? == 0 {
            break;
        }
    }
    Ok(text)
}
