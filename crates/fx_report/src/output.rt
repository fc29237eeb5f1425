//! Writes a text.
ghost use Rattle.std.specs.Prelude.{◌≡◌, OnOk, IfErr};
ghost use Rattle.std.specs.Io.KnownBytes.{Appends};
ghost use Rattle.fx_report.specs.declared.out_fault.OutFault.TheVariants.{Write};
ghost use Rattle.fx_report.specs.Output.{FailsToWrite};

use crate::out_fault::OutFault;
use std::io::Write;

/// Writes the text whole. A write that answers an error, or takes no byte, ends it.
pub fn write_text<W: Write>(writer: &mut W, text: &[u8]) -> Result<(), OutFault>
    ensures whole { OnOk result (Appends (W.contents writer.old) (W.contents writer.new) text.now) }
    ensures part { IfErr result
        (λ fault. FailsToWrite fault text.now (W.contents writer.old) (W.contents writer.new)) }
    ensures fault { IfErr result (λ fault. fault ≡ OutFault.Write) }
{
    let mut at = 0;
    while at < text.len() {
        match writer.write(&text[at..]) {
            Err(_) | Ok(0) => return Err(OutFault::Write),
            Ok(n) => at += n,
        }
    }
    Ok(())
}
