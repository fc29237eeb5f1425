//! The line for a text that is refused.
ghost use Rattle.std.specs.Prelude.{◌≡◌, IfOk, string_bytes};
ghost use Rattle.fx_report.specs.Refusal.{refusal_text};

use fx_text::TextFault;
use std::alloc::{AllocError, Global};

/// The line for a text that is refused with this fault: its kind by number, and the byte.
pub fn format_refusal(alloc: Global, fault: TextFault) -> Result<String, AllocError>
    ensures { IfOk result (λ text. string_bytes text ≡ refusal_text fault) }
{
    let kind = fault.number();
    let at = fault.at;
    format!(in alloc; "refused {kind} at {at}\n")
}
