//! Says in words what is wrong in a schedule.

use crate::explain::token_at;
use crate::printable::{quoted, quoted_byte};
use fx_text::{TextFault, TextKind};
use std::alloc::{AllocError, Global};

/// What is wrong with a byte that no word has.
fn strange_byte(alloc: Global, text: &[u8], at: usize) -> Result<String, AllocError> {
    let byte = quoted_byte(alloc, &text[at.min(text.len())..])?;
    format!(in alloc; "no word of a schedule has the byte {byte}")
}

/// What is wrong, in a sentence without its end.
pub(crate) fn wrong_in_schedule(
    alloc: Global,
    text: &[u8],
    fault: TextFault,
) -> Result<String, AllocError> {
    let shown = quoted(alloc, token_at(text, fault.at as usize))?;
    match fault.kind {
        TextKind::Length => format!(in alloc;
            "the text goes on here; at most 2097152 bytes of a schedule are read"
        ),
        TextKind::Byte => strange_byte(alloc, text, fault.at as usize),
        TextKind::Number => format!(in alloc; "the number in {shown} is above 4294967295"),
        TextKind::Unwanted => format!(in alloc;
            "{shown} is no pick: a step of a fiber is its number, a request `c` and its number"
        ),
        TextKind::Size => format!(in alloc;
            "{shown} is word 100001; a schedule has at most 100000"
        ),
        // a schedule has no fault of another kind
        kind => format!(in alloc; "{kind}"),
    }
}
