//! The line of a text that has a byte, with a mark under it.

use crate::printable::push_printable;
use std::alloc::{AllocError, Global};

/// The most bytes of a line that is shown whole.
const WHOLE: usize = 78;

/// The bytes that are shown before a place in a longer line, and after it.
const SIDE: usize = 38;

/// What stands for the bytes of a line that are not shown.
const CUT: &str = "..";

/// The bytes before the place, back to its line's beginning, and those from it on, to its line's end.
fn line_round(text: &[u8], at: usize) -> (&[u8], &[u8]) {
    let (before, after) = text.split_at(at.min(text.len()));
    let begin = match before.iter().rposition(|b| *b == b'\n') {
        Some(end) => end + 1,
        None => 0,
    };
    let end = after
        .iter()
        .position(|b| *b == b'\n')
        .unwrap_or(after.len());
    (&before[begin..], &after[..end])
}

/// What is shown of a line: some bytes before the place and from it on, and whether these are all.
#[derive(Clone, Copy)]
struct Shown<'a> {
    before: &'a [u8],
    after: &'a [u8],
    has_all_before: bool,
    has_all_after: bool,
}

impl Shown<'_> {
    /// What is shown of the line that has the place.
    fn round(text: &[u8], at: usize) -> Shown<'_> {
        let (before, after) = line_round(text, at);
        let is_whole = before.len().saturating_add(after.len()) <= WHOLE;
        let first = if is_whole {
            0
        } else {
            before.len().saturating_sub(SIDE)
        };
        let end = if is_whole {
            after.len()
        } else {
            after.len().min(SIDE + 1)
        };
        Shown {
            before: &before[first..],
            after: &after[..end],
            has_all_before: first == 0,
            has_all_after: end == after.len(),
        }
    }

    /// Appends the bytes, with dots where the line goes on.
    fn push_line(&self, shown: &mut String) -> Result<(), AllocError> {
        if !self.has_all_before {
            shown.push_str(CUT)?;
        }
        push_printable(shown, self.before)?;
        push_printable(shown, self.after)?;
        if !self.has_all_after {
            shown.push_str(CUT)?;
        }
        shown.push('\n')
    }

    /// Appends a line with a mark under the place.
    fn push_mark(&self, shown: &mut String) -> Result<(), AllocError> {
        if !self.has_all_before {
            shown.push_str("  ")?;
        }
        for _ in self.before {
            shown.push(' ')?;
        }
        shown.push_str("^\n")
    }
}

/// The line that has the place, cut round it where it is long, and a line with a mark under it.
pub(crate) fn format_excerpt(alloc: Global, text: &[u8], at: usize) -> Result<String, AllocError> {
    let round = Shown::round(text, at);
    let mut shown = String::new(alloc);
    round.push_line(&mut shown)?;
    round.push_mark(&mut shown)?;
    Ok(shown)
}
