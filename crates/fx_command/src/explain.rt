//! Says in words why a text is refused, and shows the place.
ghost use Rattle.std.specs.Prelude.{◌≤◌, length};

use crate::excerpt::format_excerpt;
use crate::position::Position;
use crate::printable::push_printable;
use std::alloc::{AllocError, Global};

/// How many bytes of a word stand at the front.
pub(crate) fn word_len(bytes: &[u8]) -> usize
    ensures { result ≤ length bytes.now }
{
    bytes
        .iter()
        .take_while(|b| b.is_ascii_lowercase() || b.is_ascii_digit())
        .count()
}

/// The word at the place, or the one byte that stands there; nothing at the end of the text.
pub(crate) fn token_at(text: &[u8], at: usize) -> &[u8] {
    let rest = &text[at.min(text.len())..];
    let len = word_len(rest).max(1);
    &rest[..len.min(rest.len())]
}

fn is_of_a_name(byte: u8) -> bool {
    byte.is_ascii_alphanumeric() || byte == b'_'
}

/// The name that stands round the place, as other languages write one, with capitals and `_`.
pub(crate) fn name_round(text: &[u8], at: usize) -> &[u8] {
    let (before, after) = text.split_at(at.min(text.len()));
    let begin = match before.iter().rposition(|b| !is_of_a_name(*b)) {
        Some(end) => end + 1,
        None => 0,
    };
    let len = after
        .iter()
        .position(|b| !is_of_a_name(*b))
        .unwrap_or(after.len());
    if len == 0 {
        return &[];
    }
    &text[begin..before.len() + len]
}

/// The lines that say where the text of this name is refused, and what is wrong there, and show the
/// place.
pub(crate) fn explain(
    alloc: Global,
    name: &str,
    text: &[u8],
    at: u32,
    wrong: &str,
) -> Result<String, AllocError> {
    let at = (at as usize).min(text.len());
    let Position { line, column } = Position::after(&text[..at]);
    let excerpt = format_excerpt(alloc, text, at)?;
    let mut words = String::new(alloc);
    push_printable(&mut words, name.as_bytes())?;
    words.push_str(&format!(in alloc; ":{line}:{column}: {wrong}\n{excerpt}")?)?;
    Ok(words)
}
