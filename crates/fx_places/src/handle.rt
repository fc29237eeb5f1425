//! The names of fibers in a text.
ghost use Rattle.std.specs.Prelude.{◌≡◌, ◌+◌, ◌<◌, ◌^◌, length, option_map, string_bytes};
ghost use Rattle.std.specs.Str.{IsUtf8};
ghost use Rattle.fx_text.specs.Token.{after_spaces, word, after_word};
ghost use Rattle.fx_places.specs.Handle.{behind, second_word, handle_of};

use crate::form::Form;
use crate::place::FormPlace;
use crate::position::{START, past};
use crate::word::{after_spaces, word_len};
use fx_text::Position;
use std::str;

/// What stands behind the byte at that position; nothing where there is none.
fn behind(text: &[u8], position: Position) -> &[u8]
    requires { length text.now + 2 < 2 ^ 32 }
    ensures { result.now ≡ behind text.now position }
{
    let mut here = START;
    let mut rest = text;
    while let Some((byte, inside)) = rest.split_first() {
        if here.line == position.line && here.column == position.column {
            return inside;
        }
        here = past(here, *byte);
        rest = inside;
    }
    rest
}

/// The word at the front, and what stands after it.
fn first_word(bytes: &[u8]) -> (&[u8], &[u8])
    ensures word { result.0.now ≡ word bytes.now }
    ensures rest { result.1.now ≡ after_word bytes.now }
{
    bytes.split_at(word_len(bytes))
}

/// A word as text, which it is, as it has letters and digits alone.
fn text_of(word: &[u8]) -> &str
    requires { IsUtf8 word.now }
    ensures { result.now ≡ word.now }
{
    match str::from_utf8(word) {
        Ok(text) => text,
        Err(_) => unreachable!(),
    }
}

/// The second word of a form that has these bytes behind its `(`.
fn second_word(inside: &[u8]) -> &str
    ensures { result.now ≡ second_word inside.now }
{
    let (_, rest) = first_word(after_spaces(inside));
    let (word, _) = first_word(after_spaces(rest));
    text_of(word)
}

/// The name that the form of this place gives the fiber that it starts, if it is a `start`.
pub fn handle_of(text: &[u8], place: FormPlace) -> Option<&str>
    requires { length text.now + 2 < 2 ^ 32 }
    ensures { option_map (λ name. name.now) result ≡ handle_of text.now place }
{
    match place.form {
        Form::Start => Some(second_word(behind(text, place.position))),
        _ => None,
    }
}
