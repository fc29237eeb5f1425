//! The words that the program is called with.

use std::alloc::AllocError;
use std::env::{Env, FillError};

/// The bytes that there is room for at first. There are twice as many after each word that needs more.
const ROOM: usize = 256;

/// The text of a word. Where the bytes are no UTF-8, each that is no ASCII becomes a NUL, which stands in
/// no word of a call, and in no name of a file. So it is none of the program's words, and as a name it
/// names no file.
fn text_of(rt: &HostRuntime, bytes: &[u8]) -> Result<String, AllocError> {
    if let Ok(text) = str::from_utf8(bytes) {
        return String::from_str(rt.alloc(), text);
    }
    let mut text = String::new(rt.alloc());
    for byte in bytes {
        text.push(if byte.is_ascii() {
            char::from(*byte)
        } else {
            '\0'
        })?;
    }
    Ok(text)
}

/// The word at this place, 0 being the program's name, if there are so many.
fn word(rt: &HostRuntime, place: usize) -> Result<Option<String>, AllocError> {
    let mut room = ROOM;
    let mut bytes = Vec::new(rt.alloc());
    for _ in 0..usize::BITS {
        bytes.resize(room, 0u8)?;
        match rt.arg(place, bytes.as_mut_slice()) {
            Ok(len) => {
                bytes.truncate(len);
                return Ok(Some(text_of(rt, &bytes)?));
            }
            Err(FillError::NotPresent) => return Ok(None),
            Err(FillError::TooLong) => room = room.saturating_mul(2),
        }
    }
    Err(AllocError)
}

/// The words after the program's name.
pub(crate) fn words(rt: &HostRuntime) -> Result<Vec<String>, AllocError> {
    let mut words = Vec::new(rt.alloc());
    for place in 1..usize::MAX {
        let Some(word) = word(rt, place)? else {
            break;
        };
        words.push(word)?;
    }
    Ok(words)
}
