//! Bytes of a text, or of a name, as they are shown to people.
ghost use Rattle.std.specs.Prelude.{◌≡◌, ◌<◌, ◌++◌, OnOk, string_bytes};
ghost use Rattle.fx_command.specs.Printable.{is_printable, shown_byte, printable};

use std::alloc::{AllocError, Global};

/// The bytes that a byte order mark is.
const BYTE_ORDER_MARK: &[u8] = b"\xEF\xBB\xBF";

/// The most bytes of a token that are shown.
const WHOLE: usize = 40;

fn is_printable(byte: u8) -> bool
    ensures { result ≡ is_printable byte }
{
    b' ' <= byte && byte <= b'~'
}

/// The byte, or `?` where it is no printable ASCII.
fn shown_byte(byte: u8) -> char
    ensures value { result ≡ shown_byte byte }
    ensures ascii { result < 128 }
{
    if is_printable(byte) {
        char::from(byte)
    } else {
        '?'
    }
}

/// Appends the bytes, with `?` for each that is no printable ASCII.
pub(crate) fn push_printable(shown: &mut String, bytes: &[u8]) -> Result<(), AllocError>
    ensures { OnOk result (string_bytes shown.new ≡ string_bytes shown.old ++ printable bytes.now) }
{
    let mut rest = bytes;
    while let [byte, more @ ..] = rest {
        shown.push(shown_byte(*byte))?;
        rest = more;
    }
    Ok(())
}

/// The token in quotes, cut where it is long.
pub(crate) fn quoted(alloc: Global, token: &[u8]) -> Result<String, AllocError> {
    let mut shown = String::from_str(alloc, "`")?;
    push_printable(&mut shown, &token[..token.len().min(WHOLE)])?;
    if token.len() > WHOLE {
        shown.push_str("..")?;
    }
    shown.push('`')?;
    Ok(shown)
}

/// The digit of base 16.
fn digit(value: u8) -> char {
    match value {
        0..=9 => char::from(b'0' + value),
        10..=15 => char::from(b'A' + (value - 10)),
        _ => '?',
    }
}

/// The byte in base 16.
fn in_base_16(alloc: Global, byte: u8) -> Result<String, AllocError> {
    let mut shown = String::from_str(alloc, "0x")?;
    shown.push(digit(byte / 16))?;
    shown.push(digit(byte % 16))?;
    Ok(shown)
}

/// The byte that these begin with, in quotes, or in base 16 where it is no printable ASCII.
pub(crate) fn quoted_byte(alloc: Global, bytes: &[u8]) -> Result<String, AllocError> {
    let Some(byte) = bytes.first() else {
        return quoted(alloc, bytes);
    };
    if is_printable(*byte) {
        return quoted(alloc, &bytes[..1]);
    }
    let mut shown = in_base_16(alloc, *byte)?;
    if bytes.starts_with(BYTE_ORDER_MARK) {
        shown.push_str(" of a byte order mark")?;
    }
    Ok(shown)
}
