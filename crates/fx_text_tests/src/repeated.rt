//! Long texts.
use std::alloc::{AllocError, Global};

/// So many times this piece, between two others.
pub(crate) fn repeated(
    alloc: Global,
    before: &[u8],
    piece: &[u8],
    times: usize,
    after: &[u8],
) -> Result<Vec<u8>, AllocError> {
    let mut text = Vec::new(alloc);
    text.extend_from_slice(before)?;
    for _ in 0..times {
        text.extend_from_slice(piece)?;
    }
    text.extend_from_slice(after)?;
    Ok(text)
}
