//! Bytes that come in pieces of a length.

use crate::case::Case;
use dav_script::RowFault;
use std::alloc::Global;

/// The bytes in pieces of a length, the last maybe shorter.
pub fn pieces_of(alloc: Global, bytes: &[u8], length: usize) -> Result<Vec<&[u8]>, RowFault> {
    let mut pieces = Vec::new(alloc);
    for piece in bytes.chunks(length.max(1)) {
        pieces.push(piece)?;
    }
    Ok(pieces)
}

/// The lengths of pieces in which the bytes of a case come beside the two pieces of each cut: those that the setting `pieces`
/// names, else 1.
pub fn lengths_of(alloc: Global, case: &Case<'_>) -> Result<Vec<usize>, RowFault> {
    let mut lengths = Vec::new(alloc);
    let Some(entry) = case.setting("pieces") else {
        lengths.push(1)?;
        return Ok(lengths);
    };
    for word in entry.text()?.split(' ') {
        match word.parse::<usize>() {
            Ok(length) => lengths.push(length)?,
            Err(_) => return Err(entry.bad_value()),
        }
    }
    Ok(lengths)
}
