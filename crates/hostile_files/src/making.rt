//! A hostile file.

use crate::drawn::Drawn;
use std::alloc::{AllocError, Global};

/// A file made from one of the first `own` files: changed anywhere, changed in its first `head` bytes, cut, or joined
/// to another one.
pub fn hostile(
    alloc: Global,
    drawn: &mut Drawn,
    files: &[Vec<u8>],
    own: usize,
    head: usize,
) -> Result<Vec<u8>, AllocError> {
    let file = at(files, drawn.below(own));
    match drawn.below(8) {
        0..=3 => changed(alloc, drawn, file, file.len()),
        4..=5 => changed(alloc, drawn, file, head),
        6 => {
            let end = drawn.below(file.len().saturating_add(1));
            up_to(file, end).to_vec(alloc)
        }
        _ => joined(alloc, drawn, file, files),
    }
}

/// A file with one to four bytes written over, each among its first ones.
fn changed(
    alloc: Global,
    drawn: &mut Drawn,
    file: &[u8],
    first: usize,
) -> Result<Vec<u8>, AllocError> {
    let mut bytes = file.to_vec(alloc)?;
    let times = drawn.below(4).saturating_add(1);
    for _ in 0..times {
        let place = drawn.below(first.min(file.len()));
        let value = u8::try_from(drawn.below(256)).unwrap_or(0);
        if let Some(byte) = bytes.get_mut(place) {
            *byte = value;
        }
    }
    Ok(bytes)
}

/// The first bytes of a file, and behind them the last ones of another.
fn joined(
    alloc: Global,
    drawn: &mut Drawn,
    file: &[u8],
    files: &[Vec<u8>],
) -> Result<Vec<u8>, AllocError> {
    let other = at(files, drawn.below(files.len()));
    let end = drawn.below(file.len().saturating_add(1));
    let begin = drawn.below(other.len().saturating_add(1));
    let mut bytes = up_to(file, end).to_vec(alloc)?;
    bytes.extend_from_slice(other.get(begin..).unwrap_or(&[]))?;
    Ok(bytes)
}

/// The file at a place; no bytes where there is none.
pub fn at(files: &[Vec<u8>], place: usize) -> &[u8] {
    match files.get(place) {
        Some(file) => file.as_slice(),
        None => &[],
    }
}

/// The first bytes of a file.
fn up_to(file: &[u8], end: usize) -> &[u8] {
    file.get(..end).unwrap_or(file)
}
