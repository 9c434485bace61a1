//! Words of a call, and bytes in hex.
use hex::FromHexError;
use std::alloc::{AllocError, Global};

/// The first word of a line, and what stands behind its blank.
pub fn first(line: &str) -> (&str, &str) {
    match line.split_once(' ') {
        Some(words) => words,
        None => (line, ""),
    }
}

/// The same of bytes.
pub fn first_of(line: &[u8]) -> (&[u8], &[u8]) {
    let at = line
        .iter()
        .position(|byte| *byte == b' ')
        .unwrap_or(line.len());
    match line.split_at_checked(at) {
        Some((word, rest)) => (word, rest.strip_prefix(b" ").unwrap_or(rest)),
        None => (line, &[]),
    }
}

/// A text as an answer.
pub fn said(alloc: Global, text: &str) -> Result<String, AllocError> {
    String::from_str(alloc, text)
}

/// The bytes that hex digits spell, none where they spell none.
pub fn unspelled(alloc: Global, digits: &str) -> Result<Vec<u8>, AllocError> {
    match hex::decode(alloc, digits) {
        Ok(bytes) => Ok(bytes),
        Err(FromHexError::OutOfMemory) => Err(AllocError),
        Err(_) => Ok(Vec::new(alloc)),
    }
}
