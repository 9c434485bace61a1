//! Words of a call, and what is answered.
use hex::FromHexError;
use std::alloc::{AllocError, Global};

// No exact number of bytes that wait is expected above this one.
const MOST_SHOWN: u64 = 999;

/// The first word of a line, and what stands behind its blank.
pub fn first(line: &str) -> (&str, &str) {
    match line.split_once(' ') {
        Some(words) => words,
        None => (line, ""),
    }
}

/// The number that a word is, and else 0.
pub fn number_of(word: &str) -> u64 {
    word.parse::<u64>().unwrap_or(0)
}

/// Whether it is so.
pub fn yes_or_no(holds: bool) -> &'static str {
    if holds { "yes" } else { "no" }
}

/// A text as an answer.
pub fn said(alloc: Global, text: &str) -> Result<String, AllocError> {
    String::from_str(alloc, text)
}

/// A number as an answer.
pub fn counted(alloc: Global, number: u64) -> Result<String, AllocError> {
    format!(in alloc; "{number}")
}

/// A number of bytes as an answer, which is `many` where each run has another.
pub fn measured(alloc: Global, bytes: u64) -> Result<String, AllocError> {
    if bytes > MOST_SHOWN {
        return said(alloc, "many");
    }
    counted(alloc, bytes)
}

/// Bytes as an answer, in hex.
pub fn spelled(alloc: Global, bytes: &[u8]) -> Result<String, AllocError> {
    if bytes.is_empty() {
        return said(alloc, "-");
    }
    hex::encode(alloc, bytes)
}

/// The bytes that a text spells, with blanks where they help; none where it spells none.
pub fn bytes_of(alloc: Global, text: &str) -> Result<Vec<u8>, AllocError> {
    let mut digits = String::new(alloc);
    for part in text.split_whitespace() {
        digits.push_str(part)?;
    }
    match hex::decode(alloc, digits.as_str()) {
        Ok(bytes) => Ok(bytes),
        Err(FromHexError::OutOfMemory) => Err(AllocError),
        Err(_) => Ok(Vec::new(alloc)),
    }
}
