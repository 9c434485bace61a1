//! The words of a line, and plain answers.
use flow_types::Amounts;
use std::alloc::{AllocError, Global};
use std::fmt::Debug;

/// The first word of a line, and what stands behind its blank.
pub fn first(line: &str) -> (&str, &str) {
    match line.split_once(' ') {
        Some(words) => words,
        None => (line, ""),
    }
}

/// The number that a word is.
pub fn number(word: &str) -> Option<u64> {
    word.parse::<u64>().ok()
}

/// The number of up to 32 bits that a word is.
pub fn small(word: &str) -> Option<u32> {
    word.parse::<u32>().ok()
}

/// The amounts of a place with so many cores, and 4,096 megabytes of memory and of disk.
pub fn place(cores: u32) -> Amounts {
    Amounts {
        cores,
        memory: 4096,
        disk: 4096,
    }
}

/// A text as an answer.
pub fn said(alloc: Global, text: &str) -> Result<String, AllocError> {
    String::from_str(alloc, text)
}

/// Whether something is so.
pub fn whether(alloc: Global, so: bool) -> Result<String, AllocError> {
    said(alloc, if so { "yes" } else { "no" })
}

/// A value as it stands in Rust.
pub fn told<T: Debug>(alloc: Global, value: &T) -> Result<String, AllocError> {
    format!(in alloc; "{value:?}")
}
