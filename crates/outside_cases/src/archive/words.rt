//! Words of a line, and answers.
use flow_types::{Memory, Name};
use std::alloc::{AllocError, Global};

/// The first word of a line, and what stands behind its blank.
pub fn first(line: &str) -> (&str, &str) {
    match line.split_once(' ') {
        Some(words) => words,
        None => (line, ""),
    }
}

/// The number that a word is, 0 where it is none.
pub fn number(word: &str) -> u64 {
    word.parse::<u64>().unwrap_or(0)
}

/// The name that a word is.
pub fn name_of(alloc: Global, word: &str) -> Result<Name, AllocError> {
    Name::of(alloc, word.as_bytes()).map_err(|_| AllocError)
}

/// Whether a call that wants only memory was done.
pub fn noted(answer: Result<(), Memory>) -> Result<(), AllocError> {
    answer.map_err(|_| AllocError)
}
