//! Words of a call, and what is answered.
use flow_types::{Memory, Name};
use outside::Fault;
use std::alloc::{AllocError, Global};

/// The first word of a line, and what stands behind its blank.
pub fn first(line: &str) -> (&str, &str) {
    match line.split_once(' ') {
        Some(words) => words,
        None => (line, ""),
    }
}

/// The number that a word is.
pub fn number(word: &str) -> Option<u64> {
    word.parse::<u64>().ok()
}

/// The bytes of a word.
pub fn bytes_of(word: &str) -> &[u8] {
    if word == "''" {
        return "".as_bytes();
    }
    word.as_bytes()
}

/// The name that a word is.
pub fn name_of(alloc: Global, word: &str) -> Result<Name, AllocError> {
    Name::of(alloc, word.as_bytes()).map_err(|_| AllocError)
}

/// A text as an answer.
pub fn said(alloc: Global, text: &str) -> Result<String, AllocError> {
    String::from_str(alloc, text)
}

/// Whether a call was done.
pub fn done(alloc: Global, answer: Result<(), Fault>) -> Result<String, AllocError> {
    match answer {
        Ok(()) => said(alloc, "done"),
        Err(Fault::Failed) => said(alloc, "failed"),
        Err(Fault::Memory) => Err(AllocError),
    }
}

/// Whether a call that wants only memory was done.
pub fn noted(alloc: Global, answer: Result<(), Memory>) -> Result<String, AllocError> {
    match answer {
        Ok(()) => said(alloc, "noted"),
        Err(Memory) => Err(AllocError),
    }
}
