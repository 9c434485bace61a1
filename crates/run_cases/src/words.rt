//! The words of a line.
use cases::{CaseFault, read_cases};
use std::alloc::{AllocError, Global};

/// What stands before the first blank of a line, and what behind it.
pub fn first(line: &str) -> (&str, &str) {
    match line.split_once(' ') {
        Some(words) => words,
        None => (line, ""),
    }
}

/// The number that a word writes.
pub fn number_of(word: &str) -> Option<u64> {
    word.parse::<u64>().ok()
}

/// The bytes that a text spells with the escapes of a `=~` case, None where they are out of form.
pub fn spelled(alloc: Global, text: &str) -> Result<Option<Vec<u8>>, AllocError> {
    // The dot keeps a text that begins with `==` from being the head of a case.
    let table = format!(in alloc; "=~ a case of one line\n.{text}")?;
    let Ok(cases) = read_cases(alloc, table.as_bytes()) else {
        return Err(AllocError);
    };
    let Some(case) = cases.first() else {
        return Ok(None);
    };
    match case.body(alloc) {
        Ok(body) => without_dot(alloc, &body),
        Err(CaseFault::Bad(_)) => Ok(None),
        Err(CaseFault::Memory) => Err(AllocError),
    }
}

fn without_dot(alloc: Global, body: &[u8]) -> Result<Option<Vec<u8>>, AllocError> {
    match body.split_first() {
        Some((_, rest)) => Ok(Some(Vec::from_slice(alloc, rest)?)),
        None => Ok(None),
    }
}

/// The words between the blanks of a line.
pub fn words_of(alloc: Global, line: &str) -> Result<Vec<String>, AllocError> {
    let mut words = Vec::new(alloc);
    for word in line.split_whitespace() {
        words.push(String::from_str(alloc, word)?)?;
    }
    Ok(words)
}
