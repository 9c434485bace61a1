//! Words of a line that names a cause.
use flow_types::{Name, RuleNo, Text};
use std::alloc::Global;

/// The first word of a line, and what stands behind its blank.
pub fn first(line: &str) -> (&str, &str) {
    match line.split_once(' ') {
        Some(words) => words,
        None => (line, ""),
    }
}

/// The number that a word is.
pub fn whole(word: &str) -> Option<u64> {
    word.parse::<u64>().ok()
}

/// The number of up to 32 bits that a word is.
pub fn number(word: &str) -> Option<u32> {
    word.parse::<u32>().ok()
}

/// The place in a text that a word is.
pub fn place(word: &str) -> Option<usize> {
    word.parse::<usize>().ok()
}

/// The two numbers that a line is.
pub fn two(line: &str) -> Option<(u64, u64)> {
    let (one, other) = first(line);
    Some((whole(one)?, whole(other)?))
}

/// The rule of this number.
pub fn rule(word: &str) -> Option<RuleNo> {
    Some(RuleNo(number(word)?))
}

/// The name that a word is.
pub fn name(alloc: Global, word: &str) -> Option<Name> {
    Name::of(alloc, word.as_bytes()).ok()
}

/// The text that stands here.
pub fn text(alloc: Global, text: &str) -> Option<Text> {
    Text::of(alloc, text).ok()
}
