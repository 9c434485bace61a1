//! What the holder of a ticket knows, and the chief.
use flow_types::Start;
use std::collections::LinkedList;

/// A start that was given, by its number. No value of it is made.
pub struct Entry {
    pub key: u64,
    pub start: Start,
}

/// What the chief took back last, and what was out before. No value of it is made.
pub struct Hold {
    pub entry: Entry,
    pub before: LinkedList<Entry>,
}

/// What a pass of the tickets knows. No value of it is made.
pub struct View {
    /// Whether it is the one that gives and takes back.
    pub chief: bool,
    /// How many were given.
    pub next: u64,
    /// Those that are out.
    pub waiting: LinkedList<Entry>,
    /// What was taken back last.
    pub last: Option<Hold>,
    /// Which one is here.
    pub ticket: Option<Entry>,
}
