//! What a call replies, with the counts of what it left.

/// What a call replies, how many moves the value that it left has made, and how much of its work is
/// done.
pub struct Counted<R> {
    pub reply: R,
    pub moves: u64,
    pub done: u64,
}
