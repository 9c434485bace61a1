//! What a token of the reports knows.

/// How many jobs weren't run, and how many failed. No value of it is made.
pub struct Tally {
    pub unrun: u64,
    pub failed: u64,
}

/// A token's parts of the right to know the whole, and the jobs that it has put and taken. No value
/// of it is made.
pub struct Hand {
    pub parts: u64,
    pub put: Tally,
    pub taken: Tally,
}
