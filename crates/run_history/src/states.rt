//! States of rules and files.
use flow_types::{AttemptNo, Content};

/// What a rule is doing.
#[derive(Clone, Copy, Debug, PartialEq, Eq)]
pub enum RuleState {
    Waiting,
    Running(AttemptNo),
    Complete,
    Failed,
}

/// What there is of a file.
#[derive(Clone, Copy, Debug, PartialEq, Eq)]
pub enum FileState {
    Absent,
    Present(Content),
    Collected,
}

/// What stands in place of a logged content.
#[derive(Clone, Copy, Debug, PartialEq, Eq)]
pub enum Found {
    /// No file.
    Absent,
    /// A file of another size.
    Size(u64),
    /// A file of the same size and another digest.
    Whole(Content),
}
