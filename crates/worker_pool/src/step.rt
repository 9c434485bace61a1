//! What a course is asked and told.
use flow_types::{Report, Start};

/// What a course wants next.
#[derive(Drop)]
pub enum Step {
    /// This is to be started.
    Give(Start),
    /// Nothing now: it wants to be asked again.
    Look,
    /// Nothing more: what was given is waited for, and that is all.
    Done,
}

/// A call of a course. No value of it is made.
pub enum Event {
    Asked(Step),
    Heard(Report),
}
