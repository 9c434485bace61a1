//! What stands at a gate of the log.
use flow_types::Record;

/// What stands at a gate of the log.
#[derive(Drop)]
pub enum Step {
    /// A closed gate.
    Closed,
    /// An open gate and a record, which ends at this place.
    Entry(Record, u64),
    /// No gate, or an open one and no record.
    Bad,
}

/// What the first bytes at a gate tell.
#[derive(Drop)]
pub enum Head {
    /// A closed gate.
    Shut,
    /// An open gate and the length of what stands behind it.
    Length(u32),
    /// No gate, or an open one and no whole length.
    Cut,
}
