//! What was done to the files of a site in memory.
use flow_types::{Bytes, Name};

// What was done to one file.
#[derive(Drop)]
pub(crate) enum Change {
    // These contents were put there, and are on the disk.
    Put(Bytes),
    // These bytes were written over what was there.
    Write(u64, Bytes),
    // The file was cut to this length.
    Cut(u64),
    Remove,
    Sync,
}

// A change, and the number of the call that made it. What was put has the number of the call before
// which it was.
#[derive(Drop)]
pub(crate) struct Step {
    pub(crate) call: u64,
    pub(crate) name: Name,
    pub(crate) change: Change,
}
