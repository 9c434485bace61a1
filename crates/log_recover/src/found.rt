//! What a log's file holds.
use flow_types::{Record, Rows};

/// What a log's file holds.
#[derive(Drop)]
pub enum Found {
    /// These records, and the closed gate at this place.
    Records(Rows<Record>, u64),
    /// No gate at this place, or an open one and no record.
    Bad(u64),
}
