//! The peak of a flow, and an admission under which a run never ends for want of room.
#![tactic(auto)]

mod admission;
mod counters;
mod counting;
mod laws;
mod need;
mod notes;
mod passing;
mod rough;
mod stand;

pub use admission::{SafeAdmission, SafePolicy};
pub use laws::claimed_is_started;
pub use need::peak;
