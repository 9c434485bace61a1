//! Which rules run on which link.
#![tactic(auto)]

mod running;

pub use running::Running;
