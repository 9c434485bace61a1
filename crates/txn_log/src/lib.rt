//! The log: records behind gates, so that a crash at any moment leaves the old list or the new one.
#![tactic(auto)]

mod entry;
mod examples;
mod fault;
mod gate;
mod log;

pub use examples::example_log_is_spelled;
pub use fault::LogFault;
pub use gate::{append_behind, write_synced};
pub use log::Log;
