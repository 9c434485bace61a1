//! Commands in memory that make something of their inputs, for tests, and who runs them.
#![tactic(auto)]

mod commands;
mod contents;
mod runner;

pub use commands::Joined;
pub use runner::JoinedRunner;
