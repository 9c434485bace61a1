//! The names that a program asked for in a folder, and which of them are one file.
#![tactic(auto)]

mod asked_names;
mod free_names;
mod known_names;
mod places;
mod sharing;

pub use asked_names::AskedNames;
pub use sharing::Sharing;
