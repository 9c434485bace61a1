//! The outside, as the product sees it: files, commands, a clock and a place to print to.
//!
//! Each object counts its faults, and answers [`Fault::Failed`] only in a call in which its count
//! rose. What an object tells of itself stands in ghost members; what it doesn't tell is open for
//! it.
#![tactic(auto)]

mod clock;
mod commands;
mod fault;
mod sink;
mod site;

pub use clock::Clock;
pub use commands::{Commands, Runner};
pub use fault::{Fault, failed};
pub use sink::Sink;
pub use site::Site;
