//! The outside in memory, for tests: files, commands, a clock and a place to print to, with faults where a
//! test wants them.
#![tactic(auto)]

mod blank;
mod calls;
mod entries;
mod fitting;
mod fixed_clock;
mod mem_sink;
mod mem_site;
mod step;
mod table_runner;

pub use blank::{Blank, BlankRunner};
pub use fixed_clock::FixedClock;
pub use mem_sink::MemSink;
pub use mem_site::MemSite;
pub use table_runner::TableRunner;
