//! A desk over a folder in memory, as tables of cases and tests call it.
//!
//! Where a call of the desk has a condition, the bench looks whether it holds, and answers so where
//! it doesn't.
#![tactic(auto)]

mod bench;
mod drain;
mod held;
mod logs;
mod one_by_one;
mod plans;

pub use bench::{Bench, BenchOf, Claimed, Unready, begin};
pub use drain::Drain;
pub use held::{Held, MOST_RULES};
pub use logs::{Unlogged, append};
pub use one_by_one::OneByOne;
pub use plans::{LOG, Unmade, folder, planned, raw_rule};
