//! The log as text: one line for each record of its current part.
#![tactic(auto)]

mod counts;
mod examples;
mod fields;
mod laws;
mod lines;
mod part;
mod print;
mod tally;

pub use examples::{one_run_is_printed, two_parts_are_printed};
pub use laws::counts_add_up;
pub use part::part_of;
pub use print::print_log;
