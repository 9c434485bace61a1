//! This program among those of its machine, and the programs that it starts.
#![tactic(auto)]

mod owner;
mod programs;
mod watch;

pub use owner::{Owner, number_of, user_of};
pub use programs::{SHELL, Streams, program, run_printing, run_program, start};
