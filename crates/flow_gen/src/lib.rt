//! A flow that is made up of a number alone, to try an engine with: each rule makes a file of the
//! files of two rules before it.
#![tactic(auto)]

mod command;
mod flow;
mod makers;
mod name;

pub use flow::generate;
