//! The rules that a Makeflow text says.
#![tactic(auto)]

mod categories;
mod drafts;
mod examples;
mod faults;
mod flow;
mod laws;
mod names;
mod numbers;
mod reader;
mod steps;
mod variables;

pub use examples::worked_flows;
pub use flow::read_make;
pub use laws::flows_fit_their_limits;
pub use names::MAX_COMMAND;
