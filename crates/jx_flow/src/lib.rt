//! The flow that a JX text says.
#![tactic(auto)]

mod amounts;
mod examples;
mod fault;
mod files;
mod flow;
mod general;
mod laws;
mod literals;
mod reading;
mod rules;
mod scopes;
mod variables;

pub use examples::worked_flows;
pub use fault::JxFlowFault;
pub use flow::read_jx;
pub use laws::flows_fit_their_limits;
