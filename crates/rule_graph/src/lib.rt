//! The graph of a flow's rules: the plan of a flow or its first fault, the order of a serial run,
//! and a plan's digest.
#![tactic(auto)]

mod checks;
mod cycle;
mod digest;
mod early;
mod examples;
mod faults;
mod laws;
mod limits;
mod nesting;
mod numbering;
mod order;
mod plan;
mod raw;
mod rows;

pub use cycle::the_named_loop;
pub use digest::plan_digest;
pub use examples::{bytes_of_one_copy, faults_of_small_flows, plans_of_small_flows};
pub use faults::GraphFault;
pub use laws::{faultless_plans_are_valid, serial_order_is_an_order, spelling_tells_the_plan};
pub use limits::fits_limits;
pub use order::serial_order;
pub use plan::plan_of;
