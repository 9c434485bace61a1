//! The top call of `makeflow`: reads a flow, does what is asked for, and prints how that ended.
#![tactic(auto)]

mod ask;
mod asking;
mod caring;
mod causes;
mod course;
mod flow_file;
mod flow_plan;
mod log_name;
mod needs;
mod printing;
mod rises;
mod running;
mod stored;
mod top;

pub use top::{Ended, makeflow_top, makeflow_with};
