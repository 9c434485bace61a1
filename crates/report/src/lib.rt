//! Why a call of the workflow engine ended, its exit status and its printed line.
#![tactic(auto)]

mod cause;
mod examples;
mod flow_text;
mod jx_text;
mod text;

pub use cause::{Cause, FlowFault, Kind};
pub use examples::{
    lines_of_a_run, lines_of_faults, lines_of_jx, lines_of_logs, lines_of_refusals, lines_of_rules,
    lines_of_texts,
};
