//! Reads tables of cases for the programs that test, and shows texts and flows.
#![tactic(auto)]

mod escapes;
mod flows;
mod table;
mod texts;

pub use flows::flow_shown;
pub use table::{Case, CaseFault, read_cases, read_input};
pub use texts::shown;
