//! Laws of what expressions of JX are worth.
#![tactic(auto)]

mod laws;

pub use laws::{literals_evaluate, values_evaluate_back};
