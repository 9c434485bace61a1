//! A run over a log, from its start to its end.
//!
//! Rules run here, or where workers are asked for, at those that come. The clauses that are not
//! about either hold of both; what is said of the end of a run without workers has that premise.
#![tactic(auto)]

mod course;
mod opening;
mod resuming;
mod runs;

pub use resuming::resume;
pub use runs::run;
