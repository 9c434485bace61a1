//! A batch: the commands of a file, done by the workers that come to a port.
#![tactic(auto)]

mod cause;
mod ends;
mod lines;
mod running;
mod top;
mod words;

pub use cause::BatchCause;
pub use top::submit_top;
