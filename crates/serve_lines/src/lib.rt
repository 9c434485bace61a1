//! The lines that `work_queue_serve` reads and writes: JSON, an object a line.
#![tactic(auto)]

mod answer;
mod fault;
mod members;
mod request;

pub use answer::{Answer, Rejection, Stop, line_of};
pub use fault::{LineFault, Part, Refusal};
pub use request::{Asked, Place, Request, read_request};
