//! What the rules of a plan do, kept step by step.
#![tactic(auto)]

mod files;
mod needs;
mod progress;
mod takers;

pub use progress::Progress;
pub use takers::Takers;
