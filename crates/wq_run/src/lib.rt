//! A run whose rules run here and at workers.
//!
//! The caller's thread alone calls the desk, and has every peer: it hears what they tell and closes
//! their attempts, claims for each of them, and lets in who comes.
#![tactic(auto)]

mod beside;
mod company;
mod course;
mod finishing;
mod laws;
mod reliance;
mod rounds;
mod seat;
mod serving;
mod waiting;
mod workers;

pub use course::work;
pub use reliance::Trust;
pub use workers::Workers;
