//! A desk that threads share by turns. Each call is one of the one-thread desk, at a point of one
//! history.
#![tactic(auto)]

mod board;
mod shared;

pub use board::{Board, BoardRefused, Pass};
pub use shared::Shared;
