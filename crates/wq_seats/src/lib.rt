//! One worker or foreman at its link, as a queue of tasks tends it: what it is told and asked, what
//! it tells, and when it is left.
#![tactic(auto)]

mod copies;
mod laws;
mod run;
mod seat;
mod service;

pub use seat::{Look, Seat, Turn};
pub use service::{begin_seat, read_seat, tell_seat};
