//! Links, halls and dials in memory, for tests: each takes the steps that it was made with, faults
//! among them. A link may also serve, as a worker would whose commands leave each output empty.
#![tactic(auto)]

mod hearing;
mod laws;
mod mem_dial;
mod mem_hall;
mod mem_link;
mod no_ringer;
mod server;
mod traffic;

pub use laws::a_link_that_serves_is_sure;
pub use mem_dial::{DialStep, MemDial};
pub use mem_hall::{HallStep, MemHall};
pub use mem_link::{LinkStep, MemLink};
pub use no_ringer::NoRinger;
