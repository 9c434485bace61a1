//! How a peer has done of late, by which it is asked for more or not, and for how long nothing was
//! said to it.
#![tactic(auto)]

mod health;
mod quiet;

pub use health::Health;
pub use quiet::Quiet;
