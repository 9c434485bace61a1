//! A value that threads share by taking turns. What the turns make of it is one history, of which
//! each thread knows a beginning.
#![tactic(auto)]

mod counted;
mod growing;
mod pass;
mod turn;
mod turns;
mod view;

pub use counted::Counted;
pub use growing::Growing;
pub use pass::Pass;
pub use turns::{Turns, TurnsRefused};
