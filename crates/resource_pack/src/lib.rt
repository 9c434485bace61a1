//! What runs on which link, and what still fits there.
#![tactic(auto)]

mod held;
mod load;
mod occupied;
mod pack;

pub use occupied::{Occupied, Stated};
pub use pack::Pack;
