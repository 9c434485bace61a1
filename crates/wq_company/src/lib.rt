//! The peers of a queue together: how they come from a hall and go back, which of them a task is
//! given to, and how each has its turn in a round.
#![tactic(auto)]

mod company;
mod laws;
mod least;
mod meeting;

pub use company::{Company, Stop};
pub use least::least_of;
pub use meeting::{dismiss, meet, part};
