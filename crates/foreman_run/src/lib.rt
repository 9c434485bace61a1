//! A foreman at its links: to its parent, whose worker it is, and to its own workers, whose parent it
//! is.
#![tactic(auto)]

mod care;
mod company;
mod hearing;
mod hosting;
mod look;
mod lower;
mod parent;
mod rounds;
mod stop;
mod top;
mod voice;

pub use stop::Stop;
pub use top::foreman_top;
