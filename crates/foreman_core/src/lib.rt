//! A foreman as a machine: a worker to its parent, and the parent of its own workers.
#![tactic(auto)]

mod acts;
mod below;
mod copies;
mod draft;
mod examples;
mod foreman;
mod laws;
mod links;
mod lost;
mod parting;
mod pins;
mod placed;
mod room;
mod sending;
mod totals;

pub use acts::{Down, ForemanActs};
pub use foreman::ForemanCore;
pub use laws::what_a_foreman_tells_is_right;
