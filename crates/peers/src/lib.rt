//! One peer at its link, as the end that hands out tasks has it: what is said to the peer, what is
//! heard of it and what that means, and why its link is left.
#![tactic(auto)]

mod laws;
mod leave;
mod peer;
mod told;
mod voice;

pub use laws::{
    honest_links_were_honest, sure_links_are_orderly, tasks_come_behind_their_inputs,
    what_is_due_stays_due, what_is_said_went_out,
};
pub use leave::Leave;
pub use peer::Peer;
pub use told::{Listened, Told};
