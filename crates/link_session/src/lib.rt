//! The upper side of a link: what its peer holds, which attempts are open there, and what each
//! message from it means.
#![tactic(auto)]

mod fits;
mod known;
mod laws;
mod open;
mod session;
mod word;

pub use laws::stale_words_are_of_closed_attempts;
pub use session::Session;
pub use word::{SessionFault, Word};
