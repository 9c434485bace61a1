//! The peers of a world: workers and foremen as they run, the messages that they send, and the list
//! of them all.
#![tactic(auto)]

mod company;
mod doing;
mod fault;
mod leader;
mod member;
mod peer;
mod sent;
mod spelling;

pub use company::{
    add_peer, cut_under, is_below_at, leave_link, link_at, next_link, next_number, send_below,
    send_to,
};
pub use doing::{Doing, Parting, Returning};
pub use fault::WorldFault;
pub use leader::{Leader, NOTHING};
pub use member::{Home, Member};
pub use peer::{Peer, run_job};
pub use sent::{Party, Sent};
pub use spelling::body_of;
