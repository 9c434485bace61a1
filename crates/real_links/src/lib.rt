//! Links over TCP.
//!
//! Each object tells nothing of content, and counts each call that the system refused. A link's calls
//! wait for nobody. A dial waits a second for each address of a host, and for the look-up of its
//! name; a rest waits as long as it is told.
#![tactic(auto)]

mod laps;
mod last;
mod place;
mod queue;
mod tcp_dial;
mod tcp_hall;
mod tcp_link;

pub use place::TcpRinger;
pub use tcp_dial::TcpDial;
pub use tcp_hall::TcpHall;
pub use tcp_link::TcpLink;
