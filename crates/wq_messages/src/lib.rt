//! Messages between peers: one spelling each, written and read back. A spelling is a kind byte and
//! its fields; the length that a frame puts before it is the frame's. A message that is read is
//! lent by its bytes.
#![tactic(auto)]

mod examples;
mod fault;
mod fields;
mod files;
mod heads;
mod laws;
mod lent;
mod names;
mod outcomes;
mod put_parts;
mod reading;
mod tasks;
mod view;
mod writing;

pub use examples::{refused_bodies, worked_messages};
pub use fault::{MessageFault, PeerFault};
pub use heads::{Ended, Head};
pub use laws::messages_are_spelled_once;
pub use view::{View, read_message, view_of};
pub use writing::write_message;
