//! Messages that were sent.
use flow_types::Message;

/// An end of a link.
#[derive(Clone, Copy, Debug, PartialEq, Eq)]
pub enum Party {
    Master,
    /// A peer, by its place in the order of first joins.
    Peer(u32),
}

/// A message that was sent, with its two ends.
#[derive(Drop)]
pub struct Sent {
    pub from: Party,
    pub to: Party,
    pub message: Message,
}
