//! What a link and a hall answer, and what passed over a link.
use flow_types::Bytes;

/// What a link answers to a call of `recv`.
#[derive(Drop)]
pub enum Got {
    /// Some bytes, at least one.
    Piece(Bytes),
    /// Nothing came for a while.
    Idle,
    /// The other end has closed the link.
    Closed,
}

/// What a hall answers to a call of `wait`.
#[derive(Drop)]
pub enum Came<L> {
    /// A link to a peer that has come.
    Link(L),
    /// Nobody came for a while.
    Idle,
}

/// Bytes that passed over a link, seen from the end that holds it.
#[derive(Drop)]
pub enum Passed {
    /// They went out to the other end.
    Sent(Bytes),
    /// They came from the other end.
    Received(Bytes),
}
