//! How a start ended, on its way back.
use crate::ticket::Ticket;
use flow_types::{Outcome, Start};

/// A start with its outcome, and with the ticket that went out with it.
#[derive(Drop)]
pub struct Ran {
    pub start: Start,
    pub outcome: Outcome,
    pub ticket: Ticket,
}
