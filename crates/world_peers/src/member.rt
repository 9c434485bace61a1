//! The peers of a world.
mod steps;

use crate::{Leader, Peer};
use flow_types::LinkNo;

/// Whom a worker works for.
#[derive(Clone, Copy, Debug, PartialEq, Eq)]
pub enum Home {
    AtMaster,
    /// A foreman, by its number, and the worker's link there, where it has one.
    AtForeman { foreman: u32, link: Option<LinkNo> },
}

/// A peer.
#[derive(Drop)]
pub enum Member {
    Works { home: Home, worker: Peer },
    /// A foreman of the master.
    Leads(Leader),
}
