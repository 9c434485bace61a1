//! What a step of a peer asks for.
use crate::Party;
use flow_types::{Amounts, LinkNo, Message, Rows};
use foreman_core::ForemanActs;

/// What a step of a peer asks for.
#[derive(Drop)]
pub enum Doing {
    Nothing,
    /// These messages go to this end.
    Tells { to: Party, sent: Rows<Message> },
    /// A foreman sends what it has to, and leaves the link that it is to leave.
    Carries(ForemanActs),
}

/// What is to be done where a peer is gone.
#[derive(Clone, Copy)]
pub enum Parting {
    Nothing,
    /// A foreman has lost this link.
    Below { foreman: u32, link: LinkNo },
    /// The links of its workers end.
    Lead,
}

/// Where a peer comes to again, if it may.
#[derive(Clone, Copy)]
pub enum Returning {
    Nowhere,
    /// To the master, with this hello.
    ToMaster {
        total: Amounts,
        largest: Amounts,
        cache: u64,
    },
    ToForeman(u32),
}
