//! Moves of a desk.
use flow_types::{Amounts, LinkNo, Record};

/// A change of a desk: a record, or a link that joined, changed or left.
#[derive(Drop)]
pub enum Move {
    Logged(Record),
    Joined {
        link: LinkNo,
        total: Amounts,
        largest: Amounts,
        cache: u64,
    },
    Changed {
        link: LinkNo,
        total: Amounts,
        largest: Amounts,
        cache: u64,
    },
    Left {
        link: LinkNo,
    },
}
