//! Events of a world.
use flow_types::{Amounts, AttemptNo, LinkNo};

/// Who joins.
#[derive(Clone, Copy, Debug, PartialEq, Eq)]
pub enum Joiner {
    /// A new worker at the master, by what it has and the bytes that it may keep.
    Worker {
        total: Amounts,
        cache: u64,
    },
    /// A new foreman at the master, by the bytes that it may keep.
    Foreman {
        cache: u64,
    },
    /// A new worker at a foreman.
    WorkerAt {
        foreman: u32,
        total: Amounts,
        cache: u64,
    },
    /// An earlier peer that has no session and isn't gone, where it was before.
    Again {
        peer: u32,
    },
}

/// What a crash of the master cuts short: of the event the one record that it logs is kept, with
/// its files, and nothing is sent.
#[derive(Clone, Copy, Debug, PartialEq, Eq)]
pub enum Cut {
    Nothing,
    Claim(LinkNo),
    RunLocal(AttemptNo),
    Collect,
    End,
    Deliver(usize),
    /// A lost link of which this attempt's loss alone was logged.
    Lose(AttemptNo),
}

/// One call of the master's desk, or one step of a peer.
#[derive(Clone, Copy, Debug, PartialEq, Eq)]
pub enum WorldEvent {
    Join(Joiner),
    Claim(LinkNo),
    /// An attempt on the local place is run, and closed by its outcome.
    RunLocal(AttemptNo),
    Collect,
    End,
    /// A message, by its place in the order of sending, is heard by its receiver.
    Deliver(usize),
    LoseLink(LinkNo),
    /// A peer's link is lost, and the peer is gone; with a foreman all its links end.
    Evict(u32),
    /// A worker's least attempt is run and reported.
    Run(u32),
    Crash(Cut),
    Resume,
}
