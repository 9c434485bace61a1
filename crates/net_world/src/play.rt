//! The machines of a world, as they run.
ghost use Rattle.std.specs.Prelude.{◌≡◌, ◌∷◌, ◌++◌, [], OnOk};

pub(crate) mod begins;
mod claims;
mod closings;
mod collects;
mod crashes;
mod deliveries;
mod doings;
mod ends;
mod evictions;
mod joins;
mod leaving;
mod locals;
mod losses;
mod runs;
mod sending;
mod shows;
mod steps;
mod words;

use flow_types::{Bytes, LinkNo, Memory, Record};
use link_session::Session;
use std::alloc::Global;
use std::marker::Model;
use task_core::Table;
use world_peers::{Member, Sent};

/// A link of the master that lives, with the peer at its other end and its session.
#[derive(Drop)]
pub(crate) struct Line {
    pub(crate) link: LinkNo,
    pub(crate) peer: u32,
    pub(crate) session: Session,
}

impl Model for Line {
    ghost use Rattle.world_laws.specs.Worlds.{Connection};

    ghost Value = { Connection };

    ghost view = { λ l. record { link = l.link.0; peer = l.peer; session = l.session } };
}

/// The machines of a world: the master's table, its records, the contents that it holds by file,
/// and its links; the peers; and all messages that were ever sent.
#[derive(Drop)]
pub(crate) struct Play {
    pub(crate) alloc: Global,
    pub(crate) table: Table,
    pub(crate) records: Vec<Record>,
    pub(crate) contents: Vec<Option<Bytes>>,
    pub(crate) lines: Vec<Line>,
    pub(crate) peers: Vec<Member>,
    pub(crate) bag: Vec<Sent>,
    pub(crate) up: bool,
}

// One more record.
pub(crate) fn note(records: &mut Vec<Record>, entry: Record) -> Result<(), Memory>
    ensures { OnOk result (records.new.items ≡ records.old.items ++ entry ∷ []) }
{
    match records.push(entry) {
        Ok(()) => Ok(()),
        Err(_) => Err(Memory),
    }
}
