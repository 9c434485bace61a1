//! Events, each by its line.
//!
//! `join CACHE` is a new worker that may keep so many bytes, `foreman CACHE` a new foreman, `below
//! FOREMAN CACHE` a new worker of a foreman, and `again PEER` a peer that comes again.
//! `claim LINK`, `local ATTEMPT`, `collect`, `end`, `deliver MESSAGE`, `lose LINK`, `evict PEER`,
//! `run PEER` and `resume` are the others. `crash` stands alone, or before the event that it cuts
//! short: `crash claim LINK`, `crash local ATTEMPT`, `crash collect`, `crash end`, `crash deliver
//! MESSAGE` or `crash lose ATTEMPT`.
use crate::script::first;
use flow_types::{Amounts, AttemptNo, LinkNo};
use net_world::{Cut, Joiner, WorldEvent};

/// What each worker has.
pub const WORKER: Amounts = Amounts {
    cores: 4,
    memory: 4_000,
    disk: 4_000,
};

/// The event of a line, None where it is none.
pub fn event_of(line: &str) -> Option<WorldEvent> {
    let (word, rest) = first(line);
    match word {
        "join" => Some(WorldEvent::Join(Joiner::Worker {
            total: WORKER,
            cache: rest.parse::<u64>().ok()?,
        })),
        "foreman" => Some(WorldEvent::Join(Joiner::Foreman {
            cache: rest.parse::<u64>().ok()?,
        })),
        "below" => Some(WorldEvent::Join(below_of(rest)?)),
        "again" => Some(WorldEvent::Join(Joiner::Again {
            peer: rest.parse::<u32>().ok()?,
        })),
        "claim" => Some(WorldEvent::Claim(link_of(rest)?)),
        "local" => Some(WorldEvent::RunLocal(attempt_of(rest)?)),
        "collect" => Some(WorldEvent::Collect),
        "end" => Some(WorldEvent::End),
        "deliver" => Some(WorldEvent::Deliver(rest.parse::<usize>().ok()?)),
        "lose" => Some(WorldEvent::LoseLink(link_of(rest)?)),
        "evict" => Some(WorldEvent::Evict(rest.parse::<u32>().ok()?)),
        "run" => Some(WorldEvent::Run(rest.parse::<u32>().ok()?)),
        "crash" => Some(WorldEvent::Crash(cut_of(rest)?)),
        "resume" => Some(WorldEvent::Resume),
        _ => None,
    }
}

fn link_of(word: &str) -> Option<LinkNo> {
    Some(LinkNo(word.parse::<u32>().ok()?))
}

// A new worker of a foreman.
fn below_of(line: &str) -> Option<Joiner> {
    let (foreman, cache) = first(line);
    Some(Joiner::WorkerAt {
        foreman: foreman.parse::<u32>().ok()?,
        total: WORKER,
        cache: cache.parse::<u64>().ok()?,
    })
}

fn attempt_of(word: &str) -> Option<AttemptNo> {
    Some(AttemptNo(word.parse::<u64>().ok()?))
}

// What a crash cuts short.
fn cut_of(line: &str) -> Option<Cut> {
    let (word, rest) = first(line);
    match word {
        "" => Some(Cut::Nothing),
        "claim" => Some(Cut::Claim(link_of(rest)?)),
        "local" => Some(Cut::RunLocal(attempt_of(rest)?)),
        "collect" => Some(Cut::Collect),
        "end" => Some(Cut::End),
        "deliver" => Some(Cut::Deliver(rest.parse::<usize>().ok()?)),
        "lose" => Some(Cut::Lose(attempt_of(rest)?)),
        _ => None,
    }
}
