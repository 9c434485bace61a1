//! Worlds of random events.
//!
//! Each world is looked at: attempts are started in the order of their numbers, only an attempt that
//! runs ends, and a made file that is present has the content that the script says. Then what was
//! seen in some world is told, so that it is known that such worlds came.
use crate::draws::Draws;
use crate::events::WORKER;
use flow_types::{AttemptNo, LinkNo};
use net_world::{Cut, Joiner, WorldEvent};
use std::alloc::{AllocError, Global};

/// How many worlds of how many events, from which seed on.
#[derive(Clone, Copy)]
pub struct Random {
    pub seed: u64,
    pub worlds: u64,
    pub events: u32,
    pub foremen: bool,
}

/// What three numbers ask for, and whether there are foremen.
pub fn random_of(line: &str) -> Option<Random> {
    let mut words = line.split(' ');
    Some(Random {
        seed: words.next()?.parse::<u64>().ok()?,
        worlds: words.next()?.parse::<u64>().ok()?,
        events: words.next()?.parse::<u32>().ok()?,
        foremen: words.next().is_some(),
    })
}

/// Random events, of which later ones name later attempts and messages. Behind most crashes a resume
/// comes soon. With foremen, one comes first, with two workers.
pub fn draw_events(
    alloc: Global,
    random: Random,
    seed: u64,
) -> Result<Vec<WorldEvent>, AllocError> {
    let mut draws = Draws::new(seed);
    let mut events = Vec::new(alloc);
    if random.foremen {
        events.push(WorldEvent::Join(Joiner::Foreman { cache: 40 }))?;
        events.push(WorldEvent::Join(below(0, 40)))?;
        events.push(WorldEvent::Join(below(0, 40)))?;
    }
    for at in 0..random.events {
        let event = if random.foremen {
            draw_with_foremen(&mut draws, at)
        } else {
            draw_event(&mut draws, at)
        };
        events.push(event)?;
        if matches!(event, WorldEvent::Crash(_)) && draws.below(4) > 0 {
            events.push(WorldEvent::Run(0))?;
            events.push(WorldEvent::Resume)?;
            events.push(again(&mut draws))?;
        }
    }
    Ok(events)
}

fn link(draws: &mut Draws) -> LinkNo {
    LinkNo(draws.below(3))
}

fn attempt(draws: &mut Draws, at: u32) -> AttemptNo {
    AttemptNo(u64::from(draws.below((at / 16).saturating_add(1))))
}

fn message(draws: &mut Draws, at: u32) -> usize {
    draws.below((at / 12).saturating_add(3)) as usize
}

fn again(draws: &mut Draws) -> WorldEvent {
    WorldEvent::Join(Joiner::Again {
        peer: draws.below(2),
    })
}

fn draw_event(draws: &mut Draws, at: u32) -> WorldEvent {
    match draws.below(32) {
        0..=4 => WorldEvent::Claim(link(draws)),
        5..=7 => WorldEvent::RunLocal(attempt(draws, at)),
        8..=20 => WorldEvent::Deliver(message(draws, at)),
        21..=25 => WorldEvent::Run(draws.below(2)),
        26 => again(draws),
        27 | 28 => WorldEvent::Join(Joiner::Worker {
            total: WORKER,
            cache: u64::from(draws.below(20)),
        }),
        29 => WorldEvent::Collect,
        30 => WorldEvent::End,
        _ => draw_fault(draws, at),
    }
}

fn below(foreman: u32, cache: u64) -> Joiner {
    Joiner::WorkerAt {
        foreman,
        total: WORKER,
        cache,
    }
}

// The same, where foremen and their workers come, too.
fn draw_with_foremen(draws: &mut Draws, at: u32) -> WorldEvent {
    match draws.below(32) {
        0..=3 => WorldEvent::Claim(link(draws)),
        4 => WorldEvent::RunLocal(attempt(draws, at)),
        5..=19 => WorldEvent::Deliver(draws.below((at / 8).saturating_add(3)) as usize),
        20..=25 => WorldEvent::Run(draws.below(5)),
        26 => WorldEvent::Join(Joiner::Again {
            peer: draws.below(5),
        }),
        27 => WorldEvent::Join(Joiner::Foreman {
            cache: u64::from(draws.below(40)),
        }),
        28 | 29 => {
            let foreman = draws.below(4);
            WorldEvent::Join(below(foreman, u64::from(draws.below(40))))
        }
        30 => draw_collect(draws),
        _ => draw_fault(draws, at),
    }
}

fn draw_collect(draws: &mut Draws) -> WorldEvent {
    match draws.below(2) {
        0 => WorldEvent::Collect,
        _ => WorldEvent::End,
    }
}

// What goes wrong, every other time.
fn draw_fault(draws: &mut Draws, at: u32) -> WorldEvent {
    match draws.below(8) {
        0 => WorldEvent::LoseLink(link(draws)),
        1 => WorldEvent::Evict(draws.below(6)),
        2 => WorldEvent::Crash(draw_cut(draws, at)),
        3 => WorldEvent::Resume,
        _ => WorldEvent::Deliver(message(draws, at)),
    }
}

fn draw_cut(draws: &mut Draws, at: u32) -> Cut {
    match draws.below(7) {
        0 => Cut::Nothing,
        1 => Cut::Claim(link(draws)),
        2 => Cut::RunLocal(attempt(draws, at)),
        3 => Cut::Collect,
        4 => Cut::End,
        5 => Cut::Deliver(message(draws, at)),
        _ => Cut::Lose(attempt(draws, at)),
    }
}
