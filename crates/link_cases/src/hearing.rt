//! Messages that no piece and no buffer of a socket holds, and what is heard of them.
ghost use Rattle.std.specs.Prelude.{◌≡◌};

use crate::words::counted;
use links::{Got, Hall, Link};
use mem_outside::Blank;
use std::alloc::{AllocError, Global};
use std::rt::Clock;
use std::thread;
use std::time::Duration;

// A message's block. No piece is as long, so that each of its pieces is another.
const BLOCK: u32 = 65_537;

// How often one looks for what is to come, and how many milliseconds one waits for it in all.
const LOOKS: u32 = 100_000;

const MOST_MILLIS: u64 = 20_000;

const REST_MILLIS: u64 = 100;

// How often one looks for a last message, and the milliseconds between.
const LAST_LOOKS: u32 = 10_000;

const NAP_MILLIS: u64 = 1;

/// How many bytes of a message each end has heard.
#[derive(Clone, Copy)]
pub struct Heard {
    pub dialled: usize,
    pub given: usize,
}

/// A message as long as a block, doubled so often.
pub fn message(alloc: Global, doublings: u64) -> Result<Vec<u8>, AllocError> {
    let mut bytes = Vec::new(alloc);
    for place in 0..BLOCK {
        bytes.push((place % 251) as u8)?;
    }
    for _ in 0..doublings {
        let mut again = Vec::from_slice(alloc, bytes.as_slice())?;
        bytes.append(&mut again)?;
    }
    Ok(bytes)
}

/// The ends hear the message, the dialled one or both, for some seconds at most. One thread does it
/// all.
pub fn hear<H: Hall<Blank>, L: Link<Blank>, M: Link<Blank>>(
    alloc: Global,
    hall: &mut H,
    dialled: &mut Option<L>,
    given: &mut Option<M>,
    message: &[u8],
    both: bool,
) -> Heard
    ensures { hall.new ≡ hall.old }
{
    let mut heard = Heard {
        dialled: 0,
        given: 0,
    };
    let mut waited = 0u64;
    for _ in 0..LOOKS {
        if is_heard(heard, message, both) || waited > MOST_MILLIS {
            return heard;
        }
        let count = hear_piece(alloc, dialled, message, heard.dialled);
        heard.dialled = heard.dialled.saturating_add(count);
        let other = hear_piece(alloc, given, message, heard.given);
        heard.given = heard.given.saturating_add(other);
        if count == 0 && other == 0 {
            waited = waited.saturating_add(hall.rest(REST_MILLIS));
        }
    }
    heard
}

/// Both numbers, the dialled end's first.
pub fn shown_heard(alloc: Global, heard: Heard) -> Result<String, AllocError> {
    let mut text = counted(alloc, heard.dialled as u64)?;
    text.push_str(" ")?;
    text.push_str(counted(alloc, heard.given as u64)?.as_str())?;
    Ok(text)
}

fn is_heard(heard: Heard, message: &[u8], both: bool) -> bool {
    heard.dialled >= message.len() && (!both || heard.given >= message.len())
}

// How many bytes of a message come now, of which so many were heard.
fn hear_piece<L: Link<Blank>>(
    alloc: Global,
    end: &mut Option<L>,
    message: &[u8],
    heard: usize,
) -> usize {
    let Some(link) = end.as_mut() else {
        return 0;
    };
    if !link.ready() {
        return 0;
    }
    match link.recv(alloc) {
        Ok(Got::Piece(piece)) => goes_on(message, heard, piece.as_slice()),
        _ => 0,
    }
}

// How long a piece is that goes on with a message at this place, by its ends, and else 0.
fn goes_on(message: &[u8], place: usize, piece: &[u8]) -> usize {
    match message.get(place..place.saturating_add(piece.len())) {
        Some(part) if part.first() == piece.first() && part.last() == piece.last() => piece.len(),
        _ => 0,
    }
}

/// Whether a message comes over a link, within some seconds, and then the link is closed.
pub fn hears_last<C: Clock, L: Link<Blank>>(
    clock: &C,
    alloc: Global,
    link: &mut L,
    message: &[u8],
) -> bool {
    let mut heard = 0usize;
    for _ in 0..LAST_LOOKS {
        match link.recv(alloc) {
            Ok(Got::Piece(piece)) => {
                heard = heard.saturating_add(goes_on(message, heard, piece.as_slice()));
            }
            Ok(Got::Idle) => thread::sleep(clock, Duration::from_millis(NAP_MILLIS)),
            Ok(Got::Closed) => return heard == message.len(),
            Err(_) => return false,
        }
    }
    false
}
