//! Streams that come in pieces.
use crate::text::{shown_fault, shown_message};
use flow_types::Memory;
use std::alloc::{AllocError, Global};
use wq_frames::{FeedFault, Feeder, Heard};

// What `next` answers, and whether another call may answer a further message.
fn shown_next(alloc: Global, feeder: &mut Feeder) -> Result<(String, bool), AllocError> {
    match feeder.next() {
        Ok(Heard::Message(view)) => {
            let Ok(message) = view.to_message(alloc) else {
                return Err(AllocError);
            };
            Ok((shown_message(alloc, &message)?, true))
        }
        Ok(Heard::NotYet) => Ok((String::from_str(alloc, "not yet")?, false)),
        Err(FeedFault::TooLong(len)) => Ok((format!(in alloc; "too long {len}")?, false)),
        Err(FeedFault::Bad(fault)) => Ok((shown_fault(alloc, fault)?, false)),
        Err(FeedFault::Memory) => Err(AllocError),
    }
}

/// Feeds a piece.
pub fn fed(feeder: &mut Feeder, piece: &[u8]) -> Result<(), AllocError> {
    match feeder.feed(piece) {
        Ok(()) => Ok(()),
        Err(Memory) => Err(AllocError),
    }
}

// All that comes out of the feeder until it waits or stops. A piece of so many bytes ends no more
// frames.
fn add_heard(
    alloc: Global,
    feeder: &mut Feeder,
    most: usize,
    text: &mut String,
) -> Result<(), AllocError> {
    for _ in 0..=most {
        let (shown, more) = shown_next(alloc, feeder)?;
        if !text.is_empty() {
            text.push_str("; ")?;
        }
        text.push_str(shown.as_str())?;
        if !more {
            return Ok(());
        }
    }
    Ok(())
}

/// What comes out after each of these pieces, and again at one more call.
pub fn shown_stream(alloc: Global, pieces: &[Vec<u8>]) -> Result<String, AllocError> {
    let mut feeder = Feeder::new(alloc).map_err(|_| AllocError)?;
    let mut all = 0usize;
    let mut text = String::new(alloc);
    for piece in pieces {
        fed(&mut feeder, piece.as_slice())?;
        all = all.saturating_add(piece.len());
        add_heard(alloc, &mut feeder, all, &mut text)?;
        text.push_str(" |")?;
    }
    let (shown, _) = shown_next(alloc, &mut feeder)?;
    text.push_str(" again ")?;
    text.push_str(shown.as_str())?;
    Ok(text)
}
