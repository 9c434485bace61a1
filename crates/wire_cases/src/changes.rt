//! Streams of which one byte has another value.
use crate::streams::fed;
use crate::text::add;
use std::alloc::{AllocError, Global};
use wq_frames::{FeedFault, Feeder, Heard};
use wq_messages::MessageFault;

/// How often a changed byte gives each kind of answer.
#[derive(Clone, Copy)]
struct Tally {
    messages: u32,
    waits: u32,
    too_long: u32,
    kinds: u32,
    shorts: u32,
    longs: u32,
    texts: u32,
}

fn count_in(counts: &mut Tally, answer: Result<Heard<'_>, FeedFault>) -> Result<(), AllocError> {
    let count = match answer {
        Ok(Heard::Message(_)) => &mut counts.messages,
        Ok(Heard::NotYet) => &mut counts.waits,
        Err(FeedFault::TooLong(_)) => &mut counts.too_long,
        Err(FeedFault::Bad(MessageFault::Kind(_))) => &mut counts.kinds,
        Err(FeedFault::Bad(MessageFault::Short(_))) => &mut counts.shorts,
        Err(FeedFault::Bad(MessageFault::Long(_))) => &mut counts.longs,
        Err(FeedFault::Bad(MessageFault::BadText(_))) => &mut counts.texts,
        Err(FeedFault::Memory) => return Err(AllocError),
    };
    *count = count.saturating_add(1);
    Ok(())
}

// The answers where the byte at this place has each other value.
fn tally_of(alloc: Global, bytes: &[u8], at: usize) -> Result<Tally, AllocError> {
    let mut counts = Tally {
        messages: 0,
        waits: 0,
        too_long: 0,
        kinds: 0,
        shorts: 0,
        longs: 0,
        texts: 0,
    };
    for value in 0..=255u8 {
        let mut changed = Vec::new(alloc);
        changed.extend_from_slice(bytes)?;
        let Some(byte) = changed.get_mut(at) else {
            break;
        };
        if *byte == value {
            continue;
        }
        *byte = value;
        let mut feeder = Feeder::new(alloc).map_err(|_| AllocError)?;
        fed(&mut feeder, changed.as_slice())?;
        count_in(&mut counts, feeder.next())?;
    }
    Ok(counts)
}

fn add_count(alloc: Global, text: &mut String, word: &str, count: u32) -> Result<(), AllocError> {
    if count > 0 {
        add(text, format!(in alloc; " {word} {count}"))?;
    }
    Ok(())
}

fn shown_tally(alloc: Global, counts: Tally) -> Result<String, AllocError> {
    let mut text = String::new(alloc);
    add_count(alloc, &mut text, "message", counts.messages)?;
    add_count(alloc, &mut text, "wait", counts.waits)?;
    add_count(alloc, &mut text, "too-long", counts.too_long)?;
    add_count(alloc, &mut text, "kind", counts.kinds)?;
    add_count(alloc, &mut text, "short", counts.shorts)?;
    add_count(alloc, &mut text, "long", counts.longs)?;
    add_count(alloc, &mut text, "text", counts.texts)?;
    Ok(text)
}

/// For each byte of a stream, how often its 255 other values give each kind of first answer.
pub fn shown_changes(alloc: Global, bytes: &[u8]) -> Result<String, AllocError> {
    let mut text = String::new(alloc);
    for at in 0..bytes.len() {
        let counts = shown_tally(alloc, tally_of(alloc, bytes, at)?)?;
        if at > 0 {
            text.push_str("\n")?;
        }
        add(&mut text, format!(in alloc; "byte {at}:{counts}"))?;
    }
    Ok(text)
}
