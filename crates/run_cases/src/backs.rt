//! The links that a run has handed back.
use flow_types::LinkNo;
use links::Link;
use mem_links::{MemHall, MemLink};
use mem_outside::Blank;
use std::alloc::{AllocError, Global};

// No script has as many links.
const MOST_LINKS: u32 = 64;

/// For each link with a number, in their order, a line with what became of it (that it is closed,
/// how often it failed, or else how often it was idle since bytes last passed), and one for each
/// frame that was sent to it; then a line for all that had no number, if there are any.
pub fn shown_links(alloc: Global, hall: &MemHall) -> Result<String, AllocError> {
    let mut text = String::new(alloc);
    for number in 1..MOST_LINKS {
        for back in hall.got().iter() {
            if is_numbered(back.0, number) {
                add_link(alloc, &mut text, number, &back.1)?;
            }
        }
    }
    add_others(alloc, &mut text, hall)?;
    Ok(text)
}

fn is_numbered(link: Option<LinkNo>, number: u32) -> bool {
    matches!(link, Some(link) if link.0 == number)
}

fn add_link(
    alloc: Global,
    text: &mut String,
    number: u32,
    link: &MemLink,
) -> Result<(), AllocError> {
    let (faults, idles) = (Link::<Blank>::faults(link), Link::<Blank>::idles(link));
    let line = if Link::<Blank>::closed(link) {
        format!(in alloc; "link {number}: closed\n")?
    } else if faults > 0 {
        format!(in alloc; "link {number}: {faults} faults\n")?
    } else {
        format!(in alloc; "link {number}: {idles} idle\n")?
    };
    text.push_str(&line)?;
    add_frames(alloc, text, link.sent())
}

// A line for all links that had no number: how many are closed, how often the others failed, and
// how often those were idle that never did.
fn add_others(alloc: Global, text: &mut String, hall: &MemHall) -> Result<(), AllocError> {
    let (mut count, mut closed, mut faults, mut idles) = (0_u32, 0_u32, 0_u64, 0_u64);
    for back in hall.got().iter() {
        if back.0.is_some() {
            continue;
        }
        count = count.saturating_add(1);
        let failed = Link::<Blank>::faults(&back.1);
        if Link::<Blank>::closed(&back.1) {
            closed = closed.saturating_add(1);
        } else if failed > 0 {
            faults = faults.saturating_add(failed);
        } else {
            idles = idles.saturating_add(Link::<Blank>::idles(&back.1));
        }
    }
    if count == 0 {
        return Ok(());
    }
    let line = format!(in alloc;
        "{count} without a number: {closed} closed, {faults} faults, {idles} idle\n"
    )?;
    text.push_str(&line)
}

// The frames of what was sent, a line each, and what is left of a frame that was cut short.
fn add_frames(alloc: Global, text: &mut String, bytes: &[u8]) -> Result<(), AllocError> {
    let mut left = bytes;
    for _ in 0..bytes.len() {
        let Some((head, rest)) = left.split_at_checked(4) else {
            break;
        };
        let length = u32::from_be_bytes([head[0], head[1], head[2], head[3]]) as usize;
        let Some((body, behind)) = rest.split_at_checked(length) else {
            break;
        };
        let digits = hex::encode(alloc, body)?;
        let line = format!(in alloc; "sent {length}: {digits}\n")?;
        text.push_str(&line)?;
        left = behind;
    }
    if !left.is_empty() {
        let digits = hex::encode(alloc, left)?;
        let line = format!(in alloc; "sent in part: {digits}\n")?;
        text.push_str(&line)?;
    }
    Ok(())
}
