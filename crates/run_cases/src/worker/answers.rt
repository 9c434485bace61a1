//! How a call ended, as text.
use cases::shown;
use mem_links::MemLink;
use peer_run::{PeerCause, PeerEnded};
use std::alloc::{AllocError, Global};

// The frames of what was sent, a line each, and what is left of a frame that was cut short.
fn add_frames(alloc: Global, text: &mut String, bytes: &[u8]) -> Result<(), AllocError> {
    let mut left = bytes;
    for _ in 0..bytes.len() {
        let Some((head, rest)) = left.split_at_checked(4) else {
            break;
        };
        let length = u32::from_be_bytes([head[0], head[1], head[2], head[3]]) as usize;
        let Some((body, behind)) = rest.split_at_checked(length) else {
            break;
        };
        let digits = hex::encode(alloc, body)?;
        let line = format!(in alloc; "sent {length}: {digits}\n")?;
        text.push_str(&line)?;
        left = behind;
    }
    if !left.is_empty() {
        let digits = hex::encode(alloc, left)?;
        let line = format!(in alloc; "sent in part: {digits}\n")?;
        text.push_str(&line)?;
    }
    Ok(())
}

/// The status, the cause and what was printed, and what was sent.
pub fn shown_end(
    alloc: Global,
    ended: &PeerEnded<MemLink>,
    printed: &[u8],
) -> Result<String, AllocError> {
    let status = ended.status;
    let cause = ended.cause;
    let printed = shown(alloc, printed)?;
    let mut text = format!(in alloc; "status {status} {cause:?} prints {printed}\n")?;
    match &ended.link {
        Some(link) => add_frames(alloc, &mut text, link.sent())?,
        None => text.push_str("no link\n")?,
    }
    Ok(text)
}
