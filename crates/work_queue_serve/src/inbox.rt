//! The requests, which a thread of its own reads.
use crossbeam_channel::Sender;
use links::Ring;
use std::alloc::{AllocError, Global};
use std::io::Read;
use std::mem;
use std::sync::Wait;

/// What is kept of a line: a byte more than a request may have.
const MOST_KEPT: usize = 16_777_217;

/// How many bytes are read at once, at most.
const PIECE: usize = 65_536;

/// What the thread tells.
#[derive(Drop)]
pub enum Heard {
    /// A line, without its newline; of a line that is too long its first bytes.
    Line(Vec<u8>),
    /// There are no more lines.
    Ended,
    /// The input can't be read, or there is no memory for what it has.
    Failed,
}

// The line that is being read, and where whole ones go.
#[derive(Drop)]
struct Lines<'a> {
    alloc: Global,
    to: &'a Sender<Heard>,
    line: Vec<u8>,
}

impl<'a> Lines<'a> {
    fn add(&mut self, part: &[u8]) -> Result<(), AllocError> {
        let room = MOST_KEPT.saturating_sub(self.line.len());
        let kept = part.len().min(room);
        self.line.extend_from_slice(&part[..kept])
    }

    // Hands the line over, and answers whether somebody takes it.
    fn end<W: Wait>(&mut self, rt: &W) -> bool {
        let line = mem::replace(&mut self.line, Vec::new(self.alloc));
        self.to.send(rt, Heard::Line(line)).is_ok()
    }

    // Takes what was read, and answers whether to go on.
    fn take<W: Wait>(&mut self, rt: &W, piece: &[u8]) -> Result<bool, AllocError> {
        let mut is_first = true;
        for part in piece.split(|byte| *byte == b'\n') {
            if !is_first && !self.end(rt) {
                return Ok(false);
            }
            is_first = false;
            self.add(part)?;
        }
        Ok(true)
    }
}

// Reads until the input ends, and answers whether it did.
fn read_lines<R: Input + AllocGlobal + Wait, B: Ring>(
    rt: &R,
    to: &Sender<Heard>,
    bell: &Option<B>,
) -> bool {
    let alloc = rt.alloc();
    let mut input = rt.reader();
    let mut lines = Lines {
        alloc,
        to,
        line: Vec::new(alloc),
    };
    let Ok(mut room) = Vec::from_elem(alloc, 0u8, PIECE) else {
        return false;
    };
    for _ in 0..u64::MAX {
        let Ok(count) = input.read(room.as_mut_slice()) else {
            return false;
        };
        if count == 0 {
            return lines.line.is_empty() || lines.end(rt);
        }
        if !matches!(lines.take(rt, &room[..count]), Ok(true)) {
            return false;
        }
        ring(bell);
    }
    false
}

fn ring<B: Ring>(bell: &Option<B>) {
    if let Some(bell) = bell {
        bell.ring();
    }
}

/// Reads all requests, hands them over, and rings where there are some.
pub fn read_all<R: Input + AllocGlobal + Wait, B: Ring>(
    rt: &R,
    to: &Sender<Heard>,
    bell: &Option<B>,
) {
    let end = if read_lines(rt, to, bell) {
        Heard::Ended
    } else {
        Heard::Failed
    };
    let _ = to.send(rt, end);
    ring(bell);
}
