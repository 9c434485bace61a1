//! The last words of a link.

use crate::laps::Laps;
use crate::queue::Queue;
use crate::tcp_link::has_waited;
use std::alloc::Global;
use std::collections::VecDeque;
use std::io::{Read, Write};
use std::net::{Shutdown, TcpStream};
use std::rt::Clock;
use std::time::Duration;

// How long the other end may take for what is left, and then for its own end.
const SEND_MILLIS: u64 = 10_000;

const END_MILLIS: u64 = 2_000;

// How long one call of the system waits, where it may.
const WAIT_MILLIS: u64 = 250;

// The most steps of a call that waits for nobody, and of one that waits.
const STEPS: u32 = 256;

const LAST_STEPS: u32 = 1_000_000;

// The most bytes that are thrown away at once.
const ROOM: usize = 16_384;

// The most connections that are kept for their last words.
const MOST_LASTS: usize = 256;

// What came of one step.
#[derive(Drop)]
enum Step {
    // There is more to do.
    Went,
    // The other end takes or gives nothing now.
    Waits,
    // The connection has ended.
    Ended,
}

/// The connection of a link that was let go, and what it took that hasn't gone out.
///
/// Once all went, it says that no more comes, and throws away what the other end still sends, until
/// that ends too: where a socket is closed over bytes that nobody read, the system drops what it
/// holds for the other end.
#[derive(Drop)]
pub(crate) struct Last {
    alloc: Global,
    stream: Option<TcpStream>,
    out: Queue,
    // What a read fills, made by the first one.
    room: Vec<u8>,
    // It has said that no more comes.
    said_all: bool,
    // How long it may still take.
    left: u64,
}

impl Last {
    /// These bytes are still to go out.
    pub fn new(alloc: Global, stream: Option<TcpStream>, out: Queue) -> Last {
        Last {
            alloc,
            stream,
            out,
            room: Vec::new(alloc),
            said_all: false,
            left: SEND_MILLIS,
        }
    }

    /// Goes on after so many milliseconds, as far as the other end lets it, and answers whether the
    /// connection has ended.
    pub fn send_on(&mut self, passed: u64) -> bool {
        if self.is_over(passed) {
            return true;
        }
        for _ in 0..STEPS {
            match self.step() {
                Step::Went => {}
                Step::Waits => return false,
                Step::Ended => return true,
            }
        }
        false
    }

    /// Goes on until the connection has ended or its time is over.
    pub fn send_last<C: Clock>(&mut self, clock: &C) {
        if !self.waits() {
            return;
        }
        let mut laps = Laps::new(clock);
        for _ in 0..LAST_STEPS {
            if matches!(self.step(), Step::Ended) {
                return;
            }
            if self.is_over(laps.tell(clock, WAIT_MILLIS)) {
                return;
            }
        }
    }

    // From here on the calls of the system wait, but not for long. Whether it could be had.
    fn waits(&self) -> bool {
        let Some(stream) = self.stream.as_ref() else {
            return false;
        };
        let time = Some(Duration::from_millis(WAIT_MILLIS));
        stream.set_nonblocking(false).is_ok()
            && stream.set_write_timeout(time).is_ok()
            && stream.set_read_timeout(time).is_ok()
    }

    // Whether its time is over, after so many milliseconds more.
    fn is_over(&mut self, passed: u64) -> bool {
        self.left = self.left.saturating_sub(passed);
        self.left == 0
    }

    // Sends some of what is left first, and else ends its own side, and else the other's.
    fn step(&mut self) -> Step {
        let Some(stream) = self.stream.as_mut() else {
            return Step::Ended;
        };
        if !self.out.is_empty() {
            return write(stream, &mut self.out);
        }
        if self.said_all {
            return throw_away(self.alloc, stream, &mut self.room);
        }
        self.said_all = true;
        self.left = END_MILLIS;
        match stream.shutdown(Shutdown::Write) {
            Ok(()) => Step::Went,
            Err(_) => Step::Ended,
        }
    }
}

// Sends some of what is left.
fn write(stream: &mut TcpStream, out: &mut Queue) -> Step {
    match stream.write(out.front()) {
        Ok(count) if 0 < count => {
            out.advance(count);
            Step::Went
        }
        Err(e) if has_waited(e.kind()) => Step::Waits,
        _ => Step::Ended,
    }
}

// Throws away what has come.
fn throw_away(alloc: Global, stream: &mut TcpStream, room: &mut Vec<u8>) -> Step {
    if room.is_empty() {
        match Vec::from_elem(alloc, 0u8, ROOM) {
            Ok(made) => *room = made,
            Err(_) => return Step::Ended,
        }
    }
    match stream.read(room.as_mut_slice()) {
        Ok(count) if 0 < count => Step::Went,
        Err(e) if has_waited(e.kind()) => Step::Waits,
        _ => Step::Ended,
    }
}

/// The last words of many links.
#[derive(Drop)]
pub(crate) struct Lasts {
    all: VecDeque<Last>,
}

impl Lasts {
    /// There are none.
    pub fn new(alloc: Global) -> Lasts {
        Lasts {
            all: VecDeque::new(alloc),
        }
    }

    /// Keeps these until they have gone out. Where there are very many, the oldest are cut off.
    pub fn keep(&mut self, mut last: Last) {
        if last.send_on(0) {
            return;
        }
        if self.all.len() >= MOST_LASTS {
            let _ = self.all.pop_front();
        }
        let _ = self.all.push_back(last);
    }

    /// Each goes on after so many milliseconds. It answers whether any is left.
    pub fn send_on(&mut self, passed: u64) -> bool {
        for _ in 0..self.all.len() {
            let Some(mut last) = self.all.pop_front() else {
                break;
            };
            if !last.send_on(passed) {
                let _ = self.all.push_back(last);
            }
        }
        !self.all.is_empty()
    }
}
