//! A link over a socket.
ghost use Rattle.std.specs.Prelude.{◌≡◌, ◌≤◌, [], false, IfOk, length};

use crate::last::Last;
use crate::queue::Queue;
use flow_types::{Bytes, Memory};
use links::{Got, Link};
use outside::{Commands, Fault, failed};
use std::alloc::Global;
use std::io::{self, ErrorKind, Read, Write};
use std::marker::Model;
use std::mem::replace;
use std::net::TcpStream;
use std::rt::Clock;

// The most bytes of a piece.
const PIECE: usize = 65_536;

// The most writes of one call, so that a peer that reads fast doesn't hold the caller. A call that
// stops at them is followed by a wait that nothing may end, so there are many.
const WRITES: u32 = 256;

// What looks have found that no `recv` has told.
#[derive(Drop)]
enum Found {
    Nothing,
    Piece(Bytes),
    End,
    Failure,
}

/// A connection to a peer. Contracts see its counts, and not the socket.
#[derive(Drop)]
pub struct TcpLink {
    alloc: Global,
    stream: Option<TcpStream>,
    found: Found,
    // What a read fills, made by the first one.
    room: Vec<u8>,
    out: Queue,
    waiting: u64,
    // A write has failed, which the system tells once, or the other end took nothing for too long.
    broken: bool,
    // Bytes went out since the last flush, and how many flushes in a row saw none go.
    moved: bool,
    stuck: u64,
    closed: bool,
    faults: u64,
    idles: u64,
}

impl Model for TcpLink {
    ghost use Rattle.std.specs.Prelude.{Bool, ℕ};

    ghost Value = { Bool × (ℕ × ℕ) };

    ghost view = { λ link. (link.closed, (link.faults, link.idles)) };
}

impl TcpLink {
    // A link over this socket.
    pub(crate) fn over(alloc: Global, stream: TcpStream) -> io::Result<TcpLink>
        ensures { IfOk result (λ link. link ≡ (false, (0, 0))) }
    {
        stream.set_nonblocking(true)?;
        stream.set_nodelay(true)?;
        Ok(TcpLink {
            alloc,
            stream: Some(stream),
            found: Found::Nothing,
            room: Vec::new(alloc),
            out: Queue::new(alloc),
            waiting: 0,
            broken: false,
            moved: false,
            stuck: 0,
            closed: false,
            faults: 0,
            idles: 0,
        })
    }

    // Whether some of what it took hasn't gone out.
    pub(crate) fn owes(&self) -> bool {
        self.waiting > 0
    }

    // Parts with the connection, with what waits to go out and with what came, and keeps the counts.
    pub(crate) fn part(&mut self) -> Last
        ensures { self.new ≡ self.old }
    {
        let out = replace(&mut self.out, Queue::new(self.alloc));
        self.waiting = 0;
        self.room = Vec::new(self.alloc);
        self.found = Found::Nothing;
        Last::new(self.alloc, self.stream.take(), out)
    }

    /// Ends the connection once what it took has gone out. It waits up to ten seconds for the other
    /// end to take that, and up to two more for it to end. A link that is dropped without this call
    /// loses what waits to go out. To be called by the program, at its end.
    pub fn send_last<C: Clock>(&mut self, clock: &C)
        ensures { self.new ≡ self.old }
    {
        self.part().send_last(clock);
    }

    // Nothing more goes out.
    fn break_off(&mut self)
        ensures { self.new ≡ self.old }
    {
        self.broken = true;
        self.out = Queue::new(self.alloc);
        self.waiting = 0;
    }

    // How many of these bytes the other end takes now, before which nothing waits.
    fn write(&mut self, bytes: &[u8]) -> usize
        ensures link { self.new ≡ self.old }
        ensures count { result ≤ length bytes.now }
    {
        let Some(stream) = self.stream.as_mut() else {
            self.break_off();
            return 0;
        };
        match stream.write(bytes) {
            Ok(0) if !bytes.is_empty() => {
                self.break_off();
                0
            }
            Ok(count) => {
                self.moved = true;
                count
            }
            Err(e) if has_waited(e.kind()) => 0,
            Err(_) => {
                self.break_off();
                0
            }
        }
    }

    // Sends on what waits, as far as the other end takes it.
    fn push_on(&mut self)
        ensures { self.new ≡ self.old }
    {
        for _ in 0..WRITES {
            if self.out.is_empty() || !self.push_once() {
                return;
            }
        }
    }

    // Sends on what waits first, and answers whether all of that went.
    fn push_once(&mut self) -> bool
        ensures { self.new ≡ self.old }
    {
        let Some(stream) = self.stream.as_mut() else {
            return false;
        };
        let front = self.out.front();
        let most = front.len();
        match stream.write(front) {
            Ok(count) if 0 < count => {
                self.out.advance(count);
                self.waiting = self.waiting.saturating_sub(count as u64);
                self.moved = true;
                count == most
            }
            Err(e) if has_waited(e.kind()) => false,
            _ => {
                self.break_off();
                false
            }
        }
    }

    // Takes bytes of which the first so many have gone out.
    fn keep(&mut self, bytes: Bytes, gone: usize) -> Result<(), Memory>
        requires { gone ≤ length bytes }
        ensures { self.new ≡ self.old }
    {
        let left = bytes.as_slice().len() - gone;
        if left == 0 {
            return Ok(());
        }
        let Some(waiting) = self.waiting.checked_add(left as u64) else {
            return Err(Memory);
        };
        self.out.push(self.alloc, bytes, gone)?;
        self.waiting = waiting;
        Ok(())
    }

    // Sends on what waits, and then these, and answers how many of them went.
    fn pass(&mut self, bytes: &[u8]) -> usize
        ensures link { self.new ≡ self.old }
        ensures count { result ≤ length bytes.now }
    {
        self.push_on();
        if self.broken || !self.out.is_empty() {
            return 0;
        }
        self.write(bytes)
    }

    // Finds what is there, where nothing was found yet. Where there is no memory nothing is taken.
    fn look(&mut self) -> Result<(), Memory>
        ensures { self.new ≡ self.old }
    {
        self.push_on();
        if !matches!(self.found, Found::Nothing) {
            return Ok(());
        }
        if self.room.is_empty() {
            match Vec::from_elem(self.alloc, 0u8, PIECE) {
                Ok(room) => self.room = room,
                Err(_) => return Err(Memory),
            }
        }
        self.found = self.read()?;
        Ok(())
    }

    // What is there.
    fn read(&mut self) -> Result<Found, Memory>
        ensures { self.new ≡ self.old }
    {
        let Some(stream) = self.stream.as_mut() else {
            return Ok(Found::End);
        };
        match stream.read(self.room.as_mut_slice()) {
            Ok(0) => Ok(Found::End),
            Ok(count) => Ok(Found::Piece(Bytes::of(self.alloc, &self.room[..count])?)),
            Err(e) if has_waited(e.kind()) => Ok(Found::Nothing),
            Err(_) => Ok(Found::Failure),
        }
    }
}

impl<F: Commands> Link<F> for TcpLink {
    ghost tells = { ⊥ };

    ghost history = { λ link. [] };

    ghost honest = { λ link. ⊥ };

    ghost sure = { λ link. ⊥ };

    ghost offers = { λ link amounts. ⊥ };

    ghost count = { λ link. link.1.0 };

    ghost idle_count = { λ link. link.1.1 };

    ghost is_closed = { λ link. link.0 };

    ghost honest_is = { λ link none. absurd none };

    ghost sure_is = { λ link none. absurd none };

    ghost offers_is = { λ link amounts none. absurd none };

    fn send(&mut self, bytes: &[u8]) -> Result<(), Fault> {
        let gone = self.pass(bytes);
        if self.broken {
            return Err(failed(&mut self.faults));
        }
        if gone < bytes.len() {
            self.keep(Bytes::of(self.alloc, &bytes[gone..])?, 0)?;
        }
        self.idles = 0;
        Ok(())
    }

    fn hand(&mut self, bytes: Bytes) -> Result<(), Fault> {
        let gone = self.pass(bytes.as_slice());
        if self.broken {
            return Err(failed(&mut self.faults));
        }
        self.keep(bytes, gone)?;
        self.idles = 0;
        Ok(())
    }

    fn behind(&self) -> u64 {
        self.waiting
    }

    fn flush(&mut self, patience: u64) -> Result<u64, Fault> {
        self.push_on();
        if self.broken {
            return Err(failed(&mut self.faults));
        }
        let moved = replace(&mut self.moved, false);
        if moved || self.out.is_empty() {
            self.stuck = 0;
            return Ok(self.waiting);
        }
        self.stuck = self.stuck.saturating_add(1);
        if self.stuck < patience {
            return Ok(self.waiting);
        }
        self.break_off();
        Err(failed(&mut self.faults))
    }

    fn recv(&mut self, _alloc: Global) -> Result<Got, Fault> {
        self.look()?;
        match replace(&mut self.found, Found::Nothing) {
            Found::Piece(piece) if !piece.as_slice().is_empty() => {
                self.idles = 0;
                Ok(Got::Piece(piece))
            }
            Found::End => {
                self.found = Found::End;
                self.closed = true;
                Ok(Got::Closed)
            }
            Found::Failure => {
                self.found = Found::Failure;
                Err(failed(&mut self.faults))
            }
            _ if self.broken => Err(failed(&mut self.faults)),
            _ if self.idles == u64::MAX => Err(Fault::Memory),
            _ => {
                self.idles += 1;
                Ok(Got::Idle)
            }
        }
    }

    fn ready(&mut self) -> bool {
        self.look().is_err() || self.broken || !matches!(self.found, Found::Nothing)
    }

    fn faults(&self) -> u64 {
        self.faults
    }

    fn idles(&self) -> u64 {
        self.idles
    }

    fn closed(&self) -> bool {
        self.closed
    }
}

// The other end takes or gives nothing now, or a stop of the program has cut the call short.
pub(crate) fn has_waited(kind: ErrorKind) -> bool {
    matches!(kind, ErrorKind::WouldBlock | ErrorKind::Interrupted)
}
