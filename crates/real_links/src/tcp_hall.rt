//! A hall over a listening socket.
ghost use Rattle.std.specs.Prelude.{◌≡◌, [], true, false, IfOk, IfSome};

use crate::last::Lasts;
use crate::place::{Members, Place, TcpRinger};
use crate::tcp_link::TcpLink;
use flow_types::{LinkNo, Memory};
use links::{Came, Hall};
use outside::{Commands, Fault, failed};
use std::alloc::Global;
use std::io::{self, ErrorKind};
use std::marker::Model;
use std::net::{Net, TcpListener, TcpStream};
use std::rt::Clock;

// The most waits for last words, each no longer than this.
const LAST_WAITS: u32 = 100_000;

const LAST_MILLIS: u64 = 250;

/// Where peers come. It waits for none of them. Contracts see whether it listens, the links that
/// were handed back, and its counts.
#[derive(Drop)]
pub struct TcpHall<'a, R: Net<Listener = TcpListener, Stream = TcpStream> + Clock> {
    rt: &'a R,
    alloc: Global,
    place: Place,
    listener: Option<TcpListener>,
    // Who has come and wasn't given yet.
    came: Option<TcpStream>,
    got: Vec<(Option<LinkNo>, TcpLink)>,
    lasts: Lasts,
    given: u64,
    faults: u64,
    idles: u64,
}

impl<'a, R: Net<Listener = TcpListener, Stream = TcpStream> + Clock> Model for TcpHall<'a, R> {
    ghost use Rattle.std.specs.Prelude.{is_some};
    ghost use Rattle.real_links.specs.Halls.{HallState};

    ghost Value = { HallState };

    ghost view = { λ h. record {
      listens = is_some h.listener;
      got = h.got.items;
      given = h.given;
      faults = h.faults;
      idles = h.idles;
    } };
}

impl<'a, R: Net<Listener = TcpListener, Stream = TcpStream> + Clock> TcpHall<'a, R> {
    /// A hall that doesn't listen yet.
    pub fn new(rt: &'a R, alloc: Global) -> TcpHall<'a, R> {
        TcpHall {
            rt,
            alloc,
            place: Place::new(rt, alloc),
            listener: None,
            came: None,
            got: Vec::new(alloc),
            lasts: Lasts::new(alloc),
            given: 0,
            faults: 0,
            idles: 0,
        }
    }

    /// What ends its waits from another thread. None where the system has none, or no memory.
    pub fn ringer(&self) -> Option<TcpRinger> {
        self.place.ringer()
    }

    // For a dial whose links this hall's waits are for.
    pub(crate) fn members(&self) -> Members {
        self.place.members()
    }

    // Waits, and sends on for the links that were handed back before and after it.
    fn pause(&mut self, millis: u64) -> u64
        ensures { self.new ≡ self.old }
    {
        self.lasts.send_on(0);
        let passed = self.place.rest(self.rt, millis);
        self.lasts.send_on(passed);
        passed
    }

    /// Waits until the links that were handed back have sent what they took and their other ends
    /// have ended, no longer than ten seconds for the one and two more for the other. Where the hall
    /// is dropped without this call, what waits to go out is lost. To be called by the program, at
    /// its end.
    pub fn part(&mut self)
        ensures { self.new ≡ self.old }
    {
        for _ in 0..LAST_WAITS {
            if !self.lasts.send_on(0) {
                return;
            }
            self.pause(LAST_MILLIS);
        }
    }

    // The next peer: who came already, or who is there now.
    fn next(&mut self) -> io::Result<Option<TcpLink>>
        ensures hall { self.new ≡ self.old }
        ensures fresh { IfOk result (λ link. IfSome link (λ l. l ≡ (false, (0, 0)))) }
    {
        let came = match self.came.take() {
            Some(stream) => Some(stream),
            None => accepted(self.listener.as_ref())?,
        };
        match came {
            Some(stream) => {
                self.place.add(&stream);
                Ok(Some(TcpLink::over(self.alloc, stream)?))
            }
            None => Ok(None),
        }
    }
}

impl<'a, F, R> Hall<F> for TcpHall<'a, R>
where
    F: Commands,
    R: Net<Listener = TcpListener, Stream = TcpStream> + Clock + Sync,
{
    type Way = TcpLink;

    ghost listens = { λ hall. hall.listens ≡ true };

    ghost given = { λ hall. hall.given };

    ghost got = { λ hall. hall.got };

    ghost honest = { λ hall. ⊥ };

    ghost sure = { λ hall. ⊥ };

    ghost manned = { λ hall amounts. ⊥ };

    ghost staffed = { λ hall amounts. ⊥ };

    ghost count = { λ hall. hall.faults };

    ghost idle_count = { λ hall. hall.idles };

    ghost manned_is = { λ hall amounts none. absurd none };

    fn listen(&mut self, port: u16) -> Result<(), Fault> {
        match bound(self.rt, port) {
            Ok(listener) => {
                self.place.add(&listener);
                self.listener = Some(listener);
                Ok(())
            }
            Err(_) => Err(failed(&mut self.faults)),
        }
    }

    fn wait(&mut self, _alloc: Global) -> Result<Came<TcpLink>, Fault> {
        if self.given == u64::MAX || self.idles == u64::MAX {
            return Err(Fault::Memory);
        }
        match self.next() {
            Ok(Some(link)) => {
                self.given += 1;
                Ok(Came::Link(link))
            }
            Ok(None) => {
                self.idles += 1;
                Ok(Came::Idle)
            }
            Err(_) => Err(failed(&mut self.faults)),
        }
    }

    fn ready(&mut self) -> bool {
        if self.came.is_some() {
            return true;
        }
        match accepted(self.listener.as_ref()) {
            Ok(None) => false,
            Ok(came) => {
                self.came = came;
                true
            }
            Err(_) => true,
        }
    }

    fn rest(&mut self, millis: u64) -> u64 {
        self.pause(millis)
    }

    fn back(
        &mut self,
        _alloc: Global,
        link: Option<LinkNo>,
        mut way: TcpLink,
    ) -> Result<(), Memory> {
        let owes = way.owes();
        let last = way.part();
        // Who never joined and is owed nothing has no last words to wait for.
        if owes || link.is_some() {
            self.lasts.keep(last);
        }
        match self.got.push((link, way)) {
            Ok(()) => Ok(()),
            Err(_) => Err(Memory),
        }
    }

    fn faults(&self) -> u64 {
        self.faults
    }

    fn idles(&self) -> u64 {
        self.idles
    }
}

// A socket on each address of this machine, at which nobody is waited for.
fn bound<R>(rt: &R, port: u16) -> io::Result<TcpListener>
where
    R: Net<Listener = TcpListener, Stream = TcpStream>,
{
    let listener = TcpListener::bind(rt, ("0.0.0.0", port))?;
    listener.set_nonblocking(true)?;
    Ok(listener)
}

// Who is there, if anybody. Where nobody listens there is nobody.
fn accepted(listener: Option<&TcpListener>) -> io::Result<Option<TcpStream>> {
    let Some(listener) = listener else {
        return Ok(None);
    };
    match listener.accept() {
        Ok((stream, _)) => Ok(Some(stream)),
        Err(e) if has_nobody(&e) => Ok(None),
        Err(e) => Err(e),
    }
}

// Nobody has come, or who came is gone again, or nobody can come now.
fn has_nobody(e: &io::Error) -> bool {
    match e.raw_os_error() {
        Some(number) => PASSING.contains(&number),
        None => e.kind() == ErrorKind::WouldBlock,
    }
}

// What `accept` answers that passes by itself, by Linux's numbers: EINTR, EAGAIN, EPERM, EPROTO,
// ENONET, ENFILE, EMFILE, EOPNOTSUPP, ENOPROTOOPT, ENETDOWN, ENETUNREACH, ECONNABORTED, ENOBUFS,
// ETIMEDOUT, EHOSTDOWN and EHOSTUNREACH.
const PASSING: [i32; 16] = [
    4, 11, 1, 71, 64, 23, 24, 95, 92, 100, 101, 103, 105, 110, 112, 113,
];
