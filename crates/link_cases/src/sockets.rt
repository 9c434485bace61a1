//! A hall that listens on a port of this machine, a dial whose links it waits for too, and a second
//! hall. `comes given` and `comes dialled` tell whether something comes there within some seconds;
//! `message N` makes a message of 65,537 bytes, doubled N times; `hear dialled` and `hear both`
//! tell how many bytes of it the dialled and the given end have heard; `clock` begins a time, and
//! `took` tells whether it was short; `second listen`, `second faults`, `second gone`; `renew` has
//! another hall in the hall's place, at another port; `part` and `last` tell whether the dialled end
//! hears all of a message while the hall parts, and the given end while the dialled one sends its
//! last words; `ring` whether a ring from another thread ends a wait.
ghost use Rattle.std.specs.Prelude.{◌≡◌, true};

use crate::hall_calls::{of_dial, of_hall, open, something_comes};
use crate::hearing::{hear, message, shown_heard};
use crate::last_words::{hears_last_words, hears_while_parting, is_rung};
use crate::link_calls::of_end;
use crate::words::{counted, first, number_of, said, yes_or_no};
use links::{Hall, Link};
use mem_outside::Blank;
use outside::Fault;
use real_links::{TcpDial, TcpHall, TcpLink};
use std::alloc::{AllocError, Global};
use std::rt::{Clock, HostRuntime};
use std::thread::Threads;
use std::time::Instant;

// Milliseconds within which a call answers. The machine may be busy.
const SOON: u128 = 900;

// How far below the case's port another hall's lies: no case looks for one there.
const PORTS_BELOW: u16 = 10_000;

/// What a case over sockets calls.
#[derive(Drop)]
pub struct Sockets<'a> {
    rt: &'a HostRuntime,
    hall: TcpHall<'a, HostRuntime>,
    second: TcpHall<'a, HostRuntime>,
    dial: TcpDial<'a, HostRuntime>,
    port: u16,
    message: Vec<u8>,
    start: Option<Instant>,
    dialled: Option<TcpLink>,
    given: Option<TcpLink>,
    ghost listens: { hall.listens ≡ true },
}

impl<'a> Sockets<'a> {
    /// A hall on the first free port from this one on. None where there is none.
    pub fn new(rt: &'a HostRuntime, from: u16) -> Option<Sockets<'a>> {
        let alloc = rt.alloc();
        let mut hall = TcpHall::new(rt, alloc);
        let port = open(&mut hall, from)?;
        let dial = TcpDial::beside(rt, alloc, &hall);
        Some(Sockets {
            rt,
            hall,
            second: TcpHall::new(rt, alloc),
            dial,
            port,
            message: Vec::new(alloc),
            start: None,
            dialled: None,
            given: None,
        })
    }

    /// Makes the call of a line, and says its answer.
    pub fn answer<T>(&mut self, rt: &T, alloc: Global, line: &str) -> Result<String, AllocError>
    where
        T: Threads + Clock + Sync,
    {
        let (object, rest) = first(line);
        match object {
            "hall" => of_hall(alloc, &mut self.hall, &mut self.given, rest),
            "dial" => of_dial(alloc, &mut self.dial, &mut self.dialled, self.port, rest),
            "given" => of_end(alloc, &mut self.given, self.message.as_slice(), rest),
            "dialled" => of_end(alloc, &mut self.dialled, self.message.as_slice(), rest),
            "second" => of_second(self.rt, alloc, &mut self.second, self.port, rest),
            "message" => makes(alloc, &mut self.message, number_of(rest)),
            _ => self.meanwhile(rt, alloc, object, rest),
        }
    }

    // What needs both ends, a clock or a second thread.
    fn meanwhile<T>(
        &mut self,
        rt: &T,
        alloc: Global,
        call: &str,
        rest: &str,
    ) -> Result<String, AllocError>
    where
        T: Threads + Clock + Sync,
    {
        let (hall, dialled, given) = (&mut self.hall, &mut self.dialled, &mut self.given);
        let message = self.message.as_slice();
        match call {
            "hear" => shown_heard(
                alloc,
                hear(alloc, hall, dialled, given, message, rest == "both"),
            ),
            "comes" => said(alloc, comes(hall, dialled, given, rest)),
            "clock" => said(alloc, begins(rt, &mut self.start)),
            "took" => said(alloc, took(rt, self.start.as_ref())),
            "ring" => said(alloc, is_rung(rt, hall)),
            "part" => said(
                alloc,
                hears_while_parting(rt, alloc, hall, dialled, message),
            ),
            "last" => said(alloc, hears_last_words(rt, alloc, dialled, given, message)),
            "renew" => said(alloc, renews(self.rt, alloc, hall, self.port)),
            _ => said(alloc, "no object"),
        }
    }
}

// Another hall in the hall's place, at another port.
fn renews<'a>(
    rt: &'a HostRuntime,
    alloc: Global,
    hall: &mut TcpHall<'a, HostRuntime>,
    port: u16,
) -> &'static str
    requires { hall.old.listens ≡ true }
    ensures { hall.new.listens ≡ true }
{
    let mut other = TcpHall::new(rt, alloc);
    if open(&mut other, port.saturating_sub(PORTS_BELOW)).is_none() {
        return "no port";
    }
    *hall = other;
    "renewed"
}

fn of_second<'a>(
    rt: &'a HostRuntime,
    alloc: Global,
    second: &mut TcpHall<'a, HostRuntime>,
    port: u16,
    call: &str,
) -> Result<String, AllocError> {
    match call {
        "listen" => said(alloc, listens(second, port)),
        "faults" => counted(alloc, Hall::<Blank>::faults(second)),
        _ => {
            *second = TcpHall::new(rt, alloc);
            said(alloc, "gone")
        }
    }
}

fn listens(hall: &mut TcpHall<'_, HostRuntime>, port: u16) -> &'static str {
    match Hall::<Blank>::listen(hall, port) {
        Ok(()) => "listens",
        Err(Fault::Failed) => "failed",
        Err(Fault::Memory) => "no memory",
    }
}

fn makes(alloc: Global, kept: &mut Vec<u8>, doublings: u64) -> Result<String, AllocError> {
    *kept = message(alloc, doublings)?;
    counted(alloc, kept.len() as u64)
}

fn comes<H: Hall<Blank>, L: Link<Blank>, M: Link<Blank>>(
    hall: &mut H,
    dialled: &mut Option<L>,
    given: &mut Option<M>,
    end: &str,
) -> &'static str
    ensures { hall.new ≡ hall.old }
{
    match end {
        "given" => yes_or_no(something_comes(hall, given)),
        _ => yes_or_no(something_comes(hall, dialled)),
    }
}

fn begins<C: Clock>(clock: &C, start: &mut Option<Instant>) -> &'static str {
    *start = Instant::now(clock).ok();
    "begins"
}

fn took<C: Clock>(clock: &C, start: Option<&Instant>) -> &'static str {
    let Some(start) = start else {
        return "no clock";
    };
    match start.elapsed(clock) {
        Ok(passed) if passed.as_millis() < SOON => "soon",
        _ => "late",
    }
}
