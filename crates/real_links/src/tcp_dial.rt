//! A dial over sockets.
ghost use Rattle.std.specs.Prelude.{◌≡◌, false, IfOk};

use crate::place::{Members, Place, TcpRinger};
use crate::tcp_hall::TcpHall;
use crate::tcp_link::TcpLink;
use links::Dial;
use outside::{Commands, Fault, failed};
use std::alloc::Global;
use std::io::{self, ErrorKind};
use std::marker::Model;
use std::net::{Net, TcpListener, TcpStream, ToSocketAddrs};
use std::rt::Clock;
use std::time::Duration;

// How long each address of a host may take to answer.
const CONNECT_SECONDS: u64 = 1;

/// Connects to hosts by their names or addresses. Contracts see its count of failures.
#[derive(Drop)]
pub struct TcpDial<'a, R> {
    rt: &'a R,
    place: Place,
    members: Members,
    faults: u64,
}

impl<'a, R> Model for TcpDial<'a, R> {
    ghost use Rattle.std.specs.Prelude.{ℕ};

    ghost Value = { ℕ };

    ghost view = { λ dial. dial.faults };
}

impl<'a, R: Net<Listener = TcpListener, Stream = TcpStream> + Clock> TcpDial<'a, R> {
    /// A dial that has made no link yet.
    pub fn new(rt: &'a R, alloc: Global) -> TcpDial<'a, R> {
        let place = Place::new(rt, alloc);
        let members = place.members();
        TcpDial {
            rt,
            place,
            members,
            faults: 0,
        }
    }

    /// The same, whose links a hall's waits are for, and not its own.
    pub fn beside(rt: &'a R, alloc: Global, hall: &TcpHall<'a, R>) -> TcpDial<'a, R> {
        TcpDial {
            rt,
            place: Place::new(rt, alloc),
            members: hall.members(),
            faults: 0,
        }
    }
}

impl<'a, F, R> Dial<F> for TcpDial<'a, R>
where
    F: Commands,
    R: Net<Listener = TcpListener, Stream = TcpStream> + Clock + Sync,
{
    type Way = TcpLink;

    type Ringer = TcpRinger;

    ghost count = { λ dial. dial };

    fn dial(&mut self, alloc: Global, host: &str, port: u16) -> Result<TcpLink, Fault> {
        match linked(self.rt, alloc, &self.members, host, port) {
            Ok(link) => Ok(link),
            Err(_) => Err(failed(&mut self.faults)),
        }
    }

    fn rest(&mut self, millis: u64) -> u64 {
        self.place.rest(self.rt, millis)
    }

    fn ringer(&mut self) -> Option<TcpRinger> {
        self.place.ringer()
    }

    fn faults(&self) -> u64 {
        self.faults
    }
}

fn linked<R: Net<Stream = TcpStream>>(
    rt: &R,
    alloc: Global,
    members: &Members,
    host: &str,
    port: u16,
) -> io::Result<TcpLink>
    ensures { IfOk result (λ link. link ≡ (false, (0, 0))) }
{
    let stream = connect(rt, host, port)?;
    members.add(&stream);
    TcpLink::over(alloc, stream)
}

// Tries each address of the host in turn.
fn connect<R: Net<Stream = TcpStream>>(rt: &R, host: &str, port: u16) -> io::Result<TcpStream> {
    for address in (host, port).to_socket_addrs(rt)? {
        let wait = Duration::from_secs(CONNECT_SECONDS);
        if let Ok(stream) = TcpStream::connect_timeout(rt, &address, wait) {
            return Ok(stream);
        }
    }
    Err(io::Error::from(ErrorKind::ConnectionRefused))
}
