//! Where one waits for sockets.
use crate::laps::Laps;
use links::Ring;
use mio::unix::SourceFd;
use mio::{Events, Interest, Poll, Registry, Token, Waker};
use std::alloc::Global;
use std::net::Net;
use std::os::fd::{AsRawFd, RawFd};
use std::rt::Clock;
use std::time::Duration;
use std::{io, thread};

// The most events of one wait. Each link is looked at after it, so one would do.
const EVENTS: usize = 64;

// How long a wait is where the system tells no events.
const NAP_MILLIS: u64 = 5;

// Every socket has the same name: who waits looks at all.
const SOCKET: Token = Token(0);

const RINGER: Token = Token(1);

/// Ends a wait from another thread.
#[derive(Drop)]
pub struct TcpRinger {
    waker: Waker,
}

impl Ring for TcpRinger {
    fn ring(&self) {
        let _ = self.waker.wake();
    }
}

// The system's set of sockets, and what it has told of them.
#[derive(Drop)]
struct Watch {
    poll: Poll,
    events: Events,
}

/// Where one waits for sockets and ringers. Where the system has no such place, one naps.
///
/// The system tells of a socket once when it has news, so who waits has looked at each socket
/// before, and has sent on as far as the other end takes it.
#[derive(Drop)]
pub(crate) struct Place {
    watch: Option<Watch>,
    laps: Laps,
}

// A name for sockets that another place waits for.
#[derive(Drop)]
pub(crate) struct Members {
    registry: Option<Registry>,
}

impl Members {
    /// Has the place end its waits where this socket has news.
    pub fn add<S: AsRawFd>(&self, socket: &S) {
        if let Some(registry) = self.registry.as_ref() {
            register(registry, socket);
        }
    }
}

impl Place {
    /// A place at which nobody is waited for yet.
    pub fn new<R: Net + Clock>(rt: &R, alloc: Global) -> Place {
        Place {
            watch: new_watch(rt, alloc).ok(),
            laps: Laps::new(rt),
        }
    }

    /// Ends its waits where this socket has news.
    pub fn add<S: AsRawFd>(&self, socket: &S) {
        if let Some(watch) = self.watch.as_ref() {
            register(watch.poll.registry(), socket);
        }
    }

    /// For those who have the place wait for further sockets.
    pub fn members(&self) -> Members {
        Members {
            registry: match self.watch.as_ref() {
                Some(watch) => watch.poll.registry().try_clone().ok(),
                None => None,
            },
        }
    }

    /// What ends a wait from another thread.
    pub fn ringer(&self) -> Option<TcpRinger> {
        let watch = self.watch.as_ref()?;
        match Waker::new(watch.poll.registry(), RINGER) {
            Ok(waker) => Some(TcpRinger { waker }),
            Err(_) => None,
        }
    }

    /// Waits for news, but no longer than so many milliseconds, and answers how many went by since
    /// it last answered, or else since it was made.
    pub fn rest<C: Clock>(&mut self, clock: &C, millis: u64) -> u64 {
        self.wait(clock, millis);
        self.laps.tell(clock, millis)
    }

    fn wait<C: Clock>(&mut self, clock: &C, millis: u64) {
        let Some(watch) = self.watch.as_mut() else {
            nap(clock, millis);
            return;
        };
        let time = Some(Duration::from_millis(millis));
        if watch.poll.poll(&mut watch.events, time).is_err() {
            nap(clock, millis);
        }
    }
}

fn new_watch<N: Net>(net: &N, alloc: Global) -> io::Result<Watch> {
    let poll = Poll::new(net)?;
    let events = Events::with_capacity(alloc, EVENTS)?;
    Ok(Watch { poll, events })
}

// A socket that the system doesn't take is looked at after each wait, as each is.
fn register<S: AsRawFd>(registry: &Registry, socket: &S) {
    let fd: RawFd = socket.as_raw_fd();
    let both = Interest::READABLE | Interest::WRITABLE;
    let _ = registry.register(&mut SourceFd(&fd), SOCKET, both);
}

fn nap<C: Clock>(clock: &C, millis: u64) {
    thread::sleep(clock, Duration::from_millis(millis.min(NAP_MILLIS)));
}
