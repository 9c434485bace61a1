//! Behind `hall`: `ready`, `wait`, whose link is then the given end, `comes` for whether somebody
//! comes within some seconds, `back` and `back NUMBER` for the given end, `faults` and `idles`.
//! Behind `dial`: `new`, whose link is then the dialled end, and `faults`.
ghost use Rattle.std.specs.Prelude.{◌≡◌, IfSome};

use crate::words::{counted, first, said, yes_or_no};
use flow_types::LinkNo;
use links::{Came, Dial, Hall, Link};
use mem_outside::Blank;
use outside::Fault;
use std::alloc::{AllocError, Global};

// How many ports a hall tries.
const PORTS: u16 = 100;

// How often one waits for what is to come, and how long.
const WAITS: u32 = 100;

const REST_MILLIS: u64 = 100;

/// Listens on the first port from this one on at which nobody does.
pub fn open<H: Hall<Blank>>(hall: &mut H, first: u16) -> Option<u16>
    ensures { IfSome result (λ port. H.listens hall.new) }
{
    for step in 0..PORTS {
        let port = first.saturating_add(step);
        if hall.listen(port).is_ok() {
            return Some(port);
        }
    }
    None
}

/// Whether somebody comes to a hall, within some seconds.
pub fn somebody_comes<H: Hall<Blank>>(hall: &mut H) -> bool
    ensures { hall.new ≡ hall.old }
{
    for _ in 0..WAITS {
        if hall.ready() {
            return true;
        }
        hall.rest(REST_MILLIS);
    }
    false
}

/// Whether something comes over one of the hall's links, within some seconds.
pub fn something_comes<H: Hall<Blank>, L: Link<Blank>>(hall: &mut H, end: &mut Option<L>) -> bool
    ensures { hall.new ≡ hall.old }
{
    let Some(link) = end.as_mut() else {
        return false;
    };
    for _ in 0..WAITS {
        if link.ready() {
            return true;
        }
        hall.rest(REST_MILLIS);
    }
    false
}

/// Makes a call of a hall, and says its answer.
pub fn of_hall<H: Hall<Blank>>(
    alloc: Global,
    hall: &mut H,
    given: &mut Option<H::Way>,
    line: &str,
) -> Result<String, AllocError>
    requires { H.listens hall.old }
    ensures { H.listens hall.new }
{
    let (call, rest) = first(line);
    match call {
        "wait" => said(alloc, waits(alloc, hall, given)?),
        "back" => said(alloc, takes_back(alloc, hall, given, rest)?),
        "ready" => said(alloc, yes_or_no(hall.ready())),
        "comes" => said(alloc, yes_or_no(somebody_comes(hall))),
        "faults" => counted(alloc, hall.faults()),
        "idles" => counted(alloc, hall.idles()),
        _ => said(alloc, "no call"),
    }
}

fn waits<H: Hall<Blank>>(
    alloc: Global,
    hall: &mut H,
    given: &mut Option<H::Way>,
) -> Result<&'static str, AllocError>
    requires { H.listens hall.old }
    ensures { H.listens hall.new }
{
    match hall.wait(alloc) {
        Ok(Came::Link(link)) => {
            *given = Some(link);
            Ok("link")
        }
        Ok(Came::Idle) => Ok("idle"),
        Err(Fault::Failed) => Ok("failed"),
        Err(Fault::Memory) => Err(AllocError),
    }
}

fn takes_back<H: Hall<Blank>>(
    alloc: Global,
    hall: &mut H,
    given: &mut Option<H::Way>,
    number: &str,
) -> Result<&'static str, AllocError>
    requires { H.listens hall.old }
    ensures { H.listens hall.new }
{
    let number = number.parse::<u32>().ok().map(LinkNo);
    let Some(link) = given.take() else {
        return Ok("no link");
    };
    match hall.back(alloc, number, link) {
        Ok(()) => Ok("kept"),
        Err(_) => Err(AllocError),
    }
}

/// Makes a call of a dial, and says its answer.
pub fn of_dial<D: Dial<Blank>>(
    alloc: Global,
    dial: &mut D,
    dialled: &mut Option<D::Way>,
    port: u16,
    call: &str,
) -> Result<String, AllocError> {
    match call {
        "new" => said(alloc, dials(alloc, dial, dialled, port)?),
        "faults" => counted(alloc, dial.faults()),
        _ => said(alloc, "no call"),
    }
}

fn dials<D: Dial<Blank>>(
    alloc: Global,
    dial: &mut D,
    dialled: &mut Option<D::Way>,
    port: u16,
) -> Result<&'static str, AllocError> {
    match dial.dial(alloc, "127.0.0.1", port) {
        Ok(link) => {
            *dialled = Some(link);
            Ok("link")
        }
        Err(Fault::Failed) => Ok("failed"),
        Err(Fault::Memory) => Err(AllocError),
    }
}
