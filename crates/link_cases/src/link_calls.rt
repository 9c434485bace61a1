//! Behind `given` or `dialled`, the end that a hall gave or that was dialled: `send HEX`, `bytes
//! HEX` for a send of each byte, `message` for one of the scene's message, `recv`, `all` for what
//! comes until it is idle, `ready`, `behind`, `flush PATIENCE`, `flushes PATIENCE` for flushes until
//! one fails, `faults`, `closed`, and `gone`, which drops it.
use crate::words::{bytes_of, counted, first, measured, number_of, said, spelled, yes_or_no};
use links::{Got, Link};
use mem_outside::Blank;
use outside::Fault;
use std::alloc::{AllocError, Global};

// How many pieces a link may give before it is idle.
const PIECES: u32 = 10;

// How many flushes in a row may go well at most, of a link whose other end takes nothing.
const FLUSHES: u64 = 100;

/// Makes a call of one end, and says its answer.
pub fn of_end<L: Link<Blank>>(
    alloc: Global,
    end: &mut Option<L>,
    message: &[u8],
    line: &str,
) -> Result<String, AllocError> {
    if line == "gone" {
        *end = None;
        return said(alloc, "gone");
    }
    match end.as_mut() {
        Some(link) => of_link(alloc, link, message, line),
        None => said(alloc, "no link"),
    }
}

fn of_link<L: Link<Blank>>(
    alloc: Global,
    link: &mut L,
    message: &[u8],
    line: &str,
) -> Result<String, AllocError> {
    let (call, rest) = first(line);
    match call {
        "send" | "bytes" | "message" => said(alloc, sends(alloc, link, call, rest, message)?),
        "recv" => receives(alloc, link),
        "all" => receives_all(alloc, link),
        "flush" => flushes(alloc, link, number_of(rest)),
        "flushes" => said(alloc, flushes_in_vain(link, number_of(rest))),
        "ready" => said(alloc, yes_or_no(link.ready())),
        _ => looks(alloc, link, call),
    }
}

// What it tells of itself.
fn looks<L: Link<Blank>>(alloc: Global, link: &L, call: &str) -> Result<String, AllocError> {
    match call {
        "behind" => measured(alloc, link.behind()),
        "faults" => counted(alloc, link.faults()),
        "closed" => said(alloc, yes_or_no(link.closed())),
        _ => said(alloc, "no call"),
    }
}

fn sends<L: Link<Blank>>(
    alloc: Global,
    link: &mut L,
    call: &str,
    digits: &str,
    message: &[u8],
) -> Result<&'static str, AllocError> {
    if call == "message" {
        return send(link, message);
    }
    let bytes = bytes_of(alloc, digits)?;
    if call == "send" {
        return send(link, bytes.as_slice());
    }
    send_each(link, bytes.as_slice())
}

fn send<L: Link<Blank>>(link: &mut L, bytes: &[u8]) -> Result<&'static str, AllocError> {
    match link.send(bytes) {
        Ok(()) => Ok("sent"),
        Err(Fault::Failed) => Ok("failed"),
        Err(Fault::Memory) => Err(AllocError),
    }
}

fn send_each<L: Link<Blank>>(link: &mut L, bytes: &[u8]) -> Result<&'static str, AllocError> {
    for byte in bytes {
        if send(link, &[*byte])? != "sent" {
            return Ok("failed");
        }
    }
    Ok("sent")
}

fn receives<L: Link<Blank>>(alloc: Global, link: &mut L) -> Result<String, AllocError> {
    match link.recv(alloc) {
        Ok(Got::Piece(bytes)) => spelled(alloc, bytes.as_slice()),
        Ok(Got::Idle) => said(alloc, "idle"),
        Ok(Got::Closed) => said(alloc, "closed"),
        Err(Fault::Failed) => said(alloc, "failed"),
        Err(Fault::Memory) => Err(AllocError),
    }
}

fn receives_all<L: Link<Blank>>(alloc: Global, link: &mut L) -> Result<String, AllocError> {
    let mut heard = Vec::new(alloc);
    for _ in 0..PIECES {
        match link.recv(alloc) {
            Ok(Got::Piece(bytes)) => heard.extend_from_slice(bytes.as_slice())?,
            Ok(Got::Idle) => return spelled(alloc, heard.as_slice()),
            Ok(Got::Closed) | Err(_) => return said(alloc, "not idle"),
        }
    }
    said(alloc, "not idle")
}

fn flushes<L: Link<Blank>>(
    alloc: Global,
    link: &mut L,
    patience: u64,
) -> Result<String, AllocError> {
    match link.flush(patience) {
        Ok(left) => measured(alloc, left),
        Err(Fault::Failed) => said(alloc, "failed"),
        Err(Fault::Memory) => Err(AllocError),
    }
}

// Whether one fails, and no earlier than it may.
fn flushes_in_vain<L: Link<Blank>>(link: &mut L, patience: u64) -> &'static str {
    for count in 0..FLUSHES {
        if link.flush(patience).is_err() {
            return if count < patience {
                "failed early"
            } else {
                "failed"
            };
        }
    }
    "never failed"
}
