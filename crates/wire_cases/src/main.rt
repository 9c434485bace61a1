//! Frames, messages, a cache, a worker, a session and a peer by a table of cases, one a line.
//!
//! `== TITLE` is printed as it stands. `body HEX` tells what a body says and is written as; `stream
//! HEX | HEX | ..` what a feeder answers after each piece; `changes HEX` tries each other value of
//! each byte of a stream. `room CAP` begins a cache of so many bytes and a worker with one of as
//! many; the lines below it are calls of that cache (`put RUN FILE LEN BYTE`, `get`, `touch`,
//! `holds`, `pin`, `unpin` and `unlink` with RUN FILE), or of that worker: `hello`, `hears HEX` and
//! `reports ATTEMPT success HEX ..` (or `status N`, or `none`). `session RUN` begins a session; the
//! lines below it are its calls: `start HEX` with a task, `peer HEX` with what the peer sends,
//! `cancel ATTEMPT` and `dropped FILE`. `link RUN; STEP; ..` begins a peer over a link that takes
//! these steps: `give HEX`, `idle`, `close`, `fail` and `failsend`. The lines `call ..` below it are
//! the peer's calls: `listen`, `hear`, `open HEX` and `ask HEX` with a task, `put RUN FILE HEX`,
//! `cancel ATTEMPT`, `unlink FILE`, `bye`, `has ATTEMPT`, `idles` and `faults`. `ended` tells in hex
//! all that was sent.
#![tactic(auto)]

mod bodies;
mod changes;
mod hex_words;
mod peer_calls;
mod sessions;
mod streams;
mod text;
mod workers;

use crate::bodies::shown_body;
use crate::changes::shown_changes;
use crate::hex_words::bytes_of;
use crate::peer_calls::{called, ended, met};
use crate::sessions::{cancels, drops, starts, told};
use crate::streams::shown_stream;
use crate::text::shown_message;
use crate::workers::{Room, hears, reports, shown_call};
use link_session::Session;
use std::alloc::{AllocError, Global};
use std::io;

fn of_pieces(alloc: Global, line: &str) -> Result<String, AllocError> {
    let mut pieces = Vec::new(alloc);
    for part in line.split('|') {
        pieces.push(bytes_of(alloc, part)?)?;
    }
    shown_stream(alloc, pieces.as_slice())
}

fn of_bytes(alloc: Global, word: &str, digits: &str) -> Result<String, AllocError> {
    let bytes = bytes_of(alloc, digits)?;
    match word {
        "body" => shown_body(alloc, bytes.as_slice()),
        _ => shown_changes(alloc, bytes.as_slice()),
    }
}

fn of_words(alloc: Global, room: &mut Room, line: &str) -> Result<String, AllocError> {
    let mut words = Vec::new(alloc);
    for word in line.split_whitespace() {
        words.push(word)?;
    }
    match words.first().copied().unwrap_or("") {
        "reports" => reports(alloc, &mut room.worker, words.as_slice()),
        _ => shown_call(alloc, &mut room.cache, words.as_slice()),
    }
}

fn begin_session(alloc: Global, room: &mut Room, run: &str) -> Result<String, AllocError> {
    let run = run.parse::<u64>().unwrap_or(0);
    room.session = Session::new(alloc, run);
    format!(in alloc; "session {run}")
}

fn of_session(
    alloc: Global,
    session: &mut Session,
    word: &str,
    rest: &str,
) -> Result<String, AllocError> {
    match word {
        "start" => starts(alloc, session, rest),
        "peer" => told(alloc, session, rest),
        "cancel" => cancels(alloc, session, rest),
        _ => drops(alloc, session, rest),
    }
}

fn begin(alloc: Global, room: &mut Room, cap: &str) -> Result<String, AllocError> {
    let cap = cap.parse::<u64>().unwrap_or(0);
    *room = Room::new(alloc, cap);
    format!(in alloc; "room {cap}")
}

fn answer(alloc: Global, room: &mut Room, line: &str) -> Result<String, AllocError> {
    let (word, rest) = line.split_once(' ').unwrap_or((line, ""));
    match word {
        "==" => String::from_str(alloc, line),
        "room" => begin(alloc, room, rest),
        "stream" => of_pieces(alloc, rest),
        "body" | "changes" => of_bytes(alloc, word, rest),
        "hello" => shown_message(alloc, &room.worker.hello()),
        "hears" => hears(alloc, &mut room.worker, rest),
        "session" => begin_session(alloc, room, rest),
        "start" | "peer" | "cancel" | "dropped" => of_session(alloc, &mut room.session, word, rest),
        "link" => met(alloc, &mut room.peer, rest),
        "call" => called(alloc, &mut room.peer, rest),
        "ended" => ended(alloc, &mut room.peer),
        _ => of_words(alloc, room, line),
    }
}

fn main(rt: HostRuntime) -> io::Result<()> {
    let mut room = Room::new(rt.alloc(), 0);
    for line in rt.lines(rt.alloc()) {
        let text = answer(rt.alloc(), &mut room, line?.as_str())?;
        println!(rt; "{text}")?;
    }
    Ok(())
}
