//! `work_queue_foreman -p PORT HOST PORT`: hands out to its workers what the master or foreman at this
//! address asks for.
#![tactic(auto)]

use foreman_run::foreman_top;
use peer_run::PeerEnded;
use real_links::{TcpDial, TcpHall};
use real_outside::{StdoutSink, System};
use std::alloc::AllocError;
use std::io::ErrorKind;
use std::process::ExitCode;
use std::rt::Env;
use std::{env, fs};

// The status of want of memory, here before there is a foreman that could say so.
const OUT_OF_MEMORY: u8 = 8;

// The command line. One that isn't text has no words, and so is none that the program takes.
fn words_of<R: Env + AllocGlobal>(rt: &R) -> Result<Vec<String>, AllocError> {
    match env::args(rt) {
        Ok(words) => words.collect(rt.alloc()),
        Err(e) if e.kind() == ErrorKind::OutOfMemory => Err(AllocError),
        Err(_) => Ok(Vec::new(rt.alloc())),
    }
}

// What is opened where a standard stream is closed takes the stream's number, and then what is
// printed would go into it. These three take such numbers first, and can't be written.
const NOT_WRITTEN: &str = "/dev/null";

fn main(rt: HostRuntime) -> ExitCode {
    let _first = fs::open(&rt, NOT_WRITTEN);
    let _second = fs::open(&rt, NOT_WRITTEN);
    let _third = fs::open(&rt, NOT_WRITTEN);
    let Ok(words) = words_of(&rt) else {
        return ExitCode::from(OUT_OF_MEMORY);
    };
    let mut out = StdoutSink::new(&rt);
    // One wait is for the parent and for the workers: the hall's.
    let mut hall = TcpHall::new(&rt, rt.alloc());
    let mut dial = TcpDial::beside(&rt, rt.alloc(), &hall);
    let ended = foreman_top::<System, _, _, _, _>(
        &rt,
        rt.alloc(),
        words.as_slice(),
        &mut dial,
        &mut hall,
        &mut out,
    );
    let PeerEnded { status, link, .. } = ended;
    // What was said last may still be on its way.
    if let Some(mut link) = link {
        link.send_last(&rt);
    }
    hall.part();
    ExitCode::from(status)
}
