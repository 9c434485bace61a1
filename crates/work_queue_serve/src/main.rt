//! `work_queue_serve PORT`: does the tasks that lines of JSON on standard input ask for by the
//! workers that come to a port, and answers by lines of JSON on standard output.
#![tactic(auto)]

mod desk;
mod inbox;
mod serving;
mod shelf;

use command_words::number_in;
use crossbeam_channel::unbounded;
use inbox::read_all;
use outside::Sink;
use real_links::TcpHall;
use real_outside::{StdoutSink, System};
use serve_lines::{Answer, Stop};
use serving::{Halt, serve, tell};
use std::alloc::{AllocError, Global};
use std::io::ErrorKind;
use std::process::ExitCode;
use std::rt::Env;
use std::{env, fs, thread};

// The command line. One that isn't text has no words, and so is none that the program takes.
fn words_of<R: Env + AllocGlobal>(rt: &R) -> Result<Vec<String>, AllocError> {
    match env::args(rt) {
        Ok(words) => words.collect(rt.alloc()),
        Err(e) if e.kind() == ErrorKind::OutOfMemory => Err(AllocError),
        Err(_) => Ok(Vec::new(rt.alloc())),
    }
}

// The port that the words name.
fn port_of(words: &[String]) -> Option<u16> {
    let [_, port] = words else {
        return None;
    };
    match number_in(port.as_str(), 1, 65_535) {
        Some(port) => Some(port as u16),
        None => None,
    }
}

// What is opened where a standard stream is closed takes the stream's number, and then what is
// printed would go into it. These three take such numbers first, and can't be written.
const NOT_WRITTEN: &str = "/dev/null";

// The status at the end, whose cause is told where somebody may take it.
fn told<O: Sink>(alloc: Global, out: &mut O, ended: Result<(), Halt>) -> ExitCode {
    match ended {
        Ok(()) => ExitCode::from(0),
        Err(Halt::Mute) => ExitCode::from(Halt::Mute.status()),
        Err(Halt::Stop(why)) => {
            let _ = tell(alloc, out, &Answer::Stopped { why });
            ExitCode::from(Halt::Stop(why).status())
        }
    }
}

fn main(rt: HostRuntime) -> ExitCode {
    let _first = fs::open(&rt, NOT_WRITTEN);
    let _second = fs::open(&rt, NOT_WRITTEN);
    let _third = fs::open(&rt, NOT_WRITTEN);
    let alloc = rt.alloc();
    let mut out = StdoutSink::new(&rt);
    let Ok(words) = words_of(&rt) else {
        return told(alloc, &mut out, Err(Halt::Stop(Stop::Memory)));
    };
    let Some(port) = port_of(words.as_slice()) else {
        return told(alloc, &mut out, Err(Halt::Stop(Stop::Usage)));
    };
    let Ok((to, from)) = unbounded(alloc) else {
        return told(alloc, &mut out, Err(Halt::Stop(Stop::Memory)));
    };
    let mut hall = TcpHall::new(&rt, alloc);
    let ringer = hall.ringer();
    if thread::spawn(&rt, move || read_all(&rt, &to, &ringer)).is_err() {
        return told(alloc, &mut out, Err(Halt::Stop(Stop::Memory)));
    }
    let ended = serve::<System, _, _, _>(&rt, &mut hall, port, &from, &mut out);
    hall.part();
    told(alloc, &mut out, ended)
}
