//! `work_queue_batch PORT FILE`: does the commands of a file, one a line, by the workers that come to a
//! port.
#![tactic(auto)]

use batch_run::submit_top;
use real_links::TcpHall;
use real_outside::{FolderSite, Owner, StdoutSink, System};
use std::alloc::AllocError;
use std::io::ErrorKind;
use std::process::ExitCode;
use std::rt::Env;
use std::{env, fs, process};

// The status of want of memory, here before there is a batch that could say so.
const OUT_OF_MEMORY: u8 = 8;

// The command line. One that isn't text has no words, and so is none that the program takes.
fn words_of<R: Env + AllocGlobal>(rt: &R) -> Result<Vec<String>, AllocError> {
    match env::args(rt) {
        Ok(words) => words.collect(rt.alloc()),
        Err(e) if e.kind() == ErrorKind::OutOfMemory => Err(AllocError),
        Err(_) => Ok(Vec::new(rt.alloc())),
    }
}

// What is opened where a standard stream is closed takes the stream's number, and then what is
// printed would go into it. These three take such numbers first, and can't be written.
const NOT_WRITTEN: &str = "/dev/null";

fn main(rt: HostRuntime) -> ExitCode {
    let _first = fs::open(&rt, NOT_WRITTEN);
    let _second = fs::open(&rt, NOT_WRITTEN);
    let _third = fs::open(&rt, NOT_WRITTEN);
    let Ok(words) = words_of(&rt) else {
        return ExitCode::from(OUT_OF_MEMORY);
    };
    let Ok(owner) = Owner::of(&rt, process::id(rt.process())) else {
        return ExitCode::from(OUT_OF_MEMORY);
    };
    let mut site = FolderSite::new(&rt, &owner);
    let mut hall = TcpHall::new(&rt, rt.alloc());
    let mut out = StdoutSink::new(&rt);
    let (status, _) = submit_top::<System, _, _, _, _>(
        &rt,
        rt.alloc(),
        words.as_slice(),
        &mut site,
        &mut hall,
        &mut out,
    );
    hall.part();
    ExitCode::from(status)
}
