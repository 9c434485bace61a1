//! `makeflow_archive DIR FILE`: runs the rules of a flow file, and answers those from an archive
//! whose jobs were run before.
#![tactic(auto)]

ghost use Rattle.std.specs.Prelude.{◌≡◌, IfOk, length};

use archive_run::archive_top;
use real_links::TcpHall;
use real_outside::{FolderSite, Owner, PlainSite, ShellRunner, StdoutSink, System, SystemClock};
use ringing::Ringing;
use std::alloc::AllocError;
use std::env::VarError;
use std::io::ErrorKind;
use std::process::ExitCode;
use std::rt::Env;
use std::{env, fs, process};
use worker_pool::OpenGate;

// The status of want of memory, here before there is a run that could say so.
const OUT_OF_MEMORY: u8 = 8;

// The command line. One that isn't text has no words, and so is none that the program takes.
fn words_of<R: Env + AllocGlobal>(rt: &R) -> Result<Vec<String>, AllocError> {
    match env::args(rt) {
        Ok(words) => words.collect(rt.alloc()),
        Err(e) if e.kind() == ErrorKind::OutOfMemory => Err(AllocError),
        Err(_) => Ok(Vec::new(rt.alloc())),
    }
}

// The variables of the environment. Where one isn't text there are none: a flow that asks for one
// is refused by its name.
fn variables_of<R: Env + AllocGlobal>(rt: &R) -> Result<Vec<(String, String)>, AllocError> {
    match env::vars(rt) {
        Ok(variables) => variables.collect(rt.alloc()),
        Err(VarError::OutOfMemory) => Err(AllocError),
        Err(VarError::NotPresent | VarError::NotUnicode) => Ok(Vec::new(rt.alloc())),
    }
}

// How many jobs are run at once, at most.
const MOST_JOBS: usize = 16;

// A runner for each job that may be run at once. Each makes a folder of its own for its job.
fn runners_of<'a, R: AllocGlobal>(
    rt: &'a R,
    owner: &'a Owner,
) -> Result<Vec<ShellRunner<'a, R>>, AllocError>
    ensures { IfOk result (λ runners. length runners.items ≡ 16) }
{
    let mut runners = Vec::new(rt.alloc());
    for _ in 0..MOST_JOBS {
        runners.push(ShellRunner::new(rt, owner))?;
    }
    Ok(runners)
}

// What is opened where a standard stream is closed takes the stream's number, and then what is
// printed would go into it. These three take such numbers first, and can't be written.
const NOT_WRITTEN: &str = "/dev/null";

fn main(rt: HostRuntime) -> ExitCode {
    let _first = fs::open(&rt, NOT_WRITTEN);
    let _second = fs::open(&rt, NOT_WRITTEN);
    let _third = fs::open(&rt, NOT_WRITTEN);
    let Ok(words) = words_of(&rt) else {
        return ExitCode::from(OUT_OF_MEMORY);
    };
    let Ok(variables) = variables_of(&rt) else {
        return ExitCode::from(OUT_OF_MEMORY);
    };
    let Ok(owner) = Owner::of(&rt, process::id(rt.process())) else {
        return ExitCode::from(OUT_OF_MEMORY);
    };
    let site = FolderSite::new(&rt, &owner);
    let store = PlainSite::new(&rt);
    let Ok(runners) = runners_of(&rt, &owner) else {
        return ExitCode::from(OUT_OF_MEMORY);
    };
    let mut hall = TcpHall::new(&rt, rt.alloc());
    let gate = Ringing::new(&OpenGate, hall.ringer());
    let mut out = StdoutSink::new(&rt);
    let done = archive_top::<System, _, _, _, _, _, _, _, _>(
        &rt,
        rt.alloc(),
        words.as_slice(),
        variables.as_slice(),
        site,
        store,
        &mut hall,
        runners,
        &gate,
        &SystemClock::new(&rt),
        &mut out,
    );
    hall.part();
    ExitCode::from(done.ended.status)
}
