//! `work_queue_worker HOST PORT`: runs jobs for the master or foreman at this address.
#![tactic(auto)]

ghost use Rattle.std.specs.Prelude.{◌≡◌, ◌≤◌, IfOk, length};

use command_words::read_worker_words;
use peer_run::{Lingers, PeerEnded, worker_top};
use real_links::TcpDial;
use real_outside::{Owner, ShellRunner, StdoutSink, System};
use std::alloc::AllocError;
use std::io::ErrorKind;
use std::process::ExitCode;
use std::rt::Env;
use std::{env, fs, process};
use worker_pool::OpenGate;

// The status of want of memory, here before there is a worker that could say so.
const OUT_OF_MEMORY: u8 = 8;

// The command line. One that isn't text has no words, and so is none that the program takes.
fn words_of<R: Env + AllocGlobal>(rt: &R) -> Result<Vec<String>, AllocError> {
    match env::args(rt) {
        Ok(words) => words.collect(rt.alloc()),
        Err(e) if e.kind() == ErrorKind::OutOfMemory => Err(AllocError),
        Err(_) => Ok(Vec::new(rt.alloc())),
    }
}

// As many jobs are given to one worker at once, at most.
const MOST_JOBS: u32 = 64;

// How many jobs are run at once: as many as the worker has cores, and one at least.
fn jobs_of<R: AllocGlobal>(rt: &R, words: &[String]) -> usize
    ensures { 1 ≤ result }
{
    match read_worker_words(rt.alloc(), words) {
        Ok(options) => options.total.cores.max(1).min(MOST_JOBS) as usize,
        Err(_) => 1,
    }
}

// A runner for each job that may be run at once. Each makes a folder of its own for its job.
fn runners_of<'a, R: AllocGlobal>(
    rt: &'a R,
    owner: &'a Owner,
    jobs: usize,
) -> Result<Vec<Lingers<'a, R, ShellRunner<'a, R>>>, AllocError>
    ensures { IfOk result (λ runners. length runners.items ≡ jobs) }
{
    let mut runners = Vec::new(rt.alloc());
    for _ in 0..jobs {
        runners.push(Lingers::new(rt, ShellRunner::new(rt, owner)))?;
    }
    Ok(runners)
}

// What is opened where a standard stream is closed takes the stream's number, and then what is
// printed would go into it. These three take such numbers first, and can't be written.
const NOT_WRITTEN: &str = "/dev/null";

fn main(rt: HostRuntime) -> ExitCode {
    let _first = fs::open(&rt, NOT_WRITTEN);
    let _second = fs::open(&rt, NOT_WRITTEN);
    let _third = fs::open(&rt, NOT_WRITTEN);
    let Ok(words) = words_of(&rt) else {
        return ExitCode::from(OUT_OF_MEMORY);
    };
    let Ok(owner) = Owner::of(&rt, process::id(rt.process())) else {
        return ExitCode::from(OUT_OF_MEMORY);
    };
    let jobs = jobs_of(&rt, words.as_slice());
    let Ok(mut runners) = runners_of(&rt, &owner, jobs) else {
        return ExitCode::from(OUT_OF_MEMORY);
    };
    let mut out = StdoutSink::new(&rt);
    let PeerEnded { status, link, .. } = worker_top::<System, _, _, _, _, _>(
        &rt,
        rt.alloc(),
        words.as_slice(),
        &mut TcpDial::new(&rt, rt.alloc()),
        runners.as_mut_slice(),
        &OpenGate,
        &mut out,
    );
    // What the worker said last may still have to go out.
    if let Some(mut link) = link {
        link.send_last(&rt);
    }
    ExitCode::from(status)
}
