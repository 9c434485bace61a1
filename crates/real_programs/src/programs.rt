//! Starts programs of this machine.
use crate::owner::Owner;
use std::alloc::{AllocError, Global};
use std::fs::File;
use std::io::Read;
use std::process::{Child, Command, ExitStatus, Processes, Stdio};
use std::rt::Files;
use std::sync::Wait;
use std::{fs, io};

/// The system's shell.
pub const SHELL: &str = "/bin/sh";

const PATH: &str = "/usr/local/bin:/usr/bin:/bin";

const NOWHERE: &str = "/dev/null";

/// What a program reads, and where it prints to.
#[derive(Drop)]
pub struct Streams {
    input: Stdio,
    output: Stdio,
    errors: Stdio,
}

impl Streams {
    /// It reads nothing, and what it prints is thrown away. Such streams are opened at each start.
    pub fn of_nothing() -> Self {
        Streams {
            input: Stdio::null(),
            output: Stdio::null(),
            errors: Stdio::null(),
        }
    }

    /// As [`Streams::of_nothing`], but open as long as they are kept, for many programs.
    pub fn open_of_nothing<R: Files<File = File>>(rt: &R) -> io::Result<Self> {
        Ok(Streams {
            input: Stdio::from(fs::open(rt, NOWHERE)?),
            output: Stdio::from(to_nowhere(rt)?),
            errors: Stdio::from(to_nowhere(rt)?),
        })
    }

    /// It reads what this program writes.
    pub fn fed() -> Self {
        Streams {
            input: Stdio::piped(),
            ..Streams::of_nothing()
        }
    }

    /// This program reads what it prints.
    pub fn heard() -> Self {
        Streams {
            output: Stdio::piped(),
            ..Streams::of_nothing()
        }
    }
}

fn to_nowhere<R: Files<File = File>>(rt: &R) -> io::Result<File> {
    File::options().write(true).open(rt, NOWHERE)
}

/// A program with these words, that sees no variable but PATH.
pub fn program(alloc: Global, name: &str, words: &[&str]) -> Result<Command, AllocError> {
    let mut program = Command::new(alloc, name)?;
    for word in words {
        program.arg(word)?;
    }
    program.env_clear();
    program.env("PATH", PATH)?;
    Ok(program)
}

/// Starts the program while no thread writes a file that may be run, and waits for its end.
pub fn run_program<R: Processes + Wait>(
    rt: &R,
    owner: &Owner,
    program: &Command,
    streams: &Streams,
) -> io::Result<ExitStatus> {
    start(rt, owner, program, streams)?.wait()
}

/// As [`run_program`], where the system doesn't tell how programs end: what it printed.
pub fn run_printing<R: Processes + Wait>(
    rt: &R,
    alloc: Global,
    owner: &Owner,
    program: &Command,
) -> io::Result<Vec<u8>> {
    let mut child = start(rt, owner, program, &Streams::heard())?;
    let mut said = Vec::new(alloc);
    if let Some(mut out) = child.stdout.take() {
        out.read_to_end(&mut said)?;
    }
    let _ = child.wait();
    Ok(said)
}

/// Starts the program while no thread writes a file that may be run.
pub fn start<R: Processes + Wait>(
    rt: &R,
    owner: &Owner,
    program: &Command,
    streams: &Streams,
) -> io::Result<Child<R::Started>> {
    let _turn = owner.starts(rt);
    rt.spawn(program, &streams.input, &streams.output, &streams.errors)
}
