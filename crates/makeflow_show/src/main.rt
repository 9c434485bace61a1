//! `makeflow_show [--jx] [--files | --dot] FLOW [N]`: prints the plan of a flow.
#![tactic(auto)]

mod answer;
mod reading;

use crate::answer::{Answer, answer_of};
use std::alloc::AllocError;
use std::env::VarError;
use std::io::{ErrorKind, Write};
use std::process::ExitCode;
use std::rt::Env;
use std::{env, io};

// The status of a fault of standard output.
const UNPRINTED: u8 = 5;

// The status of want of memory, here before there is an answer that could say so.
const OUT_OF_MEMORY: u8 = 8;

// The command line. One that isn't text has no words, and so is none that the program takes.
fn words_of<R: Env + AllocGlobal>(rt: &R) -> Result<Vec<String>, AllocError> {
    match env::args(rt) {
        Ok(words) => words.collect(rt.alloc()),
        Err(e) if e.kind() == ErrorKind::OutOfMemory => Err(AllocError),
        Err(_) => Ok(Vec::new(rt.alloc())),
    }
}

// The variables of the environment. Where one isn't text there are none: a flow that asks for one
// is refused by its name.
fn variables_of<R: Env + AllocGlobal>(rt: &R) -> Result<Vec<(String, String)>, AllocError> {
    match env::vars(rt) {
        Ok(variables) => variables.collect(rt.alloc()),
        Err(VarError::OutOfMemory) => Err(AllocError),
        Err(VarError::NotPresent | VarError::NotUnicode) => Ok(Vec::new(rt.alloc())),
    }
}

fn print<R: Print>(rt: &R, text: &[u8]) -> io::Result<()> {
    let mut out = io::writer(rt);
    out.write_all(text)?;
    out.flush()
}

fn main(rt: HostRuntime) -> ExitCode {
    let Ok(words) = words_of(&rt) else {
        return ExitCode::from(OUT_OF_MEMORY);
    };
    let Ok(variables) = variables_of(&rt) else {
        return ExitCode::from(OUT_OF_MEMORY);
    };
    let Answer { status, text } = answer_of(&rt, words.as_slice(), variables.as_slice());
    match print(&rt, text.as_slice()) {
        Err(_) if status == 0 => ExitCode::from(UNPRINTED),
        _ => ExitCode::from(status),
    }
}
