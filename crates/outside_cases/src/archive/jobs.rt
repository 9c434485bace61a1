//! `job COMMAND` begins a job without variables, inputs and outputs; `env NAME VALUE`, `input NAME
//! CONTENT` and `output NAME BOUND` add one of each to it.
use crate::archive::words::{first, name_of, number};
use flow_types::{Bytes, Given, Job, Memory, Pair, Rows, Text, Want};
use std::alloc::{AllocError, Global};

/// The job of this command, without variables, inputs and outputs.
pub fn job_of(alloc: Global, command: &str) -> Result<Job, AllocError> {
    let Ok(command) = Text::of(alloc, command) else {
        return Err(AllocError);
    };
    Ok(Job {
        command,
        env: Rows::new(alloc),
        inputs: Rows::new(alloc),
        outputs: Rows::new(alloc),
    })
}

fn pair_of(alloc: Global, name: &str, value: &str) -> Result<Pair, Memory> {
    Ok(Pair {
        name: Text::of(alloc, name)?,
        value: Text::of(alloc, value)?,
    })
}

fn add_variable(alloc: Global, job: &mut Job, line: &str) -> Result<(), AllocError> {
    let (name, value) = first(line);
    let Ok(pair) = pair_of(alloc, name, value) else {
        return Err(AllocError);
    };
    job.env.push(pair).map_err(|_| AllocError)
}

fn add_input(alloc: Global, job: &mut Job, line: &str) -> Result<(), AllocError> {
    let (name, content) = first(line);
    let remote = name_of(alloc, name)?;
    let Ok(content) = Bytes::of(alloc, content.as_bytes()) else {
        return Err(AllocError);
    };
    job.inputs
        .push(Given { remote, content })
        .map_err(|_| AllocError)
}

fn add_output(alloc: Global, job: &mut Job, line: &str) -> Result<(), AllocError> {
    let (name, bound) = first(line);
    let remote = name_of(alloc, name)?;
    let bound = number(bound);
    job.outputs
        .push(Want { remote, bound })
        .map_err(|_| AllocError)
}

/// Adds to the job what a line of this kind tells. Tells whether there is such a kind.
pub fn tell_job(alloc: Global, job: &mut Job, kind: &str, line: &str) -> Result<bool, AllocError> {
    match kind {
        "env" => add_variable(alloc, job, line)?,
        "input" => add_input(alloc, job, line)?,
        "output" => add_output(alloc, job, line)?,
        _ => return Ok(false),
    }
    Ok(true)
}
