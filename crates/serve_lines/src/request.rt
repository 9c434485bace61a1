//! The request that a line is.
ghost use Rattle.std.specs.Prelude.{◌≡◌};
ghost use Rattle.serde_json.specs.View.{view};
ghost use Rattle.serve_lines.specs.Answers.{Gives};
ghost use Rattle.serve_lines.specs.Requests.{asked_in, command_in, files_in, needs_in, needs_of};
ghost use Rattle.serve_lines.specs.Requests.{request_in, request_of, variables_of};

use crate::fault::{LineFault, Part, Refusal};
use crate::members::{
    amount_in, are_known, is_alone, members_of, number_of, places_in, text_of, variables_in,
};
use flow_types::{Amounts, Name, Needs, Pair, Rows, Text};
use serde_json::Value;
use std::alloc::Global;
use std::str;

/// The most bytes of a line.
const MOST_LINE: usize = 16_777_216;

/// The most of an amount.
const MOST_AMOUNT: u32 = 1_000_000_000;

/// The most bytes of a task's outputs together.
const MOST_BYTES: u32 = 67_108_864;

/// A file of a task: its name where the command runs, and its path here.
#[derive(Drop)]
pub struct Place {
    pub name: Name,
    pub path: Text,
}

/// A task that is submitted.
#[derive(Drop)]
pub struct Asked {
    pub command: Text,
    pub inputs: Rows<Place>,
    pub outputs: Rows<Place>,
    pub env: Rows<Pair>,
    /// The most bytes of each output, where it is stated.
    pub bound: Option<u32>,
    pub needs: Needs,
}

/// What a line asks for.
#[derive(Drop)]
pub enum Request {
    /// To do a task.
    Submit(Asked),
    /// To let the task go that the line of this number submitted.
    Cancel(u64),
}

// The command of a task.
fn command_in(alloc: Global, object: &Value) -> Result<Text, LineFault>
    ensures { Gives (λ t. t) result (command_in (view object.now)) }
{
    match object.get("submit") {
        Some(value) => {
            let text = text_of(Part::Submit, value)?;
            Ok(Text::of(alloc, text)?)
        }
        None => Err(LineFault::Refused(Refusal::Bad(Part::Submit))),
    }
}

// The files of a member, none where it isn't there.
fn files_in(alloc: Global, part: Part, object: &Value) -> Result<Rows<Place>, LineFault>
    ensures { Gives (λ ps. ps) result (files_in part (view object.now)) }
{
    match object.get(part.name()) {
        Some(value) => {
            let members = members_of(part, value)?;
            places_in(alloc, part, members)
        }
        None => Ok(Rows::new(alloc)),
    }
}

// The variables of a task, none where they aren't there.
fn variables_of(alloc: Global, object: &Value) -> Result<Rows<Pair>, LineFault>
    ensures { Gives (λ ps. ps) result (variables_of (view object.now)) }
{
    match object.get("env") {
        Some(value) => {
            let members = members_of(Part::Env, value)?;
            variables_in(alloc, members)
        }
        None => Ok(Rows::new(alloc)),
    }
}

// What is needed by what is stated.
fn needs_of(cores: Option<u32>, memory: Option<u32>, disk: Option<u32>) -> Needs
    ensures { result ≡ needs_of cores memory disk }
{
    if cores.is_none() && memory.is_none() && disk.is_none() {
        return Needs::Whole;
    }
    Needs::Stated(Amounts {
        cores: cores.unwrap_or(1),
        memory: memory.unwrap_or(0),
        disk: disk.unwrap_or(0),
    })
}

// What a task needs of a worker.
fn needs_in(object: &Value) -> Result<Needs, LineFault>
    ensures { Gives (λ n. n) result (needs_in (view object.now)) }
{
    let cores = amount_in(Part::Cores, MOST_AMOUNT, object)?;
    let memory = amount_in(Part::Memory, MOST_AMOUNT, object)?;
    let disk = amount_in(Part::Disk, MOST_AMOUNT, object)?;
    Ok(needs_of(cores, memory, disk))
}

// The task of an object.
fn asked_in(alloc: Global, object: &Value) -> Result<Asked, LineFault>
    ensures { Gives (λ a. a) result (asked_in (view object.now)) }
{
    let command = command_in(alloc, object)?;
    let inputs = files_in(alloc, Part::Inputs, object)?;
    let outputs = files_in(alloc, Part::Outputs, object)?;
    let env = variables_of(alloc, object)?;
    let bound = amount_in(Part::Bound, MOST_BYTES, object)?;
    let needs = needs_in(object)?;
    Ok(Asked {
        command,
        inputs,
        outputs,
        env,
        bound,
        needs,
    })
}

// The request of an object.
fn request_in(alloc: Global, object: &Value) -> Result<Request, LineFault>
    ensures { Gives (λ r. r) result (request_in (view object.now)) }
{
    let Some(members) = object.as_object() else {
        return Err(LineFault::Refused(Refusal::NotObject));
    };
    if let Some(value) = object.get("cancel") {
        if !is_alone(members) {
            return Err(LineFault::Refused(Refusal::Unknown));
        }
        return Ok(Request::Cancel(number_of(Part::Cancel, value)?));
    }
    if !are_known(members) {
        return Err(LineFault::Refused(Refusal::Unknown));
    }
    Ok(Request::Submit(asked_in(alloc, object)?))
}

/// The request that a line is, without its newline, or why it is none.
pub fn read_request(alloc: Global, line: &[u8]) -> Result<Request, LineFault>
    ensures { Gives (λ r. r) result (request_of line.now) }
{
    if line.len() > MOST_LINE {
        return Err(LineFault::Refused(Refusal::TooLong));
    }
    let Ok(text) = str::from_utf8(line) else {
        return Err(LineFault::Refused(Refusal::NotText));
    };
    match Value::from_str(alloc, text) {
        Ok(object) => request_in(alloc, &object),
        Err(e) => {
            if e.is_memory() {
                return Err(LineFault::Memory);
            }
            Err(LineFault::Refused(Refusal::NotJson))
        }
    }
}
