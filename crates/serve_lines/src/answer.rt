//! The lines that answer requests.
ghost use Rattle.std.specs.Prelude.{◌≡◌, Some, IfOk, codes, string_bytes};
ghost use Rattle.serde_json.specs.Read.{read};
ghost use Rattle.serde_json.specs.View.{view};
ghost use Rattle.serde_json.specs.Written.{compact_text};
ghost use Rattle.serve_lines.specs.Lines.{answer_data, bad_text, cancelled, ended, left, listening, of_input};
ghost use Rattle.serve_lines.specs.Lines.{of_output, refused, rejection_text, refusal_text, too_long};
ghost use Rattle.serve_lines.specs.Lines.{stop_text, stopped};

use crate::fault::{Part, Refusal};
use flow_types::Text;
use serde_json::{Value, json};
use std::alloc::{AllocError, Global};

/// Why a request isn't done.
#[derive(Clone, Copy, Debug, PartialEq, Eq)]
pub enum Rejection {
    /// Its line is no request.
    Line(Refusal),
    /// There is no such file.
    InputMissing,
    /// The file can't be read.
    InputUnread,
    /// The file has more than 67,108,864 bytes, or all files together 1,073,741,824.
    InputTooLarge,
    /// There are 65,536 files.
    TooManyFiles,
    /// 100,000 tasks are held.
    TooManyTasks,
    /// A list, the command or the environment is too long, inputs or outputs are too large together,
    /// or two names are one or are nested.
    BadTask,
}

/// Why the program ends before all is answered.
#[derive(Clone, Copy, Debug, PartialEq, Eq)]
pub enum Stop {
    /// The words aren't the program's name and a port.
    Usage,
    /// Nobody can connect to the port, or asking who has connected failed.
    Network,
    /// The requests can't be read.
    Input,
    /// Want of memory.
    Memory,
}

/// What is answered. A request, and the task that it submits, go by the number of its line.
#[derive(Drop)]
pub enum Answer {
    /// Workers may come to the port.
    Listening {
        port: u16,
    },
    /// The request isn't done.
    Refused {
        line: u64,
        why: Rejection,
    },
    /// The task isn't taken, for this of its inputs.
    InputRefused {
        line: u64,
        input: Text,
        why: Rejection,
    },
    /// Whether the task of the other line was held, and so was let go.
    Cancelled {
        line: u64,
        task: u64,
        held: bool,
    },
    /// The task's command ended with this status; where it is 0 the outputs are at their paths.
    Ended {
        line: u64,
        status: i32,
    },
    /// The task's command made no such output.
    Missing {
        line: u64,
        output: Text,
    },
    /// The output is larger than it may be.
    TooLong {
        line: u64,
        output: Text,
        size: u64,
    },
    /// The output can't be written to its path.
    Unwritten {
        line: u64,
        output: Text,
    },
    /// No more requests come, and so many tasks are held still.
    Left {
        held: u64,
    },
    /// The program ends, and what is held isn't answered.
    Stopped {
        why: Stop,
    },
}

// Why a member is refused.
fn bad_text(part: Part) -> &'static str
    ensures { result.now ≡ bad_text part }
{
    match part {
        Part::Submit => "bad submit",
        Part::Inputs => "bad inputs",
        Part::Outputs => "bad outputs",
        Part::Env => "bad env",
        Part::Bound => "bad bound",
        Part::Cores => "bad cores",
        Part::Memory => "bad memory",
        Part::Disk => "bad disk",
        Part::Cancel => "bad cancel",
    }
}

// Why a line is no request.
fn refusal_text(refusal: Refusal) -> &'static str
    ensures { result.now ≡ refusal_text refusal }
{
    match refusal {
        Refusal::TooLong => "too long",
        Refusal::NotText => "not UTF-8",
        Refusal::NotJson => "not JSON",
        Refusal::NotObject => "not an object",
        Refusal::Unknown => "unknown member",
        Refusal::Bad(part) => bad_text(part),
    }
}

// Why a request isn't done.
fn rejection_text(why: Rejection) -> &'static str
    ensures { result.now ≡ rejection_text why }
{
    match why {
        Rejection::Line(refusal) => refusal_text(refusal),
        Rejection::InputMissing => "input missing",
        Rejection::InputUnread => "input unreadable",
        Rejection::InputTooLarge => "input too large",
        Rejection::TooManyFiles => "too many files",
        Rejection::TooManyTasks => "too many tasks",
        Rejection::BadTask => "bad task",
    }
}

// Why the program ends.
fn stop_text(why: Stop) -> &'static str
    ensures { result.now ≡ stop_text why }
{
    match why {
        Stop::Usage => "usage",
        Stop::Network => "network fault",
        Stop::Input => "input fault",
        Stop::Memory => "out of memory",
    }
}

fn listening(alloc: Global, port: u16) -> Result<Value, AllocError>
    ensures { IfOk result (λ v. view v ≡ listening port) }
{
    json!(in alloc; {"listening": port})
}

fn refused(alloc: Global, line: u64, why: &str) -> Result<Value, AllocError>
    ensures { IfOk result (λ v. view v ≡ refused line why.now) }
{
    json!(in alloc; {"line": line, "refused": why})
}

fn of_input(alloc: Global, line: u64, input: &str, why: &str) -> Result<Value, AllocError>
    ensures { IfOk result (λ v. view v ≡ of_input line input.now why.now) }
{
    json!(in alloc; {"input": input, "line": line, "refused": why})
}

fn cancelled(alloc: Global, line: u64, task: u64, held: bool) -> Result<Value, AllocError>
    ensures { IfOk result (λ v. view v ≡ cancelled line task held) }
{
    json!(in alloc; {"cancelled": held, "line": line, "task": task})
}

fn ended(alloc: Global, line: u64, status: i32) -> Result<Value, AllocError>
    ensures { IfOk result (λ v. view v ≡ ended line status) }
{
    json!(in alloc; {"line": line, "status": status})
}

fn missing(alloc: Global, line: u64, output: &str) -> Result<Value, AllocError>
    ensures { IfOk result (λ v. view v ≡ of_output (codes "missing") line output.now) }
{
    json!(in alloc; {"line": line, "missing": output})
}

fn too_long(alloc: Global, line: u64, output: &str, size: u64) -> Result<Value, AllocError>
    ensures { IfOk result (λ v. view v ≡ too_long line output.now size) }
{
    json!(in alloc; {"line": line, "size": size, "too long": output})
}

fn unwritten(alloc: Global, line: u64, output: &str) -> Result<Value, AllocError>
    ensures { IfOk result (λ v. view v ≡ of_output (codes "unwritten") line output.now) }
{
    json!(in alloc; {"line": line, "unwritten": output})
}

fn left(alloc: Global, held: u64) -> Result<Value, AllocError>
    ensures { IfOk result (λ v. view v ≡ left held) }
{
    json!(in alloc; {"held": held})
}

fn stopped(alloc: Global, why: &str) -> Result<Value, AllocError>
    ensures { IfOk result (λ v. view v ≡ stopped why.now) }
{
    json!(in alloc; {"stopped": why})
}

// The object of an answer.
fn value_of(alloc: Global, answer: &Answer) -> Result<Value, AllocError>
    ensures { IfOk result (λ v. view v ≡ answer_data answer.now) }
{
    match answer {
        Answer::Listening { port } => listening(alloc, *port),
        Answer::Refused { line, why } => refused(alloc, *line, rejection_text(*why)),
        Answer::InputRefused { line, input, why } => {
            of_input(alloc, *line, input.as_str(), rejection_text(*why))
        }
        Answer::Cancelled { line, task, held } => cancelled(alloc, *line, *task, *held),
        Answer::Ended { line, status } => ended(alloc, *line, *status),
        Answer::Missing { line, output } => missing(alloc, *line, output.as_str()),
        Answer::TooLong { line, output, size } => too_long(alloc, *line, output.as_str(), *size),
        Answer::Unwritten { line, output } => unwritten(alloc, *line, output.as_str()),
        Answer::Left { held } => left(alloc, *held),
        Answer::Stopped { why } => stopped(alloc, stop_text(*why)),
    }
}

/// The line of an answer, without its newline.
#[tactic(auto, using(crate::proofs::Shapes::shallow, crate::proofs::Shapes::no_float))]
pub fn line_of(alloc: Global, answer: &Answer) -> Result<String, AllocError>
    ensures text { IfOk result (λ s. string_bytes s ≡ compact_text (answer_data answer.now)) }
    ensures reads { IfOk result (λ s. read (string_bytes s) ≡ Some (answer_data answer.now)) }
{
    let value = value_of(alloc, answer)?;
    value.to_string(alloc)
}
