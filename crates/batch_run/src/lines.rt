//! The file of commands.
ghost use Rattle.std.specs.Prelude.{◌≡◌, ◌⊎◌, ◌++◌, IfErr, IfOk, None, OnOk, Some, length, map};
ghost use Rattle.std.specs.List.{flat_map};
ghost use Rattle.std.specs.Str.{is_utf8};
ghost use Rattle.outside.specs.Causes.{HasCause};
ghost use Rattle.batch_run.specs.Batch.{bad_line_from, batch_task, is_good_line, line_tasks, lines_of, lines_refusal, tasks_of, text_refusal};
ghost use Rattle.batch_run.specs.Ends.{IsBatch, ReadFails};

use crate::cause::BatchCause;
use flow_types::{Amounts, Bytes, Memory, Name, Needs, Rows, Text, Want};
use outside::{Fault, Site};
use std::alloc::{AllocError, Global};
use std::str;
use task_book::Submission;

/// The most bytes of a line.
const MOST_LINE: usize = 1_048_576;

/// The most commands.
const MOST_COMMANDS: usize = 100_000;

/// The bound of each command's output.
const OUTPUT_BOUND: u64 = 67_108_864;

// So many zero bytes.
fn zeros(alloc: Global, size: u64) -> Result<Vec<u8>, Memory>
    ensures { IfOk result (λ bytes. length bytes.items ≡ size) }
{
    match vec![in alloc; 0u8; size as usize] {
        Ok(bytes) => Ok(bytes),
        Err(_) => Err(Memory),
    }
}

// The content of a file, or None where there is no such file.
fn read_file<S: Site>(alloc: Global, site: &mut S, name: &Name) -> Result<Option<Bytes>, Fault>
    ensures content { IfOk result (λ content. S.tells → content ≡ S.files site.old name.now) }
    ensures files { S.tells → S.files site.new ≡ S.files site.old }
    ensures cause { HasCause (S.count site.old) (S.count site.new) result }
{
    let Some(size) = site.size(name)? else {
        return Ok(None);
    };
    let Ok(mut bytes) = zeros(alloc, size) else {
        return Err(Fault::Memory);
    };
    let count = site.read(name, 0, bytes.as_mut_slice())?;
    bytes.truncate(count);
    Ok(Some(Bytes::from_vec(bytes)))
}

// What stands between the newlines of a text.
fn lines_of<'a>(alloc: Global, text: &'a [u8]) -> Result<Vec<&'a [u8]>, AllocError>
    ensures { IfOk result (λ lines. map (λ line. line.now) lines.items ≡ lines_of text.now) }
{
    text.split(|b| *b == b'\n').collect(alloc)
}

fn is_text(line: &[u8]) -> bool
    ensures { result ≡ is_utf8 line.now }
{
    matches!(str::from_utf8(line), Ok(_))
}

fn is_good_line(line: &[u8]) -> bool
    ensures { result ≡ is_good_line line.now }
{
    is_text(line) && line.len() <= MOST_LINE
}

// The first line that isn't good, counted from 1.
fn bad_line(lines: &[&[u8]]) -> Option<u64>
    ensures { result ≡ bad_line_from 1 (map (λ line. line.now) lines.now) }
{
    for (number, line) in lines.iter().enumerate() {
        if !is_good_line(line) {
            return Some(number as u64 + 1);
        }
    }
    None
}

// The task of a command.
fn task_of(alloc: Global, command: &str) -> Result<Submission, Memory>
    ensures { IfOk result (λ task. task ≡ batch_task command.now) }
{
    let command = Text::of(alloc, command)?;
    let Ok(remote) = Name::of(alloc, b"out") else {
        return Err(Memory);
    };
    let mut outputs = Rows::new(alloc);
    let bound = OUTPUT_BOUND;
    if outputs.push(Want { remote, bound }).is_err() {
        return Err(Memory);
    }
    Ok(Submission {
        command,
        env: Rows::new(alloc),
        needs: Needs::Stated(Amounts {
            cores: 1,
            memory: 0,
            disk: 0,
        }),
        inputs: Rows::new(alloc),
        outputs,
    })
}

// The task of a line that isn't empty.
fn line_task(alloc: Global, line: &[u8]) -> Result<Submission, Memory>
    ensures { IfOk result (λ task. task ≡ batch_task line.now) }
{
    match str::from_utf8(line) {
        Ok(command) => task_of(alloc, command),
        Err(_) => Err(Memory),
    }
}

// The task of a line behind these, where it isn't empty.
fn add_task(alloc: Global, tasks: &mut Vec<Submission>, line: &[u8]) -> Result<(), Memory>
    ensures { OnOk result (tasks.new.items
        ≡ tasks.old.items ++ line_tasks line.now) }
{
    if line.is_empty() {
        return Ok(());
    }
    let task = line_task(alloc, line)?;
    match tasks.push(task) {
        Ok(()) => Ok(()),
        Err(_) => Err(Memory),
    }
}

// The tasks of the lines that aren't empty.
fn tasks_in(alloc: Global, lines: &[&[u8]]) -> Result<Vec<Submission>, Memory>
    ensures { IfOk result (λ tasks. tasks.items
        ≡ flat_map (λ line. line_tasks line.now) lines.now) }
{
    let mut tasks = Vec::new(alloc);
    for line in lines {
        add_task(alloc, &mut tasks, line)?;
    }
    Ok(tasks)
}

// The tasks of lines, one for each that isn't empty.
fn tasks_of_lines(alloc: Global, lines: &[&[u8]]) -> Result<Vec<Submission>, BatchCause>
    ensures tasks { IfOk result (λ tasks. (lines_refusal (map (λ line. line.now) lines.now) ≡ None)
        × (tasks.items ≡ flat_map line_tasks (map (λ line. line.now) lines.now))) }
    ensures refused { IfErr result (λ why. (why ≡ BatchCause.Memory)
        ⊎ (lines_refusal (map (λ line. line.now) lines.now) ≡ Some why)) }
{
    match bad_line(lines) {
        Some(line) => return Err(BatchCause::BadLine { line }),
        None => {}
    }
    let Ok(tasks) = tasks_in(alloc, lines) else {
        return Err(BatchCause::Memory);
    };
    if tasks.len() > MOST_COMMANDS {
        return Err(BatchCause::TooMany);
    }
    Ok(tasks)
}

// The tasks of a text.
fn read_tasks(alloc: Global, text: &[u8]) -> Result<Vec<Submission>, BatchCause>
    ensures tasks { IfOk result (λ tasks. (text_refusal text.now ≡ None)
        × (tasks.items ≡ tasks_of text.now)) }
    ensures refused { IfErr result (λ why. (why ≡ BatchCause.Memory)
        ⊎ (text_refusal text.now ≡ Some why)) }
{
    let Ok(lines) = lines_of(alloc, text) else {
        return Err(BatchCause::Memory);
    };
    tasks_of_lines(alloc, lines.as_slice())
}

/// The tasks of the file of a name.
pub(crate) fn read_batch<S: Site>(
    alloc: Global,
    site: &mut S,
    name: &Name,
) -> Result<Vec<Submission>, BatchCause>
    ensures batch { IfOk result (λ tasks. IsBatch S.tells (S.files site.old) name.now tasks.items) }
    ensures files { S.tells → S.files site.new ≡ S.files site.old }
    ensures fails { IfErr result (ReadFails S.tells (S.files site.old) (S.count site.old)
        (S.count site.new) name.now) }
{
    let before = site.faults();
    match read_file(alloc, site, name) {
        Ok(Some(text)) => read_tasks(alloc, text.as_slice()),
        Ok(None) => Err(BatchCause::FileMissing),
        Err(Fault::Failed) => Err(BatchCause::SiteFault {
            before,
            after: site.faults(),
        }),
        Err(Fault::Memory) => Err(BatchCause::Memory),
    }
}
