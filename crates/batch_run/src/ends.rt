//! How the tasks of a batch ended, and what is printed of them.
ghost use Rattle.std.specs.Prelude.{◌≡◌, ◌++◌, IfOk, OnOk, length, replicate, slice_set, string_bytes};
ghost use Rattle.std.specs.Fmt.{decimal};
ghost use Rattle.std.specs.List.{list_all};
ghost use Rattle.batch_run.specs.Batch.{end_of, first_size, is_over, line_of, printed};

use flow_types::{Bytes, Memory, Outcome};
use itoa::Buffer;
use std::alloc::{AllocError, Global};

/// How a task ended.
#[derive(Clone, Copy, Debug, PartialEq, Eq)]
pub(crate) enum End {
    /// It wasn't given yet.
    Open,
    /// It failed.
    Failed,
    /// It succeeded, with an output of so many bytes.
    Size(u64),
}

// The bytes of the first of these contents.
fn first_size(contents: &[Bytes]) -> u64
    ensures { result ≡ first_size contents.now }
{
    match contents.first() {
        Some(content) => content.as_slice().len() as u64,
        None => 0,
    }
}

impl End {
    /// The end of an outcome.
    pub fn of(outcome: &Outcome) -> End
        ensures { result ≡ end_of outcome.now }
    {
        match outcome {
            Outcome::Success(outs) => End::Size(first_size(outs.as_slice())),
            Outcome::Failed(_) => End::Failed,
            Outcome::NotRun => End::Failed,
        }
    }
}

/// So many tasks that weren't given yet.
pub(crate) fn open_ends(alloc: Global, count: usize) -> Result<Vec<End>, Memory>
    ensures { IfOk result (λ ends. ends.items ≡ replicate count End.Open) }
{
    match vec![in alloc; End::Open; count] {
        Ok(ends) => Ok(ends),
        Err(_) => Err(Memory),
    }
}

/// The task of this id ended so.
pub(crate) fn note(ends: &mut Vec<End>, id: u64, end: End)
    ensures { ends.new.items ≡ slice_set ends.old.items id end }
{
    if let Some(place) = ends.get_mut(id as usize) {
        *place = end;
    }
}

// Writes a number in decimal.
fn add_number(out: &mut String, number: u64) -> Result<(), AllocError>
    ensures { OnOk result (string_bytes out.new ≡ string_bytes out.old ++ decimal number) }
{
    let mut buffer = Buffer::new();
    out.push_str(buffer.format(number))
}

// Writes the line of a task. One that wasn't given has none.
fn add_line(out: &mut String, id: u64, end: End) -> Result<(), AllocError>
    ensures { OnOk result (string_bytes out.new ≡ string_bytes out.old ++ line_of id end) }
{
    match end {
        End::Open => Ok(()),
        End::Failed => {
            add_number(out, id)?;
            out.push_str(" failed\n")
        }
        End::Size(size) => {
            add_number(out, id)?;
            out.push_str(" ")?;
            add_number(out, size)?;
            out.push_str("\n")
        }
    }
}

fn is_over(end: End) -> bool
    ensures { result ≡ is_over end }
{
    match end {
        End::Open => false,
        End::Failed => true,
        End::Size(_) => true,
    }
}

/// Whether each task was given.
pub(crate) fn are_over(ends: &[End]) -> bool
    ensures { result ≡ list_all is_over ends.now }
{
    ends.iter().all(|end| is_over(*end))
}

/// The printed lines.
pub(crate) fn text_of(alloc: Global, ends: &[End]) -> Result<String, AllocError>
    ensures { IfOk result (λ text. string_bytes text ≡ printed ends.now) }
{
    let mut text = String::new(alloc);
    for (id, end) in ends.iter().enumerate() {
        add_line(&mut text, id as u64, *end)?;
    }
    Ok(text)
}
