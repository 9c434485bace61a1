//! An attempt that is open on a link.
ghost use Rattle.std.specs.Prelude.{◌≡◌, IfOk, map};
ghost use Rattle.link_session.specs.Sessions.{opened, place};

use flow_types::{AttemptNo, FileNo, Memory, Port, Rows, Task, Want};
use std::alloc::Global;

/// What is kept of a task while its attempt is open: its run, the files of its inputs, the bounds
/// of its outputs, and how often inputs were missing.
#[derive(Drop)]
pub(crate) struct Open {
    pub(crate) attempt: AttemptNo,
    pub(crate) run: u64,
    pub(crate) files: Rows<FileNo>,
    pub(crate) bounds: Rows<u64>,
    pub(crate) misses: u64,
}

impl Open {
    pub(crate) fn of(alloc: Global, task: &Task) -> Result<Open, Memory>
        ensures { IfOk result (λ o. o ≡ opened task.now) }
    {
        let files = files_of(alloc, task.inputs.as_slice())?;
        let bounds = bounds_of(alloc, task.outputs.as_slice())?;
        Ok(Open {
            attempt: task.attempt,
            run: task.run,
            files,
            bounds,
            misses: 0,
        })
    }

    fn copy(&self, alloc: Global) -> Result<Open, Memory>
        ensures { IfOk result (λ copy. copy ≡ self.now) }
    {
        let files = copy_numbers(alloc, self.files.as_slice())?;
        let bounds = copy_numbers(alloc, self.bounds.as_slice())?;
        Ok(Open {
            attempt: self.attempt,
            run: self.run,
            files,
            bounds,
            misses: self.misses,
        })
    }
}

fn copy_numbers<T: Copy + Drop>(alloc: Global, numbers: &[T]) -> Result<Rows<T>, Memory>
    ensures { IfOk result (λ copy. copy ≡ numbers.now) }
{
    match Vec::from_slice(alloc, numbers) {
        Ok(copy) => Ok(Rows::of(copy)),
        Err(_) => Err(Memory),
    }
}

/// Equal copies of these.
pub(crate) fn copies_of(alloc: Global, attempts: &[Open]) -> Result<Vec<Open>, Memory>
    ensures { IfOk result (λ copies. copies.items ≡ attempts.now) }
{
    let mut copies = Vec::new(alloc);
    for open in attempts {
        let copy = open.copy(alloc)?;
        if copies.push(copy).is_err() {
            return Err(Memory);
        }
    }
    Ok(copies)
}

fn files_of(alloc: Global, inputs: &[Port]) -> Result<Rows<FileNo>, Memory>
    ensures { IfOk result (λ files. files ≡ map (λ port. port.file) inputs.now) }
{
    let mut files = Vec::new(alloc);
    for port in inputs {
        if files.push(port.file).is_err() {
            return Err(Memory);
        }
    }
    Ok(Rows::of(files))
}

fn bounds_of(alloc: Global, outputs: &[Want]) -> Result<Rows<u64>, Memory>
    ensures { IfOk result (λ bounds. bounds ≡ map (λ want. want.bound) outputs.now) }
{
    let mut bounds = Vec::new(alloc);
    for want in outputs {
        if bounds.push(want.bound).is_err() {
            return Err(Memory);
        }
    }
    Ok(Rows::of(bounds))
}

/// Where the attempt stands among these.
pub(crate) fn find(attempts: &[Open], attempt: AttemptNo) -> Option<usize>
    ensures { result ≡ place attempt attempts.now }
{
    attempts.iter().position(|open| open.attempt.0 == attempt.0)
}
