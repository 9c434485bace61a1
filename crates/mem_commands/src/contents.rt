//! What a job's outputs have, and whether it fails.
ghost use Rattle.std.specs.Prelude.{◌≡◌, ◌≤◌, ◌<◌, ◌+◌, length, replicate, IfOk};
ghost use Rattle.flow_types.specs.Plans.{most_bytes};
ghost use Rattle.mem_commands.specs.Joins.{content_of, failure_by, too_long};

use flow_types::{Bytes, Failure, Job, Memory, Rows, Want};
use std::alloc::Global;

const MOST_BYTES: usize = 67_108_864;

// The inputs one after the other, and the command's text.
pub(crate) fn joined(alloc: Global, job: &Job) -> Result<Bytes, Memory>
    ensures { IfOk result (λ content. content ≡ content_of job.now.command job.now.inputs) }
{
    let mut content = Vec::new(alloc);
    for given in job.inputs.as_slice() {
        if content.extend_from_slice(given.content.as_slice()).is_err() {
            return Err(Memory);
        }
    }
    let command = job.command.as_str().as_bytes();
    if content.extend_from_slice(command).is_err() {
        return Err(Memory);
    }
    Ok(Bytes::from_vec(content))
}

// So many copies of the content.
pub(crate) fn copies_of(alloc: Global, content: &[u8], count: usize) -> Result<Rows<Bytes>, Memory>
    ensures { IfOk result (λ contents. contents ≡ replicate count content.now) }
{
    let mut contents = Rows::new(alloc);
    for _ in 0..count {
        let copy = Bytes::of(alloc, content)?;
        if contents.push(copy).is_err() {
            return Err(Memory);
        }
    }
    Ok(contents)
}

// Why the job fails, where each of its outputs has so many bytes.
pub(crate) fn failure_of(job: &Job, size: usize) -> Option<Failure>
    ensures { result ≡ failure_by job.now size }
{
    if job.command.as_str() == "false" {
        return Some(Failure::Status(1));
    }
    if size == 0 {
        return None;
    }
    first_too_long(job.outputs.as_slice(), 0, MOST_BYTES, size)
}

// The first of these outputs, numbered from here, for which so many bytes are too long, where so
// much is left for all of them together.
fn first_too_long(wants: &[Want], index: u32, left: usize, size: usize) -> Option<Failure>
    requires some { 0 < size }
    requires few { index + left ≤ most_bytes }
    ensures { result ≡ too_long index left size wants.now }
{
    let [want, wants @ ..] = wants else {
        return None;
    };
    if want.bound < size as u64 || left < size {
        return Some(Failure::TooLong {
            index,
            size: size as u64,
        });
    }
    first_too_long(wants, index + 1, left - size, size)
}
