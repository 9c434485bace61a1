//! The outputs that a command left in its folder.
ghost use Rattle.std.specs.Prelude.{◌≤◌, length, IfOk, IfErr, vec_len};
ghost use Rattle.outside.specs.Jobs.{IsShaped};
ghost use Rattle.real_jobs.specs.Outputs.{IsRefused};

use crate::job_folder::place_of;
use flow_types::{Bytes, Failure, Job, Outcome, Rows};
use real_files::{is_absent, read_seen};
use std::alloc::Global;
use std::io::ErrorKind;
use std::rt::Files;
use std::{fs, io};

const MOST_TOGETHER: u64 = 67_108_864;

/// The contents of the outputs, or the least output that is missing, is longer than its bound, or
/// with which all outputs together are too long.
pub fn take_outputs<R: Files>(rt: &R, alloc: Global, folder: &str, job: &Job) -> io::Result<Outcome>
    ensures { IfOk result (IsShaped job.now) }
{
    let mut contents = Vec::new(alloc);
    let mut together = 0;
    for (i, want) in job.outputs.as_slice().iter().enumerate() {
        let Ok(index) = u32::try_from(i) else {
            return Err(io::Error::from(ErrorKind::InvalidInput));
        };
        let path = place_of(alloc, folder, &want.remote)?;
        let most = want.bound.min(MOST_TOGETHER - together);
        match take_output(rt, alloc, path.as_str(), index, most)? {
            Ok(content) => {
                together += content.as_slice().len() as u64;
                contents.push(content)?;
            }
            Err(why) => return Ok(Outcome::Failed(why)),
        }
    }
    Ok(Outcome::Success(Rows::of(contents)))
}

// The content of one output, or why it is none.
fn take_output<R: Files>(
    rt: &R,
    alloc: Global,
    path: &str,
    index: u32,
    most: u64,
) -> io::Result<Result<Bytes, Failure>>
    ensures content { IfOk result (λ taken. IfOk taken (λ content. length content ≤ most)) }
    ensures refused { IfOk result (λ taken. IfErr taken (IsRefused index most)) }
{
    let Some(size) = output_len(rt, path)? else {
        return Ok(Err(Failure::MissingOutput(index)));
    };
    if size > most {
        return Ok(Err(Failure::TooLong { index, size }));
    }
    let content = read_whole(rt, alloc, path, size)?;
    Ok(Ok(content))
}

// The length of a regular file, None where there is none: nothing, a folder, a link to neither.
fn output_len<R: Files>(rt: &R, path: &str) -> io::Result<Option<u64>> {
    match fs::metadata(rt, path) {
        Ok(data) => Ok(data.is_file().then_some(data.len())),
        Err(e) if is_absent(e.kind()) || e.kind() == ErrorKind::FilesystemLoop => Ok(None),
        Err(e) => Err(e),
    }
}

// The file's first bytes, so many at most, whatever still writes to it.
fn read_whole<R: Files>(rt: &R, alloc: Global, path: &str, size: u64) -> io::Result<Bytes>
    ensures { IfOk result (λ content. length content ≤ size) }
{
    let Ok(room) = usize::try_from(size) else {
        return Err(io::Error::from(ErrorKind::OutOfMemory));
    };
    let mut bytes = Vec::new(alloc);
    bytes.resize(room, 0)?;
    let count = read_seen(rt, path, 0, bytes.as_mut_slice())?;
    bytes.truncate(count);
    Ok(Bytes::from_vec(bytes))
}
