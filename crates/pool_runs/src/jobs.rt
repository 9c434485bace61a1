//! Two jobs.
ghost use Rattle.std.specs.Prelude.{◌≡◌, IfOk};
ghost use Rattle.worker_pool.specs.Lists.{AreApart};

use flow_types::{AttemptNo, Job, Memory, Rows, Start, Text};
use std::alloc::Global;

/// An attempt at a job with nothing in it.
pub fn start(alloc: Global, attempt: u64) -> Result<Start, Memory>
    ensures { IfOk result (λ start. start.attempt.0 ≡ attempt) }
{
    Ok(Start {
        attempt: AttemptNo(attempt),
        job: Job {
            command: Text::of(alloc, "true")?,
            env: Rows::new(alloc),
            inputs: Rows::new(alloc),
            outputs: Rows::new(alloc),
        },
    })
}

/// Attempts 1 and 2.
pub fn two_jobs(alloc: Global) -> Result<Rows<Start>, Memory>
    ensures { IfOk result AreApart }
{
    let mut jobs = Rows::new(alloc);
    let one = start(alloc, 1)?;
    if jobs.push(one).is_err() {
        return Err(Memory);
    }
    let two = start(alloc, 2)?;
    if jobs.push(two).is_err() {
        return Err(Memory);
    }
    Ok(jobs)
}
