//! A runner that runs nothing: every output is empty.
ghost use Rattle.std.specs.Prelude.{◌≡◌, [], replicate, IfOk};
ghost use Rattle.mem_outside.specs.Blanks.{blanks, length-blanks};

use flow_types::{Bytes, Job, Memory, Outcome, Rows};
use outside::{Commands, Fault, Runner};
use std::alloc::Global;

/// The commands whose outputs are empty, and that never fail.
#[derive(Drop)]
pub struct Blank;

impl Commands for Blank {
    ghost gives = { λ command env inputs outputs. blanks outputs };

    ghost may_fail = { λ job why. ⊥ };

    ghost one_each = { λ command env inputs outputs. length-blanks outputs };
}

/// Answers each job with empty contents. It never fails, and tells every job.
#[derive(Drop)]
pub struct BlankRunner;

impl Runner<Blank> for BlankRunner {
    ghost tells = { λ runner job. Unit {0} };

    ghost sure = { λ runner. Unit {0} };

    ghost count = { λ runner. 0 };

    ghost failures = { λ runner. 0 };

    fn run(&mut self, alloc: Global, job: &Job) -> Result<Outcome, Fault> {
        let contents = empty_contents(alloc, job.outputs.len())?;
        Ok(Outcome::Success(contents))
    }

    fn faults(&self) -> u64 {
        0
    }
}

// So many empty contents.
fn empty_contents(alloc: Global, count: usize) -> Result<Rows<Bytes>, Memory>
    ensures { IfOk result (λ contents. contents ≡ replicate count []) }
{
    let mut contents = Rows::new(alloc);
    for _ in 0..count {
        let empty = Bytes::of(alloc, b"")?;
        if contents.push(empty).is_err() {
            return Err(Memory);
        }
    }
    Ok(contents)
}
