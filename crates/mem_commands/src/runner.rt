//! A runner of commands in memory.
ghost use Rattle.std.specs.Prelude.{◌≡◌, false, true, IfOk, IsErrOf};
ghost use Rattle.flow_types.specs.declared.job.Outcome.TheVariants as outcomes;
ghost use Rattle.outside.specs.Causes.{HasCause};
ghost use Rattle.outside.specs.Jobs.{CountsFailure, IsHonest, IsShaped, IsSuccess};
ghost use Rattle.mem_commands.specs.Joins.{EndsBy, FailsWith, failures_of, given_for};
ghost use Rattle.mem_commands.specs.Joins.{is_sure};

use crate::Joined;
use crate::contents::{copies_of, failure_of, joined};
use flow_types::{Failure, Job, Outcome};
use outside::{Fault, Runner};
use std::alloc::Global;

/// Answers each job with what [`Joined`] says of it, or want of memory, and tells every job.
#[derive(Drop)]
pub struct JoinedRunner {
    is_sure: bool,
    failures: u64,
}

impl JoinedRunner {
    /// A runner whose jobs may fail.
    pub fn new() -> JoinedRunner
        ensures sure { is_sure result ≡ false }
        ensures failures { failures_of result ≡ 0 }
    {
        JoinedRunner {
            is_sure: false,
            failures: 0,
        }
    }

    /// A sure runner. It has no memory for a job that fails.
    pub fn sure() -> JoinedRunner
        ensures sure { is_sure result ≡ true }
        ensures failures { failures_of result ≡ 0 }
    {
        JoinedRunner {
            is_sure: true,
            failures: 0,
        }
    }

    // Counts a failed command. There is want of memory where the runner is sure, or the count
    // stands at its last value.
    fn fail(&mut self, why: Failure) -> Result<Outcome, Fault>
        ensures why { IfOk result (λ outcome. outcome ≡ outcomes.Failed why) }
        ensures unsure { IfOk result (λ outcome. is_sure self.old ≡ false) }
        ensures same { is_sure self.new ≡ is_sure self.old }
        ensures fault { IsErrOf result Fault.Failed → ⊥ }
        ensures failures { CountsFailure (failures_of self.old) (failures_of self.new) result }
    {
        if self.is_sure || self.failures == u64::MAX {
            return Err(Fault::Memory);
        }
        self.failures += 1;
        Ok(Outcome::Failed(why))
    }
}

impl Runner<Joined> for JoinedRunner {
    ghost tells = { λ runner job. Unit {0} };

    ghost sure = { λ runner. is_sure runner ≡ true };

    ghost count = { λ runner. 0 };

    ghost failures = { failures_of };

    fn run(&mut self, alloc: Global, job: &Job) -> Result<Outcome, Fault>
        ensures shape { IfOk result (IsShaped job.now) }
        ensures outcome { IfOk result (EndsBy job.now) }
        ensures honest { IfOk result (IsHonest (given_for job.now) (FailsWith job.now)) }
        ensures succeeds { is_sure self.old ≡ true → IfOk result IsSuccess }
        ensures never_fails { IsErrOf result Fault.Failed → ⊥ }
        ensures same { is_sure self.new ≡ is_sure self.old }
        ensures failures { CountsFailure (failures_of self.old) (failures_of self.new) result }
        ensures cause { HasCause 0 0 result }
    {
        let content = joined(alloc, job)?;
        match failure_of(job, content.as_slice().len()) {
            Some(why) => self.fail(why),
            None => Ok(Outcome::Success(copies_of(alloc, content.as_slice(), job.outputs.len())?)),
        }
    }

    fn faults(&self) -> u64 {
        0
    }
}
