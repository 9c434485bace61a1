//! A runner that answers from a table.
ghost use Rattle.std.specs.Prelude.{◌≡◌, ◌≢◌, ◌⊎◌, Some, None, IfOk, OnOk, OnErr, IfSome};
ghost use Rattle.std.specs.Prelude.{IfNone, true, false, Ok, if◌then◌else◌, ◌+◌, ◌-◌, ◌^◌};
ghost use Rattle.flow_types.specs.declared.job.Job.{Job as JobValue};
ghost use Rattle.flow_types.specs.Serial.{given_by};
ghost use Rattle.outside.specs.Causes.{HasCause};
ghost use Rattle.outside.specs.Jobs.{IsShaped, IsHonest, CountsFailure, is_failure};
ghost use Rattle.mem_outside.specs.Calls.{no_calls, with_failure, IsDue, IsCall};
ghost use Rattle.mem_outside.specs.TableRunner.{outcomes_in, outcomes_of, calls_of};
ghost use Rattle.mem_outside.specs.TableRunner.{failures_of, with_outcome, IsLacking, IsTold};

use crate::calls::CallList;
use crate::fitting::fits;
use flow_types::{Bytes, Job, Memory, Outcome, Rows};
use outside::{Commands, Fault, Runner};
use std::alloc::Global;
use std::collections::BTreeMap;
use std::marker::PhantomData;

type Table = BTreeMap<String, Outcome>;

/// Answers each job with the outcome that was put under its command, and fails where there is none
/// that fits the job. The jobs are numbered from 0.
#[derive(Drop)]
pub struct TableRunner<F: Commands> {
    alloc: Global,
    table: Table,
    calls: CallList,
    failures: u64,
    commands: PhantomData<F>,
}

impl<F: Commands> TableRunner<F> {
    /// A runner without outcomes.
    pub fn new(alloc: Global) -> TableRunner<F>
        ensures outcomes { outcomes_of result ≡ λ command. None }
        ensures calls { calls_of result ≡ no_calls }
        ensures failures { failures_of result ≡ 0 }
    {
        TableRunner {
            alloc,
            table: BTreeMap::new(alloc),
            calls: CallList::new(alloc),
            failures: 0,
            commands: PhantomData,
        }
    }

    /// Puts an outcome in the place of the one that the command has, if there is one.
    pub fn put(&mut self, command: &str, outcome: Outcome) -> Result<(), Memory>
        requires { outcome ≢ Outcome.NotRun }
        ensures ok { OnOk result
            (outcomes_of self.new ≡ with_outcome command.now outcome (outcomes_of self.old)) }
        ensures err { OnErr result (outcomes_of self.new ≡ outcomes_of self.old) }
        ensures calls { calls_of self.new ≡ calls_of self.old }
        ensures failures { failures_of self.new ≡ failures_of self.old }
    {
        let Ok(key) = String::from_str(self.alloc, command) else {
            return Err(Memory);
        };
        match self.table.insert(key, outcome) {
            Ok(_) => Ok(()),
            Err(_) => Err(Memory),
        }
    }

    /// The job of that number is to fail.
    pub fn fail_at(&mut self, call: u64) -> Result<(), Memory>
        ensures ok { OnOk result (calls_of self.new ≡ with_failure call (calls_of self.old)) }
        ensures err { OnErr result (calls_of self.new ≡ calls_of self.old) }
        ensures outcomes { outcomes_of self.new ≡ outcomes_of self.old }
        ensures failures { failures_of self.new ≡ failures_of self.old }
    {
        self.calls.fail_at(call)
    }
}

impl<F: Commands> Runner<F> for TableRunner<F> {
    ghost tells = { λ runner job.
        IsTold (given_by F.gives job) (F.may_fail job) (outcomes_of runner job.command) };

    ghost sure = { λ runner. ⊥ };

    ghost count = { λ runner. (calls_of runner).faults };

    ghost failures = { failures_of };

    fn run(&mut self, alloc: Global, job: &Job) -> Result<Outcome, Fault>
        ensures shape { IfOk result (IsShaped job.now) }
        ensures honest { IfOk result (λ outcome.
            IsTold (given_by F.gives job.now) (F.may_fail job.now)
            (outcomes_of self.old job.now.command)
            → IsHonest (given_by F.gives job.now) (F.may_fail job.now) outcome) }
        ensures still_tells { (other : JobValue)
            → IsTold (given_by F.gives other)
            (F.may_fail other) (outcomes_of self.old other.command)
            → IsTold (given_by F.gives other)
            (F.may_fail other) (outcomes_of self.new other.command) }
        ensures outcome { IfOk result
            (λ outcome. outcomes_of self.old job.now.command ≡ Some outcome) }
        ensures outcomes { outcomes_of self.new ≡ outcomes_of self.old }
        ensures failures { CountsFailure (failures_of self.old) (failures_of self.new) result }
        ensures counted { failures_of self.new ≡
            (if is_failure result then failures_of self.old + 1 else failures_of self.old) }
        ensures cause { HasCause (calls_of self.old).faults (calls_of self.new).faults result }
        ensures call { IsCall (calls_of self.old) (calls_of self.new)
            (IsDue (calls_of self.old) ⊎ IsLacking (outcomes_of self.old job.now.command) job.now)
            result }
    {
        self.calls.begin()?;
        let Some(outcome) = fitting(&self.table, job) else {
            return Err(self.calls.fail());
        };
        let Ok(copy) = copy_of(alloc, outcome) else {
            return Err(Fault::Memory);
        };
        if !count_failure(&mut self.failures, &copy) {
            return Err(Fault::Memory);
        }
        Ok(copy)
    }

    fn faults(&self) -> u64
        ensures { result ≡ (calls_of self.now).faults }
    {
        self.calls.faults()
    }
}

// The job's outcome in the table, if it is one that may be answered.
fn fitting<'a>(table: &'a Table, job: &Job) -> Option<&'a Outcome>
    ensures found { IfSome result (λ outcome.
        (outcomes_in table.now job.now.command ≡ Some outcome.now) × IsShaped job.now outcome.now) }
    ensures lacking { IfNone result (IsLacking (outcomes_in table.now job.now.command) job.now) }
{
    match table.get(job.command.as_str()) {
        Some(outcome) => {
            if fits(job, outcome) {
                Some(outcome)
            } else {
                None
            }
        }
        None => None,
    }
}

// Counts the outcome where it is that a command failed. It is false where the count stands at its
// last value.
fn count_failure(failures: &mut u64, outcome: &Outcome) -> bool
    ensures counted { result ≡ true → failures.new ≡
        (if is_failure (Ok outcome.now) then failures.old + 1 else failures.old) }
    ensures last { result ≡ false → (failures.old ≡ 2 ^ 64 - 1) × (failures.new ≡ failures.old) }
{
    if let Outcome::Failed(_) = outcome {
        if *failures == u64::MAX {
            return false;
        }
        *failures += 1;
    }
    true
}

fn copy_of(alloc: Global, outcome: &Outcome) -> Result<Outcome, Memory>
    ensures { IfOk result (λ copy. copy ≡ outcome.now) }
{
    match outcome {
        Outcome::Success(contents) => Ok(Outcome::Success(copies_of(alloc, contents.as_slice())?)),
        Outcome::Failed(why) => Ok(Outcome::Failed(*why)),
        Outcome::NotRun => Ok(Outcome::NotRun),
    }
}

fn copies_of(alloc: Global, contents: &[Bytes]) -> Result<Rows<Bytes>, Memory>
    ensures { IfOk result (λ copies. copies ≡ contents.now) }
{
    let mut copies = Rows::new(alloc);
    for content in contents {
        let copy = Bytes::of(alloc, content.as_slice())?;
        if copies.push(copy).is_err() {
            return Err(Memory);
        }
    }
    Ok(copies)
}
