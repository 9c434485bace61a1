//! What commands mean, and who runs them.
ghost use Rattle.std.specs.Prelude.{◌≡◌, List, ℕ, length, IfOk, IsErrOf};
ghost use Rattle.flow_types.specs.declared.flow.Pair.{Pair};
ghost use Rattle.flow_types.specs.declared.job.Failure.{Failure as FailureValue};
ghost use Rattle.flow_types.specs.declared.job.Given.{Given};
ghost use Rattle.flow_types.specs.declared.job.Job.{Job as JobValue};
ghost use Rattle.flow_types.specs.Serial.{Function, given_by};
ghost use Rattle.outside.specs.Causes.{HasCause};
ghost use Rattle.outside.specs.Jobs.{IsShaped, IsHonest, IsSuccess, CountsFailure};

use crate::Fault;
use flow_types::{Job, Outcome};
use std::alloc::Global;

/// What commands make of their inputs. It has no calls: each member names a function and a
/// relation.
pub trait Commands: Send + Sync + Drop {
    /// The outputs of a command, by its environment, its inputs and the names of its outputs.
    /// Bounds don't enter it.
    ghost gives: { Function };

    /// With which failures a job may end.
    ghost may_fail: { JobValue → FailureValue → Type 0 };

    /// One content for each output.
    ghost one_each: { (command : List ℕ) (env : List Pair) (inputs : List Given)
        (outputs : List (List ℕ)) → length (gives command env inputs outputs) ≡ length outputs };
}

/// Runs one command at a time over its inputs.
pub trait Runner<F: Commands>: Send + Drop {
    /// Of which jobs it tells that they end as the commands say.
    ghost tells: { Self → JobValue → Type 0 };

    /// Each answer is Success or want of memory.
    ghost sure: { Self → Type 0 };

    /// A count that rises at each failure.
    ghost count: { Self → ℕ };

    /// A count that rises by one at each failed command.
    ghost failures: { Self → ℕ };

    /// Runs the job. `NotRun` is never answered. Each content of a success is within its output's
    /// bound, and together they are at most 67,108,864 bytes.
    fn run(&mut self, alloc: Global, job: &Job) -> Result<Outcome, Fault>
        ensures shape { IfOk result (IsShaped job.now) }
        ensures honest { IfOk result (λ outcome. tells self.old job.now
            → IsHonest (given_by F.gives job.now) (F.may_fail job.now) outcome) }
        ensures still_tells { (other : JobValue) → tells self.old other → tells self.new other }
        ensures succeeds { sure self.old → IfOk result IsSuccess }
        ensures never_fails { sure self.old → IsErrOf result Fault.Failed → ⊥ }
        ensures still_sure { sure self.old → sure self.new }
        ensures failures { CountsFailure (failures self.old) (failures self.new) result }
        ensures cause { HasCause (count self.old) (count self.new) result };

    /// The count of failures.
    fn faults(&self) -> u64
        ensures { result ≡ count self.now };
}
