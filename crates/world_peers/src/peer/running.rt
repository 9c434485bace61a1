//! A worker of a world that runs its jobs.
ghost use Rattle.std.specs.Prelude.{◌≡◌, ◌<◌, ◌≤◌, IfOk, IsErrOf};
ghost use Rattle.flow_types.specs.declared.job.Job.{Job as JobValue};
ghost use Rattle.outside.specs.Jobs.{IsShaped};
ghost use Rattle.world_peers.specs.Peers.{least_job};
ghost use Rattle.world_peers.specs.Runs.{EndsSo, RunsNext};

use crate::WorldFault;
use crate::peer::{Peer, next};
use flow_types::{Job, Message, Outcome, Rows};
use outside::{Commands, Fault, Runner};
use std::alloc::Global;

impl Peer {
    /// Runs the job of the least attempt, where there is one, and reports how it ended; answers
    /// what is to be sent.
    pub fn run<F: Commands, R: Runner<F>>(
        &mut self,
        runner: &mut R,
    ) -> Result<Rows<Message>, WorldFault>
        ensures ran { IfOk result (λ sent. ((job : JobValue) → R.tells runner.old job)
            → RunsNext (EndsSo F.gives F.may_fail) self.old (least_job self.old.jobs) sent
            self.new) }
        ensures cause { IsErrOf result WorldFault.Runner
            → R.count runner.old < R.count runner.new }
        ensures later { R.count runner.old ≤ R.count runner.new }
        ensures still_tells { (job : JobValue) → R.tells runner.old job → R.tells runner.new job }
    {
        let Some(start) = next(self.jobs.as_slice()) else {
            return Ok(Rows::new(self.alloc));
        };
        let attempt = start.attempt;
        let outcome = run_job(self.alloc, &start.job, runner)?;
        match self.report(attempt, outcome) {
            Ok(sent) => Ok(sent),
            Err(_) => Err(WorldFault::Memory),
        }
    }
}

/// Runs a job.
pub fn run_job<F: Commands, R: Runner<F>>(
    alloc: Global,
    job: &Job,
    runner: &mut R,
) -> Result<Outcome, WorldFault>
    ensures shape { IfOk result (λ outcome. IsShaped job.now outcome) }
    ensures end { IfOk result (λ outcome. R.tells runner.old job.now
        → EndsSo F.gives F.may_fail job.now outcome) }
    ensures cause { IsErrOf result WorldFault.Runner → R.count runner.old < R.count runner.new }
    ensures later { R.count runner.old ≤ R.count runner.new }
    ensures still_tells { (other : JobValue) → R.tells runner.old other
        → R.tells runner.new other }
{
    match runner.run(alloc, job) {
        Ok(outcome) => Ok(outcome),
        Err(Fault::Failed) => Err(WorldFault::Runner),
        Err(Fault::Memory) => Err(WorldFault::Memory),
    }
}
