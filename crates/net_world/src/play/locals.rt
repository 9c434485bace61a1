//! Attempts on the local place.
ghost use Rattle.std.specs.Prelude.{◌≡◌, ◌<◌, ◌≤◌, IfOk, IfSome, IsErrOf, OnOk, Some, length};
ghost use Rattle.flow_types.specs.declared.job.Job.{Job as JobValue};
ghost use Rattle.flow_types.specs.declared.plan.Plan.{Plan as PlanValue};
ghost use Rattle.outside.specs.Jobs.{IsShaped};
ghost use Rattle.run_history.specs.declared.options.Options.{Options as OptionsValue};
ghost use Rattle.world_laws.specs.Due.{local_due};
ghost use Rattle.net_world.specs.Plays.{IsShown};
ghost use Rattle.world_peers.specs.Runs.{EndsSo};
ghost use Rattle.net_world.specs.Steps.{NoneDue, RunsAs, RunsLocally, job_in};
ghost use Rattle.world_laws.specs.Worlds.{World, job_at, runs_local};

use crate::play::Play;
use flow_types::{AttemptNo, Memory, Outcome, RuleNo};
use outside::{Commands, Runner};
use world_contents::{job_of, rule_at, rule_of};
use world_peers::{WorldFault, run_job};

impl Play {
    // The rule that the attempt runs on the local place.
    fn local_rule(&self, attempt: AttemptNo) -> Option<RuleNo>
        ensures inside { IfSome result (λ rule. rule.0 < length self.now.table.plan.rules) }
        ensures local { (P : PlanValue) (O : OptionsValue) (w : World) → IsShown P O w self.now
            → RunsLocally P w attempt result }
        ensures due { (P : PlanValue) (O : OptionsValue) (w : World) → IsShown P O w self.now
            → NoneDue P w attempt result }
    {
        let Some(rule) = rule_at(self.records.as_slice(), attempt) else {
            return None;
        };
        if !self.has_rule(rule) {
            return None;
        }
        match self.table.place_of(rule) {
            Some((placed, link)) => if placed.0 == attempt.0 && link.0 == 0 {
                Some(rule)
            } else {
                None
            },
            None => None,
        }
    }

    // Runs the job of a rule over what the master holds.
    fn run_rule<F: Commands, R: Runner<F>>(
        &self,
        rule: RuleNo,
        runner: &mut R,
    ) -> Result<Outcome, WorldFault>
        requires { rule.0 < length self.now.table.plan.rules }
        ensures shape { IfOk result (λ outcome. (job : JobValue) → job_in self.now rule.0 ≡ Some job
            → IsShaped job outcome) }
        ensures end { IfOk result (λ outcome. ((job : JobValue) → R.tells runner.old job)
            → (job : JobValue) → job_in self.now rule.0 ≡ Some job
            → EndsSo F.gives F.may_fail job outcome) }
        ensures cause { IsErrOf result WorldFault.Runner → R.count runner.old < R.count runner.new }
        ensures later { R.count runner.old ≤ R.count runner.new }
        ensures still_tells { (job : JobValue) → R.tells runner.old job → R.tells runner.new job }
    {
        let plan = self.table.plan();
        let contents = self.contents.as_slice();
        match job_of(self.alloc, plan, rule_of(plan, rule), contents) {
            Ok(job) => run_job(self.alloc, &job, runner),
            Err(Memory) => Err(WorldFault::Memory),
        }
    }

    /// An attempt that runs on the local place is run, and closed by its outcome.
    pub(crate) fn run_local<F: Commands, R: Runner<F>>(
        &mut self,
        attempt: AttemptNo,
        runner: &mut R,
    ) -> Result<(), WorldFault>
        ensures ran { OnOk result (((job : JobValue) → R.tells runner.old job)
            → RunsAs F.gives F.may_fail (λ P w. job_at P w attempt) (λ P w. local_due P w attempt)
            (λ P O w outcome. runs_local P w attempt outcome) self.old self.new) }
        ensures cause { IsErrOf result WorldFault.Runner → R.count runner.old < R.count runner.new }
        ensures later { R.count runner.old ≤ R.count runner.new }
        ensures still_tells { (job : JobValue) → R.tells runner.old job → R.tells runner.new job }
    {
        let Some(rule) = self.local_rule(attempt) else {
            return Ok(());
        };
        let outcome = self.run_rule(rule, runner)?;
        match self.close(attempt, &outcome) {
            Ok(()) => Ok(()),
            Err(Memory) => Err(WorldFault::Memory),
        }
    }
}
