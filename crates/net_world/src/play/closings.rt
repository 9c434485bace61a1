//! Attempts that are closed by how their jobs ended.
ghost use Rattle.std.specs.Prelude.{◌≡◌, ◌<◌, ℕ, OnOk, Some, length};
ghost use Rattle.flow_types.specs.declared.job.Outcome.TheVariants as outcomes;
ghost use Rattle.flow_types.specs.Plans.{files_of, makes};
ghost use Rattle.flow_types.specs.Serial.{with_contents};
ghost use Rattle.net_world.specs.Closings.{ClosesRule};
ghost use Rattle.world_contents.specs.Holdings.{held_in};
ghost use Rattle.net_world.specs.Plays.{Closes};
ghost use Rattle.world_laws.specs.Worlds.{rule_at};

use crate::play::{Play, note};
use flow_types::{AttemptNo, Bytes, Failure, Memory, Outcome, Record, Rows, RuleNo};
use world_contents::{files_of, may_fail, may_finish, put_all, rows_for, rule_at, rule_of};

impl Play {
    // The outputs of a rule are kept.
    fn store(&mut self, rule: RuleNo, outs: &[Bytes]) -> Result<(), Memory>
        requires rule { rule.0 < length self.old.table.plan.rules }
        requires count { length outs.now ≡ length (makes self.old.table.plan rule.0) }
        ensures put { OnOk result
            (length self.old.contents.items ≡ length self.old.table.plan.files
            → (f : ℕ) → held_in self.new.contents.items f
            ≡ with_contents (held_in self.old.contents.items) (makes self.old.table.plan rule.0)
            outs.now f) }
        ensures places { length self.new.contents.items ≡ length self.old.contents.items }
        ensures rest { self.new ≡ record self.old { contents = self.new.contents } }
    {
        let ports = rule_of(self.table.plan(), rule).outputs.as_slice();
        let files = files_of(self.alloc, ports)?;
        put_all(self.alloc, &mut self.contents, files.as_slice(), outs)
    }

    // The attempt of a rule made these outputs; where they don't fit the rule, nothing changes.
    fn finish(&mut self, rule: RuleNo, attempt: AttemptNo, outs: &Rows<Bytes>) -> Result<(), Memory>
        requires { rule.0 < length self.old.table.plan.rules }
        ensures { OnOk result
            (ClosesRule rule.0 attempt (outcomes.Success outs.now) self.old self.new) }
    {
        let rows = rows_for(self.alloc, outs.as_slice())?;
        if !may_finish(self.table.plan(), rule, rows.as_slice()) {
            return Ok(());
        }
        if !self.table.runs_with(rule, attempt) {
            return Ok(());
        }
        self.store(rule, outs.as_slice())?;
        match self.table.finish(rule, attempt, rows.as_slice()) {
            Ok(()) => note(
                &mut self.records,
                Record::Done {
                    moment: 0,
                    rule,
                    attempt,
                    outs: rows,
                },
            ),
            Err(_) => Ok(()),
        }
    }

    // The attempt of a rule failed so; where that doesn't fit the rule, nothing changes.
    fn fail(&mut self, rule: RuleNo, attempt: AttemptNo, why: Failure) -> Result<(), Memory>
        requires { rule.0 < length self.old.table.plan.rules }
        ensures { OnOk result (ClosesRule rule.0 attempt (outcomes.Failed why) self.old self.new) }
    {
        if !may_fail(self.table.plan(), rule, why) {
            return Ok(());
        }
        match self.table.fail(rule, attempt, why) {
            Ok(_) => note(
                &mut self.records,
                Record::Failed {
                    moment: 0,
                    rule,
                    attempt,
                    why,
                },
            ),
            Err(_) => Ok(()),
        }
    }

    // The attempt of a rule ended so; where that doesn't fit the rule, nothing changes.
    fn close_rule(
        &mut self,
        rule: RuleNo,
        attempt: AttemptNo,
        outcome: &Outcome,
    ) -> Result<(), Memory>
        requires { rule.0 < length self.old.table.plan.rules }
        ensures { OnOk result (ClosesRule rule.0 attempt outcome.now self.old self.new) }
    {
        match outcome {
            Outcome::Success(outs) => self.finish(rule, attempt, outs),
            Outcome::Failed(why) => self.fail(rule, attempt, *why),
            Outcome::NotRun => self.lose(rule, attempt),
        }
    }

    /// An attempt ended so. Where its rule doesn't run with it, or the outcome doesn't fit the rule,
    /// nothing changes.
    pub(crate) fn close(&mut self, attempt: AttemptNo, outcome: &Outcome) -> Result<(), Memory>
        ensures { OnOk result (Closes attempt outcome.now self.old self.new) }
    {
        let Some(rule) = rule_at(self.records.as_slice(), attempt) else {
            return Ok(());
        };
        if !self.has_rule(rule) {
            return Ok(());
        }
        self.close_rule(rule, attempt, outcome)
    }
}
