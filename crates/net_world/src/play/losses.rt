//! Attempts that are lost.
ghost use Rattle.std.specs.Prelude.{◌≡◌, length, map, nat_lt, fold, OnOk, Some};
ghost use Rattle.flow_types.specs.declared.job.Outcome.TheVariants as outcomes;
ghost use Rattle.world_laws.specs.Worlds.{closed_at, loses_rule};
ghost use Rattle.net_world.specs.Plays.{Turns};

use crate::play::{Play, note};
use flow_types::{AttemptNo, Memory, Record, RuleNo};

impl Play {
    // The rule is one of the plan.
    pub(crate) fn has_rule(&self, rule: RuleNo) -> bool
        ensures { result ≡ nat_lt rule.0 (length self.now.table.plan.rules) }
    {
        (rule.0 as usize) < self.table.plan().rules.len()
    }

    // An attempt of a rule is lost, where the rule runs with it.
    pub(crate) fn lose(&mut self, rule: RuleNo, attempt: AttemptNo) -> Result<(), Memory>
        ensures { OnOk result (Turns (λ P O w. closed_at P w attempt outcomes.NotRun (Some rule.0))
            self.old self.new) }
    {
        if !self.has_rule(rule) {
            return Ok(());
        }
        match self.table.lose(rule, attempt) {
            Ok(()) => note(
                &mut self.records,
                Record::Lost {
                    moment: 0,
                    rule,
                    attempt,
                },
            ),
            Err(_) => Ok(()),
        }
    }

    // A rule that runs loses its attempt.
    fn lose_rule(&mut self, rule: RuleNo) -> Result<(), Memory>
        ensures { OnOk result (Turns (λ P O w. loses_rule P w rule.0) self.old self.new) }
    {
        if !self.has_rule(rule) {
            return Ok(());
        }
        match self.table.place_of(rule) {
            Some((attempt, _)) => self.lose(rule, attempt),
            None => Ok(()),
        }
    }

    // These rules lose their attempts.
    pub(crate) fn lose_all(&mut self, rules: &[RuleNo]) -> Result<(), Memory>
        ensures { OnOk result (Turns
            (λ P O w. fold (loses_rule P) w (map (λ rule. rule.0) rules.now)) self.old self.new) }
    {
        for rule in rules {
            self.lose_rule(*rule)?;
        }
        Ok(())
    }
}
