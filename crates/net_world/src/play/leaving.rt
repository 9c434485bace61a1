//! Links that are lost, with what runs there.
ghost use Rattle.std.specs.Prelude.{◌≡◌, ◌<◌, ◌∷◌, ◌++◌, [], filter, find, is_some, length, map, not};
ghost use Rattle.std.specs.Prelude.{IfOk, List, OnOk};
ghost use Rattle.run_history.specs.declared.moves.Move.{Move};
ghost use Rattle.run_history.specs.Links.{records_of, running_on};
ghost use Rattle.task_core.specs.Stands.{Stands};
ghost use Rattle.world_laws.specs.Worlds.{at_link, leaves, loses_link};
ghost use Rattle.net_world.specs.Plays.{Turns, runs_there};

use crate::play::{Line, Play};
use flow_types::{LinkNo, Memory, RuleNo};
use run_history::RuleState;

impl Play {
    // The rule runs on the link.
    fn is_on(&self, rule: RuleNo, link: LinkNo) -> bool
        requires { rule.0 < length self.now.table.plan.rules }
        ensures { (moves : List Move) → Stands self.now.table moves
            → result ≡ runs_there (records_of moves) link.0 rule.0 }
    {
        match self.table.state(rule) {
            RuleState::Running(_) => match self.table.place_of(rule) {
                Some((_, on)) => on.0 == link.0,
                None => false,
            },
            _ => false,
        }
    }

    // The rule is taken where it runs on the link.
    fn take_on(&self, rules: &mut Vec<RuleNo>, rule: RuleNo, link: LinkNo) -> Result<(), Memory>
        requires { rule.0 < length self.now.table.plan.rules }
        ensures { OnOk result ((moves : List Move) → Stands self.now.table moves
            → map (λ rule. rule.0) rules.new.items ≡ map (λ rule. rule.0) rules.old.items
            ++ filter (runs_there (records_of moves) link.0) (rule.0 ∷ [])) }
    {
        if !self.is_on(rule, link) {
            return Ok(());
        }
        match rules.push(rule) {
            Ok(()) => Ok(()),
            Err(_) => Err(Memory),
        }
    }

    // The rules that run on a link.
    fn rules_on(&self, link: LinkNo) -> Result<Vec<RuleNo>, Memory>
        ensures { IfOk result (λ rules. (moves : List Move) → Stands self.now.table moves
            → map (λ rule. rule.0) rules.items
            ≡ running_on self.now.table.plan (records_of moves) link.0) }
    {
        let mut rules = Vec::new(self.alloc);
        for rule in 0..self.table.plan().rules.len() as u32 {
            self.take_on(&mut rules, RuleNo(rule), link)?;
        }
        Ok(rules)
    }

    // A link leaves, where it lives; the local place stays.
    fn leave(&mut self, link: LinkNo)
        ensures { Turns (λ P O w. leaves w link.0 (find (at_link link.0) w.connections))
            self.old self.new }
    {
        if link.0 == 0 {
            return;
        }
        if !has_link(&self.lines, link) {
            return;
        }
        self.table.leave(link);
        without(&mut self.lines, link);
    }

    // A link is lost, with all that runs there; of the local place only what runs there.
    pub(crate) fn lose_link(&mut self, link: LinkNo) -> Result<(), Memory>
        ensures { OnOk result (Turns (λ P O w. loses_link P w link.0) self.old self.new) }
    {
        let rules = self.rules_on(link)?;
        self.lose_all(rules.as_slice())?;
        self.leave(link);
        Ok(())
    }
}

// A link with this number lives.
fn has_link(lines: &[Line], link: LinkNo) -> bool
    ensures { result ≡ is_some (find (at_link link.0) lines.now) }
{
    for line in lines {
        if line.link.0 == link.0 {
            return true;
        }
    }
    false
}

// The link with this number lives no more.
fn without(lines: &mut Vec<Line>, link: LinkNo)
    ensures { lines.new.items ≡ filter (λ c. not (at_link link.0 c)) lines.old.items }
{
    lines.retain(|line| line.link.0 != link.0);
}
