//! Claims and stops where an admission has a say.
ghost use Rattle.std.specs.Prelude.{◌≡◌, ◌<◌, List, IfOk, Some, false, find, is_some, length, true};
ghost use Rattle.flow_types.specs.declared.plan.Plan.{Plan as PlanValue};
ghost use Rattle.run_history.specs.declared.moves.Move.{Move};
ghost use Rattle.run_history.specs.Admissions.{claim_by, is_in_vain_by, sets_by, stop_by};
ghost use Rattle.run_history.specs.Links.{records_of};
ghost use Rattle.task_core.specs.declared.asking.AskedFor.TheVariants.{Startable};
ghost use Rattle.task_core.specs.declared.step.Reply.TheVariants as replies;
ghost use Rattle.task_core.specs.Admissions.{NoneBefore, RepliesBy, asks_by, asks_for_by};
ghost use Rattle.task_core.specs.Asked.{asks_for};
ghost use Rattle.task_core.specs.Known.{can_start, has_storage, leaves_places, number_in, rules_of};
ghost use Rattle.task_core.specs.States.{HasAnswer, known_in};
ghost use Rattle.task_core.specs.Stands.{Stands};
ghost use Rattle.task_core.specs.Surveys.{IsBeside, claimed};

use crate::admissions::Admission;
use crate::asking::{Asked, AskedFor};
use crate::loads::Beside;
use crate::step::Reply;
use crate::table::{Started, Table};
use flow_types::{LinkNo, RuleNo};
use run_history::{Nothing, Stop};

impl Table {
    /// Claims a rule for a link: the least ready one that may run there, fits the link and the
    /// storage and is admitted, or why there is none. The rule runs from then on. It takes no
    /// memory, and costs what a claim does and a question for each rule that fits up to the one
    /// that is taken. Conditions: the run is opened, and the admission stands for the plan.
    pub fn claim_by<A: Admission>(&mut self, link: LinkNo, admission: &mut A) -> Reply
        requires begun { self.old.begun ≡ true }
        requires stands { A.stands_for admission.old self.old.plan }
        ensures claims { (moves : List Move) → Stands self.old moves
            → RepliesBy A.admitted self.old moves link result self.new }
        ensures stays { (P : PlanValue) → A.stands_for admission.old P
            → A.stands_for admission.new P }
        ensures answered { HasAnswer self.old → HasAnswer self.new }
    {
        match self.chosen_by(link, admission) {
            Ok(rule) => {
                let Started { rule, attempt } = self.start(rule, link);
                Reply::Claimed { rule, attempt }
            }
            Err(why) => Reply::Nothing(why),
        }
    }

    /// The rule that such a claim would start, or why there is none; the table stays as it is.
    pub fn choice_by<A: Admission>(
        &self,
        link: LinkNo,
        admission: &mut A,
    ) -> Result<RuleNo, Nothing>
        requires stands { A.stands_for admission.old self.now.plan }
        ensures choice { (moves : List Move) → Stands self.now moves
            → claimed result
            ≡ claim_by A.admitted self.now.plan self.now.options moves self.now.stop link.0 }
        ensures stays { (P : PlanValue) → A.stands_for admission.old P
            → A.stands_for admission.new P }
    {
        self.chosen_by(link, admission)
    }

    // What a claim for the link answers.
    fn chosen_by<A: Admission>(&self, link: LinkNo, admission: &mut A) -> Result<RuleNo, Nothing>
        requires stands { A.stands_for admission.old self.now.plan }
        ensures choice { (moves : List Move) → Stands self.now moves
            → claimed result
            ≡ claim_by A.admitted self.now.plan self.now.options moves self.now.stop link.0 }
        ensures inside { IfOk result (λ rule. rule.0 < length self.now.plan.rules) }
        ensures starts { IfOk result (λ rule. can_start (known_in self.now) rule.0 ≡ true) }
        ensures room { IfOk result (λ rule. has_storage (known_in self.now) rule.0 ≡ true) }
        ensures goes_on { IfOk result (λ _. self.now.ended ≡ false) }
        ensures places { IfOk result (λ _. leaves_places (known_in self.now) 2 ≡ true) }
        ensures stays { (P : PlanValue) → A.stands_for admission.old P
            → A.stands_for admission.new P }
    {
        let first = match self.claim_answer(link) {
            Ok(rule) => rule,
            Err(nothing) => return Err(nothing),
        };
        let beside = self.beside(link);
        match self.first_by_for(&beside, first, admission) {
            Some(rule) => Ok(rule),
            None => Err(Nothing::NotAdmitted { rule: first }),
        }
    }

    // The least admitted rule that may start on the link, where none before this one may.
    fn first_by_for<A: Admission>(
        &self,
        beside: &Beside,
        first: RuleNo,
        admission: &mut A,
    ) -> Option<RuleNo>
        requires stands { A.stands_for admission.old self.now.plan }
        requires known { IsBeside (known_in self.now) beside.now }
        requires before { NoneBefore (known_in self.now) beside.now.link.0 first.0 }
        ensures found { (moves : List Move) → Stands self.now moves
            → number_in result
            ≡ find (asks_for_by A.admitted (known_in self.now) (records_of moves)
            beside.now.link.0 Startable) (rules_of (known_in self.now)) }
        ensures startable { (rule : RuleNo) → result ≡ Some rule
            → asks_for (known_in self.now) beside.now.link.0 Startable rule.0 ≡ true }
        ensures inside { (rule : RuleNo) → result ≡ Some rule
            → rule.0 < length self.now.plan.rules }
        ensures stays { (P : PlanValue) → A.stands_for admission.old P
            → A.stands_for admission.new P }
    {
        let progress = self.progress();
        let limits = self.limits_for(AskedFor::Startable, beside);
        let count = self.rule_count();
        let mut from = first.0;
        'rules: while from < count {
            let Some(rule) = progress.least(RuleNo(from), &limits) else {
                return None;
            };
            if self.may_start_by(beside, rule, admission) {
                return Some(rule);
            }
            from = rule.0 + 1;
        }
        None
    }

    // The rule may start on the link, and is admitted.
    fn may_start_by<A: Admission>(&self, beside: &Beside, rule: RuleNo, admission: &mut A) -> bool
        requires stands { A.stands_for admission.old self.now.plan }
        requires inside { rule.0 < length self.now.plan.rules }
        requires known { IsBeside (known_in self.now) beside.now }
        ensures may { (moves : List Move) → Stands self.now moves
            → result ≡ asks_for_by A.admitted (known_in self.now) (records_of moves)
            beside.now.link.0 Startable rule.0 }
        ensures startable { result ≡ true
            → asks_for (known_in self.now) beside.now.link.0 Startable rule.0 ≡ true }
        ensures stays { (P : PlanValue) → A.stands_for admission.old P
            → A.stands_for admission.new P }
    {
        if !self.holds_for(AskedFor::Startable, beside, rule) {
            return false;
        }
        admission.admits(self, rule)
    }

    /// Asks for a stop, and answers whether one stands now, as `stop` does; but waiting is in vain
    /// where some admitted ready rule fits the storage, and no live link takes such a rule. It asks
    /// the admission at most twice for each of these rules. Condition: the admission stands for the
    /// plan.
    pub fn stop_by<A: Admission>(&mut self, admission: &mut A, why: Stop) -> Reply
        requires stands { A.stands_for admission.old self.old.plan }
        ensures answer { result ≡ replies.Stopped (is_some self.new.stop) }
        ensures stop { (moves : List Move) → Stands self.old moves
            → self.new ≡ record self.old {
              stop = stop_by A.admitted self.old.plan self.old.options moves self.old.stop why;
            } }
        ensures stands { (moves : List Move) → Stands self.old moves → Stands self.new moves }
        ensures stays { (P : PlanValue) → A.stands_for admission.old P
            → A.stands_for admission.new P }
        ensures answered { HasAnswer self.old → HasAnswer self.new }
    {
        if self.is_stopped() {
            return Reply::Stopped(true);
        }
        if !self.may_stop_by(admission, why) {
            return Reply::Stopped(false);
        }
        self.set_stop(why);
        Reply::Stopped(true)
    }

    // The stop is set where none stands.
    fn may_stop_by<A: Admission>(&self, admission: &mut A, why: Stop) -> bool
        requires stands { A.stands_for admission.old self.now.plan }
        ensures sets { (moves : List Move) → Stands self.now moves
            → result ≡ sets_by A.admitted self.now.plan self.now.options moves why }
        ensures stays { (P : PlanValue) → A.stands_for admission.old P
            → A.stands_for admission.new P }
    {
        match why {
            Stop::Halt => true,
            Stop::Waited { .. } => self.waits_in_vain_by(admission),
        }
    }

    fn waits_in_vain_by<A: Admission>(&self, admission: &mut A) -> bool
        requires stands { A.stands_for admission.old self.now.plan }
        ensures vain { (moves : List Move) → Stands self.now moves
            → result ≡ is_in_vain_by A.admitted self.now.plan self.now.options moves }
        ensures stays { (P : PlanValue) → A.stands_for admission.old P
            → A.stands_for admission.new P }
    {
        if !self.is_idle() {
            return false;
        }
        if self.wants().is_some() {
            return false;
        }
        if self.first_by(Asked::Roomy, admission).is_none() {
            return false;
        }
        self.first_by(Asked::Taken, admission).is_none()
    }

    // The least admitted rule of which this holds.
    fn first_by<A: Admission>(&self, asked: Asked, admission: &mut A) -> Option<RuleNo>
        requires stands { A.stands_for admission.old self.now.plan }
        ensures found { (moves : List Move) → Stands self.now moves
            → number_in result
            ≡ find (asks_by A.admitted (known_in self.now) (records_of moves) asked)
            (rules_of (known_in self.now)) }
        ensures stays { (P : PlanValue) → A.stands_for admission.old P
            → A.stands_for admission.new P }
    {
        let progress = self.progress();
        let limits = self.limits(asked);
        let count = self.rule_count();
        let mut from = 0;
        'rules: while from < count {
            let Some(rule) = progress.least(RuleNo(from), &limits) else {
                return None;
            };
            if self.holds_by(asked, rule, admission) {
                return Some(rule);
            }
            from = rule.0 + 1;
        }
        None
    }

    // This holds of the rule, and it is admitted.
    fn holds_by<A: Admission>(&self, asked: Asked, rule: RuleNo, admission: &mut A) -> bool
        requires stands { A.stands_for admission.old self.now.plan }
        requires inside { rule.0 < length self.now.plan.rules }
        ensures holds { (moves : List Move) → Stands self.now moves
            → result ≡ asks_by A.admitted (known_in self.now) (records_of moves) asked rule.0 }
        ensures stays { (P : PlanValue) → A.stands_for admission.old P
            → A.stands_for admission.new P }
    {
        if !self.holds(asked, rule) {
            return false;
        }
        admission.admits(self, rule)
    }
}
