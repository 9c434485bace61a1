//! The closing of an attempt: it is done, it failed, or it is lost.
ghost use Rattle.std.specs.Prelude.{◌≡◌, ◌≢◌, ◌≤◌, ◌<◌, length, Some, OnOk, IfOk, IsErrOf, true};
ghost use Rattle.std.specs.Prelude.{slice_get, map};
ghost use Rattle.std.specs.Vec.{vec_capacity};
ghost use Rattle.flow_types.specs.declared.plan.Rule.{Rule};
ghost use Rattle.flow_types.specs.declared.records.Record.TheVariants as entries;
ghost use Rattle.flow_types.specs.Plans.{IsValid, makes};
ghost use Rattle.flow_types.specs.Serial.{job_of, serial};
ghost use Rattle.run_history.specs.Legal.{is_failure_at};
ghost use Rattle.run_history.specs.Links.{records_of};
ghost use Rattle.run_history.specs.Storage.{has_failed};
ghost use Rattle.outside.specs.Disk.{LeavesOnly};
ghost use Rattle.file_store.specs.Outputs.{IsOther, Last, StayBeside, DifferByName};
ghost use Rattle.desk.specs.Kept.{Fits, IsElse, Keeps, ReadsStay, StaysBeside, FilesHold};
ghost use Rattle.desk.specs.Kept.{KeepsEither, logged};
ghost use Rattle.desk.specs.Room.{HasRows, KeepsAmple};
ghost use Rattle.desk.specs.declared.answers.CloseRefused.TheVariants as refused;
ghost use Rattle.desk.specs.State.{AreNamed, AreOutputs, CanLose, CanWrite, Checks, Closes, IsDue};
ghost use Rattle.desk.specs.State.{IsFine, Writes, closed, has_room, is_final};

use super::Desk;
use crate::attempt::Attempt;
use crate::contents::store_outputs;
use crate::standing::runs_with;
use crate::{CloseRefused, Terms, Trouble};
use flow_types::{AttemptNo, Bytes, Content, Failure, LinkNo, Memory, Record, Rows, RuleNo};
use outside::{Commands, Fault, Site};
use run_history::Next;
use task_core::Admission;

impl<F: Commands, S: Site, T: Terms, A: Admission> Desk<F, S, T, A> {
    /// Whether an attempt may be closed.
    fn check(&self, rule: RuleNo, number: AttemptNo, link: LinkNo) -> Result<(), CloseRefused>
        requires { rule.0 < length self.now.plan.rules }
        ensures reply { Checks self.now rule number link result }
        ensures still { S.tells → T.kept → IsFine self.now.trouble
            → LeavesOnly S.moment S.images_since self.now.site self.now.site
            (Keeps (Fits T.trust F.gives T.sources) self.now.plan self.now.log
            (records_of self.now.moves)) }
        ensures files { S.tells → T.kept → IsFine self.now.trouble
            → FilesHold (Fits T.trust F.gives T.sources) self.now.plan (records_of self.now.moves)
            (S.may_leave self.now.site) }
        ensures valid { IsValid self.now.plan }
        ensures named { AreNamed self.now.plan }
        ensures places { has_room self.now.plan (records_of self.now.moves) ≡ true }
    {
        match self.trouble {
            Trouble::Fine => {
                if runs_with(&self.table, rule, number, link) {
                    Ok(())
                } else {
                    Err(CloseRefused::Stale {
                        rule,
                        state: self.table.state(rule),
                    })
                }
            }
            Trouble::Broken { before, after } => Err(CloseRefused::Broken { before, after }),
            Trouble::Wants => Err(CloseRefused::Memory),
        }
    }

    /// Writes the outputs of a rule, none of which is present, so that they outlive a crash, and
    /// answers their rows, in the room of these.
    fn write_outs(
        &mut self,
        rule: RuleNo,
        outs: &Rows<Bytes>,
        rows: Vec<Content>,
    ) -> Result<Rows<Content>, CloseRefused>
        requires rule { rule.0 < length self.old.plan.rules }
        requires fine { IsFine self.old.trouble }
        requires can { CanWrite self.old (makes self.old.plan rule.0) }
        requires differ { DifferByName self.old.plan (makes self.old.plan rule.0) }
        requires count { length outs.now ≡ length (makes self.old.plan rule.0) }
        ensures reply { Writes S.count self.old result self.new }
        ensures rows { IfOk result (λ rows. rows ≡ map logged outs.now) }
        ensures written { OnOk result (S.tells → Last self.old.plan (makes self.old.plan rule.0)
            outs.now (length outs.now) (S.may_leave self.new.site)) }
        ensures crash { S.tells → StayBeside self.old.plan (makes self.old.plan rule.0)
            (S.may_leave self.old.site) (S.may_leave self.new.site) }
        ensures later { S.count self.old.site ≤ S.count self.new.site }
        ensures any_moment { S.tells → T.kept
            → LeavesOnly S.moment S.images_since self.old.site self.new.site
            (Keeps (Fits T.trust F.gives T.sources) self.old.plan self.old.log
            (records_of self.old.moves)) }
        ensures others { S.tells → StaysBeside S.may_leave S.moment S.images_since
            (IsOther self.old.plan (makes self.old.plan rule.0)) self.old.site self.new.site }
        ensures reads { S.tells → ReadsStay S.files
            (IsOther self.old.plan (makes self.old.plan rule.0)) self.old.site self.new.site }
        ensures never { S.ample self.old.site → length outs.now ≤ vec_capacity rows
            → IsErrOf result refused.Memory → ⊥ }
        ensures ample { KeepsAmple (S.ample self.old.site) (S.ample self.new.site)
            (S.count self.new.site) result }
    {
        match store_outputs(
            rows,
            &mut self.site,
            self.table.plan(),
            rule,
            outs.as_slice(),
        ) {
            Ok(rows) => Ok(rows),
            Err(Fault::Failed) => {
                let before = self.faults;
                let after = self.site.faults();
                self.trouble = Trouble::Broken { before, after };
                Err(CloseRefused::Broken { before, after })
            }
            Err(Fault::Memory) => {
                self.trouble = Trouble::Wants;
                Err(CloseRefused::Memory)
            }
        }
    }

    /// Closes an attempt that made these outputs: they outlive a crash before the record of them is
    /// made.
    pub fn finish(
        &mut self,
        attempt: Attempt,
        outs: &Rows<Bytes>,
        moment: u64,
    ) -> Result<(), CloseRefused>
        requires rule { attempt.rule.0 < length self.old.plan.rules }
        requires outputs { AreOutputs self.old.plan attempt.rule.0 outs.now }
        requires honest { T.trust
            → IsDue self.old.plan F.gives T.sources attempt.rule.0 outs.now }
        ensures reply { Closes S.count self.old attempt.rule attempt.number attempt.link
            (entries.Done moment attempt.rule attempt.number (map logged outs.now)) result
            self.new }
        ensures any_moment { S.tells → T.kept → IsFine self.old.trouble
            → LeavesOnly S.moment S.images_since self.old.site self.new.site
            (KeepsEither (Fits T.trust F.gives T.sources) self.old.plan self.old.log
            (records_of self.old.moves)
            (entries.Done moment attempt.rule attempt.number (map logged outs.now))) }
        ensures others { S.tells → StaysBeside S.may_leave S.moment S.images_since
            (IsElse self.old.plan self.old.log (makes self.old.plan attempt.rule.0)) self.old.site
            self.new.site }
        ensures reads { S.tells → ReadsStay S.files
            (IsElse self.old.plan self.old.log (makes self.old.plan attempt.rule.0))
            self.old.site self.new.site }
        ensures never { S.ample self.old.site → IsFine self.old.trouble
            → HasRows self.old.plan attempt → IsErrOf result refused.Memory → ⊥ }
        ensures ample { KeepsAmple (S.ample self.old.site) (S.ample self.new.site)
            (S.count self.new.site) result }
    {
        let Attempt {
            rule,
            number,
            link,
            rows,
        } = attempt;
        self.check(rule, number, link)?;
        let rows = self.write_outs(rule, outs, rows)?;
        self.record(Record::Done {
            moment,
            rule,
            attempt: number,
            outs: rows,
        })
    }

    /// What comes after a failure of the rule.
    fn next(&self, rule: RuleNo) -> Next
        requires { rule.0 < length self.now.plan.rules }
        ensures { is_final result ≡ has_failed (records_of self.now.moves) rule.0 }
    {
        if self.table.has_failed(rule) {
            Next::Final
        } else {
            Next::Again
        }
    }

    /// Closes an attempt whose command failed, and answers whether the rule has failed by it.
    pub fn fail(
        &mut self,
        attempt: Attempt,
        why: Failure,
        moment: u64,
    ) -> Result<Next, CloseRefused>
        requires rule { attempt.rule.0 < length self.old.plan.rules }
        requires index { is_failure_at why (length (makes self.old.plan attempt.rule.0)) ≡ true }
        requires honest { T.trust
            → (row : Rule) → slice_get self.old.plan.rules attempt.rule.0 ≡ Some row
            → F.may_fail (job_of self.old.plan row (serial self.old.plan F.gives T.sources)) why }
        ensures reply { Closes S.count self.old attempt.rule attempt.number attempt.link
            (entries.Failed moment attempt.rule attempt.number why) (closed result) self.new }
        ensures next { IfOk result (λ next. is_final next
            ≡ has_failed (records_of self.new.moves) attempt.rule.0) }
        ensures any_moment { S.tells → T.kept → IsFine self.old.trouble
            → LeavesOnly S.moment S.images_since self.old.site self.new.site
            (KeepsEither (Fits T.trust F.gives T.sources) self.old.plan self.old.log
            (records_of self.old.moves) (entries.Failed moment attempt.rule attempt.number why)) }
        ensures others { S.tells → StaysBeside S.may_leave S.moment S.images_since
            (λ m. m ≢ self.old.log) self.old.site self.new.site }
        ensures reads { S.tells → ReadsStay S.files
            (λ m. m ≢ self.old.log) self.old.site self.new.site }
        ensures never { S.ample self.old.site → IsFine self.old.trouble
            → IsErrOf result refused.Memory → ⊥ }
        ensures ample { KeepsAmple (S.ample self.old.site) (S.ample self.new.site)
            (S.count self.new.site) result }
    {
        let Attempt {
            rule,
            number,
            link,
            rows: _,
        } = attempt;
        self.check(rule, number, link)?;
        self.record(Record::Failed {
            moment,
            rule,
            attempt: number,
            why,
        })?;
        Ok(self.next(rule))
    }

    /// Gives an attempt up.
    pub fn lose(&mut self, attempt: Attempt, moment: u64) -> Result<(), CloseRefused>
        requires rule { attempt.rule.0 < length self.old.plan.rules }
        requires keen { T.keen attempt.link.0 → CanLose self.old attempt.link.0 }
        ensures reply { Closes S.count self.old attempt.rule attempt.number attempt.link
            (entries.Lost moment attempt.rule attempt.number) result self.new }
        ensures any_moment { S.tells → T.kept → IsFine self.old.trouble
            → LeavesOnly S.moment S.images_since self.old.site self.new.site
            (KeepsEither (Fits T.trust F.gives T.sources) self.old.plan self.old.log
            (records_of self.old.moves) (entries.Lost moment attempt.rule attempt.number)) }
        ensures others { S.tells → StaysBeside S.may_leave S.moment S.images_since
            (λ m. m ≢ self.old.log) self.old.site self.new.site }
        ensures reads { S.tells → ReadsStay S.files
            (λ m. m ≢ self.old.log) self.old.site self.new.site }
        ensures never { S.ample self.old.site → IsFine self.old.trouble
            → IsErrOf result refused.Memory → ⊥ }
        ensures ample { KeepsAmple (S.ample self.old.site) (S.ample self.new.site)
            (S.count self.new.site) result }
    {
        let Attempt {
            rule,
            number,
            link,
            rows: _,
        } = attempt;
        self.check(rule, number, link)?;
        self.record(Record::Lost {
            moment,
            rule,
            attempt: number,
        })
    }
}
