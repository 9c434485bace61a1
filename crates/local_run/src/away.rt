//! Links, and the attempts that run there.
ghost use Rattle.std.specs.Prelude.{◌≡◌, ◌<◌, ◌++◌, ◌∷◌, List, None, Option, Some};
ghost use Rattle.std.specs.Prelude.{IfOk, OnOk, length, slice_get, true};
ghost use Rattle.flow_types.specs.declared.job.Start.{Start as StartValue};
ghost use Rattle.flow_types.specs.declared.plan.Rule.{Rule};
ghost use Rattle.flow_types.specs.declared.plan.Plan.{Plan as PlanValue};
ghost use Rattle.flow_types.specs.Plans.{IsValid, makes};
ghost use Rattle.flow_types.specs.Serial.{job_of, serial};
ghost use Rattle.run_history.specs.Legal.{is_failure_at};
ghost use Rattle.run_history.specs.Links.{is_live, records_of};
ghost use Rattle.run_history.specs.Storage.{is_present};
ghost use Rattle.worker_pool.specs.declared.hand.Tally.{Tally};
ghost use Rattle.desk.specs.declared.attempt.Attempt.{Attempt as AttemptValue};
ghost use Rattle.desk.specs.Links.{Changes, Joins, Leaves};
ghost use Rattle.desk.specs.State.{AreOutputs, CanLose, DeskState, IsDue, IsFine};
ghost use Rattle.local_run.specs.declared.halt.Halt.{Halt as HaltValue};
ghost use Rattle.local_run.specs.Beyond.{IsClaimed};
ghost use Rattle.local_run.specs.Beyond.{changed_by, claimed_by, done_by, failed_by, joined_by};
ghost use Rattle.local_run.specs.Beyond.{left_by, lost_by};
ghost use Rattle.local_run.specs.Losses.{EndsIt, LosesIt, SparesAll, done_as, failed_as};
ghost use Rattle.local_run.specs.Underway.{AwayState, IsSurePool, NoneOn, RunsAt, Underway};
ghost use Rattle.local_run.specs.Underway.{halt_after};

use crate::Halt;
use crate::closing::finish;
use crate::next::halt_by;
use desk::{Attempt, Claim, ClaimRefused, CloseRefused, Desk, Terms};
use flow_types::{Amounts, Bytes, Failure, FileNo, LinkNo, Rows};
use outside::{Commands, Site};
use run_history::JoinRefused;
use std::alloc::Global;
use task_core::Admission;
use worker_pool::Terms as PoolTerms;

/// A link joins with these amounts, the largest of one of its places, and a cache of so many bytes.
pub fn join<B: PoolTerms, F: Commands, S: Site, T: Terms, A: Admission>(
    desk: &mut Desk<F, S, T, A>,
    total: Amounts,
    largest: Amounts,
    cache: u64,
) -> Result<LinkNo, JoinRefused>
    ensures reply { Joins desk.old total largest cache result desk.new }
    ensures underway { (away : AwayState) (first : DeskState S) (held : List AttemptValue)
        (waiting : List StartValue) (loose : Option AttemptValue) (heard : Tally)
        (halt : Option HaltValue)
        → Underway T.trust F.gives F.may_fail T.sources S.tells T.kept (IsSurePool B.fits)
        S.files S.may_leave S.moment S.images_since away first
        desk.old held waiting loose heard halt
        → Underway T.trust F.gives F.may_fail T.sources S.tells T.kept (IsSurePool B.fits)
        S.files S.may_leave S.moment S.images_since (joined_by total largest cache result away)
        first desk.new held waiting loose heard halt }
{
    desk.join(total, largest, cache)
}

/// A link states other amounts and another cache, in bytes. Condition: it lives.
pub fn change<B: PoolTerms, F: Commands, S: Site, T: Terms, A: Admission>(
    desk: &mut Desk<F, S, T, A>,
    link: LinkNo,
    total: Amounts,
    largest: Amounts,
    cache: u64,
) -> Result<(), JoinRefused>
    requires lives { is_live desk.old.options desk.old.moves link.0 ≡ true }
    ensures reply { Changes desk.old link total largest cache result desk.new }
    ensures underway { (away : AwayState) (first : DeskState S) (held : List AttemptValue)
        (waiting : List StartValue) (loose : Option AttemptValue) (heard : Tally)
        (halt : Option HaltValue)
        → Underway T.trust F.gives F.may_fail T.sources S.tells T.kept (IsSurePool B.fits)
        S.files S.may_leave S.moment S.images_since away first
        desk.old held waiting loose heard halt
        → Underway T.trust F.gives F.may_fail T.sources S.tells T.kept (IsSurePool B.fits)
        S.files S.may_leave S.moment S.images_since
        (changed_by link total largest cache result away)
        first desk.new held waiting loose heard halt }
{
    desk.totals(link, total, largest, cache)
}

/// A link leaves, on which none of the attempts on links runs. Conditions: the desk works, the link
/// isn't the local place, and it lives.
pub fn leave<B: PoolTerms, F: Commands, S: Site, T: Terms, A: Admission>(
    desk: &mut Desk<F, S, T, A>,
    link: LinkNo,
)
    requires fine { IsFine desk.old.trouble }
    requires apart { 0 < link.0 }
    requires lives { is_live desk.old.options desk.old.moves link.0 ≡ true }
    requires none { (away : AwayState) × (first : DeskState S) × (held : List AttemptValue)
        × (waiting : List StartValue) × (heard : Tally) × (halt : Option HaltValue)
        × NoneOn link.0 away.attempts
        × Underway T.trust F.gives F.may_fail T.sources S.tells T.kept (IsSurePool B.fits)
        S.files S.may_leave S.moment S.images_since away first
        desk.old held waiting None heard halt }
    ensures reply { Leaves desk.old link desk.new }
    ensures underway { (away : AwayState) (first : DeskState S) (held : List AttemptValue)
        (waiting : List StartValue) (loose : Option AttemptValue) (heard : Tally)
        (halt : Option HaltValue)
        → Underway T.trust F.gives F.may_fail T.sources S.tells T.kept (IsSurePool B.fits)
        S.files S.may_leave S.moment S.images_since away first
        desk.old held waiting loose heard halt
        → Underway T.trust F.gives F.may_fail T.sources S.tells T.kept (IsSurePool B.fits)
        S.files S.may_leave S.moment S.images_since (left_by link away) first
        desk.new held waiting loose heard halt }
{
    desk.leave(link)
}

/// Starts a rule on a link, if a claim for it gives one. Conditions: the link isn't the local
/// place, and it lives.
pub fn claim_away<B: PoolTerms, F: Commands, S: Site, T: Terms, A: Admission>(
    desk: &mut Desk<F, S, T, A>,
    admission: &mut A,
    link: LinkNo,
    moment: u64,
) -> Result<Claim, Halt>
    requires beyond { 0 < link.0 }
    requires stands { A.stands_for admission.old desk.old.plan }
    requires lives { is_live desk.old.options desk.old.moves link.0 ≡ true }
    ensures underway { (away : AwayState) (front back : List AttemptValue) (first : DeskState S)
        (held : List AttemptValue) (waiting : List StartValue) (heard : Tally)
        → away.attempts ≡ front ++ back
        → Underway T.trust F.gives F.may_fail T.sources S.tells T.kept (IsSurePool B.fits)
        S.files S.may_leave S.moment S.images_since away first
        desk.old held waiting None heard None
        → Underway T.trust F.gives F.may_fail T.sources S.tells T.kept (IsSurePool B.fits)
        S.files S.may_leave S.moment S.images_since (claimed_by result front back away) first
        desk.new held waiting None heard (halt_after result None) }
    ensures told { IfOk result (λ claim. IsFine desk.new.trouble
        × IsClaimed A.admitted desk.new link claim) }
    ensures spares { OnOk result (SparesAll desk.old.moves desk.new.moves) }
    ensures stays { (P : PlanValue) → A.stands_for admission.old P → A.stands_for admission.new P }
{
    let _works = desk.works();
    match desk.claim_by(link, admission, moment) {
        Ok(claim) => Ok(claim),
        Err(ClaimRefused::Broken { .. }) => Err(Halt::Site),
        Err(ClaimRefused::Memory) => Err(Halt::Memory),
    }
}

/// The content of a file, as it was logged. Conditions: the desk works, and the file is present.
pub fn read_away<B: PoolTerms, F: Commands, S: Site, T: Terms, A: Admission>(
    alloc: Global,
    desk: &mut Desk<F, S, T, A>,
    file: FileNo,
) -> Result<Bytes, Halt>
    requires fine { IsFine desk.old.trouble }
    requires present { is_present desk.old.plan (records_of desk.old.moves) file.0 ≡ true }
    ensures underway { (away : AwayState) (first : DeskState S) (held : List AttemptValue)
        (waiting : List StartValue) (loose : Option AttemptValue) (heard : Tally)
        → Underway T.trust F.gives F.may_fail T.sources S.tells T.kept (IsSurePool B.fits)
        S.files S.may_leave S.moment S.images_since away first
        desk.old held waiting loose heard None
        → Underway T.trust F.gives F.may_fail T.sources S.tells T.kept (IsSurePool B.fits)
        S.files S.may_leave S.moment S.images_since away first
        desk.new held waiting loose heard (halt_after result None) }
    ensures same { OnOk result (desk.new ≡ record desk.old { site = desk.new.site }) }
    ensures due { IfOk result (λ bytes. S.tells → T.kept → T.trust
        → serial desk.old.plan F.gives T.sources file.0 ≡ Some bytes) }
{
    match desk.read_input(alloc, file) {
        Ok(bytes) => Ok(bytes),
        Err(why) => Err(halt_by(why)),
    }
}

/// Finishes an attempt on a link with what its job gave.
pub fn finish_away<B: PoolTerms, F: Commands, S: Site, T: Terms, A: Admission>(
    desk: &mut Desk<F, S, T, A>,
    attempt: Attempt,
    outs: &Rows<Bytes>,
    moment: u64,
) -> Result<(), Halt>
    requires valid { IsValid desk.old.plan }
    requires runs { RunsAt desk.old.plan (IsFine desk.old.trouble) (records_of desk.old.moves)
        attempt }
    requires outputs { AreOutputs desk.old.plan attempt.rule.0 outs.now }
    requires honest { T.trust
        → IsDue desk.old.plan F.gives T.sources attempt.rule.0 outs.now }
    ensures underway { (away : AwayState) (front back : List AttemptValue) (first : DeskState S)
        (held : List AttemptValue) (waiting : List StartValue) (heard : Tally)
        (halt : Option HaltValue)
        → away.attempts ≡ front ++ attempt ∷ back
        → Underway T.trust F.gives F.may_fail T.sources S.tells T.kept (IsSurePool B.fits)
        S.files S.may_leave S.moment S.images_since away first
        desk.old held waiting None heard halt
        → Underway T.trust F.gives F.may_fail T.sources S.tells T.kept (IsSurePool B.fits)
        S.files S.may_leave S.moment S.images_since (done_by (front ++ back) away) first
        desk.new held waiting None heard (halt_after result halt) }
    ensures ends { OnOk result
        (EndsIt desk.old.moves attempt (done_as attempt outs.now) desk.new.moves) }
{
    finish::<B, F, S, T, A>(desk, attempt, outs, moment)
}

/// Closes an attempt on a link, whose command failed there.
pub fn fail_away<B: PoolTerms, F: Commands, S: Site, T: Terms, A: Admission>(
    desk: &mut Desk<F, S, T, A>,
    attempt: Attempt,
    why: Failure,
    moment: u64,
) -> Result<(), Halt>
    requires valid { IsValid desk.old.plan }
    requires runs { RunsAt desk.old.plan (IsFine desk.old.trouble) (records_of desk.old.moves)
        attempt }
    requires index { is_failure_at why (length (makes desk.old.plan attempt.rule.0)) ≡ true }
    requires honest { T.trust
        → (row : Rule) → slice_get desk.old.plan.rules attempt.rule.0 ≡ Some row
        → F.may_fail (job_of desk.old.plan row (serial desk.old.plan F.gives T.sources)) why }
    ensures underway { (away : AwayState) (front back : List AttemptValue) (first : DeskState S)
        (held : List AttemptValue) (waiting : List StartValue) (heard : Tally)
        (halt : Option HaltValue)
        → away.attempts ≡ front ++ attempt ∷ back
        → Underway T.trust F.gives F.may_fail T.sources S.tells T.kept (IsSurePool B.fits)
        S.files S.may_leave S.moment S.images_since away first
        desk.old held waiting None heard halt
        → Underway T.trust F.gives F.may_fail T.sources S.tells T.kept (IsSurePool B.fits)
        S.files S.may_leave S.moment S.images_since (failed_by (front ++ back) away) first
        desk.new held waiting None heard (halt_after result halt) }
    ensures ends { OnOk result
        (EndsIt desk.old.moves attempt (failed_as attempt why) desk.new.moves) }
{
    let _works = desk.works();
    match desk.fail(attempt, why, moment) {
        Ok(_) => Ok(()),
        Err(CloseRefused::Stale { .. }) => unreachable!(),
        Err(CloseRefused::Broken { .. }) => Err(Halt::Site),
        Err(CloseRefused::Memory) => Err(Halt::Memory),
    }
}

/// Gives an attempt on a link up.
pub fn lose_away<B: PoolTerms, F: Commands, S: Site, T: Terms, A: Admission>(
    desk: &mut Desk<F, S, T, A>,
    attempt: Attempt,
    moment: u64,
) -> Result<(), Halt>
    requires valid { IsValid desk.old.plan }
    requires runs { RunsAt desk.old.plan (IsFine desk.old.trouble) (records_of desk.old.moves)
        attempt }
    requires keen { T.keen attempt.link.0 → CanLose desk.old attempt.link.0 }
    ensures underway { (away : AwayState) (front back : List AttemptValue) (first : DeskState S)
        (held : List AttemptValue) (waiting : List StartValue) (heard : Tally)
        (halt : Option HaltValue)
        → away.attempts ≡ front ++ attempt ∷ back
        → Underway T.trust F.gives F.may_fail T.sources S.tells T.kept (IsSurePool B.fits)
        S.files S.may_leave S.moment S.images_since away first
        desk.old held waiting None heard halt
        → Underway T.trust F.gives F.may_fail T.sources S.tells T.kept (IsSurePool B.fits)
        S.files S.may_leave S.moment S.images_since (lost_by (front ++ back) away) first
        desk.new held waiting None heard (halt_after result halt) }
    ensures loses { OnOk result (LosesIt desk.old.moves attempt desk.new.moves) }
{
    let _works = desk.works();
    match desk.lose(attempt, moment) {
        Ok(()) => Ok(()),
        Err(CloseRefused::Stale { .. }) => unreachable!(),
        Err(CloseRefused::Broken { .. }) => Err(Halt::Site),
        Err(CloseRefused::Memory) => Err(Halt::Memory),
    }
}
