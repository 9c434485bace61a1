//! How attempts at a worker end.
ghost use Rattle.std.specs.Prelude.{◌≡◌, ◌++◌, ◌∷◌, ◌<◌, ◌+◌, [], ℕ, List, None};
ghost use Rattle.std.specs.Prelude.{OnOk, Option, Some, false, length, slice_get};
ghost use Rattle.std.specs.List.{AllByRecursion};
ghost use Rattle.flow_types.specs.declared.job.Outcome.TheVariants as outcomes;
ghost use Rattle.flow_types.specs.declared.job.Start.{Start as StartValue};
ghost use Rattle.flow_types.specs.declared.plan.Rule.{Rule};
ghost use Rattle.flow_types.specs.Plans.{IsValid};
ghost use Rattle.flow_types.specs.Serial.{job_of, serial};
ghost use Rattle.run_history.specs.Links.{records_of};
ghost use Rattle.worker_pool.specs.declared.hand.Tally.{Tally};
ghost use Rattle.worker_pool.specs.Courses.{EndsAsTold};
ghost use Rattle.desk.specs.declared.attempt.Attempt.{Attempt as AttemptValue};
ghost use Rattle.desk.specs.State.{DeskState, IsFine};
ghost use Rattle.link_session.specs.Sessions.{is_open};
ghost use Rattle.peers.specs.declared.leave.Leave.{Leave};
ghost use Rattle.peers.specs.States.{PassesOn};
ghost use Rattle.local_run.specs.declared.halt.Halt.{Halt as HaltValue};
ghost use Rattle.local_run.specs.Underway.{AwayState, IsHeld, IsSurePool, RunsAt, Underway};
ghost use Rattle.local_run.specs.Underway.{halt_after};
ghost use Rattle.wq_run.specs.Calm.{AddsWell, Asked, FaresWell, IsSureOf, IsSureSeat};
ghost use Rattle.wq_run.specs.Dues.{EndsWith, FaresSeat, GivesUp, IsIllLink, ShowsOutcome, ended};
ghost use Rattle.wq_run.specs.Seats.{AtPlace, IsAtPlace, IsAtSeat, KeepsSeat, MayEnd, MayEndAs};
ghost use Rattle.wq_run.specs.Seats.{Stays};
ghost use Rattle.wq_run.specs.Trusted.{EndsDue};

use super::Seat;
use crate::reliance::Trust;
use desk::{Attempt, Desk, Terms};
use flow_types::{AttemptNo, Outcome};
use links::Link;
use local_run::{Halt, Held, fail_away, finish_away, lose_away};
use outside::{Clock, Commands, Site};
use std::alloc::Global;
use task_core::Admission;
use worker_pool::Terms as PoolTerms;

// Closes an attempt at a worker by how it ended there.
fn end_away<B: PoolTerms, F: Commands, S: Site, T: Terms, A: Admission>(
    desk: &mut Desk<F, S, T, A>,
    attempt: Attempt,
    outcome: Outcome,
    moment: u64,
) -> Result<(), Halt>
    requires valid { IsValid desk.old.plan }
    requires runs { RunsAt desk.old.plan (IsFine desk.old.trouble) (records_of desk.old.moves)
        attempt }
    requires beyond { 0 < attempt.link.0 }
    requires fits { MayEnd desk.old.plan attempt.rule.0 outcome }
    requires honest { T.trust
        → (row : Rule) → slice_get desk.old.plan.rules attempt.rule.0 ≡ Some row
        → EndsAsTold F.gives F.may_fail
        (job_of desk.old.plan row (serial desk.old.plan F.gives T.sources)) outcome }
    requires keen { (k : ℕ) → 0 < k → T.keen k → ⊥ }
    ensures underway { (away : AwayState) (front back : List AttemptValue) (first : DeskState S)
        (held : List AttemptValue) (waiting : List StartValue) (heard : Tally)
        (halt : Option HaltValue)
        → away.attempts ≡ front ++ attempt ∷ back
        → Underway T.trust F.gives F.may_fail T.sources S.tells T.kept (IsSurePool B.fits)
        S.files S.may_leave S.moment S.images_since away first
        desk.old held waiting None heard halt
        → (next : AwayState) × (next.attempts ≡ front ++ back) × (next.links ≡ away.links)
        × Underway T.trust F.gives F.may_fail T.sources S.tells T.kept (IsSurePool B.fits)
        S.files S.may_leave S.moment S.images_since next first
        desk.new held waiting None heard (halt_after result halt) }
    ensures adds { OnOk result (EndsWith desk.old.moves attempt outcome desk.new.moves) }
    ensures calm { (outs : List (List ℕ)) (away : AwayState) (front back : List AttemptValue)
        (first : DeskState S) (held : List AttemptValue) (waiting : List StartValue)
        (heard : Tally) → outcome ≡ outcomes.Success outs
        → away.attempts ≡ front ++ attempt ∷ back
        → Underway T.trust F.gives F.may_fail T.sources S.tells T.kept (IsSurePool B.fits)
        S.files S.may_leave S.moment S.images_since away first
        desk.old held waiting None heard None
        → OnOk result (AddsWell desk.old.moves desk.new.moves) }
{
    match outcome {
        Outcome::Success(outs) => finish_away::<B, F, S, T, A>(desk, attempt, &outs, moment),
        Outcome::Failed(why) => fail_away::<B, F, S, T, A>(desk, attempt, why, moment),
        Outcome::NotRun => lose_away::<B, F, S, T, A>(desk, attempt, moment),
    }
}

impl<F: Commands, L: Link<F>, T: Terms + Trust> Seat<F, L, T> {
    // Closes the attempt of this number, which is no longer open at the peer.
    pub(super) fn close<B: PoolTerms, S: Site, A: Admission, C: Clock>(
        &mut self,
        desk: &mut Desk<F, S, T, A>,
        held: &mut Held,
        number: AttemptNo,
        outcome: Outcome,
        clock: &C,
    )
        requires valid { IsValid desk.old.plan }
        requires honest { T.trust → AllByRecursion (EndsDue desk.old.plan F.gives F.may_fail
            (serial desk.old.plan F.gives T.sources) number outcome) self.old.attempts }
        requires keen { (k : ℕ) → 0 < k → T.keen k → ⊥ }
        requires at { IsAtSeat T.trust F.gives F.may_fail T.sources S.tells T.kept
            (IsSurePool B.fits) S.files S.may_leave S.moment S.images_since desk.old held.old
            self.old }
        requires there { IsHeld number self.old.attempts }
        requires fits { AllByRecursion (MayEndAs desk.old.plan number outcome)
            self.old.attempts }
        requires gone { is_open number self.old.peer.session.attempts ≡ false }
        requires back { L.tells
            → ShowsOutcome (L.history self.old.peer.way) number outcome }
        ensures keeps { KeepsSeat T.trust F.gives F.may_fail T.sources S.tells T.kept
            (IsSurePool B.fits) S.files S.may_leave S.moment S.images_since desk.old desk.new
            held.old held.new self.old self.new }
        ensures fewer { length self.old.attempts ≡ length self.new.attempts + 1 }
        ensures peer { self.new.peer ≡ self.old.peer }
        ensures fares { (limit : ℕ) → L.tells → FaresSeat
            (IsIllLink F.gives F.may_fail L.history L.count L.idle_count L.is_closed limit)
            L.history desk.old.moves desk.new.moves held.old.halt held.new.halt self.old self.new (ended Leave) }
        ensures calm { (asked : Option Asked) (outs : List (List ℕ))
            → outcome ≡ outcomes.Success outs
            → IsSureSeat F.gives F.may_fail L.history (IsSureOf L.sure L.offers asked) self.old
            → FaresWell desk.old.moves desk.new.moves held.new.halt (ended Leave)
            (IsSureSeat F.gives F.may_fail L.history (IsSureOf L.sure L.offers asked) self.new) }
    {
        let attempt = self.take(number);
        if let Err(why) = end_away::<B, F, S, T, A>(desk, attempt, outcome, clock.now()) {
            held.stop(why);
        }
    }

    /// Gives up all that runs there. The peer isn't told.
    pub fn abandon<B: PoolTerms, S: Site, A: Admission, C: Clock>(
        &mut self,
        desk: &mut Desk<F, S, T, A>,
        held: &mut Held,
        clock: &C,
    )
        requires valid { IsValid desk.old.plan }
        requires keen { (k : ℕ) → 0 < k → T.keen k → ⊥ }
        requires at { IsAtPlace T.trust F.gives F.may_fail T.sources S.tells T.kept
            (IsSurePool B.fits) S.files S.may_leave S.moment S.images_since desk.old held.old
            self.old }
        ensures keeps { (front back : List AttemptValue) (first : DeskState S)
            (waiting : List StartValue) (heard : Tally)
            → AtPlace T.trust F.gives F.may_fail T.sources S.tells T.kept (IsSurePool B.fits)
            S.files S.may_leave S.moment S.images_since front back first desk.old held.old
            waiting heard self.old
            → AtPlace T.trust F.gives F.may_fail T.sources S.tells T.kept (IsSurePool B.fits)
            S.files S.may_leave S.moment S.images_since front back first desk.new held.new
            waiting heard self.new }
        ensures stays { Stays desk.old desk.new self.old self.new }
        ensures peer { self.new.peer ≡ self.old.peer }
        ensures none { self.new.attempts ≡ [] }
        ensures gives_up { GivesUp self.old.link.0 desk.old.moves desk.new.moves held.old.halt
            held.new.halt }
    {
        while let Some(attempt) = self.pop() {
            if let Err(why) = lose_away::<B, F, S, T, A>(desk, attempt, clock.now()) {
                held.stop(why);
            }
        }
    }

    /// Tells the peer that nothing of what runs there is wanted any more, and that the work is over.
    pub fn farewell(&mut self, alloc: Global)
        ensures link { self.new.link ≡ self.old.link }
        ensures attempts { self.new.attempts ≡ self.old.attempts }
        ensures feed { self.new.peer.feed ≡ self.old.peer.feed }
        ensures comes { L.tells
            → PassesOn (L.history self.old.peer.way) (L.history self.new.peer.way) }
    {
        self.is_ready = false;
        for attempt in &self.attempts {
            let _ = self.peer.cancel(alloc, attempt.number());
        }
        let _ = self.peer.bye(alloc);
    }
}
