//! What a worker is asked to do.
ghost use Rattle.std.specs.Prelude.{◌≡◌, ◌≤◌, ◌<◌, ◌∷◌, ◌++◌, [], ℕ, List, None, Some, length};
ghost use Rattle.std.specs.Prelude.{IfErr, IfOk, IfSome, OnErr, OnOk, Option, false};
ghost use Rattle.std.specs.List.{AllByRecursion};
ghost use Rattle.flow_types.specs.declared.job.Task.{Task as TaskValue};
ghost use Rattle.flow_types.specs.declared.messages.Key.{Key as KeyValue};
ghost use Rattle.flow_types.specs.declared.messages.Message.TheVariants as messages;
ghost use Rattle.flow_types.specs.declared.numbers.AttemptNo.{AttemptNo as AttemptNoValue};
ghost use Rattle.flow_types.specs.declared.plan.Plan.{Plan as PlanValue};
ghost use Rattle.flow_types.specs.Plans.{IsValid, most_bytes};
ghost use Rattle.run_history.specs.Links.{records_of};
ghost use Rattle.wq_messages.specs.Spelling.{HasCounts, most_body, spelling};
ghost use Rattle.desk.specs.declared.attempt.Attempt.{Attempt as AttemptValue};
ghost use Rattle.desk.specs.Tasks.{task_of};
ghost use Rattle.link_session.specs.Keys.{key_of};
ghost use Rattle.link_session.specs.Sessions.{is_open, started};
ghost use Rattle.local_run.specs.Underway.{IsHeld, IsSurePool};
ghost use Rattle.peers.specs.Provides.{keys_of};
ghost use Rattle.peers.specs.States.{MaySend, PassesOn};
ghost use Rattle.wq_run.specs.Calm.{AddsWell, Asked, FaresWell, IsSureOf, IsSureSeat, IsSureToAsk};
ghost use Rattle.wq_run.specs.Calm.{IsWantOr, StaysOr};
ghost use Rattle.wq_run.specs.Dues.{FaresSeat, IsIllLink};
ghost use Rattle.wq_run.specs.Seats.{IsAtSeat, IsInside, SeatAfter, seat_with};
ghost use Rattle.wq_run.specs.Trusted.{IsFair, IsHeard, IsOf, IsOwn, MayAsk, MayOpen, WasAsked};

use super::Seat;
use crate::reliance::Trust;
use desk::{Attempt, Claim, Desk, Terms};
use flow_types::{AttemptNo, Bytes, FileNo, Key, Memory, Rows, Task};
use links::Link;
use local_run::{Halt, Held, claim_away, lose_away, read_away};
use outside::{Clock, Commands, Site};
use peers::{Leave, tasks_come_behind_their_inputs, what_is_due_stays_due};
use std::alloc::Global;
use task_core::Admission;
use worker_pool::Terms as PoolTerms;

/// The most bytes of a file.
const MOST_BYTES: usize = 67_108_864;

// The task of an attempt among these, where memory suffices.
fn task_at<F: Commands, S: Site, T: Terms, A: Admission>(
    alloc: Global,
    desk: &Desk<F, S, T, A>,
    attempts: &[Attempt],
    number: AttemptNo,
) -> Option<Task>
    requires valid { IsValid desk.now.plan }
    requires inside { AllByRecursion (IsInside desk.now.plan) attempts.now }
    ensures of { IfSome result (λ task. (front : List AttemptValue) × (a : AttemptValue)
        × (back : List AttemptValue) × (attempts.now ≡ front ++ a ∷ back)
        × (a.number ≡ number)
        × (task_of desk.now.plan (records_of desk.now.moves) a ≡ Some task)) }
    ensures counts { IfSome result (λ task. HasCounts (messages.Task task)) }
    ensures short { IfSome result
        (λ task. length (spelling (messages.Task task)) ≤ most_body) }
{
    let at = super::place(attempts, number)?;
    let attempt = attempts.get(at)?;
    desk.task(alloc, attempt).ok()
}

impl<F: Commands, L: Link<F>, T: Terms + Trust> Seat<F, L, T> {
    // The task of an attempt that runs there, where memory suffices.
    fn task<S: Site, A: Admission>(
        &self,
        alloc: Global,
        desk: &Desk<F, S, T, A>,
        number: AttemptNo,
    ) -> Option<Task>
        requires valid { IsValid desk.now.plan }
        requires inside { AllByRecursion (IsInside desk.now.plan) self.now.attempts }
        ensures of { IfSome result (λ task. (front : List AttemptValue) × (a : AttemptValue)
            × (back : List AttemptValue) × (self.now.attempts ≡ front ++ a ∷ back)
            × (a.number ≡ number)
            × (task_of desk.now.plan (records_of desk.now.moves) a ≡ Some task)) }
        ensures counts { IfSome result (λ task. HasCounts (messages.Task task)) }
        ensures short { IfSome result
            (λ task. length (spelling (messages.Task task)) ≤ most_body) }
    {
        task_at(alloc, desk, self.attempts.as_slice(), number)
    }

    // Sends a content, which is no larger than a file may be.
    fn send(&mut self, alloc: Global, key: Key, content: Bytes) -> Result<(), Leave>
        requires due { T.holds → T.due key.file.0 ≡ Some content }
        requires short { length content ≤ most_bytes }
        ensures link { self.new.link ≡ self.old.link }
        ensures attempts { self.new.attempts ≡ self.old.attempts }
        ensures session { self.new.peer.session ≡ self.old.peer.session }
        ensures feed { self.new.peer.feed ≡ self.old.peer.feed }
        ensures asks { (task : TaskValue) (left : List KeyValue) → IsHeard T.holds L.tells
            → MayAsk T.holds F.gives F.may_fail L.history (IsFair T.holds L.tells L.honest) T.plan T.run T.due self.old task
            (key ∷ left) → OnOk result
            (MayAsk T.holds F.gives F.may_fail L.history (IsFair T.holds L.tells L.honest) T.plan T.run T.due self.new task left) }
        ensures comes { L.tells
            → PassesOn (L.history self.old.peer.way) (L.history self.new.peer.way) }
        ensures cause { MaySend (L.count self.old.peer.way) (L.count self.new.peer.way) result }
        ensures calm { (asked : Option Asked) (task : TaskValue) (left : List KeyValue) → L.tells
            → IsSureToAsk F.gives F.may_fail L.history (IsSureOf L.sure L.offers asked) self.old
            task (key ∷ left)
            → StaysOr (IsSureToAsk F.gives F.may_fail L.history (IsSureOf L.sure L.offers asked)
            self.new task left) ⊥ result }
        ensures wants { L.sure self.old.peer.way → IfErr result (IsWantOr ⊥) }
    {
        what_is_due_stays_due();
        tasks_come_behind_their_inputs();
        match self.peer.put(alloc, key, content) {
            Ok(()) => Ok(()),
            Err(leave) => {
                self.is_ready = false;
                Err(leave)
            }
        }
    }

    // Asks for a task.
    fn ask(&mut self, alloc: Global, task: Task) -> Result<(), Leave>
        requires counts { HasCounts (messages.Task task) }
        requires short { length (spelling (messages.Task task)) ≤ most_body }
        requires asks { IsHeard T.holds L.tells
            → MayAsk T.holds F.gives F.may_fail L.history (IsFair T.holds L.tells L.honest) T.plan T.run T.due self.old task [] }
        ensures link { self.new.link ≡ self.old.link }
        ensures attempts { self.new.attempts ≡ self.old.attempts }
        ensures session { self.new.peer.session ≡ self.old.peer.session }
        ensures feed { self.new.peer.feed ≡ self.old.peer.feed }
        ensures comes { L.tells
            → PassesOn (L.history self.old.peer.way) (L.history self.new.peer.way) }
        ensures cause { MaySend (L.count self.old.peer.way) (L.count self.new.peer.way) result }
        ensures calm { (asked : Option Asked) → L.tells
            → IsSureToAsk F.gives F.may_fail L.history (IsSureOf L.sure L.offers asked) self.old
            task []
            → StaysOr
            (IsSureSeat F.gives F.may_fail L.history (IsSureOf L.sure L.offers asked) self.new) ⊥
            result }
    {
        what_is_due_stays_due();
        tasks_come_behind_their_inputs();
        self.pulse.said();
        match self.peer.ask(alloc, task) {
            Ok(()) => {
                self.is_ready = true;
                Ok(())
            }
            Err(leave) => {
                self.is_ready = false;
                Err(leave)
            }
        }
    }

    // Opens a task at the peer, and gives the inputs that the peer lacks.
    fn open(&mut self, task: &Task) -> Result<Rows<FileNo>, Memory>
        requires fresh { is_open task.now.attempt self.old.peer.session.attempts ≡ false }
        ensures link { self.new.link ≡ self.old.link }
        ensures attempts { self.new.attempts ≡ self.old.attempts }
        ensures way { self.new.peer.way ≡ self.old.peer.way }
        ensures feed { self.new.peer.feed ≡ self.old.peer.feed }
        ensures ok { OnOk result
            (self.new.peer.session ≡ started self.old.peer.session task.now) }
        ensures err { OnErr result (self.new.peer.session ≡ self.old.peer.session) }
        ensures asks { IsHeard T.holds L.tells → MayOpen T.holds F.gives F.may_fail L.history (IsFair T.holds L.tells L.honest) T.plan T.run T.due
            self.old task.now.attempt
            → AllByRecursion (IsOwn T.plan T.run task.now) self.old.attempts
            → IfOk result (λ files.
            MayAsk T.holds F.gives F.may_fail L.history (IsFair T.holds L.tells L.honest) T.plan T.run T.due self.new task.now
            (keys_of task.now.run files)) }
        ensures calm { (asked : Option Asked) → L.tells
            → IsSureSeat F.gives F.may_fail L.history (IsSureOf L.sure L.offers asked) self.old
            → ((newest : AttemptNoValue) → self.old.newest ≡ Some newest
            → newest.0 < task.now.attempt.0)
            → IfOk result (λ files. IsSureToAsk F.gives F.may_fail L.history
            (IsSureOf L.sure L.offers asked) self.new task.now (keys_of task.now.run files)) }
    {
        tasks_come_behind_their_inputs();
        self.is_ready = false;
        self.newest = Some(task.attempt);
        self.peer.open(task)
    }

    // Puts a file at the peer, as it was logged. Where it can't be read the run stops, and so it does
    // where it isn't present or is too large, which no input is.
    fn put<B: PoolTerms, S: Site, A: Admission>(
        &mut self,
        alloc: Global,
        desk: &mut Desk<F, S, T, A>,
        held: &mut Held,
        run: u64,
        file: FileNo,
    ) -> Result<(), Leave>
        requires of { IsOf T.trust F.gives T.sources S.tells T.kept T.holds T.plan T.options T.run T.due
            desk.old.plan desk.old.options (records_of desk.old.moves) }
        requires at { IsAtSeat T.trust F.gives F.may_fail T.sources S.tells T.kept
            (IsSurePool B.fits) S.files S.may_leave S.moment S.images_since desk.old held.old
            self.old }
        ensures keeps { SeatAfter T.trust F.gives F.may_fail T.sources S.tells T.kept
            (IsSurePool B.fits) S.files S.may_leave S.moment S.images_since desk.old desk.new
            held.old held.new self.old self.new
            result }
        ensures asks { (task : TaskValue) (left : List KeyValue) → held.new.halt ≡ None
            → IsHeard T.holds L.tells
            → MayAsk T.holds F.gives F.may_fail L.history (IsFair T.holds L.tells L.honest) T.plan T.run T.due self.old task
            (key_of run file ∷ left) → OnOk result
            (MayAsk T.holds F.gives F.may_fail L.history (IsFair T.holds L.tells L.honest) T.plan T.run T.due self.new task left) }
        ensures fares { (limit : ℕ) → L.tells → FaresSeat
            (IsIllLink F.gives F.may_fail L.history L.count L.idle_count L.is_closed limit)
            L.history desk.old.moves desk.new.moves held.old.halt held.new.halt self.old self.new result }
        ensures calm { (asked : Option Asked) (task : TaskValue) (left : List KeyValue) → L.tells
            → IsSureToAsk F.gives F.may_fail L.history (IsSureOf L.sure L.offers asked) self.old
            task (key_of run file ∷ left)
            → FaresWell desk.old.moves desk.new.moves held.new.halt result (IsSureToAsk F.gives
            F.may_fail L.history (IsSureOf L.sure L.offers asked) self.new task left) }
        ensures wants { L.sure self.old.peer.way → held.new.halt ≡ None
            → AddsWell desk.old.moves desk.new.moves × IfErr result (IsWantOr ⊥) }
    {
        if !held.is_going() {
            return Ok(());
        }
        if !desk.present(file) {
            held.stop(Halt::Memory);
            return Ok(());
        }
        match read_away::<B, F, S, T, A>(alloc, desk, file) {
            Ok(content) => {
                if content.as_slice().len() > MOST_BYTES {
                    held.stop(Halt::Memory);
                    return Ok(());
                }
                self.send(alloc, Key { run, file }, content)
            }
            Err(why) => {
                held.stop(why);
                Ok(())
            }
        }
    }

    // Puts these files at the peer, and then asks it for the task.
    fn provide<B: PoolTerms, S: Site, A: Admission>(
        &mut self,
        alloc: Global,
        desk: &mut Desk<F, S, T, A>,
        held: &mut Held,
        task: Task,
        files: &[FileNo],
    ) -> Result<(), Leave>
        requires counts { HasCounts (messages.Task task) }
        requires short { length (spelling (messages.Task task)) ≤ most_body }
        requires of { IsOf T.trust F.gives T.sources S.tells T.kept T.holds T.plan T.options T.run T.due
            desk.old.plan desk.old.options (records_of desk.old.moves) }
        requires asks { IsHeard T.holds L.tells
            → MayAsk T.holds F.gives F.may_fail L.history (IsFair T.holds L.tells L.honest) T.plan T.run T.due self.old task
            (keys_of task.run files.now) }
        requires at { IsAtSeat T.trust F.gives F.may_fail T.sources S.tells T.kept
            (IsSurePool B.fits) S.files S.may_leave S.moment S.images_since desk.old held.old
            self.old }
        ensures keeps { SeatAfter T.trust F.gives F.may_fail T.sources S.tells T.kept
            (IsSurePool B.fits) S.files S.may_leave S.moment S.images_since desk.old desk.new
            held.old held.new self.old self.new
            result }
        ensures fares { (limit : ℕ) → L.tells → FaresSeat
            (IsIllLink F.gives F.may_fail L.history L.count L.idle_count L.is_closed limit)
            L.history desk.old.moves desk.new.moves held.old.halt held.new.halt self.old self.new result }
        ensures calm { (asked : Option Asked) → L.tells
            → IsSureToAsk F.gives F.may_fail L.history (IsSureOf L.sure L.offers asked) self.old
            task (keys_of task.run files.now)
            → FaresWell desk.old.moves desk.new.moves held.new.halt result
            (IsSureSeat F.gives F.may_fail L.history (IsSureOf L.sure L.offers asked) self.new) }
    {
        for file in files {
            match self.put::<B, S, A>(alloc, desk, held, task.run, *file) {
                Ok(()) => {}
                Err(leave) => return Err(leave),
            }
        }
        if !held.is_going() {
            return Ok(());
        }
        self.ask(alloc, task)
    }

    // Puts inputs of an attempt once more, and asks for its task once more.
    pub(super) fn put_again<B: PoolTerms, S: Site, A: Admission>(
        &mut self,
        alloc: Global,
        desk: &mut Desk<F, S, T, A>,
        held: &mut Held,
        number: AttemptNo,
        files: &[FileNo],
    ) -> Result<(), Leave>
        requires valid { IsValid desk.old.plan }
        requires of { IsOf T.trust F.gives T.sources S.tells T.kept T.holds T.plan T.options T.run T.due
            desk.old.plan desk.old.options (records_of desk.old.moves) }
        requires was { IsHeard T.holds L.tells
            → WasAsked T.holds F.gives F.may_fail L.history (IsFair T.holds L.tells L.honest) T.plan T.run T.due self.old number }
        requires at { IsAtSeat T.trust F.gives F.may_fail T.sources S.tells T.kept
            (IsSurePool B.fits) S.files S.may_leave S.moment S.images_since desk.old held.old
            self.old }
        ensures keeps { SeatAfter T.trust F.gives F.may_fail T.sources S.tells T.kept
            (IsSurePool B.fits) S.files S.may_leave S.moment S.images_since desk.old desk.new
            held.old held.new self.old self.new
            result }
        ensures fares { (limit : ℕ) → L.tells → FaresSeat
            (IsIllLink F.gives F.may_fail L.history L.count L.idle_count L.is_closed limit)
            L.history desk.old.moves desk.new.moves held.old.halt held.new.halt self.old self.new result }
    {
        match self.task(alloc, desk, number) {
            Some(task) => self.provide::<B, S, A>(alloc, desk, held, task, files),
            None => {
                held.stop(Halt::Memory);
                Ok(())
            }
        }
    }

    // Opens the attempt of this number, which has just begun there, and asks for its task.
    fn start<B: PoolTerms, S: Site, A: Admission>(
        &mut self,
        alloc: Global,
        desk: &mut Desk<F, S, T, A>,
        held: &mut Held,
        number: AttemptNo,
    ) -> Result<(), Leave>
        requires valid { IsValid desk.old.plan }
        requires of { IsOf T.trust F.gives T.sources S.tells T.kept T.holds T.plan T.options T.run T.due
            desk.old.plan desk.old.options (records_of desk.old.moves) }
        requires opens { IsHeard T.holds L.tells
            → MayOpen T.holds F.gives F.may_fail L.history (IsFair T.holds L.tells L.honest) T.plan T.run T.due self.old number }
        requires fresh { is_open number self.old.peer.session.attempts ≡ false }
        requires at { IsAtSeat T.trust F.gives F.may_fail T.sources S.tells T.kept
            (IsSurePool B.fits) S.files S.may_leave S.moment S.images_since desk.old held.old
            self.old }
        ensures keeps { SeatAfter T.trust F.gives F.may_fail T.sources S.tells T.kept
            (IsSurePool B.fits) S.files S.may_leave S.moment S.images_since desk.old desk.new
            held.old held.new self.old self.new
            result }
        ensures fares { (limit : ℕ) → L.tells → FaresSeat
            (IsIllLink F.gives F.may_fail L.history L.count L.idle_count L.is_closed limit)
            L.history desk.old.moves desk.new.moves held.old.halt held.new.halt self.old self.new result }
        ensures calm { (asked : Option Asked) → L.tells
            → IsSureSeat F.gives F.may_fail L.history (IsSureOf L.sure L.offers asked) self.old
            → ((newest : AttemptNoValue) → self.old.newest ≡ Some newest → newest.0 < number.0)
            → FaresWell desk.old.moves desk.new.moves held.new.halt result
            (IsSureSeat F.gives F.may_fail L.history (IsSureOf L.sure L.offers asked) self.new) }
    {
        let Some(task) = self.task(alloc, desk, number) else {
            held.stop(Halt::Memory);
            return Ok(());
        };
        match self.open(&task) {
            Ok(files) => self.provide::<B, S, A>(alloc, desk, held, task, files.as_slice()),
            Err(_) => {
                held.stop(Halt::Memory);
                Ok(())
            }
        }
    }

    // Hands an attempt out that has just begun there. Numbers of attempts only grow: with one that
    // isn't new nothing is asked, since its task could be taken for another's, and the run stops.
    fn hand_out<B: PoolTerms, S: Site, A: Admission, C: Clock>(
        &mut self,
        alloc: Global,
        desk: &mut Desk<F, S, T, A>,
        held: &mut Held,
        attempt: Attempt,
        clock: &C,
    ) -> Result<(), Leave>
        requires valid { IsValid desk.old.plan }
        requires of { IsOf T.trust F.gives T.sources S.tells T.kept T.holds T.plan T.options T.run T.due
            desk.old.plan desk.old.options (records_of desk.old.moves) }
        requires keen { (k : ℕ) → 0 < k → T.keen k → ⊥ }
        requires fresh { is_open attempt.number self.old.peer.session.attempts ≡ false }
        requires at { IsAtSeat T.trust F.gives F.may_fail T.sources S.tells T.kept
            (IsSurePool B.fits) S.files S.may_leave S.moment S.images_since desk.old held.old
            (seat_with self.old (self.old.attempts ++ attempt ∷ [])) }
        ensures keeps { SeatAfter T.trust F.gives F.may_fail T.sources S.tells T.kept
            (IsSurePool B.fits) S.files S.may_leave S.moment S.images_since desk.old desk.new
            held.old held.new (seat_with self.old (self.old.attempts ++ attempt ∷ [])) self.new
            result }
        ensures fares { (limit : ℕ) → L.tells → FaresSeat
            (IsIllLink F.gives F.may_fail L.history L.count L.idle_count L.is_closed limit)
            L.history desk.old.moves desk.new.moves held.old.halt held.new.halt self.old self.new result }
        ensures calm { (asked : Option Asked) → L.tells
            → IsSureSeat F.gives F.may_fail L.history (IsSureOf L.sure L.offers asked) self.old
            → FaresWell desk.old.moves desk.new.moves held.new.halt result
            (IsSureSeat F.gives F.may_fail L.history (IsSureOf L.sure L.offers asked) self.new) }
    {
        let number = attempt.number();
        let is_new = self.is_new(number);
        match self.hold(attempt) {
            Ok(()) => {
                if !is_new {
                    held.stop(Halt::Memory);
                    return Ok(());
                }
                self.start::<B, S, A>(alloc, desk, held, number)
            }
            Err(back) => {
                let _ = lose_away::<B, F, S, T, A>(desk, back, clock.now());
                held.stop(Halt::Memory);
                Ok(())
            }
        }
    }

    /// Starts a rule there, if a claim for its link gives one; it answers whether it did anything.
    pub fn claim<B: PoolTerms, S: Site, A: Admission, C: Clock>(
        &mut self,
        alloc: Global,
        desk: &mut Desk<F, S, T, A>,
        admission: &mut A,
        held: &mut Held,
        clock: &C,
    ) -> Result<bool, Leave>
        requires valid { IsValid desk.old.plan }
        requires stands { A.stands_for admission.old desk.old.plan }
        requires of { IsOf T.trust F.gives T.sources S.tells T.kept T.holds T.plan T.options T.run T.due
            desk.old.plan desk.old.options (records_of desk.old.moves) }
        requires keen { (k : ℕ) → 0 < k → T.keen k → ⊥ }
        requires going { held.old.halt ≡ None }
        requires at { IsAtSeat T.trust F.gives F.may_fail T.sources S.tells T.kept
            (IsSurePool B.fits) S.files S.may_leave S.moment S.images_since desk.old held.old
            self.old }
        ensures keeps { SeatAfter T.trust F.gives F.may_fail T.sources S.tells T.kept
            (IsSurePool B.fits) S.files S.may_leave S.moment S.images_since desk.old desk.new
            held.old held.new self.old self.new
            result }
        ensures fares { (limit : ℕ) → L.tells → FaresSeat
            (IsIllLink F.gives F.may_fail L.history L.count L.idle_count L.is_closed limit)
            L.history desk.old.moves desk.new.moves held.old.halt held.new.halt self.old self.new result }
        ensures calm { (asked : Option Asked) → L.tells
            → IsSureSeat F.gives F.may_fail L.history (IsSureOf L.sure L.offers asked) self.old
            → FaresWell desk.old.moves desk.new.moves held.new.halt result
            (IsSureSeat F.gives F.may_fail L.history (IsSureOf L.sure L.offers asked) self.new) }
        ensures stays { (P : PlanValue) → A.stands_for admission.old P
            → A.stands_for admission.new P }
    {
        match claim_away::<B, F, S, T, A>(desk, admission, self.link(), clock.now()) {
            Ok(Claim::Taken(attempt)) => {
                match self.hand_out::<B, S, A, C>(alloc, desk, held, attempt, clock) {
                    Ok(()) => Ok(true),
                    Err(leave) => Err(leave),
                }
            }
            Ok(Claim::Nothing(_)) => Ok(false),
            Err(why) => {
                held.stop(why);
                Ok(true)
            }
        }
    }
}
