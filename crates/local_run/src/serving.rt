//! The caller's thread of a run, beside those of its runners.
ghost use Rattle.std.specs.Prelude.{◌≡◌, ◌≤◌, ◌<◌, ◌+◌, [], List, None, Option, false, length};
ghost use Rattle.std.specs.Prelude.{OnOk, sum_by, true};
ghost use Rattle.crossbeam_queue.specs.Passes.{view, IsPassOf, IsSamePass};
ghost use Rattle.flow_types.specs.declared.job.Start.{Start as StartValue};
ghost use Rattle.flow_types.specs.declared.plan.Plan.{Plan as PlanValue};
ghost use Rattle.flow_types.specs.Plans.{IsValid};
ghost use Rattle.flow_types.specs.Serial.{serial};
ghost use Rattle.run_history.specs.Links.{records_of};
ghost use Rattle.run_history.specs.Storage.{running_rules};
ghost use Rattle.worker_pool.specs.declared.hand.Tally.{Tally};
ghost use Rattle.worker_pool.specs.Courses.{MayReport};
ghost use Rattle.worker_pool.specs.Crews.{AllSure, AllTell};
ghost use Rattle.worker_pool.specs.Hands.{Crew};
ghost use Rattle.worker_pool.specs.Tallies.{GrowsWith};
ghost use Rattle.worker_pool.specs.Tickets.{fresh};
ghost use Rattle.desk.specs.State.{DeskState, IsFine};
ghost use Rattle.local_run.specs.declared.halt.Halt.{Halt as HaltValue};
ghost use Rattle.local_run.specs.Course.{HasNothing, TellsJobs};
ghost use Rattle.local_run.specs.Losses.{SparesAll};
ghost use Rattle.local_run.specs.Underway.{AwayState};
ghost use Rattle.local_run.specs.Underway.{ComesTo, IsShapedPool, IsSurePool, IsWant, IsWantHalt};
ghost use Rattle.local_run.specs.Underway.{ToldOf, Underway, settled};

use crate::Halt;
use crate::beside::call_beside;
use crate::closing::give_up;
use crate::hearing::hear;
use crate::held::Held;
use crate::next::next;
use desk::{Desk, Terms};
use outside::{Clock, Commands, Runner, Site};
use std::alloc::Global;
use std::marker::Brand;
use std::sync::Wait;
use std::thread::Threads;
use task_core::Admission;
use worker_pool::{Gate, Line, Pool, Terms as PoolTerms, Ticket, Tickets, Token, new_tickets};

/// Does what comes next, if nothing stopped the run and fewer rules run than these, and answers
/// whether there was something.
pub fn go_on<B: PoolTerms, W: Wait, F: Commands, S: Site, T: Terms, A: Admission, C: Clock>(
    rt: &W,
    alloc: Global,
    desk: &mut Desk<F, S, T, A>,
    admission: &mut A,
    held: &mut Held,
    pool: &mut Pool<B>,
    most: usize,
    clock: &C,
) -> bool
    requires valid { IsValid desk.old.plan }
    requires stands { A.stands_for admission.old desk.old.plan }
    requires base { T.trust → S.tells × T.kept }
    requires underway { (away : AwayState) × (first : DeskState S)
        × Underway T.trust F.gives F.may_fail T.sources S.tells T.kept (IsSurePool B.fits)
        S.files S.may_leave S.moment S.images_since away first desk.old held.old.attempts
        pool.old.waiting None pool.old.heard held.old.halt }
    requires most { most ≤ 64 }
    ensures underway { (away : AwayState) (first : DeskState S)
        → Underway T.trust F.gives F.may_fail T.sources S.tells T.kept (IsSurePool B.fits)
        S.files S.may_leave S.moment S.images_since away first desk.old held.old.attempts
        pool.old.waiting None pool.old.heard held.old.halt
        → Underway T.trust F.gives F.may_fail T.sources S.tells T.kept (IsSurePool B.fits)
        S.files S.may_leave S.moment S.images_since away first desk.new held.new.attempts
        pool.new.waiting None pool.new.heard held.new.halt }
    ensures line { pool.new.line ≡ pool.old.line }
    ensures grew { result ≡ true → held.new.halt ≡ None
        → length (records_of desk.old.moves) + 1 ≤ length (records_of desk.new.moves) }
    ensures rests { result ≡ false → held.new.halt ≡ None → length pool.new.waiting < most
        → HasNothing A.admitted desk.new }
    ensures spares { held.new.halt ≡ None
        → (held.old.halt ≡ None) × SparesAll desk.old.moves desk.new.moves }
    ensures stays { (P : PlanValue) → A.stands_for admission.old P → A.stands_for admission.new P }
{
    if !held.is_going() {
        return false;
    }
    if pool.out() >= most {
        return false;
    }
    next(rt, alloc, desk, admission, held, pool, clock)
}

/// Starts rules and drops files, as many rules at once as are wished, and hears how they ended,
/// until nothing runs and a claim gives no rule. Once the run stopped nothing more is started.
/// Where a runner wanted memory the pool has ended, and what runs is heard no more.
fn serve<B: PoolTerms, W: Wait, F: Commands, S: Site, T: Terms, A: Admission, C: Clock>(
    rt: &W,
    alloc: Global,
    desk: &mut Desk<F, S, T, A>,
    admission: &mut A,
    held: &mut Held,
    pool: &mut Pool<B>,
    most: usize,
    clock: &C,
)
    requires valid { IsValid desk.old.plan }
    requires stands { A.stands_for admission.old desk.old.plan }
    requires shaped { IsShapedPool B.fits }
    requires base { T.trust → S.tells × T.kept }
    requires told { T.trust → TellsJobs desk.old.plan desk.old.options
        (ToldOf F.gives F.may_fail B.fits) (serial desk.old.plan F.gives T.sources) }
    requires underway { (away : AwayState) × (first : DeskState S)
        × Underway T.trust F.gives F.may_fail T.sources S.tells T.kept (IsSurePool B.fits)
        S.files S.may_leave S.moment S.images_since away first desk.old held.old.attempts
        pool.old.waiting None pool.old.heard held.old.halt }
    requires most { (0 < most) × (most ≤ 64) }
    ensures underway { (away : AwayState) (first : DeskState S)
        → Underway T.trust F.gives F.may_fail T.sources S.tells T.kept (IsSurePool B.fits)
        S.files S.may_leave S.moment S.images_since away first desk.old held.old.attempts
        pool.old.waiting None pool.old.heard held.old.halt
        → Underway T.trust F.gives F.may_fail T.sources S.tells T.kept (IsSurePool B.fits)
        S.files S.may_leave S.moment S.images_since away first desk.new held.new.attempts
        pool.new.waiting None pool.new.heard held.new.halt }
    ensures line { pool.new.line ≡ pool.old.line }
    ensures heard { (IsWantHalt held.new.halt → ⊥) → pool.new.waiting ≡ [] }
    ensures rests { held.new.halt ≡ None → HasNothing A.admitted desk.new }
    ensures stays { (P : PlanValue) → A.stands_for admission.old P → A.stands_for admission.new P }
{
    for _ in rt.forever() {
        let Some(seen) = pool.seen() else {
            held.stop(Halt::Memory);
            return;
        };
        if go_on(rt, alloc, desk, admission, held, pool, most, clock) {
            continue;
        }
        if pool.out() == 0 {
            return;
        }
        if !hear(desk, admission, held, pool, clock) {
            pool.rest(rt, seen);
        }
    }
    unreachable!()
}

/// As `serve`, and then ends the waits of the runners.
fn serve_and_close<B: PoolTerms, W: Wait, F: Commands, S: Site, T: Terms, A: Admission, C: Clock>(
    rt: &W,
    alloc: Global,
    desk: &mut Desk<F, S, T, A>,
    admission: &mut A,
    held: &mut Held,
    pool: &mut Pool<B>,
    most: usize,
    clock: &C,
)
    requires valid { IsValid desk.old.plan }
    requires stands { A.stands_for admission.old desk.old.plan }
    requires shaped { IsShapedPool B.fits }
    requires base { T.trust → S.tells × T.kept }
    requires told { T.trust → TellsJobs desk.old.plan desk.old.options
        (ToldOf F.gives F.may_fail B.fits) (serial desk.old.plan F.gives T.sources) }
    requires underway { (away : AwayState) × (first : DeskState S)
        × Underway T.trust F.gives F.may_fail T.sources S.tells T.kept (IsSurePool B.fits)
        S.files S.may_leave S.moment S.images_since away first desk.old held.old.attempts
        pool.old.waiting None pool.old.heard held.old.halt }
    requires most { (0 < most) × (most ≤ 64) }
    ensures underway { (away : AwayState) (first : DeskState S)
        → Underway T.trust F.gives F.may_fail T.sources S.tells T.kept (IsSurePool B.fits)
        S.files S.may_leave S.moment S.images_since away first desk.old held.old.attempts
        pool.old.waiting None pool.old.heard held.old.halt
        → Underway T.trust F.gives F.may_fail T.sources S.tells T.kept (IsSurePool B.fits)
        S.files S.may_leave S.moment S.images_since away first desk.new held.new.attempts
        pool.new.waiting None pool.new.heard held.new.halt }
    ensures line { pool.new.line ≡ pool.old.line }
    ensures heard { (IsWantHalt held.new.halt → ⊥) → pool.new.waiting ≡ [] }
    ensures rests { held.new.halt ≡ None → HasNothing A.admitted desk.new }
    ensures stays { (P : PlanValue) → A.stands_for admission.old P → A.stands_for admission.new P }
{
    serve(rt, alloc, desk, admission, held, pool, most, clock);
    pool.close();
}

/// Gives up what is still held, which is something only where memory was wanting, and tells why the
/// run stopped.
pub fn settle<B: PoolTerms, F: Commands, S: Site, T: Terms, A: Admission, C: Clock>(
    desk: &mut Desk<F, S, T, A>,
    admission: &mut A,
    held: Held,
    clock: &C,
) -> Result<(), Halt>
    requires valid { IsValid desk.old.plan }
    requires stands { A.stands_for admission.old desk.old.plan }
    requires underway { (away : AwayState) × (first : DeskState S) × (waiting : List StartValue)
        × (heard : Tally)
        × Underway T.trust F.gives F.may_fail T.sources S.tells T.kept (IsSurePool B.fits)
        S.files S.may_leave S.moment S.images_since away first
        desk.old held.attempts waiting None heard held.halt }
    ensures underway { (away : AwayState) (first : DeskState S) (waiting : List StartValue)
        (heard : Tally)
        → Underway T.trust F.gives F.may_fail T.sources S.tells T.kept (IsSurePool B.fits)
        S.files S.may_leave S.moment S.images_since away first
        desk.old held.attempts waiting None heard held.halt
        → (halt : Option HaltValue) × (result ≡ settled halt)
        × Underway T.trust F.gives F.may_fail T.sources S.tells T.kept (IsSurePool B.fits)
        S.files S.may_leave S.moment S.images_since away first
        desk.new [] [] None heard halt }
    ensures same { held.attempts ≡ [] → (desk.new ≡ desk.old) × (result ≡ settled held.halt) }
    ensures wants { IsWantHalt held.halt → IsFine desk.new.trouble → IsWant result }
    ensures rests { OnOk result ((held.halt ≡ None) × (desk.new ≡ desk.old)) }
    ensures stays { (P : PlanValue) → A.stands_for admission.old P → A.stands_for admission.new P }
{
    let mut held = held;
    while let Some(attempt) = held.pop() {
        let halt = give_up::<B, F, S, T, A, C>(desk, admission, attempt, clock, Halt::Memory);
        held.stop(halt);
    }
    match held.end() {
        Some(why) => Err(why),
        None => Ok(()),
    }
}

/// The caller's thread beside those of the runners, until all have ended.
fn serve_beside<
    B: PoolTerms + Send + Sync,
    W: Threads + Wait + Sync,
    G: Gate,
    F: Commands,
    S: Site,
    R: Runner<F>,
    C: Clock,
    T: Terms,
    A: Admission,
>(
    rt: &W,
    alloc: Global,
    line: &Line<B>,
    token: &mut Token,
    desk: &mut Desk<F, S, T, A>,
    admission: &mut A,
    held: &mut Held,
    pool: &mut Pool<B>,
    runners: &mut [R],
    gate: &G,
    clock: &C,
)
    requires some { 0 < length runners.old }
    requires token { IsPassOf line.now.reports token.old
        × (length runners.old ≤ (view token.old).parts) }
    requires runners { Crew (MayReport F.gives F.may_fail R.tells R.sure B.fits) runners.old }
    requires valid { IsValid desk.old.plan }
    requires stands { A.stands_for admission.old desk.old.plan }
    requires shaped { IsShapedPool B.fits }
    requires base { T.trust → S.tells × T.kept }
    requires told { T.trust → TellsJobs desk.old.plan desk.old.options
        (ToldOf F.gives F.may_fail B.fits) (serial desk.old.plan F.gives T.sources) }
    requires underway { (away : AwayState) × (first : DeskState S)
        × Underway T.trust F.gives F.may_fail T.sources S.tells T.kept (IsSurePool B.fits)
        S.files S.may_leave S.moment S.images_since away first desk.old held.old.attempts
        pool.old.waiting None pool.old.heard held.old.halt }
    ensures same { IsSamePass token.old token.new }
    ensures hand { ((view token.new).parts ≡ (view token.old).parts)
        × ((view token.new).taken ≡ (view token.old).taken) }
    ensures counted { GrowsWith (view token.old).put (view token.new).put
        (sum_by R.count runners.old) (sum_by R.count runners.new)
        (sum_by R.failures runners.old) (sum_by R.failures runners.new) }
    ensures underway { (away : AwayState) (first : DeskState S)
        → Underway T.trust F.gives F.may_fail T.sources S.tells T.kept (IsSurePool B.fits)
        S.files S.may_leave S.moment S.images_since away first desk.old held.old.attempts
        pool.old.waiting None pool.old.heard held.old.halt
        → Underway T.trust F.gives F.may_fail T.sources S.tells T.kept (IsSurePool B.fits)
        S.files S.may_leave S.moment S.images_since away first desk.new held.new.attempts
        pool.new.waiting None pool.new.heard held.new.halt }
    ensures line { pool.new.line ≡ pool.old.line }
    ensures heard { (IsWantHalt held.new.halt → ⊥) → pool.new.waiting ≡ [] }
    ensures rests { held.new.halt ≡ None → HasNothing A.admitted desk.new }
    ensures stays { (P : PlanValue) → A.stands_for admission.old P → A.stands_for admission.new P }
{
    let most = runners.len().min(64);
    call_beside::<B, W, G, F, R, Desk<F, S, T, A>, _>(
        rt,
        line,
        token,
        runners,
        gate,
        desk,
        &mut |desk: &mut Desk<F, S, T, A>|
            requires valid { IsValid desk.old.plan }
            requires stands { A.stands_for admission.now desk.old.plan }
            requires shaped { IsShapedPool B.fits }
            requires base { T.trust → S.tells × T.kept }
            requires told { T.trust → TellsJobs desk.old.plan desk.old.options
                (ToldOf F.gives F.may_fail B.fits) (serial desk.old.plan F.gives T.sources) }
            requires underway { (away : AwayState) × (first : DeskState S)
                × Underway T.trust F.gives F.may_fail T.sources S.tells T.kept
                (IsSurePool B.fits) S.files S.may_leave S.moment S.images_since away first desk.old
                held.now.attempts pool.now.waiting None pool.now.heard held.now.halt }
            requires most { (0 < most) × (most ≤ 64) }
            ensures underway { (away : AwayState) (first : DeskState S)
                → Underway T.trust F.gives F.may_fail T.sources S.tells T.kept
                (IsSurePool B.fits) S.files S.may_leave S.moment S.images_since away first desk.old
                held.entry.now.attempts pool.entry.now.waiting None pool.entry.now.heard
                held.entry.now.halt
                → Underway T.trust F.gives F.may_fail T.sources S.tells T.kept
                (IsSurePool B.fits) S.files S.may_leave S.moment S.images_since away first desk.new
                held.exit.now.attempts pool.exit.now.waiting None pool.exit.now.heard
                held.exit.now.halt }
            ensures line { pool.exit.now.line ≡ pool.entry.now.line }
            ensures heard { (IsWantHalt held.exit.now.halt → ⊥)
                → pool.exit.now.waiting ≡ [] }
            ensures stays { (P : PlanValue) → A.stands_for admission.entry.now P
                → A.stands_for admission.exit.now P }
            ensures rests { held.exit.now.halt ≡ None → HasNothing A.admitted desk.new }
        { serve_and_close(rt, alloc, desk, admission, held, pool, most, clock) },
    );
}

/// A run over a pool of these tickets.
fn serve_in<
    B: PoolTerms + Send + Sync,
    W: Threads + Wait + Sync,
    G: Gate,
    F: Commands,
    S: Site,
    R: Runner<F>,
    C: Clock,
    T: Terms,
    A: Admission,
>(
    rt: &W,
    alloc: Global,
    tickets: Tickets,
    pass: Ticket,
    desk: &mut Desk<F, S, T, A>,
    admission: &mut A,
    runners: &mut [R],
    gate: &G,
    clock: &C,
) -> Result<(), Halt>
    requires tickets { (pass.table_id ≡ B.tickets) × IsPassOf tickets pass × (view pass ≡ fresh) }
    requires some { 0 < length runners.old }
    requires runners { Crew (MayReport F.gives F.may_fail R.tells R.sure B.fits) runners.old }
    requires valid { IsValid desk.old.plan }
    requires stands { A.stands_for admission.old desk.old.plan }
    requires fine { IsFine desk.old.trouble }
    requires idle { length (running_rules desk.old.plan (records_of desk.old.moves)) ≤ 0 }
    requires shaped { IsShapedPool B.fits }
    requires base { T.trust → S.tells × T.kept }
    requires told { T.trust → TellsJobs desk.old.plan desk.old.options
        (ToldOf F.gives F.may_fail B.fits) (serial desk.old.plan F.gives T.sources) }
    ensures came { ComesTo A.admitted T.trust F.gives F.may_fail T.sources S.tells T.kept
        (IsSurePool B.fits) S.files S.may_leave S.moment S.images_since desk.old desk.new
        (sum_by R.count runners.old) (sum_by R.count runners.new)
        (sum_by R.failures runners.old) (sum_by R.failures runners.new) result }
    ensures stays { (P : PlanValue) → A.stands_for admission.old P → A.stands_for admission.new P }
{
    let Ok((line, token)) = Line::<B>::new(alloc) else {
        return Err(Halt::Memory);
    };
    let (mut pool, mut other) = Pool::new(&line, tickets, pass, token);
    let mut held = Held::new(alloc);
    serve_beside::<B, W, G, F, S, R, C, T, A>(
        rt, alloc, &line, &mut other, desk, admission, &mut held, &mut pool, runners, gate, clock,
    );
    pool.end(rt, other);
    settle::<B, F, S, T, A, C>(desk, admission, held, clock)
}

/// Runs rules by all runners at once, and drops files, until nothing runs, a claim gives no rule
/// and no file is to go first, or the log has no place for its drop. Once it stopped nothing more
/// is started, what runs is heard out, and each attempt is closed.
pub(crate) fn serve_all<
    W: Threads + Wait + Sync,
    G: Gate,
    F: Commands,
    S: Site,
    R: Runner<F>,
    C: Clock,
    T: Terms,
    A: Admission,
>(
    rt: &W,
    alloc: Global,
    desk: &mut Desk<F, S, T, A>,
    admission: &mut A,
    runners: &mut [R],
    gate: &G,
    clock: &C,
) -> Result<(), Halt>
    requires some { 0 < length runners.old }
    requires valid { IsValid desk.old.plan }
    requires stands { A.stands_for admission.old desk.old.plan }
    requires fine { IsFine desk.old.trouble }
    requires idle { length (running_rules desk.old.plan (records_of desk.old.moves)) ≤ 0 }
    requires base { T.trust → S.tells × T.kept
        × TellsJobs desk.old.plan desk.old.options (AllTell R.tells runners.old)
        (serial desk.old.plan F.gives T.sources) }
    ensures came { ComesTo A.admitted T.trust F.gives F.may_fail T.sources S.tells T.kept
        (AllSure R.sure runners.old) S.files S.may_leave S.moment S.images_since desk.old desk.new
        (sum_by R.count runners.old) (sum_by R.count runners.new)
        (sum_by R.failures runners.old) (sum_by R.failures runners.new) result }
    ensures stays { (P : PlanValue) → A.stands_for admission.old P → A.stands_for admission.new P }
{
    let Ok((tickets, pass)) = new_tickets(alloc) else {
        return Err(Halt::Memory);
    };
    serve_in::<Brand, W, G, F, S, R, C, T, A>(
        rt, alloc, tickets, pass, desk, admission, runners, gate, clock,
    )
}
