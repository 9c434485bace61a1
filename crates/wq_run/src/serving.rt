//! The caller's thread of a run with workers, beside those of its runners.
ghost use Rattle.std.specs.Prelude.{◌≡◌, ◌≤◌, ◌<◌, ◌⊎◌, [], ℕ, List, None, Option};
ghost use Rattle.std.specs.Prelude.{false, length, sum_by, true};
ghost use Rattle.crossbeam_queue.specs.Passes.{view, IsPassOf, IsSamePass};
ghost use Rattle.flow_types.specs.declared.job.Job.{Job};
ghost use Rattle.flow_types.specs.declared.plan.Plan.{Plan as PlanValue};
ghost use Rattle.flow_types.specs.Plans.{IsValid};
ghost use Rattle.run_history.specs.Links.{records_of};
ghost use Rattle.run_history.specs.Storage.{running_rules};
ghost use Rattle.worker_pool.specs.Courses.{MayReport};
ghost use Rattle.worker_pool.specs.Crews.{AllSure, AllTell};
ghost use Rattle.worker_pool.specs.Hands.{Crew};
ghost use Rattle.worker_pool.specs.Tallies.{GrowsWith};
ghost use Rattle.worker_pool.specs.Tickets.{fresh};
ghost use Rattle.desk.specs.State.{IsFine};
ghost use Rattle.local_run.specs.Course.{TellsJobs};
ghost use Rattle.local_run.specs.Underway.{IsShapedPool, IsSurePool, IsWantHalt, ToldOf, halt_after};
ghost use Rattle.wq_run.specs.Comes.{ComesOn};
ghost use Rattle.wq_run.specs.Dues.{IsIllLink};
ghost use Rattle.wq_run.specs.Keeping.{KeepsOn};
ghost use Rattle.wq_run.specs.Calm.{Asked, IsComing, IsSureOf, IsSureCompany, IsUnmet, KeepsCalm};
ghost use Rattle.wq_run.specs.Seats.{AreSeats, IsServed, KeepsServed, Meets, gathered, inside_of};
ghost use Rattle.wq_run.specs.Trusted.{IsOf, IsOpen};
ghost use Rattle.wq_run.specs.Turns.{AsOne, MayServe, ServedOn};

use crate::beside::call_with_beside;
use crate::company::{Company, ask_all, dismiss, round};
use crate::finishing::finish;
use crate::reliance::Trust;
use desk::{Desk, Terms};
use links::Hall;
use local_run::{Halt, Held, go_on, hear};
use outside::{Clock, Commands, Runner, Site};
use std::alloc::Global;
use std::marker::Brand;
use std::mem::replace;
use std::sync::Wait;
use std::thread::Threads;
use task_core::Admission;
use worker_pool::{Gate, Line, Pool, Terms as PoolTerms, Ticket, Tickets, Token, new_tickets};

/// Starts what claims give, one rule here and one at each worker, if the desk has news since none
/// did. It answers whether it did anything.
fn start_more<
    B: PoolTerms,
    W: Wait,
    F: Commands,
    S: Site,
    H: Hall<F>,
    T: Terms + Trust,
    A: Admission,
    C: Clock,
>(
    rt: &W,
    alloc: Global,
    desk: &mut Desk<F, S, T, A>,
    admission: &mut A,
    held: &mut Held,
    pool: &mut Pool<B>,
    company: &mut Company<F, H::Way, T>,
    hall: &mut H,
    most: usize,
    clock: &C,
) -> bool
    requires valid { IsValid desk.old.plan }
    requires stands { A.stands_for admission.old desk.old.plan }
    requires of { IsOf T.trust F.gives T.sources S.tells T.kept T.holds T.plan T.options T.run T.due
        desk.old.plan desk.old.options (records_of desk.old.moves) }
    requires keen { (k : ℕ) → 0 < k → T.keen k → ⊥ }
    requires shaped { IsShapedPool B.fits }
    requires listens { IsOpen T.holds (H.listens hall.old) (H.honest hall.old) }
    requires most { (0 < most) × (most ≤ 64) }
    requires served { IsServed T.trust F.gives F.may_fail T.sources S.tells T.kept (IsSurePool B.fits)
        S.files S.may_leave S.moment S.images_since desk.old held.old
        pool.old.waiting pool.old.heard company.old.seats }
    ensures served { KeepsServed T.trust F.gives F.may_fail T.sources S.tells T.kept (IsSurePool B.fits)
        S.files S.may_leave S.moment S.images_since desk.old desk.new
        held.old held.new pool.old.waiting pool.new.waiting pool.old.heard pool.new.heard
        company.old.seats company.new.seats }
    ensures line { pool.new.line ≡ pool.old.line }
    ensures listens { IsOpen T.holds (H.listens hall.new) (H.honest hall.new) }
    ensures due { (limit : ℕ) → H.Way.tells → KeepsOn
        (IsIllLink F.gives F.may_fail H.Way.history H.Way.count H.Way.idle_count H.Way.is_closed limit)
        H.Way.history desk.old.moves desk.new.moves held.old.halt held.new.halt company.old
        company.new (H.got hall.old) (H.got hall.new) }
    ensures calm { (asked : Option Asked) → H.Way.tells → IsSurePool B.fits
        → KeepsCalm (IsSureCompany F.gives F.may_fail H.Way.history H.Way.idle_count
        (IsSureOf H.Way.sure H.Way.offers asked) (IsComing H.sure H.staffed asked hall.old)
        (IsUnmet H.manned H.idle_count asked hall.old) desk.old.moves company.old) (IsSureCompany
        F.gives F.may_fail H.Way.history H.Way.idle_count (IsSureOf H.Way.sure H.Way.offers asked)
        (IsComing H.sure H.staffed asked hall.new) (IsUnmet H.manned H.idle_count asked hall.new)
        desk.new.moves company.new) desk.old.moves desk.new.moves held.old.halt held.new.halt
        company.old company.new }
    ensures met { Meets (H.count hall.old) (H.count hall.new) (H.got hall.old)
        (H.got hall.new) (H.given hall.old) (H.given hall.new) (H.idle_count hall.old)
        (H.idle_count hall.new) (inside_of company.old) (inside_of company.new)
        company.old.failed company.new.failed company.old.lost company.new.lost }
    ensures stays { (P : PlanValue) → A.stands_for admission.old P
        → A.stands_for admission.new P }
{
    if !company.has_news(desk.moves_made()) {
        return false;
    }
    let here = go_on(rt, alloc, desk, admission, held, pool, most, clock);
    let there = ask_all::<B, F, S, H, T, A, C>(company, alloc, desk, admission, held, hall, clock);
    if any(here, there, false) {
        return true;
    }
    company.rest_at(desk.moves_made());
    false
}

/// Starts one rule here and one at each worker, where that can be, hears one that ended here and one
/// at each worker, and lets in who has come. It answers whether there was anything to do. Where there
/// is nothing, nor was in the turn before, it waits for news.
fn turn<
    B: PoolTerms,
    W: Wait,
    F: Commands,
    S: Site,
    H: Hall<F>,
    T: Terms + Trust,
    A: Admission,
    C: Clock,
>(
    rt: &W,
    alloc: Global,
    desk: &mut Desk<F, S, T, A>,
    admission: &mut A,
    held: &mut Held,
    pool: &mut Pool<B>,
    company: &mut Company<F, H::Way, T>,
    hall: &mut H,
    most: usize,
    limit: u32,
    is_busy: bool,
    clock: &C,
) -> bool
    requires valid { IsValid desk.old.plan }
    requires stands { A.stands_for admission.old desk.old.plan }
    requires of { IsOf T.trust F.gives T.sources S.tells T.kept T.holds T.plan T.options T.run T.due
        desk.old.plan desk.old.options (records_of desk.old.moves) }
    requires told { T.trust → TellsJobs T.plan T.options (ToldOf F.gives F.may_fail B.fits) T.due }
    requires keen { (k : ℕ) → 0 < k → T.keen k → ⊥ }
    requires shaped { IsShapedPool B.fits }
    requires listens { IsOpen T.holds (H.listens hall.old) (H.honest hall.old) }
    requires most { (0 < most) × (most ≤ 64) }
    requires served { IsServed T.trust F.gives F.may_fail T.sources S.tells T.kept (IsSurePool B.fits)
        S.files S.may_leave S.moment S.images_since desk.old held.old
        pool.old.waiting pool.old.heard company.old.seats }
    ensures served { KeepsServed T.trust F.gives F.may_fail T.sources S.tells T.kept (IsSurePool B.fits)
        S.files S.may_leave S.moment S.images_since desk.old desk.new
        held.old held.new pool.old.waiting pool.new.waiting pool.old.heard pool.new.heard
        company.old.seats company.new.seats }
    ensures line { pool.new.line ≡ pool.old.line }
    ensures listens { IsOpen T.holds (H.listens hall.new) (H.honest hall.new) }
    ensures due { H.Way.tells → KeepsOn
        (IsIllLink F.gives F.may_fail H.Way.history H.Way.count H.Way.idle_count H.Way.is_closed limit)
        H.Way.history desk.old.moves desk.new.moves held.old.halt held.new.halt company.old
        company.new (H.got hall.old) (H.got hall.new) }
    ensures calm { (asked : Option Asked) → H.Way.tells → IsSurePool B.fits
        → KeepsCalm (IsSureCompany F.gives F.may_fail H.Way.history H.Way.idle_count
        (IsSureOf H.Way.sure H.Way.offers asked) (IsComing H.sure H.staffed asked hall.old)
        (IsUnmet H.manned H.idle_count asked hall.old) desk.old.moves company.old) (IsSureCompany
        F.gives F.may_fail H.Way.history H.Way.idle_count (IsSureOf H.Way.sure H.Way.offers asked)
        (IsComing H.sure H.staffed asked hall.new) (IsUnmet H.manned H.idle_count asked hall.new)
        desk.new.moves company.new) desk.old.moves desk.new.moves held.old.halt held.new.halt
        company.old company.new }
    ensures met { Meets (H.count hall.old) (H.count hall.new) (H.got hall.old)
        (H.got hall.new) (H.given hall.old) (H.given hall.new) (H.idle_count hall.old)
        (H.idle_count hall.new) (inside_of company.old) (inside_of company.new)
        company.old.failed company.new.failed company.old.lost company.new.lost }
    ensures stays { (P : PlanValue) → A.stands_for admission.old P
        → A.stands_for admission.new P }
{
    let started = start_more::<B, W, F, S, H, T, A, C>(
        rt, alloc, desk, admission, held, pool, company, hall, most, clock,
    );
    let ended = hear(desk, admission, held, pool, clock);
    let is_busy = any(is_busy, started, ended);
    let told = round::<B, F, S, H, T, A, C>(
        company, alloc, desk, held, hall, limit, is_busy, clock,
    );
    any(started, ended, told)
}

// Whether one of these did something.
fn any(first: bool, second: bool, third: bool) -> bool {
    first || second || third
}

/// Once the run has stopped, lets the workers go and hears what runs here. It answers whether
/// nothing does.
fn wind_down<
    B: PoolTerms,
    W: Wait,
    F: Commands,
    S: Site,
    H: Hall<F>,
    T: Terms + Trust,
    A: Admission,
    C: Clock,
>(
    rt: &W,
    alloc: Global,
    desk: &mut Desk<F, S, T, A>,
    admission: &mut A,
    held: &mut Held,
    pool: &mut Pool<B>,
    company: &mut Company<F, H::Way, T>,
    hall: &mut H,
    most: usize,
    seen: u64,
    clock: &C,
) -> bool
    requires valid { IsValid desk.old.plan }
    requires stands { A.stands_for admission.old desk.old.plan }
    requires of { IsOf T.trust F.gives T.sources S.tells T.kept T.holds T.plan T.options T.run T.due
        desk.old.plan desk.old.options (records_of desk.old.moves) }
    requires told { T.trust → TellsJobs T.plan T.options (ToldOf F.gives F.may_fail B.fits) T.due }
    requires keen { (k : ℕ) → 0 < k → T.keen k → ⊥ }
    requires shaped { IsShapedPool B.fits }
    requires listens { IsOpen T.holds (H.listens hall.old) (H.honest hall.old) }
    requires most { (0 < most) × (most ≤ 64) }
    requires served { IsServed T.trust F.gives F.may_fail T.sources S.tells T.kept (IsSurePool B.fits)
        S.files S.may_leave S.moment S.images_since desk.old held.old
        pool.old.waiting pool.old.heard company.old.seats }
    ensures served { KeepsServed T.trust F.gives F.may_fail T.sources S.tells T.kept (IsSurePool B.fits)
        S.files S.may_leave S.moment S.images_since desk.old desk.new
        held.old held.new pool.old.waiting pool.new.waiting pool.old.heard pool.new.heard
        company.old.seats company.new.seats }
    ensures line { pool.new.line ≡ pool.old.line }
    ensures listens { IsOpen T.holds (H.listens hall.new) (H.honest hall.new) }
    ensures due { (limit : ℕ) → H.Way.tells
        → (held.old.halt ≡ None → company.old.failed ≡ false → company.old.lost ≡ false → ⊥)
        → KeepsOn
        (IsIllLink F.gives F.may_fail H.Way.history H.Way.count H.Way.idle_count H.Way.is_closed limit)
        H.Way.history desk.old.moves desk.new.moves held.old.halt held.new.halt company.old
        company.new (H.got hall.old) (H.got hall.new) }
    ensures met { Meets (H.count hall.old) (H.count hall.new) (H.got hall.old)
        (H.got hall.new) (H.given hall.old) (H.given hall.new) (H.idle_count hall.old)
        (H.idle_count hall.new) (inside_of company.old) (inside_of company.new)
        company.old.failed company.new.failed company.old.lost company.new.lost }
    ensures over { result ≡ true → pool.new.waiting ≡ [] }
    ensures stays { (P : PlanValue) → A.stands_for admission.old P
        → A.stands_for admission.new P }
{
    dismiss::<B, F, S, H, T, A, C>(company, alloc, desk, held, hall, clock);
    if pool.out() == 0 {
        return true;
    }
    if !hear(desk, admission, held, pool, clock) {
        pool.rest(rt, seen);
    }
    false
}

/// Starts rules here and at workers, and hears how they ended, until nothing runs and a claim gives
/// no rule. Once the run stopped nothing more is started, what runs at workers is given up, and
/// what runs here is heard out.
fn serve<
    B: PoolTerms,
    W: Wait,
    F: Commands,
    S: Site,
    H: Hall<F>,
    T: Terms + Trust,
    A: Admission,
    C: Clock,
>(
    rt: &W,
    alloc: Global,
    desk: &mut Desk<F, S, T, A>,
    admission: &mut A,
    held: &mut Held,
    pool: &mut Pool<B>,
    company: &mut Company<F, H::Way, T>,
    hall: &mut H,
    most: usize,
    limit: u32,
    clock: &C,
)
    requires valid { IsValid desk.old.plan }
    requires stands { A.stands_for admission.old desk.old.plan }
    requires of { IsOf T.trust F.gives T.sources S.tells T.kept T.holds T.plan T.options T.run T.due
        desk.old.plan desk.old.options (records_of desk.old.moves) }
    requires told { T.trust → TellsJobs T.plan T.options (ToldOf F.gives F.may_fail B.fits) T.due }
    requires keen { (k : ℕ) → 0 < k → T.keen k → ⊥ }
    requires shaped { IsShapedPool B.fits }
    requires listens { IsOpen T.holds (H.listens hall.old) (H.honest hall.old) }
    requires most { (0 < most) × (most ≤ 64) }
    requires served { IsServed T.trust F.gives F.may_fail T.sources S.tells T.kept (IsSurePool B.fits)
        S.files S.may_leave S.moment S.images_since desk.old held.old
        pool.old.waiting pool.old.heard company.old.seats }
    ensures served { KeepsServed T.trust F.gives F.may_fail T.sources S.tells T.kept (IsSurePool B.fits)
        S.files S.may_leave S.moment S.images_since desk.old desk.new
        held.old held.new pool.old.waiting pool.new.waiting pool.old.heard pool.new.heard
        company.old.seats company.new.seats }
    ensures line { pool.new.line ≡ pool.old.line }
    ensures listens { IsOpen T.holds (H.listens hall.new) (H.honest hall.new) }
    ensures due { H.Way.tells → KeepsOn
        (IsIllLink F.gives F.may_fail H.Way.history H.Way.count H.Way.idle_count H.Way.is_closed limit)
        H.Way.history desk.old.moves desk.new.moves held.old.halt held.new.halt company.old
        company.new (H.got hall.old) (H.got hall.new) }
    ensures calm { (asked : Option Asked) → H.Way.tells → IsSurePool B.fits
        → KeepsCalm (IsSureCompany F.gives F.may_fail H.Way.history H.Way.idle_count
        (IsSureOf H.Way.sure H.Way.offers asked) (IsComing H.sure H.staffed asked hall.old)
        (IsUnmet H.manned H.idle_count asked hall.old) desk.old.moves company.old) (IsSureCompany
        F.gives F.may_fail H.Way.history H.Way.idle_count (IsSureOf H.Way.sure H.Way.offers asked)
        (IsComing H.sure H.staffed asked hall.new) (IsUnmet H.manned H.idle_count asked hall.new)
        desk.new.moves company.new) desk.old.moves desk.new.moves held.old.halt held.new.halt
        company.old company.new }
    ensures met { Meets (H.count hall.old) (H.count hall.new) (H.got hall.old)
        (H.got hall.new) (H.given hall.old) (H.given hall.new) (H.idle_count hall.old)
        (H.idle_count hall.new) (inside_of company.old) (inside_of company.new)
        company.old.failed company.new.failed company.old.lost company.new.lost }
    ensures heard { (IsWantHalt held.new.halt → ⊥) → pool.new.waiting ≡ [] }
    ensures stays { (P : PlanValue) → A.stands_for admission.old P
        → A.stands_for admission.new P }
{
    let mut is_busy = true;
    for _ in rt.forever() {
        let Some(seen) = pool.seen() else {
            held.stop(Halt::Memory);
            return;
        };
        if !held.is_going() || !company.is_going() {
            if wind_down::<B, W, F, S, H, T, A, C>(
                rt, alloc, desk, admission, held, pool, company, hall, most, seen, clock,
            ) {
                return;
            }
            continue;
        }
        is_busy = turn::<B, W, F, S, H, T, A, C>(
            rt, alloc, desk, admission, held, pool, company, hall, most, limit, is_busy, clock,
        );
        if !is_busy && pool.out() == 0 && company.is_idle() {
            return;
        }
    }
    unreachable!()
}

/// As `serve`, with the company as a value, and then ends the waits of the runners.
fn serve_and_close<
    B: PoolTerms,
    W: Wait,
    F: Commands,
    S: Site,
    H: Hall<F>,
    T: Terms + Trust,
    A: Admission,
    C: Clock,
>(
    rt: &W,
    alloc: Global,
    desk: &mut Desk<F, S, T, A>,
    admission: &mut A,
    held: &mut Held,
    pool: &mut Pool<B>,
    mut company: Company<F, H::Way, T>,
    hall: &mut H,
    most: usize,
    limit: u32,
    clock: &C,
) -> Company<F, H::Way, T>
    requires may { AsOne (MayServe (A.stands_for admission.old desk.old.plan) T.trust F.gives
        F.may_fail T.sources S.tells T.kept S.files S.may_leave S.moment S.images_since B.fits T.keen
        T.holds T.plan T.options T.run T.due (H.listens hall.old) (H.honest hall.old) most desk.old
        held.old pool.old company.seats) }
    ensures served { ServedOn ((P : PlanValue) → A.stands_for admission.old P
        → A.stands_for admission.new P) T.trust F.gives F.may_fail T.sources S.tells T.kept S.files
        S.may_leave S.moment S.images_since B.fits (IsIllLink F.gives F.may_fail H.Way.history
        H.Way.count H.Way.idle_count H.Way.is_closed limit) H.Way.tells H.Way.history (λ
        (asked : Option Asked). IsSureCompany F.gives F.may_fail H.Way.history H.Way.idle_count
        (IsSureOf H.Way.sure H.Way.offers asked) (IsComing H.sure H.staffed asked hall.old)
        (IsUnmet H.manned H.idle_count asked hall.old) desk.old.moves company) (λ
        (asked : Option Asked). IsSureCompany F.gives F.may_fail H.Way.history H.Way.idle_count
        (IsSureOf H.Way.sure H.Way.offers asked) (IsComing H.sure H.staffed asked hall.new)
        (IsUnmet H.manned H.idle_count asked hall.new) desk.new.moves result) T.holds
        (H.listens hall.new) (H.honest hall.new) (H.count hall.old) (H.count hall.new)
        (H.got hall.old) (H.got hall.new) (H.given hall.old) (H.given hall.new)
        (H.idle_count hall.old) (H.idle_count hall.new) desk.old desk.new held.old held.new pool.old
        pool.new company result }
{
    serve::<B, W, F, S, H, T, A, C>(
        rt,
        alloc,
        desk,
        admission,
        held,
        pool,
        &mut company,
        hall,
        most,
        limit,
        clock,
    );
    pool.close();
    company
}

/// The caller's thread beside those of the runners, until all have ended. The runners have the line
/// and the threads, and what is served here has the pool and the waits, each with terms of its own.
fn serve_beside<
    N: PoolTerms + Send + Sync,
    B: PoolTerms,
    W: Threads + Wait + Sync,
    V: Wait,
    G: Gate,
    F: Commands,
    S: Site,
    H: Hall<F>,
    R: Runner<F>,
    C: Clock,
    T: Terms + Trust,
    A: Admission,
>(
    rt: &W,
    waits: &V,
    alloc: Global,
    line: &Line<N>,
    token: &mut Token,
    desk: &mut Desk<F, S, T, A>,
    admission: &mut A,
    held: &mut Held,
    pool: &mut Pool<B>,
    company: &mut Company<F, H::Way, T>,
    hall: &mut H,
    limit: u32,
    runners: &mut [R],
    gate: &G,
    clock: &C,
)
    requires some { 0 < length runners.old }
    requires token { IsPassOf line.now.reports token.old
        × (length runners.old ≤ (view token.old).parts) }
    requires runners { Crew (MayReport F.gives F.may_fail R.tells R.sure N.fits) runners.old }
    requires valid { IsValid desk.old.plan }
    requires stands { A.stands_for admission.old desk.old.plan }
    requires of { IsOf T.trust F.gives T.sources S.tells T.kept T.holds T.plan T.options T.run T.due
        desk.old.plan desk.old.options (records_of desk.old.moves) }
    requires told { T.trust → TellsJobs T.plan T.options (ToldOf F.gives F.may_fail B.fits) T.due }
    requires keen { (k : ℕ) → 0 < k → T.keen k → ⊥ }
    requires shaped { IsShapedPool B.fits }
    requires listens { IsOpen T.holds (H.listens hall.old) (H.honest hall.old) }
    requires served { IsServed T.trust F.gives F.may_fail T.sources S.tells T.kept (IsSurePool B.fits)
        S.files S.may_leave S.moment S.images_since desk.old held.old
        pool.old.waiting pool.old.heard company.old.seats }
    ensures same { IsSamePass token.old token.new }
    ensures hand { ((view token.new).parts ≡ (view token.old).parts)
        × ((view token.new).taken ≡ (view token.old).taken) }
    ensures counted { GrowsWith (view token.old).put (view token.new).put
        (sum_by R.count runners.old) (sum_by R.count runners.new)
        (sum_by R.failures runners.old) (sum_by R.failures runners.new) }
    ensures sure { AllSure R.sure runners.old → AllSure R.sure runners.new }
    ensures tells { (job : Job) → AllTell R.tells runners.old job → AllTell R.tells runners.new job }
    ensures served { KeepsServed T.trust F.gives F.may_fail T.sources S.tells T.kept (IsSurePool B.fits)
        S.files S.may_leave S.moment S.images_since desk.old desk.new
        held.old held.new pool.old.waiting pool.new.waiting pool.old.heard pool.new.heard
        company.old.seats company.new.seats }
    ensures line { pool.new.line ≡ pool.old.line }
    ensures listens { IsOpen T.holds (H.listens hall.new) (H.honest hall.new) }
    ensures due { H.Way.tells → KeepsOn
        (IsIllLink F.gives F.may_fail H.Way.history H.Way.count H.Way.idle_count H.Way.is_closed limit)
        H.Way.history desk.old.moves desk.new.moves held.old.halt held.new.halt company.old
        company.new (H.got hall.old) (H.got hall.new) }
    ensures calm { (asked : Option Asked) → H.Way.tells → IsSurePool B.fits
        → KeepsCalm (IsSureCompany F.gives F.may_fail H.Way.history H.Way.idle_count
        (IsSureOf H.Way.sure H.Way.offers asked) (IsComing H.sure H.staffed asked hall.old)
        (IsUnmet H.manned H.idle_count asked hall.old) desk.old.moves company.old) (IsSureCompany
        F.gives F.may_fail H.Way.history H.Way.idle_count (IsSureOf H.Way.sure H.Way.offers asked)
        (IsComing H.sure H.staffed asked hall.new) (IsUnmet H.manned H.idle_count asked hall.new)
        desk.new.moves company.new) desk.old.moves desk.new.moves held.old.halt held.new.halt
        company.old company.new }
    ensures met { Meets (H.count hall.old) (H.count hall.new) (H.got hall.old)
        (H.got hall.new) (H.given hall.old) (H.given hall.new) (H.idle_count hall.old)
        (H.idle_count hall.new) (inside_of company.old) (inside_of company.new)
        company.old.failed company.new.failed company.old.lost company.new.lost }
    ensures heard { (IsWantHalt held.new.halt → ⊥) → pool.new.waiting ≡ [] }
    ensures stays { (P : PlanValue) → A.stands_for admission.old P
        → A.stands_for admission.new P }
{
    let most = runners.len().min(64);
    let taken = replace(company, Company::new(alloc));
    let back = call_with_beside::<N, W, G, F, R, Desk<F, S, T, A>, Company<F, H::Way, T>, _>(
        rt,
        line,
        token,
        runners,
        gate,
        desk,
        taken,
        &mut |company: Company<F, H::Way, T>, desk: &mut Desk<F, S, T, A>|
            requires may { AsOne (MayServe (A.stands_for admission.now desk.old.plan) T.trust
                F.gives F.may_fail T.sources S.tells T.kept S.files S.may_leave S.moment
                S.images_since B.fits T.keen T.holds T.plan T.options T.run T.due
                (H.listens hall.now) (H.honest hall.now) most desk.old held.now pool.now
                company.seats) }
            ensures served { ServedOn ((P : PlanValue) → A.stands_for admission.entry.now P
                → A.stands_for admission.exit.now P) T.trust F.gives F.may_fail T.sources S.tells
                T.kept S.files S.may_leave S.moment S.images_since B.fits (IsIllLink F.gives
                F.may_fail H.Way.history H.Way.count H.Way.idle_count H.Way.is_closed limit) H.Way.tells
                H.Way.history (λ (asked : Option Asked). IsSureCompany F.gives F.may_fail
                H.Way.history H.Way.idle_count (IsSureOf H.Way.sure H.Way.offers asked)
                (IsComing H.sure H.staffed asked hall.entry.now)
                (IsUnmet H.manned H.idle_count asked hall.entry.now) desk.old.moves company) (λ
                (asked : Option Asked). IsSureCompany F.gives F.may_fail H.Way.history
                H.Way.idle_count (IsSureOf H.Way.sure H.Way.offers asked)
                (IsComing H.sure H.staffed asked hall.exit.now)
                (IsUnmet H.manned H.idle_count asked hall.exit.now) desk.new.moves result) T.holds
                (H.listens hall.exit.now) (H.honest hall.exit.now) (H.count hall.entry.now)
                (H.count hall.exit.now) (H.got hall.entry.now) (H.got hall.exit.now)
                (H.given hall.entry.now) (H.given hall.exit.now) (H.idle_count hall.entry.now)
                (H.idle_count hall.exit.now) desk.old desk.new held.entry.now held.exit.now
                pool.entry.now pool.exit.now company result }
        {
            serve_and_close::<B, V, F, S, H, T, A, C>(
                waits, alloc, desk, admission, held, pool, company, hall, most, limit, clock,
            )
        },
    );
    replace(company, back).end();
}

/// A run over a pool of these tickets.
fn serve_in<
    B: PoolTerms + Send + Sync,
    W: Threads + Wait + Sync,
    G: Gate,
    F: Commands,
    S: Site,
    H: Hall<F>,
    R: Runner<F>,
    C: Clock,
    T: Terms + Trust,
    A: Admission,
>(
    rt: &W,
    alloc: Global,
    tickets: Tickets,
    pass: Ticket,
    desk: &mut Desk<F, S, T, A>,
    admission: &mut A,
    company: &mut Company<F, H::Way, T>,
    hall: &mut H,
    limit: u32,
    runners: &mut [R],
    gate: &G,
    clock: &C,
) -> Result<(), Halt>
    requires tickets { (pass.table_id ≡ B.tickets) × IsPassOf tickets pass × (view pass ≡ fresh) }
    requires some { 0 < length runners.old }
    requires runners { Crew (MayReport F.gives F.may_fail R.tells R.sure B.fits) runners.old }
    requires valid { IsValid desk.old.plan }
    requires stands { A.stands_for admission.old desk.old.plan }
    requires fine { IsFine desk.old.trouble }
    requires idle { length (running_rules desk.old.plan (records_of desk.old.moves)) ≤ 0 }
    requires of { IsOf T.trust F.gives T.sources S.tells T.kept T.holds T.plan T.options T.run T.due
        desk.old.plan desk.old.options (records_of desk.old.moves) }
    requires told { T.trust → TellsJobs T.plan T.options (ToldOf F.gives F.may_fail B.fits) T.due }
    requires keen { (k : ℕ) → 0 < k → T.keen k → ⊥ }
    requires shaped { IsShapedPool B.fits }
    requires listens { IsOpen T.holds (H.listens hall.old) (H.honest hall.old) }
    requires seats { AreSeats desk.old.plan desk.old.options desk.old.moves company.old.seats }
    requires none { gathered company.old.seats ≡ [] }
    ensures came { ComesOn T.trust F.gives F.may_fail T.sources S.tells T.kept (IsSurePool B.fits)
        S.files S.may_leave S.moment S.images_since desk.old desk.new
        (sum_by R.count runners.old) (sum_by R.count runners.new)
        (sum_by R.failures runners.old) (sum_by R.failures runners.new) result }
    ensures sure { AllSure R.sure runners.old → AllSure R.sure runners.new }
    ensures tells { (job : Job) → AllTell R.tells runners.old job → AllTell R.tells runners.new job }
    ensures seats { AreSeats desk.new.plan desk.new.options desk.new.moves company.new.seats }
    ensures none { gathered company.new.seats ≡ [] }
    ensures listens { IsOpen T.holds (H.listens hall.new) (H.honest hall.new) }
    ensures due { H.Way.tells → KeepsOn
        (IsIllLink F.gives F.may_fail H.Way.history H.Way.count H.Way.idle_count H.Way.is_closed limit)
        H.Way.history desk.old.moves desk.new.moves None (halt_after result None) company.old
        company.new (H.got hall.old) (H.got hall.new) }
    ensures calm { (asked : Option Asked) → H.Way.tells → IsSurePool B.fits
        → KeepsCalm (IsSureCompany F.gives F.may_fail H.Way.history H.Way.idle_count
        (IsSureOf H.Way.sure H.Way.offers asked) (IsComing H.sure H.staffed asked hall.old)
        (IsUnmet H.manned H.idle_count asked hall.old) desk.old.moves company.old) (IsSureCompany
        F.gives F.may_fail H.Way.history H.Way.idle_count (IsSureOf H.Way.sure H.Way.offers asked)
        (IsComing H.sure H.staffed asked hall.new) (IsUnmet H.manned H.idle_count asked hall.new)
        desk.new.moves company.new) desk.old.moves desk.new.moves None (halt_after result None)
        company.old company.new }
    ensures met { Meets (H.count hall.old) (H.count hall.new) (H.got hall.old)
        (H.got hall.new) (H.given hall.old) (H.given hall.new) (H.idle_count hall.old)
        (H.idle_count hall.new) (inside_of company.old) (inside_of company.new)
        company.old.failed company.new.failed company.old.lost company.new.lost }
    ensures stays { (P : PlanValue) → A.stands_for admission.old P
        → A.stands_for admission.new P }
{
    let Ok((line, token)) = Line::<B>::new(alloc) else {
        return Err(Halt::Memory);
    };
    let (mut pool, mut other) = Pool::new(&line, tickets, pass, token);
    let mut held = Held::new(alloc);
    serve_beside::<B, B, W, W, G, F, S, H, R, C, T, A>(
        rt, rt, alloc, &line, &mut other, desk, admission, &mut held, &mut pool, company, hall,
        limit, runners, gate, clock,
    );
    pool.end(rt, other);
    finish::<B, F, S, H, T, A, C>(alloc, desk, admission, held, company, hall, clock)
}

/// Runs rules by all runners and workers, and drops files, until nothing runs, a claim gives no rule
/// and no file is to go first, or the log has no place for its drop.
pub(crate) fn serve_all<
    W: Threads + Wait + Sync,
    G: Gate,
    F: Commands,
    S: Site,
    H: Hall<F>,
    R: Runner<F>,
    C: Clock,
    T: Terms + Trust,
    A: Admission,
>(
    rt: &W,
    alloc: Global,
    desk: &mut Desk<F, S, T, A>,
    admission: &mut A,
    company: &mut Company<F, H::Way, T>,
    hall: &mut H,
    limit: u32,
    runners: &mut [R],
    gate: &G,
    clock: &C,
) -> Result<(), Halt>
    requires some { 0 < length runners.old }
    requires valid { IsValid desk.old.plan }
    requires stands { A.stands_for admission.old desk.old.plan }
    requires fine { IsFine desk.old.trouble }
    requires idle { length (running_rules desk.old.plan (records_of desk.old.moves)) ≤ 0 }
    requires of { IsOf T.trust F.gives T.sources S.tells T.kept T.holds T.plan T.options T.run T.due
        desk.old.plan desk.old.options (records_of desk.old.moves) }
    requires told { T.trust → TellsJobs T.plan T.options (AllTell R.tells runners.old) T.due }
    requires keen { (k : ℕ) → 0 < k → T.keen k → ⊥ }
    requires listens { IsOpen T.holds (H.listens hall.old) (H.honest hall.old) }
    requires seats { AreSeats desk.old.plan desk.old.options desk.old.moves company.old.seats }
    requires none { gathered company.old.seats ≡ [] }
    ensures came { ComesOn T.trust F.gives F.may_fail T.sources S.tells T.kept
        (AllSure R.sure runners.old) S.files S.may_leave S.moment S.images_since desk.old desk.new
        (sum_by R.count runners.old) (sum_by R.count runners.new)
        (sum_by R.failures runners.old) (sum_by R.failures runners.new) result }
    ensures sure { AllSure R.sure runners.old → AllSure R.sure runners.new }
    ensures tells { (job : Job) → AllTell R.tells runners.old job → AllTell R.tells runners.new job }
    ensures seats { AreSeats desk.new.plan desk.new.options desk.new.moves company.new.seats }
    ensures none { gathered company.new.seats ≡ [] }
    ensures listens { IsOpen T.holds (H.listens hall.new) (H.honest hall.new) }
    ensures due { H.Way.tells → KeepsOn
        (IsIllLink F.gives F.may_fail H.Way.history H.Way.count H.Way.idle_count H.Way.is_closed limit)
        H.Way.history desk.old.moves desk.new.moves None (halt_after result None) company.old
        company.new (H.got hall.old) (H.got hall.new) }
    ensures calm { (asked : Option Asked) → H.Way.tells → AllSure R.sure runners.old
        → KeepsCalm (IsSureCompany F.gives F.may_fail H.Way.history H.Way.idle_count
        (IsSureOf H.Way.sure H.Way.offers asked) (IsComing H.sure H.staffed asked hall.old)
        (IsUnmet H.manned H.idle_count asked hall.old) desk.old.moves company.old) (IsSureCompany
        F.gives F.may_fail H.Way.history H.Way.idle_count (IsSureOf H.Way.sure H.Way.offers asked)
        (IsComing H.sure H.staffed asked hall.new) (IsUnmet H.manned H.idle_count asked hall.new)
        desk.new.moves company.new) desk.old.moves desk.new.moves None (halt_after result None)
        company.old company.new }
    ensures met { Meets (H.count hall.old) (H.count hall.new) (H.got hall.old)
        (H.got hall.new) (H.given hall.old) (H.given hall.new) (H.idle_count hall.old)
        (H.idle_count hall.new) (inside_of company.old) (inside_of company.new)
        company.old.failed company.new.failed company.old.lost company.new.lost }
    ensures stays { (P : PlanValue) → A.stands_for admission.old P
        → A.stands_for admission.new P }
{
    let Ok((tickets, pass)) = new_tickets(alloc) else {
        return Err(Halt::Memory);
    };
    serve_in::<Brand, W, G, F, S, H, R, C, T, A>(
        rt, alloc, tickets, pass, desk, admission, company, hall, limit, runners, gate, clock,
    )
}
