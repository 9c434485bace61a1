//! A worker beside its runners.
ghost use Rattle.std.specs.Prelude.{◌≡◌, ◌≤◌, ◌<◌, ◌+◌, ℕ, [], false, None, length, sum_by};
ghost use Rattle.std.specs.Thread.{IsSync};
ghost use Rattle.crossbeam_queue.specs.Passes.{view, IsPassOf, IsSamePass};
ghost use Rattle.links.specs.Halls.{IsFresh};
ghost use Rattle.worker_core.specs.Workers.{Worker as WorkerValue};
ghost use Rattle.worker_pool.specs.Courses.{MayReport};
ghost use Rattle.worker_pool.specs.Hands.{Crew};
ghost use Rattle.worker_pool.specs.Tallies.{none, GrowsWith};
ghost use Rattle.worker_pool.specs.Tickets.{fresh};
ghost use Rattle.worker_pool.specs.declared.hand.Tally.{Tally};
ghost use Rattle.peer_run.specs.Ends.{HasLeft, WorkLeft, WorksWith};
ghost use Rattle.peer_run.specs.Met.{new_worker};
ghost use Rattle.peer_run.specs.Works.{AtWork, IsShapedPool, way_of};

use crate::Halt;
use crate::ear::Ear;
use crate::pace::Pace;
use crate::voice::say;
use crate::work::{halt_by, serve};
use flow_types::Amounts;
use links::{Dial, Link};
use outside::{Commands, Runner};
use std::alloc::Global;
use std::marker::Brand;
use std::sync::Wait;
use std::thread::{Threads, join_mut};
use worker_core::WorkerCore;
use worker_pool::{Gate, Line, Pool, Terms, Ticket, Tickets, Token, new_tickets, work_all};

// As `serve`, and then ends the waits of the runners.
fn serve_and_close<B: Terms, W: Wait, F: Commands, L: Link<F>, D: Dial<F>>(
    rt: &W,
    alloc: Global,
    link: &mut L,
    ear: &mut Ear,
    core: &mut WorkerCore,
    pool: &mut Pool<B>,
    pace: &mut Pace<'_, D>,
) -> Halt
    requires shaped { IsShapedPool B.fits }
    requires works { (first : WorkerValue) × (faults : ℕ)
        × AtWork F.gives F.may_fail L.tells B.fits first faults
        (way_of L.history L.is_closed L.count link.old) ear.old core.old
        pool.old.waiting pool.old.heard false }
    ensures leaves { (first : WorkerValue) (faults : ℕ)
        → AtWork F.gives F.may_fail L.tells B.fits first faults
        (way_of L.history L.is_closed L.count link.old) ear.old core.old
        pool.old.waiting pool.old.heard false
        → HasLeft F.gives F.may_fail L.tells B.fits first faults
        (way_of L.history L.is_closed L.count link.new) pool.new.heard result }
    ensures line { pool.new.line ≡ pool.old.line }
{
    let halt = serve(rt, alloc, link, ear, core, pool, pace);
    pool.close();
    halt
}

// The worker on this thread, and each runner on one of its own.
fn serve_beside<
    B: Terms + Send + Sync,
    W: Threads + Wait + Sync,
    F: Commands,
    L: Link<F>,
    R: Runner<F>,
    G: Gate,
    D: Dial<F>,
>(
    rt: &W,
    alloc: Global,
    line: &Line<B>,
    token: &mut Token,
    link: &mut L,
    ear: &mut Ear,
    core: &mut WorkerCore,
    pool: &mut Pool<B>,
    runners: &mut [R],
    gate: &G,
    pace: &mut Pace<'_, D>,
) -> Halt
    requires some { 0 < length runners.old }
    requires token { IsPassOf line.now.reports token.old
        × (length runners.old ≤ (view token.old).parts) }
    requires runners { Crew (MayReport F.gives F.may_fail R.tells R.sure B.fits) runners.old }
    requires shaped { IsShapedPool B.fits }
    requires works { (first : WorkerValue) × (faults : ℕ)
        × AtWork F.gives F.may_fail L.tells B.fits first faults
        (way_of L.history L.is_closed L.count link.old) ear.old core.old
        pool.old.waiting pool.old.heard false }
    ensures same { IsSamePass token.old token.new }
    ensures hand { ((view token.new).parts ≡ (view token.old).parts)
        × ((view token.new).taken ≡ (view token.old).taken) }
    ensures counted { GrowsWith (view token.old).put (view token.new).put
        (sum_by R.count runners.old) (sum_by R.count runners.new)
        (sum_by R.failures runners.old) (sum_by R.failures runners.new) }
    ensures leaves { (first : WorkerValue) (faults : ℕ)
        → AtWork F.gives F.may_fail L.tells B.fits first faults
        (way_of L.history L.is_closed L.count link.old) ear.old core.old
        pool.old.waiting pool.old.heard false
        → HasLeft F.gives F.may_fail L.tells B.fits first faults
        (way_of L.history L.is_closed L.count link.new) pool.new.heard result }
    ensures line { pool.new.line ≡ pool.old.line }
{
    let (_, halt) = join_mut(
        rt,
        &mut ||
            requires rows { IsSync W.row }
            requires fits { Crew (MayReport F.gives F.may_fail R.tells R.sure B.fits) runners.now }
            requires token { IsPassOf line.now.reports token.now × (0 < length runners.now)
                × (length runners.now ≤ (view token.now).parts) }
            ensures same { IsSamePass token.entry.now token.exit.now }
            ensures hand { ((view token.exit.now).parts ≡ (view token.entry.now).parts)
                × ((view token.exit.now).taken ≡ (view token.entry.now).taken) }
            ensures counted { GrowsWith (view token.entry.now).put (view token.exit.now).put
                (sum_by R.count runners.entry.now) (sum_by R.count runners.exit.now)
                (sum_by R.failures runners.entry.now) (sum_by R.failures runners.exit.now) }
        { work_all::<B, F, W, R, G>(rt, line, gate, token, runners) },
        &mut || -> Halt
            requires shaped { IsShapedPool B.fits }
            requires works { (first : WorkerValue) × (faults : ℕ)
                × AtWork F.gives F.may_fail L.tells B.fits first faults
                (way_of L.history L.is_closed L.count link.now) ear.now core.now
                pool.now.waiting pool.now.heard false }
            ensures leaves { (first : WorkerValue) (faults : ℕ)
                → AtWork F.gives F.may_fail L.tells B.fits first faults
                (way_of L.history L.is_closed L.count link.entry.now) ear.entry.now core.entry.now
                pool.entry.now.waiting pool.entry.now.heard false
                → HasLeft F.gives F.may_fail L.tells B.fits first faults
                (way_of L.history L.is_closed L.count link.exit.now) pool.exit.now.heard result }
            ensures line { pool.exit.now.line ≡ pool.entry.now.line }
        { serve_and_close::<B, W, F, L, D>(rt, alloc, link, ear, core, pool, pace) },
    );
    halt
}

// A worker that has said its hello, over a pool of these tickets.
fn serve_in<
    B: Terms + Send + Sync,
    W: Threads + Wait + Sync,
    F: Commands,
    L: Link<F>,
    R: Runner<F>,
    G: Gate,
    D: Dial<F>,
>(
    rt: &W,
    alloc: Global,
    tickets: Tickets,
    pass: Ticket,
    link: &mut L,
    ear: &mut Ear,
    core: &mut WorkerCore,
    runners: &mut [R],
    gate: &G,
    pace: &mut Pace<'_, D>,
) -> Halt
    requires tickets { (pass.table_id ≡ B.tickets) × IsPassOf tickets pass × (view pass ≡ fresh) }
    requires some { 0 < length runners.old }
    requires runners { Crew (MayReport F.gives F.may_fail R.tells R.sure B.fits) runners.old }
    requires shaped { IsShapedPool B.fits }
    requires works { (first : WorkerValue) × (faults : ℕ)
        × AtWork F.gives F.may_fail L.tells B.fits first faults
        (way_of L.history L.is_closed L.count link.old) ear.old core.old [] none false }
    ensures leaves { (first : WorkerValue) (faults : ℕ)
        → AtWork F.gives F.may_fail L.tells B.fits first faults
        (way_of L.history L.is_closed L.count link.old) ear.old core.old [] none false
        → (heard : Tally) × HasLeft F.gives F.may_fail L.tells B.fits first faults
        (way_of L.history L.is_closed L.count link.new) heard result
        × (heard.unrun + sum_by R.count runners.old ≤ sum_by R.count runners.new) }
{
    let Ok((line, token)) = Line::<B>::new(alloc) else {
        return Halt::Memory;
    };
    let (mut pool, mut other) = Pool::new(&line, tickets, pass, token);
    let halt = serve_beside::<B, W, F, L, R, G, D>(
        rt, alloc, &line, &mut other, link, ear, core, &mut pool, runners, gate, pace,
    );
    pool.end(rt, other);
    halt
}

// A worker that has said its hello.
fn serve_all<W: Threads + Wait + Sync, F: Commands, L: Link<F>, R: Runner<F>, G: Gate, D: Dial<F>>(
    rt: &W,
    alloc: Global,
    link: &mut L,
    ear: &mut Ear,
    core: &mut WorkerCore,
    runners: &mut [R],
    gate: &G,
    pace: &mut Pace<'_, D>,
) -> Halt
    requires some { 0 < length runners.old }
    requires works { (first : WorkerValue) × WorksWith F.gives F.may_fail L.tells R.tells R.sure
        runners.old first (way_of L.history L.is_closed L.count link.old) ear.old core.old }
    ensures leaves { (first : WorkerValue) → WorksWith F.gives F.may_fail L.tells R.tells R.sure
        runners.old first (way_of L.history L.is_closed L.count link.old) ear.old core.old
        → WorkLeft F.gives F.may_fail L.tells R.tells R.sure runners.old first
        (way_of L.history L.is_closed L.count link.new) (sum_by R.count runners.old)
        (sum_by R.count runners.new) result }
{
    let Ok((tickets, pass)) = new_tickets(alloc) else {
        return Halt::Memory;
    };
    serve_in::<Brand, W, F, L, R, G, D>(
        rt, alloc, tickets, pass, link, ear, core, runners, gate, pace,
    )
}

/// Says hello over a link over which nothing has passed, with these amounts and a cache of so many
/// bytes, and serves until the work is over or it can't go on.
pub(crate) fn work<
    W: Threads + Wait + Sync,
    F: Commands,
    L: Link<F>,
    R: Runner<F>,
    G: Gate,
    D: Dial<F>,
>(
    rt: &W,
    alloc: Global,
    link: &mut L,
    total: Amounts,
    cap: u64,
    runners: &mut [R],
    gate: &G,
    pace: &mut Pace<'_, D>,
) -> Halt
    requires some { 0 < length runners.old }
    requires new { IsFresh L.history L.count L.idle_count L.is_closed link.old }
    ensures leaves { WorkLeft F.gives F.may_fail L.tells R.tells R.sure runners.old
        (new_worker total cap) (way_of L.history L.is_closed L.count link.new)
        (sum_by R.count runners.old) (sum_by R.count runners.new) result }
{
    let mut core = WorkerCore::new(alloc, total, cap);
    let Ok(mut ear) = Ear::new(alloc) else {
        return Halt::Memory;
    };
    match say(alloc, link, &core.hello()) {
        Ok(()) => serve_all(rt, alloc, link, &mut ear, &mut core, runners, gate, pace),
        Err(fault) => halt_by(fault),
    }
}
