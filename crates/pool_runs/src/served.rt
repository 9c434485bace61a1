//! A pool that a test serves by itself.
ghost use Rattle.std.specs.Prelude.{◌≡◌, ◌≤◌, ◌<◌, length};
ghost use Rattle.std.specs.Thread.{IsSync};
ghost use Rattle.crossbeam_queue.specs.Passes.{view, IsPassOf, IsSamePass};
ghost use Rattle.worker_pool.specs.Courses.{MayReport};
ghost use Rattle.worker_pool.specs.Hands.{Crew};
ghost use Rattle.worker_pool.specs.Tickets.{fresh};

use crate::jobs::two_jobs;
use crate::meeting::MeetGate;
use flow_types::{Memory, Outcome, Start};
use mem_outside::{Blank, BlankRunner};
use outside::{Commands, Runner};
use std::alloc::Global;
use std::collections::VecDeque;
use std::marker::Brand;
use std::rt::HostRuntime;
use std::sync::Wait;
use std::test::Fail;
use std::thread::{Threads, join_mut};
use worker_pool::{
    Gate, Line, OpenGate, Pool, Terms, Ticket, Tickets, Token, new_tickets, work_all,
};

// Gives each start, and hears until none is out. Whether each was heard and succeeded.
fn serve<B: Terms, W: Wait>(rt: &W, pool: &mut Pool<'_, B>, starts: &mut VecDeque<Start>) -> bool
    ensures { pool.new.line ≡ pool.old.line }
{
    let mut succeeded = true;
    for _ in rt.forever() {
        let Some(seen) = pool.seen() else {
            return false;
        };
        if pool.out() < 64 {
            if let Some(start) = starts.pop_front() {
                pool.give(rt, start);
                continue;
            }
        }
        if pool.out() == 0 {
            break;
        }
        match pool.hear() {
            Some(report) => succeeded &= matches!(report.outcome, Outcome::Success(_)),
            None => pool.rest(rt, seen),
        }
    }
    succeeded
}

// Serves each start, and ends the runners.
fn serve_and_close<B: Terms, W: Wait>(
    rt: &W,
    pool: &mut Pool<'_, B>,
    starts: &mut VecDeque<Start>,
) -> bool
    ensures { pool.new.line ≡ pool.old.line }
{
    let succeeded = serve::<B, W>(rt, pool, starts);
    pool.close();
    succeeded
}

// Each runner in a thread of its own, and the caller's loop on this one.
fn run_served_on<
    B: Terms + Send + Sync,
    F: Commands,
    W: Threads + Wait + Sync,
    R: Runner<F>,
    G: Gate,
>(
    rt: &W,
    line: &Line<B>,
    runners: &mut [R],
    gate: &G,
    other: &mut Token,
    pool: &mut Pool<'_, B>,
    starts: &mut VecDeque<Start>,
) -> bool
    requires fits { Crew (MayReport F.gives F.may_fail R.tells R.sure B.fits) runners.old }
    requires token { IsPassOf line.now.reports other.old × (0 < length runners.old)
        × (length runners.old ≤ (view other.old).parts) }
    ensures same { IsSamePass other.old other.new }
    ensures hand { ((view other.new).parts ≡ (view other.old).parts)
        × ((view other.new).taken ≡ (view other.old).taken) }
    ensures line { pool.new.line ≡ pool.old.line }
{
    let (_, succeeded) = join_mut(
        rt,
        &mut ||
            requires rows { IsSync W.row }
            requires fits { Crew (MayReport F.gives F.may_fail R.tells R.sure B.fits) runners.now }
            requires token { IsPassOf line.now.reports other.now × (0 < length runners.now)
                × (length runners.now ≤ (view other.now).parts) }
            ensures same { IsSamePass other.entry.now other.exit.now }
            ensures hand { ((view other.exit.now).parts ≡ (view other.entry.now).parts)
                × ((view other.exit.now).taken ≡ (view other.entry.now).taken) }
        { work_all::<B, F, W, R, G>(rt, line, gate, other, runners) },
        &mut || -> bool
            ensures line { pool.exit.now.line ≡ pool.entry.now.line }
        { serve_and_close::<B, W>(rt, pool, starts) },
    );
    succeeded
}

// Serves starts with runners that report what fits.
fn run_served_in<
    B: Terms + Send + Sync,
    F: Commands,
    W: Threads + Wait + Sync,
    R: Runner<F>,
    G: Gate,
>(
    rt: &W,
    alloc: Global,
    tickets: Tickets,
    pass: Ticket,
    runners: &mut [R],
    gate: &G,
    starts: &mut VecDeque<Start>,
) -> Result<bool, Memory>
    requires tickets { (pass.table_id ≡ B.tickets) × IsPassOf tickets pass × (view pass ≡ fresh) }
    requires some { 0 < length runners.old }
    requires fits { Crew (MayReport F.gives F.may_fail R.tells R.sure B.fits) runners.old }
{
    let Ok((line, token)) = Line::<B>::new(alloc) else {
        return Err(Memory);
    };
    let (mut pool, mut other) = Pool::<B>::new(&line, tickets, pass, token);
    let succeeded = run_served_on::<B, F, W, R, G>(
        rt, &line, runners, gate, &mut other, &mut pool, starts,
    );
    pool.end(rt, other);
    Ok(succeeded)
}

// Serves two starts. The pick: what fits is what the commands say of the jobs that all tell of.
fn run_two<F: Commands, W: Threads + Wait + Sync, R: Runner<F>, G: Gate>(
    rt: &W,
    alloc: Global,
    runners: &mut [R],
    gate: &G,
) -> Result<bool, Memory>
    requires some { 0 < length runners.old }
{
    let mut starts = VecDeque::from(two_jobs(alloc)?.into_vec());
    let Ok((tickets, pass)) = new_tickets(alloc) else {
        return Err(Memory);
    };
    run_served_in::<Brand, F, W, R, G>(rt, alloc, tickets, pass, runners, gate, &mut starts)
}

#[test]
fn a_pool_that_is_served_by_its_caller_runs_each_start(rt: HostRuntime) -> Result<(), Fail> {
    let mut runners = [BlankRunner];
    let succeeded = run_two::<Blank, HostRuntime, BlankRunner, OpenGate>(
        &rt,
        rt.alloc(),
        runners.as_mut_slice(),
        &OpenGate,
    )?;
    assert!(rt; succeeded);
    Ok(())
}

#[test]
fn two_starts_of_a_served_pool_run_at_once(rt: HostRuntime) -> Result<(), Fail> {
    let gate = MeetGate::new();
    let mut runners = [BlankRunner, BlankRunner];
    let succeeded = run_two::<Blank, HostRuntime, BlankRunner, MeetGate>(
        &rt,
        rt.alloc(),
        runners.as_mut_slice(),
        &gate,
    )?;
    assert!(rt; succeeded);
    assert!(rt; gate.met());
    Ok(())
}
