//! A course and its runners.
ghost use Rattle.std.specs.Prelude.{◌≡◌, ◌≤◌, ◌<◌, List, Bool, true, [], length};
ghost use Rattle.std.specs.Prelude.{sum_by, OnOk};
ghost use Rattle.std.specs.Thread.{IsSync};
ghost use Rattle.crossbeam_queue.specs.Passes.{view, IsPassOf, IsSamePass};
ghost use Rattle.flow_types.specs.declared.job.Job.{Job};
ghost use Rattle.flow_types.specs.declared.job.Outcome.{Outcome};
ghost use Rattle.flow_types.specs.declared.job.Start.{Start};
ghost use Rattle.worker_pool.specs.Courses.{Fits, Heeds, MayReport};
ghost use Rattle.worker_pool.specs.Hands.{Crew};
ghost use Rattle.worker_pool.specs.Steers.{Steered};
ghost use Rattle.worker_pool.specs.Tallies.{none, AreCounted, GrowsWith};
ghost use Rattle.worker_pool.specs.Tickets.{fresh};
ghost use Rattle.worker_pool.specs.declared.hand.Tally.{Tally};

use crate::chief::Chief;
use crate::course::Course;
use crate::crew::work_all;
use crate::gate::Gate;
use crate::line::{Line, Token};
use crate::steer::steer;
use crate::terms::Terms;
use crate::ticket::{Ticket, Tickets, new_tickets};
use flow_types::Memory;
use outside::{Commands, Runner};
use std::alloc::Global;
use std::marker::Brand;
use std::sync::Wait;
use std::thread::{Threads, join_mut};

// The course on this thread, then the end of all waits.
fn steer_and_close<B: Terms, F: Commands, W: Wait, C: Course<F>>(
    rt: &W,
    line: &Line<B>,
    chief: &mut Chief<B>,
    token: &mut Token,
    course: &mut C,
) -> Result<(), Memory>
    requires fits { (job : Job) (outcome : Outcome)
        → B.fits job outcome → Fits F.gives F.may_fail C.trust job outcome }
    requires token { IsPassOf line.now.reports token.old × (0 < (view token.old).parts) }
    requires fresh { (chief.old ≡ []) × ((view token.old).taken ≡ none) }
    ensures same { IsSamePass token.old token.new }
    ensures hand { ((view token.new).parts ≡ (view token.old).parts)
        × ((view token.new).put ≡ (view token.old).put) }
    ensures steered { (done : Bool)
        × Steered C.asked C.told C.due B.fits
        course.old course.new done chief.new (view token.new).taken
        × OnOk result ((done ≡ true) × (chief.new ≡ []) × C.over course.new) }
{
    let result = steer::<B, F, W, C>(rt, line, chief, token, course);
    line.close();
    result
}

/// The course on this thread, and each runner on one of its own.
pub fn drive_in<
    B: Terms + Send + Sync,
    F: Commands,
    W: Threads + Wait + Sync,
    R: Runner<F>,
    G: Gate,
    C: Course<F>,
>(
    rt: &W,
    alloc: Global,
    tickets: Tickets,
    pass: Ticket,
    runners: &mut [R],
    gate: &G,
    course: &mut C,
) -> Result<(), Memory>
    requires tickets { (pass.table_id ≡ B.tickets) × IsPassOf tickets pass × (view pass ≡ fresh) }
    requires fits { (job : Job) (outcome : Outcome)
        → B.fits job outcome → Fits F.gives F.may_fail C.trust job outcome }
    requires some { 0 < length runners.old }
    requires runners { Crew (MayReport F.gives F.may_fail R.tells R.sure B.fits) runners.old }
    ensures steered { (done : Bool) × (waiting : List Start) × (heard : Tally)
        × Steered C.asked C.told C.due B.fits course.old course.new done waiting heard
        × AreCounted heard (sum_by R.count runners.old) (sum_by R.count runners.new)
        (sum_by R.failures runners.old) (sum_by R.failures runners.new)
        × OnOk result ((done ≡ true) × (waiting ≡ []) × C.over course.new) }
{
    let mut chief = Chief::<B>::new(tickets, pass);
    let Ok((line, mut token)) = Line::<B>::new(alloc) else {
        return Err(Memory);
    };
    let line = &line;
    let mut other = line.split(&mut token);
    let (_, result) = join_mut(
        rt,
        &mut ||
            requires rows { IsSync W.row }
            requires fits { Crew (MayReport F.gives F.may_fail R.tells R.sure B.fits) runners.now }
            requires token { IsPassOf line.now.reports other × (0 < length runners.now)
                × (length runners.now ≤ (view other).parts) }
            ensures same { IsSamePass other.entry other.exit }
            ensures hand { ((view other.exit).parts ≡ (view other.entry).parts)
                × ((view other.exit).taken ≡ (view other.entry).taken) }
            ensures counted { GrowsWith (view other.entry).put (view other.exit).put
                (sum_by R.count runners.entry.now) (sum_by R.count runners.exit.now)
                (sum_by R.failures runners.entry.now) (sum_by R.failures runners.exit.now) }
        { work_all::<B, F, W, R, G>(rt, line, gate, &mut other, runners) },
        &mut || -> Result<(), Memory>
            requires fits { (job : Job) (outcome : Outcome)
                → B.fits job outcome → Fits F.gives F.may_fail C.trust job outcome }
            requires token { IsPassOf line.now.reports token × (0 < (view token).parts) }
            requires fresh { (chief ≡ []) × ((view token).taken ≡ none) }
            ensures same { IsSamePass token.entry token.exit }
            ensures hand { ((view token.exit).parts ≡ (view token.entry).parts)
                × ((view token.exit).put ≡ (view token.entry).put) }
            ensures steered { (done : Bool)
                × Steered C.asked C.told C.due B.fits
                course.entry.now course.exit.now done chief.exit (view token.exit).taken
                × OnOk result ((done ≡ true) × (chief.exit ≡ []) × C.over course.exit.now) }
        { steer_and_close::<B, F, W, C>(rt, line, &mut chief, &mut token, course) },
    );
    line.join(&mut token, other);
    line.audit(&mut token);
    result
}

/// Runs what the course gives, by all runners at once, each in a thread of its own behind the gate.
/// Each start is heard at most once, after it was given, and where the answer is Ok exactly once. A
/// fault of a runner is heard as `NotRun`. Memory may come at any time; from then on the course is
/// asked and told nothing.
pub fn drive<F: Commands, W: Threads + Wait + Sync, R: Runner<F>, G: Gate, C: Course<F>>(
    rt: &W,
    alloc: Global,
    runners: &mut [R],
    gate: &G,
    course: &mut C,
) -> Result<(), Memory>
    requires some { 0 < length runners.old }
    requires trust { Crew (λ r. (job : Job) → C.trust job → R.tells r job) runners.old }
    ensures steered { (done : Bool) × (waiting : List Start) × (heard : Tally)
        × Steered C.asked C.told C.due
        (Heeds F.gives F.may_fail C.trust (Crew R.sure runners.old))
        course.old course.new done waiting heard
        × AreCounted heard (sum_by R.count runners.old) (sum_by R.count runners.new)
        (sum_by R.failures runners.old) (sum_by R.failures runners.new)
        × OnOk result ((done ≡ true) × (waiting ≡ []) × C.over course.new) }
{
    let Ok((tickets, pass)) = new_tickets(alloc) else {
        return Err(Memory);
    };
    drive_in::<Brand, F, W, R, G, C>(rt, alloc, tickets, pass, runners, gate, course)
}
