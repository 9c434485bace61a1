//! Runs a list of jobs.
ghost use Rattle.std.specs.Prelude.{◌<◌, length, sum_by, IfOk};
ghost use Rattle.flow_types.specs.declared.job.Job.{Job};
ghost use Rattle.worker_pool.specs.Courses.{Heeds};
ghost use Rattle.worker_pool.specs.Hands.{Crew};
ghost use Rattle.worker_pool.specs.Lists.{AreApart, Reported, reported_of};
ghost use Rattle.worker_pool.specs.Tallies.{AreCounted};

use crate::driving::drive;
use crate::gate::Gate;
use crate::jobs::{Jobs, Trusting};
use flow_types::{Memory, Report, Rows, Start};
use outside::{Commands, Runner};
use std::alloc::Global;
use std::marker::Brand;
use std::sync::Wait;
use std::thread::Threads;

// Runs the jobs, of which those are trusted that the caller picks.
fn run_trusting<B: Trusting, F: Commands, W: Threads + Wait + Sync, R: Runner<F>, G: Gate>(
    rt: &W,
    alloc: Global,
    runners: &mut [R],
    gate: &G,
    jobs: Rows<Start>,
) -> Result<Rows<Report>, Memory>
    requires some { 0 < length runners.old }
    requires trust { Crew (λ r. (job : Job) → B.trust job → R.tells r job) runners.old }
    requires apart { AreApart jobs }
    ensures reported { IfOk result (λ reports.
        Reported (Heeds F.gives F.may_fail B.trust (Crew R.sure runners.old)) jobs reports) }
    ensures counted { IfOk result (λ reports. AreCounted (reported_of reports)
        (sum_by R.count runners.old) (sum_by R.count runners.new)
        (sum_by R.failures runners.old) (sum_by R.failures runners.new)) }
{
    let mut course = Jobs::<B>::new(alloc, jobs)?;
    drive::<F, W, R, G, Jobs<B>>(rt, alloc, runners, gate, &mut course)?;
    Ok(course.into_reports())
}

/// Runs each of the jobs once, by all runners at once, and reports each, in any order. A fault of a
/// runner is reported as `NotRun`. A job's outcome is what the commands say where every runner
/// tells of the job.
pub fn run_pool<F: Commands, W: Threads + Wait + Sync, R: Runner<F>, G: Gate>(
    rt: &W,
    alloc: Global,
    runners: &mut [R],
    gate: &G,
    jobs: Rows<Start>,
) -> Result<Rows<Report>, Memory>
    requires some { 0 < length runners.old }
    requires apart { AreApart jobs }
    ensures reported { IfOk result (λ reports.
        Reported (Heeds F.gives F.may_fail (λ job. Crew (λ r. R.tells r job) runners.old)
        (Crew R.sure runners.old)) jobs reports) }
    ensures counted { IfOk result (λ reports. AreCounted (reported_of reports)
        (sum_by R.count runners.old) (sum_by R.count runners.new)
        (sum_by R.failures runners.old) (sum_by R.failures runners.new)) }
{
    run_trusting::<Brand, F, W, R, G>(rt, alloc, runners, gate, jobs)
}
