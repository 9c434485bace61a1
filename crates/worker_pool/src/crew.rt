//! One thread for each runner.
ghost use Rattle.std.specs.Prelude.{◌≡◌, ◌≤◌, ◌<◌, ◌-◌, ◌/◌, length, sum_by};
ghost use Rattle.std.specs.Thread.{IsSync};
ghost use Rattle.crossbeam_queue.specs.Passes.{view, IsPassOf, IsSamePass};
ghost use Rattle.flow_types.specs.declared.job.Job.{Job};
ghost use Rattle.worker_pool.specs.Courses.{MayReport};
ghost use Rattle.worker_pool.specs.Crews.{AllSure, AllTell};
ghost use Rattle.worker_pool.specs.Hands.{Crew};
ghost use Rattle.worker_pool.specs.Tallies.{plus, GrowsWith};

use crate::gate::Gate;
use crate::line::{Line, Token};
use crate::terms::Terms;
use crate::work::work;
use outside::{Commands, Runner};
use std::sync::Wait;
use std::thread::{Threads, join_mut};

// Runs starts by the one runner that there may be.
fn work_first<B: Terms, F: Commands, W: Wait, R: Runner<F>, G: Gate>(
    rt: &W,
    line: &Line<B>,
    gate: &G,
    token: &mut Token,
    runners: &mut [R],
)
    requires one { length runners.old ≡ 1 }
    requires fits { Crew (MayReport F.gives F.may_fail R.tells R.sure B.fits) runners.old }
    requires token { IsPassOf line.now.reports token.old × (0 < (view token.old).parts) }
    ensures same { IsSamePass token.old token.new }
    ensures hand { ((view token.new).parts ≡ (view token.old).parts)
        × ((view token.new).taken ≡ (view token.old).taken) }
    ensures counted { GrowsWith (view token.old).put (view token.new).put
        (sum_by R.count runners.old) (sum_by R.count runners.new)
        (sum_by R.failures runners.old) (sum_by R.failures runners.new) }
    ensures sure { AllSure R.sure runners.old → AllSure R.sure runners.new }
    ensures tells { (job : Job) → AllTell R.tells runners.old job → AllTell R.tells runners.new job }
{
    if let Some(runner) = runners.first_mut() {
        work::<B, F, W, R, G>(rt, line, token, runner, gate);
    }
}

/// Runs starts by each runner in a thread of its own, until the line is closed.
#[cycle(halves)]
pub fn work_all<
    B: Terms + Send + Sync,
    F: Commands,
    W: Threads + Wait + Sync,
    R: Runner<F>,
    G: Gate,
>(rt: &W, line: &Line<B>, gate: &G, token: &mut Token, runners: &mut [R])
    requires fits { Crew (MayReport F.gives F.may_fail R.tells R.sure B.fits) runners.old }
    requires token { IsPassOf line.now.reports token.old × (0 < length runners.old)
        × (length runners.old ≤ (view token.old).parts) }
    ensures same { IsSamePass token.old token.new }
    ensures hand { ((view token.new).parts ≡ (view token.old).parts)
        × ((view token.new).taken ≡ (view token.old).taken) }
    ensures counted { GrowsWith (view token.old).put (view token.new).put
        (sum_by R.count runners.old) (sum_by R.count runners.new)
        (sum_by R.failures runners.old) (sum_by R.failures runners.new) }
    ensures sure { AllSure R.sure runners.old → AllSure R.sure runners.new }
    ensures tells { (job : Job) → AllTell R.tells runners.old job → AllTell R.tells runners.new job }
{
    if runners.len() <= 1 {
        work_first::<B, F, W, R, G>(rt, line, gate, token, runners);
        return;
    }
    let mut other = line.split(token);
    work_halves::<B, F, W, R, G>(rt, line, gate, token, &mut other, runners);
    line.join(token, other);
}

// Runs starts by both halves of the runners.
#[cycle(halves)]
fn work_halves<
    B: Terms + Send + Sync,
    F: Commands,
    W: Threads + Wait + Sync,
    R: Runner<F>,
    G: Gate,
>(rt: &W, line: &Line<B>, gate: &G, token: &mut Token, other: &mut Token, runners: &mut [R])
    requires many { 1 < length runners.old }
    requires fits { Crew (MayReport F.gives F.may_fail R.tells R.sure B.fits) runners.old }
    requires token { IsPassOf line.now.reports token.old
        × (length runners.old - length runners.old / 2 ≤ (view token.old).parts) }
    requires other { IsPassOf line.now.reports other.old
        × (length runners.old / 2 ≤ (view other.old).parts) }
    ensures same { IsSamePass token.old token.new × IsSamePass other.old other.new }
    ensures hand { ((view token.new).parts ≡ (view token.old).parts)
        × ((view token.new).taken ≡ (view token.old).taken) }
    ensures other { ((view other.new).parts ≡ (view other.old).parts)
        × ((view other.new).taken ≡ (view other.old).taken) }
    ensures counted { GrowsWith (plus (view token.old).put (view other.old).put)
        (plus (view token.new).put (view other.new).put)
        (sum_by R.count runners.old) (sum_by R.count runners.new)
        (sum_by R.failures runners.old) (sum_by R.failures runners.new) }
    ensures sure { AllSure R.sure runners.old → AllSure R.sure runners.new }
    ensures tells { (job : Job) → AllTell R.tells runners.old job → AllTell R.tells runners.new job }
{
    let (front, back) = runners.split_at_mut(runners.len() / 2);
    join_mut(
        rt,
        &mut ||
            requires rows { IsSync W.row }
            requires fits { Crew (MayReport F.gives F.may_fail R.tells R.sure B.fits) front.now }
            requires token { IsPassOf line.now.reports other.now × (0 < length front.now)
                × (length front.now ≤ (view other.now).parts) }
            ensures same { IsSamePass other.entry.now other.exit.now }
            ensures hand { ((view other.exit.now).parts ≡ (view other.entry.now).parts)
                × ((view other.exit.now).taken ≡ (view other.entry.now).taken) }
            ensures counted { GrowsWith (view other.entry.now).put (view other.exit.now).put
                (sum_by R.count front.entry.now) (sum_by R.count front.exit.now)
                (sum_by R.failures front.entry.now) (sum_by R.failures front.exit.now) }
            ensures sure { AllSure R.sure front.entry.now → AllSure R.sure front.exit.now }
            ensures tells { (job : Job) → AllTell R.tells front.entry.now job
                → AllTell R.tells front.exit.now job }
        { work_all::<B, F, W, R, G>(rt, line, gate, other, front) },
        &mut ||
            requires rows { IsSync W.row }
            requires fits { Crew (MayReport F.gives F.may_fail R.tells R.sure B.fits) back.now }
            requires token { IsPassOf line.now.reports token.now × (0 < length back.now)
                × (length back.now ≤ (view token.now).parts) }
            ensures same { IsSamePass token.entry.now token.exit.now }
            ensures hand { ((view token.exit.now).parts ≡ (view token.entry.now).parts)
                × ((view token.exit.now).taken ≡ (view token.entry.now).taken) }
            ensures counted { GrowsWith (view token.entry.now).put (view token.exit.now).put
                (sum_by R.count back.entry.now) (sum_by R.count back.exit.now)
                (sum_by R.failures back.entry.now) (sum_by R.failures back.exit.now) }
            ensures sure { AllSure R.sure back.entry.now → AllSure R.sure back.exit.now }
            ensures tells { (job : Job) → AllTell R.tells back.entry.now job
                → AllTell R.tells back.exit.now job }
        { work_all::<B, F, W, R, G>(rt, line, gate, token, back) },
    );
}
