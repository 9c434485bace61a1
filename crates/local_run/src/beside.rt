//! A call on the caller's thread beside those of the runners.
ghost use Rattle.std.specs.Prelude.{◌≡◌, ◌≤◌, ◌<◌, length, sum_by};
ghost use Rattle.std.specs.Fn.{CalledAtMut};
ghost use Rattle.std.specs.Thread.{IsSync};
ghost use Rattle.crossbeam_queue.specs.Passes.{view, IsPassOf, IsSamePass};
ghost use Rattle.flow_types.specs.declared.job.Job.{Job};
ghost use Rattle.worker_pool.specs.Courses.{MayReport};
ghost use Rattle.worker_pool.specs.Crews.{AllSure, AllTell};
ghost use Rattle.worker_pool.specs.Hands.{Crew};
ghost use Rattle.worker_pool.specs.Tallies.{GrowsWith};
ghost use Rattle.local_run.specs.Calls.{TakesAtMut};

use outside::{Commands, Runner};
use std::sync::Wait;
use std::thread::{Threads, join_mut};
use worker_pool::{Gate, Line, Terms as PoolTerms, Token, work_all};

// A call, as a closure that is joined makes it.
fn call_at<D, K: FnMut(&mut D)>(call: &mut K, desk: &mut D)
    requires { TakesAtMut K.FnMut call.old desk.old }
    ensures { CalledAtMut K.FnMut call.old desk.old tt call.new desk.new }
{
    call(desk)
}

/// Calls it at the desk, while each runner runs what the line has on a thread of its own, and waits
/// for all.
pub fn call_beside<
    B: PoolTerms + Send + Sync,
    W: Threads + Wait + Sync,
    G: Gate,
    F: Commands,
    R: Runner<F>,
    D,
    K: FnMut(&mut D),
>(
    rt: &W,
    line: &Line<B>,
    token: &mut Token,
    runners: &mut [R],
    gate: &G,
    desk: &mut D,
    call: &mut K,
)
    requires some { 0 < length runners.old }
    requires token { IsPassOf line.now.reports token.old
        × (length runners.old ≤ (view token.old).parts) }
    requires runners { Crew (MayReport F.gives F.may_fail R.tells R.sure B.fits) runners.old }
    requires takes { TakesAtMut K.FnMut call.old desk.old }
    ensures same { IsSamePass token.old token.new }
    ensures hand { ((view token.new).parts ≡ (view token.old).parts)
        × ((view token.new).taken ≡ (view token.old).taken) }
    ensures counted { GrowsWith (view token.old).put (view token.new).put
        (sum_by R.count runners.old) (sum_by R.count runners.new)
        (sum_by R.failures runners.old) (sum_by R.failures runners.new) }
    ensures sure { AllSure R.sure runners.old → AllSure R.sure runners.new }
    ensures tells { (job : Job) → AllTell R.tells runners.old job → AllTell R.tells runners.new job }
    ensures called { CalledAtMut K.FnMut call.old desk.old tt call.new desk.new }
{
    join_mut(
        rt,
        &mut ||
            requires rows { IsSync W.row }
            requires fits { Crew (MayReport F.gives F.may_fail R.tells R.sure B.fits) runners.now }
            requires token { IsPassOf line.now.reports token.now × (0 < length runners.now)
                × (length runners.now ≤ (view token.now).parts) }
            ensures same { IsSamePass token.entry.now token.exit.now }
            ensures hand { ((view token.exit.now).parts ≡ (view token.entry.now).parts)
                × ((view token.exit.now).taken ≡ (view token.entry.now).taken) }
            ensures counted { GrowsWith (view token.entry.now).put (view token.exit.now).put
                (sum_by R.count runners.entry.now) (sum_by R.count runners.exit.now)
                (sum_by R.failures runners.entry.now) (sum_by R.failures runners.exit.now) }
            ensures sure { AllSure R.sure runners.entry.now → AllSure R.sure runners.exit.now }
            ensures tells { (job : Job) → AllTell R.tells runners.entry.now job
                → AllTell R.tells runners.exit.now job }
        { work_all::<B, F, W, R, G>(rt, line, gate, token, runners) },
        &mut ||
            requires takes { TakesAtMut K.FnMut call.now desk.now }
            ensures called { CalledAtMut K.FnMut call.entry.now desk.entry.now tt call.exit.now
                desk.exit.now }
        { call_at(call, desk) },
    );
}
