//! A call on the caller's thread beside those of the runners, which is given a value and gives it
//! back.
ghost use Rattle.std.specs.Prelude.{◌≡◌, ◌≤◌, ◌<◌, length, sum_by, IsSome, None, Some};
ghost use Rattle.crossbeam_queue.specs.Passes.{view, IsPassOf, IsSamePass};
ghost use Rattle.flow_types.specs.declared.job.Job.{Job};
ghost use Rattle.worker_pool.specs.Courses.{MayReport};
ghost use Rattle.worker_pool.specs.Crews.{AllSure, AllTell};
ghost use Rattle.worker_pool.specs.Hands.{Crew};
ghost use Rattle.worker_pool.specs.Tallies.{GrowsWith};
ghost use Rattle.wq_run.specs.Calls.{CalledFrom, CalledWith, TakesFrom, TakesWith};

use local_run::call_beside;
use outside::{Commands, Runner};
use std::sync::Wait;
use std::thread::Threads;
use worker_pool::{Gate, Line, Terms as PoolTerms, Token};

// The value goes back to its place.
fn fill<E>(slot: &mut Option<E>, value: E)
    requires { slot.old ≡ None }
    ensures { slot.new ≡ Some value }
{
    match slot.replace(value) {
        None => {}
        Some(_) => unreachable!(),
    }
}

// The value that there is.
fn held_in<E>(slot: Option<E>) -> E
    requires { IsSome slot }
    ensures { slot ≡ Some result }
{
    match slot {
        Some(value) => value,
        None => unreachable!(),
    }
}

// A call with the value at the desk.
fn call_with<D, E, K: FnMut(E, &mut D) -> E>(call: &mut K, value: E, desk: &mut D) -> E
    requires { TakesWith K.FnMut call.old value desk.old }
    ensures { CalledWith K.FnMut call.old value desk.old result call.new desk.new }
{
    call(value, desk)
}

// A call with the value that there is, as a closure that is joined makes it.
fn call_from<D, E, K: FnMut(E, &mut D) -> E>(call: &mut K, slot: &mut Option<E>, desk: &mut D)
    requires takes { TakesFrom K.FnMut call.old slot.old desk.old }
    ensures called { CalledFrom K.FnMut call.old slot.old desk.old slot.new call.new desk.new }
{
    match slot.take() {
        Some(value) => {
            let given = call_with(call, value, desk);
            fill(slot, given);
        }
        None => unreachable!(),
    }
}

/// Calls it with the value at the desk, while each runner runs what the line has on a thread of its
/// own, and waits for all. It gives what the call gave.
pub(crate) fn call_with_beside<
    B: PoolTerms + Send + Sync,
    W: Threads + Wait + Sync,
    G: Gate,
    F: Commands,
    R: Runner<F>,
    D,
    E,
    K: FnMut(E, &mut D) -> E,
>(
    rt: &W,
    line: &Line<B>,
    token: &mut Token,
    runners: &mut [R],
    gate: &G,
    desk: &mut D,
    value: E,
    call: &mut K,
) -> E
    requires some { 0 < length runners.old }
    requires token { IsPassOf line.now.reports token.old
        × (length runners.old ≤ (view token.old).parts) }
    requires runners { Crew (MayReport F.gives F.may_fail R.tells R.sure B.fits) runners.old }
    requires takes { TakesWith K.FnMut call.old value desk.old }
    ensures same { IsSamePass token.old token.new }
    ensures hand { ((view token.new).parts ≡ (view token.old).parts)
        × ((view token.new).taken ≡ (view token.old).taken) }
    ensures counted { GrowsWith (view token.old).put (view token.new).put
        (sum_by R.count runners.old) (sum_by R.count runners.new)
        (sum_by R.failures runners.old) (sum_by R.failures runners.new) }
    ensures sure { AllSure R.sure runners.old → AllSure R.sure runners.new }
    ensures tells { (job : Job) → AllTell R.tells runners.old job → AllTell R.tells runners.new job }
    ensures called { CalledWith K.FnMut call.old value desk.old result call.new desk.new }
{
    let mut slot = Some(value);
    call_beside::<B, W, G, F, R, D, _>(
        rt,
        line,
        token,
        runners,
        gate,
        desk,
        &mut |desk: &mut D|
            requires takes { TakesFrom K.FnMut call.now slot desk.old }
            ensures called { CalledFrom K.FnMut call.entry.now slot.entry desk.old slot.exit
                call.exit.now desk.new }
        { call_from(call, &mut slot, desk) },
    );
    held_in(slot)
}
