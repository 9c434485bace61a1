//! The run of a plan over its log.
ghost use Rattle.std.specs.Prelude.{◌≡◌, ◌≢◌, ◌≤◌, ◌<◌, ◌-◌, ℕ, List, IfOk, IsFalse, IsTrue};
ghost use Rattle.std.specs.Prelude.{drop, false, length, map, sum_by, true};
ghost use Rattle.flow_types.specs.declared.records.Record.{Record as RecordValue};
ghost use Rattle.flow_types.specs.Plans.{IsValid};
ghost use Rattle.run_history.specs.Answers.{before_end};
ghost use Rattle.txn_log.specs.Spells.{Spells};
ghost use Rattle.file_store.specs.Outputs.{file_name};
ghost use Rattle.worker_pool.specs.Crews.{AllSure, AllTell};
ghost use Rattle.local_run.specs.Collecting.{RunCollects};
ghost use Rattle.local_run.specs.Ends.{OpensBy};
ghost use Rattle.command_words.specs.declared.options.Work.TheVariants.{Run};
ghost use Rattle.report.specs.Causes.{kind_of, may_lose};
ghost use Rattle.master_run.specs.Ends.{counts};
ghost use Rattle.wq_run.specs.Ends.{AreBack};
ghost use Rattle.wq_run.specs.Losses.{AreDueLosses};
ghost use Rattle.wq_run.specs.Results.{AreResults};
ghost use Rattle.wq_run.specs.Vain.{AreVain};
ghost use Rattle.master_run.specs.Headline.{FailureEnd, IfWaited, LogsFailed, WaitsInVain};
ghost use Rattle.master_run.specs.Headline.{is_run_end};
ghost use Rattle.master_run.specs.Needs.{NeedsFit};
ghost use Rattle.master_run.specs.OnePlan.{RunLeaves};
ghost use Rattle.master_run.specs.Reaching.{AreSureLinks, GoesSurely, IsMannedFor};
ghost use Rattle.master_run.specs.Serves.{IsCut, Serves};

use crate::ask::Ask;
use crate::causes::{run_cause, unread_cause};
use crate::course::Course;
use crate::rises::{Rise, counts_of, first_rise};
use flow_run::resume;
use flow_types::{Memory, Plan, Rows};
use links::Hall;
use local_run::{Born, ResumeRefused, RunEnded};
use log_recover::files_spell_one_list;
use outside::{Clock, Commands, Runner, Site};
use report::Cause;
use std::alloc::Global;
use std::sync::Wait;
use std::thread::Threads;
use task_core::Policy;
use worker_pool::Gate;

// What a run needs beside what it works on: its plan again, how often each runner has failed, and an
// admission for the plan.
fn kept_aside<F: Commands, R: Runner<F>, Q: Policy>(
    alloc: Global,
    plan: &Plan,
    runners: &[R],
    policy: &Q,
) -> Result<(Plan, Rows<u64>, Q::Made), Memory>
    requires valid { IsValid plan.now }
    ensures { IfOk result (λ kept. (kept.0 ≡ plan.now) × (kept.1 ≡ map R.count runners.now)
        × Q.Made.stands_for kept.2 plan.now) }
{
    let copied = plan.copy(alloc)?;
    let counts = counts_of::<F, R>(alloc, runners)?;
    let admission = policy.make(alloc, plan)?;
    Ok((copied, counts, admission))
}

// Runs the plan over its log, by all of the runners, and at workers where it asks for them.
fn run_by_all<
    F: Commands,
    W: Threads + Wait + Sync,
    S: Site,
    H: Hall<F>,
    R: Runner<F>,
    C: Clock,
    G: Gate,
    Q: Policy,
    B: Born,
>(
    rt: &W,
    alloc: Global,
    before: u64,
    ask: Ask,
    site: S,
    hall: &mut H,
    runners: &mut [R],
    gate: &G,
    clock: &C,
    policy: &Q,
) -> Course<S>
    requires some { 0 < length runners.old }
    requires valid { IsValid ask.plan }
    requires apart { (f : ℕ) → file_name ask.plan f ≢ ask.log }
    requires fits { NeedsFit ask.options ask.plan }
    requires patient { 0 < ask.workers.limit }
    requires later { S.tells → B.born ≤ S.moment site }
    requires work { ask.work ≡ Run }
    requires counted { before ≤ S.count site }
    ensures serves { Serves Q.Made.admitted S.tells S.files S.may_leave S.moment S.images_since B.born
        F.gives F.may_fail (AllTell R.tells runners.old) (AllSure R.sure runners.old)
        (H.honest hall.old)
        (counts before (map R.count runners.old) (H.count hall.old) (H.idle_count hall.old) 0)
        (counts (S.count result.site) (map R.count runners.new) (H.count hall.new)
        (H.idle_count hall.new) 0)
        ask site result.site result.records result.cause }
    ensures risen { sum_by R.failures runners.old ≤ sum_by R.failures runners.new }
    ensures failures { ask.options.wq ≡ false → FailureEnd (sum_by R.failures runners.old)
        (sum_by R.failures runners.new) (kind_of result.cause) }
    ensures failed { ask.options.wq ≡ false → S.tells
        → (H : List RecordValue) → Spells H (S.files site ask.log)
        → (IsCut result.cause → ⊥) → LogsFailed H result.records
        (sum_by R.failures runners.old) (sum_by R.failures runners.new) }
    ensures alone { ask.options.wq ≡ false → hall.new ≡ hall.old }
    ensures back { (IsCut result.cause → ⊥)
        → AreBack (H.got hall.old) (H.got hall.new) (H.given hall.old) (H.given hall.new) }
    ensures waited { IfWaited result.cause (WaitsInVain Q.Made.admitted ask.plan ask.options ask.workers.limit
        (H.idle_count hall.new - H.idle_count hall.old) result.records) }
    ensures vain { H.Way.tells → IfWaited result.cause (λ wait. AreVain F.gives F.may_fail
        H.Way.history H.Way.count H.Way.idle_count H.Way.is_closed ask.workers.limit Q.Made.admitted ask.plan
        ask.options (before_end result.records) (H.got hall.old) (H.got hall.new)) }
    ensures due_losses { H.Way.tells → S.tells → (G : List RecordValue)
        → Spells G (S.files site ask.log) → IsFalse (may_lose (kind_of result.cause))
        → AreDueLosses F.gives F.may_fail H.Way.history H.Way.count H.Way.idle_count
        H.Way.is_closed ask.workers.limit (H.got hall.old) (H.got hall.new) G result.records }
    ensures results { H.Way.tells → S.tells → (G : List RecordValue)
        → Spells G (S.files site ask.log) → ask.options.wq ≡ true → ask.work ≡ Run
        → IsFalse (may_lose (kind_of result.cause)) → AreResults H.Way.history
        (H.got hall.old) (H.got hall.new) G result.records }
    ensures sure_links { S.tells → (G : List RecordValue) → Spells G (S.files site ask.log)
        → ask.options.wq ≡ true → ask.work ≡ Run → AllSure R.sure runners.old
        → AreSureLinks H.Way.tells (H.honest hall.old) (H.sure hall.old) H.Way.history
        H.Way.count H.Way.idle_count H.Way.is_closed (H.got hall.old) (H.got hall.new)
        (H.count hall.old) (H.count hall.new)
        → GoesSurely F.gives (AllTell R.tells runners.old) (IsMannedFor (H.manned hall.old) ask)
        ask (S.files site) (S.may_leave site) G
        (counts before (map R.count runners.old) (H.count hall.old) (H.idle_count hall.old) 0)
        (counts (S.count result.site) (map R.count runners.new) (H.count hall.new)
        (H.idle_count hall.new) 0) result.records result.cause }
    ensures opened { IsTrue (is_run_end (kind_of result.cause))
        → OpensBy ask.options result.records }
    ensures collects { IsTrue (is_run_end (kind_of result.cause))
        → RunCollects ask.plan ask.options.mode result.records }
    ensures leaves { RunLeaves (λ past. S.tells → Spells past (S.files site ask.log)) H.Way.tells
        (H.listens hall.new) F.gives F.may_fail H.Way.history H.Way.count H.Way.idle_count H.Way.is_closed Q.Made.admitted ask
        (H.idle_count hall.new - H.idle_count hall.old) (H.got hall.old) (H.got hall.new)
        result.records result.cause }
    ensures plan { result.plan ≡ ask.plan }
{
    files_spell_one_list();
    let Ask {
        plan,
        log,
        options,
        workers,
        ..
    } = ask;
    let Ok((copied, counts, admission)) = kept_aside::<F, R, Q>(alloc, &plan, runners, policy)
    else {
        return Course {
            cause: Cause::Memory,
            site,
            records: Rows::new(alloc),
            plan,
        };
    };
    let mut admission = admission;
    let met = hall.faults();
    match resume::<W, G, F, S, H, R, C, Q::Made, B>(
        rt,
        alloc,
        plan,
        &mut admission,
        site,
        log,
        options,
        hall,
        workers,
        runners,
        gate,
        clock,
    ) {
        Ok(ended) => {
            let RunEnded { site, records, how } = ended;
            let after = site.faults();
            let runner = first_rise::<F, R>(counts.as_slice(), runners);
            let rose = Rise {
                before: met,
                after: hall.faults(),
            };
            Course {
                cause: run_cause(Rise { before, after }, runner, rose, &copied, how),
                site,
                records,
                plan: copied,
            }
        }
        Err(refused) => {
            let ResumeRefused { why, site } = refused;
            let after = site.faults();
            Course {
                cause: unread_cause(Rise { before, after }, why),
                site,
                records: Rows::new(alloc),
                plan: copied,
            }
        }
    }
}

/// Runs the plan over its log, by as many of the runners as jobs may be run at once. The others
/// stay as they are.
pub fn run_flow<
    F: Commands,
    W: Threads + Wait + Sync,
    S: Site,
    H: Hall<F>,
    R: Runner<F>,
    C: Clock,
    G: Gate,
    Q: Policy,
    B: Born,
>(
    rt: &W,
    alloc: Global,
    before: u64,
    ask: Ask,
    site: S,
    hall: &mut H,
    runners: &mut [R],
    gate: &G,
    clock: &C,
    policy: &Q,
) -> Course<S>
    requires some { (0 < length runners.old) × (0 < ask.jobs) }
    requires valid { IsValid ask.plan }
    requires apart { (f : ℕ) → file_name ask.plan f ≢ ask.log }
    requires fits { NeedsFit ask.options ask.plan }
    requires patient { 0 < ask.workers.limit }
    requires later { S.tells → B.born ≤ S.moment site }
    requires work { ask.work ≡ Run }
    requires counted { before ≤ S.count site }
    ensures serves { Serves Q.Made.admitted S.tells S.files S.may_leave S.moment S.images_since B.born
        F.gives F.may_fail (AllTell R.tells runners.old) (AllSure R.sure runners.old)
        (H.honest hall.old)
        (counts before (map R.count runners.old) (H.count hall.old) (H.idle_count hall.old) 0)
        (counts (S.count result.site) (map R.count runners.new) (H.count hall.new)
        (H.idle_count hall.new) 0)
        ask site result.site result.records result.cause }
    ensures spare { drop ask.jobs runners.new ≡ drop ask.jobs runners.old }
    ensures risen { sum_by R.failures runners.old ≤ sum_by R.failures runners.new }
    ensures failures { ask.options.wq ≡ false → FailureEnd (sum_by R.failures runners.old)
        (sum_by R.failures runners.new) (kind_of result.cause) }
    ensures failed { ask.options.wq ≡ false → S.tells
        → (H : List RecordValue) → Spells H (S.files site ask.log)
        → (IsCut result.cause → ⊥) → LogsFailed H result.records
        (sum_by R.failures runners.old) (sum_by R.failures runners.new) }
    ensures alone { ask.options.wq ≡ false → hall.new ≡ hall.old }
    ensures back { (IsCut result.cause → ⊥)
        → AreBack (H.got hall.old) (H.got hall.new) (H.given hall.old) (H.given hall.new) }
    ensures waited { IfWaited result.cause (WaitsInVain Q.Made.admitted ask.plan ask.options ask.workers.limit
        (H.idle_count hall.new - H.idle_count hall.old) result.records) }
    ensures vain { H.Way.tells → IfWaited result.cause (λ wait. AreVain F.gives F.may_fail
        H.Way.history H.Way.count H.Way.idle_count H.Way.is_closed ask.workers.limit Q.Made.admitted ask.plan
        ask.options (before_end result.records) (H.got hall.old) (H.got hall.new)) }
    ensures due_losses { H.Way.tells → S.tells → (G : List RecordValue)
        → Spells G (S.files site ask.log) → IsFalse (may_lose (kind_of result.cause))
        → AreDueLosses F.gives F.may_fail H.Way.history H.Way.count H.Way.idle_count
        H.Way.is_closed ask.workers.limit (H.got hall.old) (H.got hall.new) G result.records }
    ensures results { H.Way.tells → S.tells → (G : List RecordValue)
        → Spells G (S.files site ask.log) → ask.options.wq ≡ true → ask.work ≡ Run
        → IsFalse (may_lose (kind_of result.cause)) → AreResults H.Way.history
        (H.got hall.old) (H.got hall.new) G result.records }
    ensures sure_links { S.tells → (G : List RecordValue) → Spells G (S.files site ask.log)
        → ask.options.wq ≡ true → ask.work ≡ Run → AllSure R.sure runners.old
        → AreSureLinks H.Way.tells (H.honest hall.old) (H.sure hall.old) H.Way.history
        H.Way.count H.Way.idle_count H.Way.is_closed (H.got hall.old) (H.got hall.new)
        (H.count hall.old) (H.count hall.new)
        → GoesSurely F.gives (AllTell R.tells runners.old) (IsMannedFor (H.manned hall.old) ask)
        ask (S.files site) (S.may_leave site) G
        (counts before (map R.count runners.old) (H.count hall.old) (H.idle_count hall.old) 0)
        (counts (S.count result.site) (map R.count runners.new) (H.count hall.new)
        (H.idle_count hall.new) 0) result.records result.cause }
    ensures opened { IsTrue (is_run_end (kind_of result.cause))
        → OpensBy ask.options result.records }
    ensures collects { IsTrue (is_run_end (kind_of result.cause))
        → RunCollects ask.plan ask.options.mode result.records }
    ensures leaves { RunLeaves (λ past. S.tells → Spells past (S.files site ask.log)) H.Way.tells
        (H.listens hall.new) F.gives F.may_fail H.Way.history H.Way.count H.Way.idle_count H.Way.is_closed Q.Made.admitted ask
        (H.idle_count hall.new - H.idle_count hall.old) (H.got hall.old) (H.got hall.new)
        result.records result.cause }
    ensures plan { result.plan ≡ ask.plan }
{
    let count = runners.len().min(ask.jobs as usize);
    let (working, _) = runners.split_at_mut(count);
    run_by_all::<F, W, S, H, R, C, G, Q, B>(
        rt, alloc, before, ask, site, hall, working, gate, clock, policy,
    )
}
