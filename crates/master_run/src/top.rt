//! The top call.
ghost use Rattle.std.specs.Prelude.{◌≡◌, ◌≢◌, ◌≤◌, ◌<◌, ◌-◌, ℕ, List, [], Ok, IsTrue, IsFalse};
ghost use Rattle.std.specs.Prelude.{drop, false, length, map, sum_by, true};
ghost use Rattle.flow_types.specs.declared.records.Record.{Record as RecordValue};
ghost use Rattle.flow_types.specs.Plans.{IsValid};
ghost use Rattle.run_history.specs.Answers.{before_end};
ghost use Rattle.run_history.specs.History.{since_opening};
ghost use Rattle.run_history.specs.Spent.{SpentOnce};
ghost use Rattle.outside.specs.Disk.{IsImage, LeavesOnly};
ghost use Rattle.txn_log.specs.Spells.{Spells};
ghost use Rattle.desk.specs.Kept.{IsLegal};
ghost use Rattle.file_store.specs.Outputs.{file_name};
ghost use Rattle.worker_pool.specs.Crews.{AllSure, AllTell};
ghost use Rattle.command_words.specs.declared.options.Work.TheVariants.{Run};
ghost use Rattle.local_run.specs.Collecting.{RunCollects};
ghost use Rattle.local_run.specs.Ends.{OpensBy};
ghost use Rattle.command_words.specs.declared.options.Options.{Options as OptionsValue};
ghost use Rattle.report.specs.Causes.{is_failing, is_refusal, kind_of, may_lose, was_read};
ghost use Rattle.master_run.specs.declared.ask.Ask.{Ask as AskValue};
ghost use Rattle.wq_run.specs.Ends.{AreBack};
ghost use Rattle.wq_run.specs.Losses.{AreDueLosses};
ghost use Rattle.wq_run.specs.Results.{AreResults};
ghost use Rattle.wq_run.specs.Vain.{AreVain};
ghost use Rattle.master_run.specs.Asked.{IsLocal, ask_of, choice, request, run_mode, run_options};
ghost use Rattle.master_run.specs.Ends.{CallEnds, FaultEnd, WordsEnd, counts};
ghost use Rattle.master_run.specs.Headline.{FailureEnd, IfWaited, IsPlanOf, LogsFailed};
ghost use Rattle.master_run.specs.Headline.{WaitsInVain, is_run_end, is_runner_fault};
ghost use Rattle.master_run.specs.Needs.{NeedsFit};
ghost use Rattle.master_run.specs.Objects.{hall_words, link_words, site_words, stand};
ghost use Rattle.master_run.specs.OnePlan.{AreLogged, RunLeaves};
ghost use Rattle.master_run.specs.Reaching.{AreSureLinks, GoesSurely, IsMannedFor};
ghost use Rattle.master_run.specs.Serves.{IsCut, Serves};
ghost use Rattle.master_run.specs.Tops.{TopEnds, TopEndsBy};

use crate::ask::Ask;
use crate::asking::read_ask;
use crate::caring::{clean_flow, read_log};
use crate::causes::refusal_cause;
use crate::course::Course;
use crate::printing::tell;
use crate::rises::Rise;
use crate::running::run_flow;
use command_words::Work;
use flow_types::{Plan, Record, Rows};
use links::Hall;
use local_run::Born;
use outside::{Clock, Commands, Runner, Sink, Site};
use report::Cause;
use std::alloc::Global;
use std::marker::Brand;
use std::sync::Wait;
use std::thread::Threads;
use task_core::{EveryRule, Policy};
use worker_pool::Gate;

/// How a call ended.
#[derive(Drop)]
pub struct Ended<S: Site> {
    /// The exit status.
    pub status: u8,
    /// Why it ended.
    pub cause: Cause,
    /// The files, as the call left them.
    pub site: S,
    /// What the log has. Where it wasn't read there is nothing.
    pub records: Rows<Record>,
}

fn no_plan(alloc: Global) -> Plan
    ensures rules { result.rules ≡ [] }
    ensures files { result.files ≡ [] }
{
    Plan {
        rules: Rows::new(alloc),
        files: Rows::new(alloc),
    }
}

// Does what is asked for.
fn serve<
    F: Commands,
    W: Threads + Wait + Sync,
    S: Site,
    H: Hall<F>,
    R: Runner<F>,
    C: Clock,
    G: Gate,
    Q: Policy,
    B: Born,
>(
    rt: &W,
    alloc: Global,
    before: u64,
    ask: Ask,
    site: S,
    hall: &mut H,
    runners: &mut [R],
    gate: &G,
    clock: &C,
    policy: &Q,
) -> Course<S>
    requires some { (0 < length runners.old) × (0 < ask.jobs) }
    requires valid { IsValid ask.plan }
    requires apart { (f : ℕ) → file_name ask.plan f ≢ ask.log }
    requires fits { NeedsFit ask.options ask.plan }
    requires patient { 0 < ask.workers.limit }
    requires later { S.tells → B.born ≤ S.moment site }
    requires counted { before ≤ S.count site }
    ensures serves { Serves Q.Made.admitted S.tells S.files S.may_leave S.moment S.images_since B.born
        F.gives F.may_fail (AllTell R.tells runners.old) (AllSure R.sure runners.old)
        (H.honest hall.old)
        (counts before (map R.count runners.old) (H.count hall.old) (H.idle_count hall.old) 0)
        (counts (S.count result.site) (map R.count runners.new) (H.count hall.new)
        (H.idle_count hall.new) 0)
        ask site result.site result.records result.cause }
    ensures risen { sum_by R.failures runners.old ≤ sum_by R.failures runners.new }
    ensures failures { ask.options.wq ≡ false → FailureEnd (sum_by R.failures runners.old)
        (sum_by R.failures runners.new) (kind_of result.cause) }
    ensures failed { ask.options.wq ≡ false → S.tells
        → (H : List RecordValue) → Spells H (S.files site ask.log)
        → (IsCut result.cause → ⊥) → LogsFailed H result.records
        (sum_by R.failures runners.old) (sum_by R.failures runners.new) }
    ensures alone { ask.options.wq ≡ false → hall.new ≡ hall.old }
    ensures back { (IsCut result.cause → ⊥)
        → AreBack (H.got hall.old) (H.got hall.new) (H.given hall.old) (H.given hall.new) }
    ensures waited { IfWaited result.cause (WaitsInVain Q.Made.admitted ask.plan ask.options ask.workers.limit
        (H.idle_count hall.new - H.idle_count hall.old) result.records) }
    ensures vain { H.Way.tells → IfWaited result.cause (λ wait. AreVain F.gives F.may_fail
        H.Way.history H.Way.count H.Way.idle_count H.Way.is_closed ask.workers.limit Q.Made.admitted ask.plan
        ask.options (before_end result.records) (H.got hall.old) (H.got hall.new)) }
    ensures due_losses { H.Way.tells → S.tells → (G : List RecordValue)
        → Spells G (S.files site ask.log) → IsFalse (may_lose (kind_of result.cause))
        → AreDueLosses F.gives F.may_fail H.Way.history H.Way.count H.Way.idle_count
        H.Way.is_closed ask.workers.limit (H.got hall.old) (H.got hall.new) G result.records }
    ensures results { H.Way.tells → S.tells → (G : List RecordValue)
        → Spells G (S.files site ask.log) → ask.options.wq ≡ true → ask.work ≡ Run
        → IsFalse (may_lose (kind_of result.cause)) → AreResults H.Way.history
        (H.got hall.old) (H.got hall.new) G result.records }
    ensures sure_links { S.tells → (G : List RecordValue) → Spells G (S.files site ask.log)
        → ask.options.wq ≡ true → ask.work ≡ Run → AllSure R.sure runners.old
        → AreSureLinks H.Way.tells (H.honest hall.old) (H.sure hall.old) H.Way.history
        H.Way.count H.Way.idle_count H.Way.is_closed (H.got hall.old) (H.got hall.new)
        (H.count hall.old) (H.count hall.new)
        → GoesSurely F.gives (AllTell R.tells runners.old) (IsMannedFor (H.manned hall.old) ask)
        ask (S.files site) (S.may_leave site) G
        (counts before (map R.count runners.old) (H.count hall.old) (H.idle_count hall.old) 0)
        (counts (S.count result.site) (map R.count runners.new) (H.count hall.new)
        (H.idle_count hall.new) 0) result.records result.cause }
    ensures opened { IsTrue (is_run_end (kind_of result.cause))
        → OpensBy ask.options result.records }
    ensures collects { IsTrue (is_run_end (kind_of result.cause))
        → RunCollects ask.plan ask.options.mode result.records }
    ensures leaves { ask.work ≡ Run → RunLeaves
        (λ past. S.tells → Spells past (S.files site ask.log)) H.Way.tells
        (H.listens hall.new) F.gives F.may_fail H.Way.history H.Way.count H.Way.idle_count H.Way.is_closed Q.Made.admitted ask
        (H.idle_count hall.new - H.idle_count hall.old) (H.got hall.old) (H.got hall.new)
        result.records result.cause }
    ensures plan { result.plan ≡ ask.plan }
    ensures spare { drop ask.jobs runners.new ≡ drop ask.jobs runners.old }
{
    match ask.work {
        Work::Run => run_flow::<F, W, S, H, R, C, G, Q, B>(
            rt, alloc, before, ask, site, hall, runners, gate, clock, policy,
        ),
        Work::Clean => clean_flow::<F, S, B>(alloc, before, ask, site, clock.now()),
        Work::PrintLog => read_log::<F, S, B>(alloc, before, ask, site),
    }
}

fn follow<
    F: Commands,
    W: Threads + Wait + Sync,
    S: Site,
    H: Hall<F>,
    R: Runner<F>,
    C: Clock,
    G: Gate,
    Q: Policy,
    B: Born,
>(
    rt: &W,
    alloc: Global,
    words: &[String],
    env: &[(String, String)],
    site: S,
    hall: &mut H,
    runners: &mut [R],
    gate: &G,
    clock: &C,
    policy: &Q,
) -> Course<S>
    requires some { 0 < length runners.old }
    requires later { S.tells → B.born ≤ S.moment site }
    ensures ends { S.tells → CallEnds Q.Made.admitted (request words.now env.now (S.files site))
        (H.idle_count hall.new - H.idle_count hall.old)
        (S.files site) (S.files result.site) result.records result.cause }
    ensures serves { S.tells → (ask : AskValue)
        → request words.now env.now (S.files site) ≡ Ok ask
        → Serves Q.Made.admitted S.tells S.files S.may_leave S.moment S.images_since B.born
        F.gives F.may_fail (AllTell R.tells runners.old) (AllSure R.sure runners.old)
        (H.honest hall.old)
        (counts (S.count site) (map R.count runners.old) (H.count hall.old)
        (H.idle_count hall.old) 0)
        (counts (S.count result.site) (map R.count runners.new) (H.count hall.new)
        (H.idle_count hall.new) 0)
        ask site result.site result.records result.cause }
    ensures words { WordsEnd (choice words.now) result.cause }
    ensures faults { FaultEnd
        (counts (S.count site) (map R.count runners.old) (H.count hall.old)
        (H.idle_count hall.old) 0)
        (counts (S.count result.site) (map R.count runners.new) (H.count hall.new)
        (H.idle_count hall.new) 0) result.cause }
    ensures legal { IsTrue (was_read (kind_of result.cause))
        → IsLegal result.plan result.records }
    ensures valid { IsTrue (was_read (kind_of result.cause)) → IsValid result.plan }
    ensures planned { S.tells → IsTrue (was_read (kind_of result.cause))
        → IsPlanOf (request words.now env.now (S.files site)) result.plan }
    ensures untouched { S.tells → IsTrue (is_refusal (kind_of result.cause))
        → S.files result.site ≡ S.files site }
    ensures quiet { S.tells → IsTrue (is_refusal (kind_of result.cause))
        → LeavesOnly S.moment S.images_since site result.site (IsImage (S.may_leave site)) }
    ensures closed { IsTrue (is_run_end (kind_of result.cause))
        → SpentOnce (since_opening result.records) }
    ensures never { AllSure R.sure runners.old
        → IsFalse (is_runner_fault (kind_of result.cause)) }
    ensures sure { IsLocal (choice words.now) → AllSure R.sure runners.old
        → IsFalse (is_failing (kind_of result.cause)) }
    ensures risen { sum_by R.failures runners.old ≤ sum_by R.failures runners.new }
    ensures failures { IsLocal (choice words.now) → FailureEnd (sum_by R.failures runners.old)
        (sum_by R.failures runners.new) (kind_of result.cause) }
    ensures failed { S.tells → (ask : AskValue)
        → request words.now env.now (S.files site) ≡ Ok ask → ask.options.wq ≡ false
        → (H : List RecordValue) → Spells H (S.files site ask.log) → (IsCut result.cause → ⊥)
        → LogsFailed H result.records
        (sum_by R.failures runners.old) (sum_by R.failures runners.new) }
    ensures alone { IsLocal (choice words.now) → hall.new ≡ hall.old }
    ensures back { (IsCut result.cause → ⊥)
        → AreBack (H.got hall.old) (H.got hall.new) (H.given hall.old) (H.given hall.new) }
    ensures waited { (options : OptionsValue) → choice words.now ≡ Ok options
        → IfWaited result.cause (WaitsInVain Q.Made.admitted result.plan (run_options options)
        options.limits.idle (H.idle_count hall.new - H.idle_count hall.old) result.records) }
    ensures vain { H.Way.tells
        → (options : OptionsValue) → choice words.now ≡ Ok options
        → IfWaited result.cause (λ wait. AreVain F.gives F.may_fail H.Way.history H.Way.count
        H.Way.idle_count H.Way.is_closed options.limits.idle Q.Made.admitted result.plan (run_options options)
        (before_end result.records) (H.got hall.old) (H.got hall.new)) }
    ensures due_losses { H.Way.tells → S.tells
        → (options : OptionsValue) → choice words.now ≡ Ok options → (ask : AskValue)
        → request words.now env.now (S.files site) ≡ Ok ask
        → (G : List RecordValue) → Spells G (S.files site ask.log)
        → IsFalse (may_lose (kind_of result.cause))
        → AreDueLosses F.gives F.may_fail H.Way.history H.Way.count H.Way.idle_count
        H.Way.is_closed options.limits.idle (H.got hall.old) (H.got hall.new) G result.records }
    ensures results { H.Way.tells → S.tells → (ask : AskValue)
        → request words.now env.now (S.files site) ≡ Ok ask
        → (G : List RecordValue) → Spells G (S.files site ask.log)
        → ask.options.wq ≡ true → ask.work ≡ Run
        → IsFalse (may_lose (kind_of result.cause)) → AreResults H.Way.history
        (H.got hall.old) (H.got hall.new) G result.records }
    ensures sure_links { S.tells → (ask : AskValue)
        → request words.now env.now (S.files site) ≡ Ok ask
        → (G : List RecordValue) → Spells G (S.files site ask.log)
        → ask.options.wq ≡ true → ask.work ≡ Run → AllSure R.sure runners.old
        → AreSureLinks H.Way.tells (H.honest hall.old) (H.sure hall.old) H.Way.history
        H.Way.count H.Way.idle_count H.Way.is_closed (H.got hall.old) (H.got hall.new)
        (H.count hall.old) (H.count hall.new)
        → GoesSurely F.gives (AllTell R.tells runners.old) (IsMannedFor (H.manned hall.old) ask)
        ask (S.files site) (S.may_leave site) G
        (counts (S.count site) (map R.count runners.old) (H.count hall.old)
        (H.idle_count hall.old) 0)
        (counts (S.count result.site) (map R.count runners.new) (H.count hall.new)
        (H.idle_count hall.new) 0) result.records result.cause }
    ensures opened { (options : OptionsValue) → choice words.now ≡ Ok options
        → IsTrue (is_run_end (kind_of result.cause))
        → OpensBy (run_options options) result.records }
    ensures collects { (options : OptionsValue) → choice words.now ≡ Ok options
        → IsTrue (is_run_end (kind_of result.cause))
        → RunCollects result.plan (run_mode options.mode) result.records }
    ensures leaves { (options : OptionsValue) → choice words.now ≡ Ok options
        → options.work ≡ Run → RunLeaves
        (λ past. S.tells → AreLogged (request words.now env.now (S.files site)) (S.files site) past)
        H.Way.tells (H.listens hall.new) F.gives F.may_fail H.Way.history H.Way.count
        H.Way.idle_count H.Way.is_closed Q.Made.admitted (ask_of options result.plan)
        (H.idle_count hall.new - H.idle_count hall.old)
        (H.got hall.old) (H.got hall.new) result.records result.cause }
    ensures spare { (options : OptionsValue) → choice words.now ≡ Ok options
        → drop options.service.jobs runners.new ≡ drop options.service.jobs runners.old }
{
    let mut site = site;
    let before = site.faults();
    match read_ask(alloc, words, env, &mut site) {
        Ok(ask) => serve::<F, W, S, H, R, C, G, Q, B>(
            rt, alloc, before, ask, site, hall, runners, gate, clock, policy,
        ),
        Err(refusal) => {
            let after = site.faults();
            Course {
                cause: refusal_cause(Rise { before, after }, refusal),
                site,
                records: Rows::new(alloc),
                plan: no_plan(alloc),
            }
        }
    }
}

/// Reads the flow that the words name and does what they ask for: runs its rules over the log,
/// removes what they made, or prints the log. At the end one text is printed about it.
///
/// As many jobs run at once on this machine as the words say, and no more than there are runners.
/// Each passes the gate before it runs. Where the words ask for workers, the hall listens at their
/// port before the run is opened, and all rules but LOCAL ones run at those that come. A rule is
/// started only where the admission that the policy makes for the flow admits it.
///
/// The clauses speak of the records that the log's file spells at the entry, of which there is one
/// list at most. A crash at any moment leaves a site from which the same call goes on.
pub fn makeflow_with<
    F: Commands,
    W: Threads + Wait + Sync,
    S: Site,
    H: Hall<F>,
    R: Runner<F>,
    C: Clock,
    O: Sink,
    G: Gate,
    Q: Policy,
>(
    rt: &W,
    alloc: Global,
    words: &[String],
    env: &[(String, String)],
    site: S,
    hall: &mut H,
    runners: &mut [R],
    gate: &G,
    clock: &C,
    out: &mut O,
    policy: &Q,
) -> Ended<S>
    requires some { 0 < length runners.old }

    // What a call of `makeflow` does: what holds over all objects, where the site tells, by the
    // records that its log spelled at the entry, where the links tell, where runners or links are
    // trusted, and where the sink tells.
    ensures ends { TopEndsBy (record { gives = F.gives; may_fail = F.may_fail })
        (site_words S.tells S.files S.may_leave S.moment S.images_since S.count)
        (hall_words (link_words H.Way.tells H.Way.history H.Way.count H.Way.idle_count
        H.Way.is_closed) H.listens H.given H.got H.honest H.sure H.manned H.count H.idle_count)
        (record { sure = R.sure; count = R.count; failures = R.failures })
        (record { tells = O.tells; bytes = O.bytes; count = O.count }) Q.Made.admitted
        words.now env.now (stand site hall.old runners.old out.old)
        (stand result.site hall.new runners.new out.new)
        result.cause result.records (AllTell R.tells runners.old) result.status }
{
    let course = follow::<F, W, S, H, R, C, G, Q, Brand>(
        rt, alloc, words, env, site, hall, runners, gate, clock, policy,
    );
    let Course {
        cause,
        site,
        records,
        plan,
    } = course;
    let cause = tell(alloc, words, &plan, records.as_slice(), cause, out);
    Ended {
        status: cause.status(),
        cause,
        site,
        records,
    }
}

/// As `makeflow_with`, where every rule is admitted.
pub fn makeflow_top<
    F: Commands,
    W: Threads + Wait + Sync,
    S: Site,
    H: Hall<F>,
    R: Runner<F>,
    C: Clock,
    O: Sink,
    G: Gate,
>(
    rt: &W,
    alloc: Global,
    words: &[String],
    env: &[(String, String)],
    site: S,
    hall: &mut H,
    runners: &mut [R],
    gate: &G,
    clock: &C,
    out: &mut O,
) -> Ended<S>
    requires some { 0 < length runners.old }

    // What a call of `makeflow` does: what holds over all objects, where the site tells, by the
    // records that its log spelled at the entry, where the links tell, where runners or links are
    // trusted, and where the sink tells.
    ensures ends { TopEnds (record { gives = F.gives; may_fail = F.may_fail })
        (site_words S.tells S.files S.may_leave S.moment S.images_since S.count)
        (hall_words (link_words H.Way.tells H.Way.history H.Way.count H.Way.idle_count
        H.Way.is_closed) H.listens H.given H.got H.honest H.sure H.manned H.count H.idle_count)
        (record { sure = R.sure; count = R.count; failures = R.failures })
        (record { tells = O.tells; bytes = O.bytes; count = O.count })
        words.now env.now (stand site hall.old runners.old out.old)
        (stand result.site hall.new runners.new out.new)
        result.cause result.records (AllTell R.tells runners.old) result.status }
{
    makeflow_with(
        rt, alloc, words, env, site, hall, runners, gate, clock, out, &EveryRule,
    )
}
