//! A run over a log, from its start to its end.
ghost use Rattle.std.specs.Prelude.{◌≡◌, ◌≢◌, ◌≤◌, ◌+◌, ◌⊎◌, ℕ, List, length, IfOk, OnOk, None};
ghost use Rattle.std.specs.Prelude.{◌<◌, ◌-◌, sum_by, true, false};
ghost use Rattle.flow_types.specs.declared.numbers.Amounts.{Amounts as AmountsValue};
ghost use Rattle.flow_types.specs.declared.records.Record.{Record as RecordValue};
ghost use Rattle.flow_types.specs.Plans.{IsValid, is_empty, is_source};
ghost use Rattle.flow_types.specs.Serial.{serial};
ghost use Rattle.run_history.specs.declared.options.Options.{Options as OptionsValue};
ghost use Rattle.run_history.specs.Answers.{before_end, end_over};
ghost use Rattle.run_history.specs.History.{part, since_opening};
ghost use Rattle.run_history.specs.Legal.{most_records};
ghost use Rattle.run_history.specs.Links.{records_of};
ghost use Rattle.run_history.specs.Moves.{joins_and_changes};
ghost use Rattle.run_history.specs.Spent.{SpentOnce};
ghost use Rattle.run_history.specs.Storage.{running_rules};
ghost use Rattle.outside.specs.Disk.{IsImage};
ghost use Rattle.outside.specs.Files.{Files};
ghost use Rattle.txn_log.specs.Logs.{IsAt};
ghost use Rattle.file_store.specs.Outputs.{file_name};
ghost use Rattle.worker_pool.specs.Crews.{AllSure, AllTell};
ghost use Rattle.desk.specs.Admitted.{AreAdmitted};
ghost use Rattle.desk.specs.Kept.{Fits, IsLegal, Keeps, ReadsStay, StaysBeside, WasKept};
ghost use Rattle.desk.specs.State.{IsFine, Takes};
ghost use Rattle.local_run.specs.Added.{AddsRun, RunAdds};
ghost use Rattle.local_run.specs.Collecting.{AreGone, CollectsBy, RunCollects};
ghost use Rattle.local_run.specs.Completing.{HasRecordRoom, SerialInputsFit};
ghost use Rattle.local_run.specs.Course.{IsUnmade, LeavesAlone, TellsJobs};
ghost use Rattle.local_run.specs.Ends.{BeganOver, FitsHere, HasFailed, IsApart, IsCompleteEnd};
ghost use Rattle.local_run.specs.Ends.{IsDone};
ghost use Rattle.local_run.specs.Ends.{IsFresh, IsRunEnd, IsSureEnd, IsWholeRun, LogsFailures};
ghost use Rattle.local_run.specs.Ends.{OpensBy, RunDamage, StartEnds, records_due, run_fault};
ghost use Rattle.local_run.specs.Runs.{Adds, BeginsWith, HasCauses, Held, IsAdmitted, IsClosedRun};
ghost use Rattle.local_run.specs.Runs.{IsEarlyRun, IsRefusedRun, IsUnmetRun};
ghost use Rattle.local_run.specs.Runs.{IsCutRun, IsHallEnd, IsKeeping, IsSparedName, IsStanding};
ghost use Rattle.local_run.specs.Runs.{LosesNone, SerialFits, read_sources};
ghost use Rattle.wq_run.specs.Calm.{ComeFew, GoesWell};
ghost use Rattle.wq_run.specs.Ends.{AreBack, EndsWaiting, IsSparedRunners, LosesOnLinks};
ghost use Rattle.wq_run.specs.Losses.{AreDueLosses};
ghost use Rattle.wq_run.specs.Results.{AreResults};
ghost use Rattle.wq_run.specs.Vain.{AreVain, IfWaited, NeedsAtMost};
ghost use Rattle.wq_run.specs.Trusted.{IsOf};
ghost use Rattle.flow_run.specs.Openings.{MeetsNobody};
ghost use Rattle.flow_run.specs.Places.{PlacedBy};
ghost use Rattle.flow_run.specs.Reached.{IsDoneAway, IsReached};
ghost use Rattle.flow_run.specs.Relied.{IsRelied};

use crate::course::work;
use crate::opening::{Unopened, open};
use desk::{Desk, Terms};
use flow_types::{Plan, Record, Rows};
use links::Hall;
use local_run::{Born, RunEnded};
use outside::{Clock, Commands, Runner, Site};
use run_history::Options;
use std::alloc::Global;
use std::marker::Brand;
use std::sync::Wait;
use std::thread::Threads;
use task_core::Admission;
use txn_log::Log;
use worker_pool::Gate;
use wq_run::{Trust, Workers};

/// The run of a desk that was just started.
fn run_desk<
    W: Threads + Wait + Sync,
    G: Gate,
    F: Commands,
    S: Site,
    H: Hall<F>,
    R: Runner<F>,
    C: Clock,
    T: Terms + Trust,
    A: Admission,
>(
    rt: &W,
    alloc: Global,
    wq: bool,
    desk: Desk<F, S, T, A>,
    admission: &mut A,
    hall: &mut H,
    workers: Workers,
    runners: &mut [R],
    gate: &G,
    clock: &C,
) -> RunEnded<S>
    requires some { 0 < length runners.old }
    requires asked { wq ≡ desk.options.wq }
    requires valid { IsValid desk.plan }
    requires stands { A.stands_for admission.old desk.plan }
    requires fine { IsFine desk.trouble }
    requires unset { desk.stop ≡ None }
    requires fresh { IsFresh desk.options.limit (records_of desk.moves) }
    requires idle { length (running_rules desk.plan (records_of desk.moves)) ≤ 0 }
    requires base { T.trust → S.tells × T.kept
        × TellsJobs desk.plan desk.options (AllTell R.tells runners.old)
        (serial desk.plan F.gives T.sources) }
    requires of { IsOf T.trust F.gives T.sources S.tells T.kept T.holds T.plan T.options T.run T.due
        desk.plan desk.options (records_of desk.moves) }
    requires told { T.trust → TellsJobs T.plan T.options (AllTell R.tells runners.old) T.due }
    requires honest { T.trust → desk.options.wq ≡ true → H.honest hall.old }
    requires listens { desk.options.wq ≡ true → H.listens hall.old }
    requires keen { (k : ℕ) → 0 < k → T.keen k → ⊥ }
    ensures more { Adds T.trust F.gives F.may_fail T.sources desk.plan (records_of desk.moves)
        result.records }
    ensures added { RunAdds (records_of desk.moves) result.records result.how }
    ensures legal { IsLegal desk.plan result.records }
    ensures causes { HasCauses desk.faults (S.count result.site) (sum_by R.count runners.old)
        (sum_by R.count runners.new) result.how }
    ensures idle { (IsCutRun result.how → ⊥)
        → length (running_rules desk.plan result.records) ≤ 0 }
    ensures lost { desk.options.wq ≡ false → (H : List RecordValue) → BeganOver desk H
        → OnOk result.how (LosesNone (records_of desk.moves) result.records) }
    ensures lost_away { OnOk result.how
        (LosesOnLinks (records_of desk.moves) result.records) }
    ensures due_losses { desk.options.wq ≡ true → H.Way.tells
        → joins_and_changes desk.moves ≡ 0 → OnOk result.how (AreDueLosses F.gives
        F.may_fail H.Way.history H.Way.count H.Way.idle_count H.Way.is_closed workers.limit
        (H.got hall.old) (H.got hall.new)
        (records_of desk.moves) result.records) }
    ensures results { desk.options.wq ≡ true → H.Way.tells → OnOk result.how (AreResults
        H.Way.history (H.got hall.old) (H.got hall.new) (records_of desk.moves)
        result.records) }
    ensures calm { desk.options.wq ≡ true → H.Way.tells
        → joins_and_changes desk.moves ≡ 0 → H.sure hall.old
        → AllSure R.sure runners.old → ComeFew H.Way.history H.Way.count
        H.Way.idle_count H.Way.is_closed (H.got hall.old) (H.got hall.new)
        → OnOk result.how (GoesWell (records_of desk.moves) result.records) }
    ensures ends { desk.options.wq ≡ false → IfOk result.how (λ check. check
        ≡ end_over desk.plan desk.options (before_end result.records) None) }
    ensures waited { desk.options.wq ≡ true → IfOk result.how
        (EndsWaiting A.admitted desk.plan desk.options workers.limit
        (H.idle_count hall.new - H.idle_count hall.old) result.records) }
    ensures vain { desk.options.wq ≡ true → H.Way.tells → joins_and_changes desk.moves ≡ 0
        → IfOk result.how (λ check. IfWaited check (AreVain F.gives F.may_fail H.Way.history
        H.Way.count H.Way.idle_count H.Way.is_closed workers.limit A.admitted desk.plan desk.options
        (before_end result.records) (H.got hall.old) (H.got hall.new))) }
    ensures others { S.tells → LeavesAlone S.files S.may_leave S.moment S.images_since
        (IsUnmade desk.plan desk.log) desk.site result.site }
    ensures kept { S.tells → T.kept → (image : Files)
        → S.images_since result.site T.born image
        → T.before image ⊎ WasKept (Fits T.trust F.gives T.sources) desk.plan desk.log desk.base
        result.records (IsCutRun result.how) image }
    ensures now { S.tells → T.kept → (IsCutRun result.how → ⊥)
        → (image : Files) → IsImage (S.may_leave result.site) image
        → Keeps (Fits T.trust F.gives T.sources) desk.plan desk.log result.records image }
    ensures starts { StartEnds None result.how }
    ensures started { IsRefusedRun result.how → ⊥ }
    ensures modes { (H : List RecordValue) → BeganOver desk H
        → CollectsBy desk.plan desk.options.mode H result.records }
    ensures collects { (H : List RecordValue) → BeganOver desk H
        → RunCollects desk.plan desk.options.mode result.records }
    ensures places { (H : List RecordValue) → BeganOver desk H
        → PlacedBy desk.plan desk.options H result.records }
    ensures admitted { AreAdmitted A.admitted desk.plan desk.options result.records desk.base }
    ensures gone { S.tells → (IsCutRun result.how → ⊥) → IsApart desk.plan desk.log
        → AreGone desk.plan (S.files result.site) (records_of desk.moves) result.records }
    ensures opened { (O : OptionsValue) → OpensBy O (records_of desk.moves)
        → OpensBy O result.records }
    ensures ending { FitsHere desk.plan desk.options
        → IfOk result.how (IsRunEnd desk.options.limit) }
    ensures damage { S.tells → IsApart desk.plan desk.log
        → RunDamage desk.plan result.records (S.files result.site) result.how }
    ensures whole { S.tells → T.kept → IsWholeRun result.how }
    ensures never { AllSure R.sure runners.old → IsSparedRunners result.how }
    ensures sure { desk.options.wq ≡ false → AllSure R.sure runners.old
        → IsSureEnd result.how }
    ensures risen { sum_by R.failures runners.old ≤ sum_by R.failures runners.new }
    ensures failed { desk.options.wq ≡ false
        → HasFailed (sum_by R.failures runners.old) (sum_by R.failures runners.new) result.how }
    ensures failures { desk.options.wq ≡ false → IsClosedRun result.how
        → LogsFailures (records_of desk.moves) result.records
        (sum_by R.failures runners.old) (sum_by R.failures runners.new) }
    ensures hall { IsHallEnd result.how
        → (desk.options.wq ≡ true) × (H.count hall.old < H.count hall.new) }
    ensures listens { desk.options.wq ≡ true → H.listens hall.new }
    ensures met { H.count hall.old ≤ H.count hall.new }
    ensures alone { desk.options.wq ≡ false → hall.new ≡ hall.old }
    ensures back { (IsCutRun result.how → ⊥)
        → AreBack (H.got hall.old) (H.got hall.new) (H.given hall.old) (H.given hall.new) }
    ensures completes { FitsHere desk.plan desk.options → S.tells → T.kept → T.trust
        → SerialInputsFit desk.plan F.gives T.sources → AllSure R.sure runners.old
        → records_due desk.plan (records_of desk.moves) + 1 ≤ most_records
        → IfOk result.how (IsCompleteEnd desk.options.limit) }
    ensures reaches { desk.options.wq ≡ true → H.Way.tells
        → joins_and_changes desk.moves ≡ 0 → H.sure hall.old
        → AllSure R.sure runners.old → ComeFew H.Way.history H.Way.count
        H.Way.idle_count H.Way.is_closed (H.got hall.old) (H.got hall.new)
        → S.tells → T.kept → T.trust → SerialInputsFit desk.plan F.gives T.sources
        → records_due desk.plan (records_of desk.moves) + 1 ≤ most_records
        → IfOk result.how (IsReached desk.options.limit) }
    ensures manned { desk.options.wq ≡ true → (least : AmountsValue) → H.Way.tells
        → joins_and_changes desk.moves ≡ 0 → H.sure hall.old → H.manned hall.old least
        → AllSure R.sure runners.old → ComeFew H.Way.history H.Way.count
        H.Way.idle_count H.Way.is_closed (H.got hall.old) (H.got hall.new) → 1 ≤ workers.limit
        → NeedsAtMost desk.plan desk.options least → S.tells → T.kept → T.trust
        → SerialInputsFit desk.plan F.gives T.sources
        → records_due desk.plan (records_of desk.moves) + 1 ≤ most_records
        → IfOk result.how (IsCompleteEnd desk.options.limit) }
{
    let mut desk = desk;
    let how = work(
        rt, alloc, wq, &mut desk, admission, hall, workers, runners, gate, clock,
    );
    let _works = desk.works();
    let (site, records) = desk.into_parts();
    RunEnded { site, records, how }
}

/// The run over a log, by what the caller states.
fn run_by<
    W: Threads + Wait + Sync,
    G: Gate,
    F: Commands,
    S: Site,
    H: Hall<F>,
    R: Runner<F>,
    C: Clock,
    T: Terms + Trust,
    A: Admission,
>(
    rt: &W,
    alloc: Global,
    plan: Plan,
    admission: &mut A,
    site: S,
    log: Log,
    history: Rows<Record>,
    options: Options,
    hall: &mut H,
    workers: Workers,
    runners: &mut [R],
    gate: &G,
    clock: &C,
) -> RunEnded<S>
    requires some { 0 < length runners.old }
    requires valid { IsValid plan }
    requires stands { A.stands_for admission.old plan }
    requires takes { Takes log history }
    requires gate { S.tells → IsAt history log.gate (S.may_leave site log.name) }
    requires apart { (f : ℕ) → file_name plan f ≢ log.name }
    requires later { S.tells → T.kept → T.born ≤ S.moment site }
    requires before { S.tells → T.kept → (image : Files) → S.images_since site T.born image
        → T.before image }
    requires kept { S.tells → T.kept → (image : Files) → IsImage (S.may_leave site) image
        → Keeps (Fits T.trust F.gives T.sources) plan log.name history image }
    requires sources { S.tells → T.kept → T.trust → is_empty (part history) ≡ true
        → (f : ℕ) → is_source plan f ≡ true → S.files site (file_name plan f) ≡ T.sources f }
    requires base { T.trust → S.tells × T.kept
        × TellsJobs plan options (AllTell R.tells runners.old) (serial plan F.gives T.sources) }
    requires relied { IsRelied T.trust F.gives T.sources T.holds T.plan T.options T.run T.due
        plan options history }
    requires honest { T.trust → options.wq ≡ true → H.honest hall.old }
    requires keen { (k : ℕ) → 0 < k → T.keen k → ⊥ }
    ensures more { Adds T.trust F.gives F.may_fail T.sources plan history result.records }
    ensures added { AddsRun options history result.records result.how }
    ensures causes { HasCauses (S.count site) (S.count result.site) (sum_by R.count runners.old)
        (sum_by R.count runners.new) result.how }
    ensures legal { IsAdmitted result.how → IsLegal plan result.records }
    ensures idle { IsClosedRun result.how
        → length (running_rules plan result.records) ≤ 0 }
    ensures lost { options.wq ≡ false → OnOk result.how (LosesNone history result.records) }
    ensures lost_away { OnOk result.how (LosesOnLinks history result.records) }
    ensures due_losses { H.Way.tells → OnOk result.how (AreDueLosses F.gives
        F.may_fail H.Way.history H.Way.count H.Way.idle_count H.Way.is_closed workers.limit
        (H.got hall.old) (H.got hall.new)
        history result.records) }
    ensures results { options.wq ≡ true → H.Way.tells → OnOk result.how (AreResults
        H.Way.history (H.got hall.old) (H.got hall.new) history result.records) }
    ensures calm { options.wq ≡ true → H.Way.tells → H.sure hall.old
        → AllSure R.sure runners.old → ComeFew H.Way.history H.Way.count
        H.Way.idle_count H.Way.is_closed (H.got hall.old) (H.got hall.new)
        → OnOk result.how (GoesWell history result.records) }
    ensures ends { options.wq ≡ false → IfOk result.how (λ check. check
        ≡ end_over plan options (before_end result.records) None) }
    ensures waited { options.wq ≡ true → IfOk result.how (EndsWaiting A.admitted plan options workers.limit
        (H.idle_count hall.new - H.idle_count hall.old) result.records) }
    ensures vain { options.wq ≡ true → H.Way.tells
        → IfOk result.how (λ check. IfWaited check (AreVain F.gives F.may_fail H.Way.history
        H.Way.count H.Way.idle_count H.Way.is_closed workers.limit A.admitted plan options
        (before_end result.records) (H.got hall.old) (H.got hall.new))) }
    ensures others { S.tells → StaysBeside S.may_leave S.moment S.images_since
        (IsUnmade plan log.name) site result.site }
    ensures reads { S.tells
        → ReadsStay S.files (IsSparedName plan log.name result.how) site result.site }
    ensures kept { S.tells → T.kept → (image : Files)
        → S.images_since result.site T.born image
        → T.before image ⊎ WasKept (Fits T.trust F.gives T.sources) plan log.name (length history)
        result.records (IsCutRun result.how) image }
    ensures now { S.tells → T.kept → (IsCutRun result.how → ⊥)
        → (image : Files) → IsImage (S.may_leave result.site) image
        → Keeps (Fits T.trust F.gives T.sources) plan log.name result.records image }
    ensures starts { S.tells
        → StartEnds (run_fault plan options history (S.files site)) result.how }
    ensures same { IsRefusedRun result.how → result.records ≡ history }
    ensures quiet { IsEarlyRun result.how → result.site ≡ site }
    ensures modes { CollectsBy plan options.mode history result.records }
    ensures collects { (IsRefusedRun result.how → ⊥)
        → RunCollects plan options.mode result.records }
    ensures places { PlacedBy plan options history result.records }
    ensures admitted { AreAdmitted A.admitted plan options result.records (length history) }
    ensures gone { S.tells → (IsCutRun result.how → ⊥)
        → AreGone plan (S.files result.site) history result.records }
    ensures unused { IsRefusedRun result.how → runners.new ≡ runners.old }
    ensures opened { (IsRefusedRun result.how → ⊥) → OpensBy options result.records }
    ensures ending { FitsHere plan options → IfOk result.how (IsRunEnd options.limit) }
    ensures damage { S.tells
        → RunDamage plan result.records (S.files result.site) result.how }
    ensures whole { S.tells → T.kept → IsWholeRun result.how }
    ensures never { AllSure R.sure runners.old → IsSparedRunners result.how }
    ensures sure { options.wq ≡ false → AllSure R.sure runners.old → IsSureEnd result.how }
    ensures risen { sum_by R.failures runners.old ≤ sum_by R.failures runners.new }
    ensures failed { options.wq ≡ false
        → HasFailed (sum_by R.failures runners.old) (sum_by R.failures runners.new) result.how }
    ensures failures { options.wq ≡ false → IsClosedRun result.how
        → LogsFailures history result.records
        (sum_by R.failures runners.old) (sum_by R.failures runners.new) }
    ensures hall { IsHallEnd result.how
        → (options.wq ≡ true) × (H.count hall.old < H.count hall.new) }
    ensures met { H.count hall.old ≤ H.count hall.new }
    ensures alone { options.wq ≡ false → hall.new ≡ hall.old }
    ensures unmet { IsUnmetRun result.how → hall.new ≡ hall.old }
    ensures vacant { IsRefusedRun result.how → MeetsNobody (H.got hall.old) (H.got hall.new)
        (H.given hall.old) (H.given hall.new) (H.idle_count hall.old) (H.idle_count hall.new) }
    ensures listens { options.wq ≡ true → (IsRefusedRun result.how → ⊥) → H.listens hall.new }
    ensures back { (IsCutRun result.how → ⊥)
        → AreBack (H.got hall.old) (H.got hall.new) (H.given hall.old) (H.given hall.new) }
    ensures completes { FitsHere plan options → S.tells → T.kept → T.trust
        → SerialInputsFit plan F.gives T.sources → HasRecordRoom plan history
        → AllSure R.sure runners.old → IfOk result.how (IsCompleteEnd options.limit) }
    ensures reaches { options.wq ≡ true → H.Way.tells → H.sure hall.old
        → AllSure R.sure runners.old → ComeFew H.Way.history H.Way.count
        H.Way.idle_count H.Way.is_closed (H.got hall.old) (H.got hall.new)
        → S.tells → T.kept → T.trust → SerialInputsFit plan F.gives T.sources
        → HasRecordRoom plan history → IfOk result.how (IsReached options.limit) }
    ensures manned { options.wq ≡ true → (least : AmountsValue) → H.Way.tells → H.sure hall.old
        → H.manned hall.old least → AllSure R.sure runners.old → ComeFew H.Way.history H.Way.count
        H.Way.idle_count H.Way.is_closed (H.got hall.old) (H.got hall.new) → 1 ≤ workers.limit
        → NeedsAtMost plan options least → S.tells → T.kept → T.trust
        → SerialInputsFit plan F.gives T.sources → HasRecordRoom plan history
        → IfOk result.how (IsCompleteEnd options.limit) }
{
    match open::<F, S, H, T, A>(
        alloc,
        plan,
        site,
        log,
        history,
        options,
        clock.now(),
        hall,
        workers.port,
    ) {
        Ok(desk) => run_desk(
            rt, alloc, options.wq, desk, admission, hall, workers, runners, gate, clock,
        ),
        Err(unopened) => {
            let Unopened { site, records, why } = unopened;
            RunEnded {
                site,
                records,
                how: Err(why),
            }
        }
    }
}

/// Runs a plan over a log that was just read: on this machine, or where the options ask for workers
/// also at those that come to the hall. A file that the mode of the options wants collected is
/// dropped before another rule starts.
///
/// At any moment of the call a crash leaves the records of the log, or these and some that the run
/// added, each present file with what was logged, and where the commands are functions of their
/// inputs and the links of workers are honest, what the serial run makes. Where neither the site
/// failed nor memory was wanting, a refusal leaves the history.
pub fn run<
    W: Threads + Wait + Sync,
    G: Gate,
    F: Commands,
    S: Site,
    H: Hall<F>,
    R: Runner<F>,
    C: Clock,
    A: Admission,
    B: Born,
>(
    rt: &W,
    alloc: Global,
    plan: Plan,
    admission: &mut A,
    site: S,
    log: Log,
    history: Rows<Record>,
    options: Options,
    hall: &mut H,
    workers: Workers,
    runners: &mut [R],
    gate: &G,
    clock: &C,
) -> RunEnded<S>
    requires some { 0 < length runners.old }
    requires valid { IsValid plan }
    requires stands { A.stands_for admission.old plan }
    requires takes { Takes log history }
    requires gate { S.tells → IsAt history log.gate (S.may_leave site log.name) }
    requires apart { (f : ℕ) → file_name plan f ≢ log.name }
    requires later { S.tells → B.born ≤ S.moment site }
    ensures causes { HasCauses (S.count site) (S.count result.site) (sum_by R.count runners.old)
        (sum_by R.count runners.new) result.how }
    ensures grows { BeginsWith history result.records }
    ensures added { AddsRun options history result.records result.how }
    ensures legal { IsAdmitted result.how → IsLegal plan result.records }
    ensures idle { IsClosedRun result.how
        → length (running_rules plan result.records) ≤ 0 }
    ensures spent { IsClosedRun result.how → SpentOnce (since_opening result.records) }
    ensures lost { options.wq ≡ false → OnOk result.how (LosesNone history result.records) }
    ensures lost_away { OnOk result.how (LosesOnLinks history result.records) }
    ensures due_losses { H.Way.tells → OnOk result.how (AreDueLosses F.gives
        F.may_fail H.Way.history H.Way.count H.Way.idle_count H.Way.is_closed workers.limit
        (H.got hall.old) (H.got hall.new)
        history result.records) }
    ensures results { options.wq ≡ true → H.Way.tells → OnOk result.how (AreResults
        H.Way.history (H.got hall.old) (H.got hall.new) history result.records) }
    ensures calm { options.wq ≡ true → H.Way.tells → H.sure hall.old
        → AllSure R.sure runners.old → ComeFew H.Way.history H.Way.count
        H.Way.idle_count H.Way.is_closed (H.got hall.old) (H.got hall.new)
        → OnOk result.how (GoesWell history result.records) }
    ensures ends { options.wq ≡ false → IfOk result.how (λ check. check
        ≡ end_over plan options (before_end result.records) None) }
    ensures waited { options.wq ≡ true → IfOk result.how (EndsWaiting A.admitted plan options workers.limit
        (H.idle_count hall.new - H.idle_count hall.old) result.records) }
    ensures vain { options.wq ≡ true → H.Way.tells
        → IfOk result.how (λ check. IfWaited check (AreVain F.gives F.may_fail H.Way.history
        H.Way.count H.Way.idle_count H.Way.is_closed workers.limit A.admitted plan options
        (before_end result.records) (H.got hall.old) (H.got hall.new))) }
    ensures others { S.tells → StaysBeside S.may_leave S.moment S.images_since
        (IsUnmade plan log.name) site result.site }
    ensures reads { S.tells
        → ReadsStay S.files (IsSparedName plan log.name result.how) site result.site }
    ensures kept { S.tells → IsKeeping plan log.name history (S.may_leave site)
        → (image : Files) → S.images_since result.site B.born image
        → S.images_since site B.born image ⊎ WasKept Held plan log.name (length history)
        result.records (IsCutRun result.how) image }
    ensures now { S.tells → IsKeeping plan log.name history (S.may_leave site)
        → (IsCutRun result.how → ⊥) → (image : Files) → IsImage (S.may_leave result.site) image
        → Keeps Held plan log.name result.records image }
    ensures serial { (options.wq ≡ true → H.honest hall.old) → S.tells
        → let sources = read_sources plan (S.files site) in
        IsStanding F.gives sources plan log.name history (S.may_leave site)
        → TellsJobs plan options (AllTell R.tells runners.old) (serial plan F.gives sources)
        → (image : Files) → S.images_since result.site B.born image
        → S.images_since site B.born image ⊎ WasKept (SerialFits F.gives sources) plan log.name
        (length history) result.records (IsCutRun result.how) image }
    ensures more { (options.wq ≡ true → H.honest hall.old) → S.tells
        → let sources = read_sources plan (S.files site) in
        IsStanding F.gives sources plan log.name history (S.may_leave site)
        → TellsJobs plan options (AllTell R.tells runners.old) (serial plan F.gives sources)
        → Adds (Unit {0}) F.gives F.may_fail sources plan history result.records }
    ensures starts { S.tells
        → StartEnds (run_fault plan options history (S.files site)) result.how }
    ensures same { IsRefusedRun result.how → result.records ≡ history }
    ensures quiet { IsEarlyRun result.how → result.site ≡ site }
    ensures modes { CollectsBy plan options.mode history result.records }
    ensures collects { (IsRefusedRun result.how → ⊥)
        → RunCollects plan options.mode result.records }
    ensures places { PlacedBy plan options history result.records }
    ensures admitted { AreAdmitted A.admitted plan options result.records (length history) }
    ensures gone { S.tells → (IsCutRun result.how → ⊥)
        → AreGone plan (S.files result.site) history result.records }
    ensures unused { IsRefusedRun result.how → runners.new ≡ runners.old }
    ensures opened { (IsRefusedRun result.how → ⊥) → OpensBy options result.records }
    ensures closed { FitsHere plan options → IfOk result.how (IsRunEnd options.limit) }
    ensures damage { S.tells
        → RunDamage plan result.records (S.files result.site) result.how }
    ensures whole { S.tells → IsKeeping plan log.name history (S.may_leave site)
        → IsWholeRun result.how }
    ensures never { AllSure R.sure runners.old → IsSparedRunners result.how }
    ensures sure { options.wq ≡ false → AllSure R.sure runners.old → IsSureEnd result.how }
    ensures risen { sum_by R.failures runners.old ≤ sum_by R.failures runners.new }
    ensures failed { options.wq ≡ false
        → HasFailed (sum_by R.failures runners.old) (sum_by R.failures runners.new) result.how }
    ensures failures { options.wq ≡ false → IsClosedRun result.how
        → LogsFailures history result.records
        (sum_by R.failures runners.old) (sum_by R.failures runners.new) }
    ensures hall { IsHallEnd result.how
        → (options.wq ≡ true) × (H.count hall.old < H.count hall.new) }
    ensures met { H.count hall.old ≤ H.count hall.new }
    ensures alone { options.wq ≡ false → hall.new ≡ hall.old }
    ensures unmet { IsUnmetRun result.how → hall.new ≡ hall.old }
    ensures vacant { IsRefusedRun result.how → MeetsNobody (H.got hall.old) (H.got hall.new)
        (H.given hall.old) (H.given hall.new) (H.idle_count hall.old) (H.idle_count hall.new) }
    ensures listens { options.wq ≡ true → (IsRefusedRun result.how → ⊥) → H.listens hall.new }
    ensures back { (IsCutRun result.how → ⊥)
        → AreBack (H.got hall.old) (H.got hall.new) (H.given hall.old) (H.given hall.new) }
    ensures completes { S.tells
        → let sources = read_sources plan (S.files site) in
        IsStanding F.gives sources plan log.name history (S.may_leave site)
        → TellsJobs plan options (AllTell R.tells runners.old) (serial plan F.gives sources)
        → FitsHere plan options → SerialInputsFit plan F.gives sources
        → HasRecordRoom plan history → run_fault plan options history (S.files site) ≡ None
        → AllSure R.sure runners.old → S.count result.site ≤ S.count site
        → IsDone options.limit result.how }
    ensures reaches { options.wq ≡ true → H.Way.tells → H.honest hall.old → H.sure hall.old
        → AllSure R.sure runners.old → ComeFew H.Way.history H.Way.count
        H.Way.idle_count H.Way.is_closed (H.got hall.old) (H.got hall.new) → S.tells
        → let sources = read_sources plan (S.files site) in
        IsStanding F.gives sources plan log.name history (S.may_leave site)
        → TellsJobs plan options (AllTell R.tells runners.old) (serial plan F.gives sources)
        → SerialInputsFit plan F.gives sources
        → HasRecordRoom plan history → run_fault plan options history (S.files site) ≡ None
        → S.count result.site ≤ S.count site → H.count hall.new ≤ H.count hall.old
        → IsDoneAway options.limit result.how }
    ensures manned { options.wq ≡ true → (least : AmountsValue) → H.Way.tells
        → H.honest hall.old → H.sure hall.old → H.manned hall.old least
        → AllSure R.sure runners.old → ComeFew H.Way.history H.Way.count
        H.Way.idle_count H.Way.is_closed (H.got hall.old) (H.got hall.new) → 1 ≤ workers.limit
        → NeedsAtMost plan options least → S.tells
        → let sources = read_sources plan (S.files site) in
        IsStanding F.gives sources plan log.name history (S.may_leave site)
        → TellsJobs plan options (AllTell R.tells runners.old) (serial plan F.gives sources)
        → SerialInputsFit plan F.gives sources
        → HasRecordRoom plan history → run_fault plan options history (S.files site) ≡ None
        → S.count result.site ≤ S.count site → H.count hall.new ≤ H.count hall.old
        → IsDone options.limit result.how }
{
    run_by::<W, G, F, S, H, R, C, Brand, A>(
        rt, alloc, plan, admission, site, log, history, options, hall, workers, runners, gate,
        clock,
    )
}
