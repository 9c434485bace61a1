//! A run that goes on where the log ends.
ghost use Rattle.std.specs.Prelude.{◌≡◌, ◌≢◌, ◌≤◌, ◌⊎◌, ℕ, List, IfErr, IfOk, OnOk};
ghost use Rattle.std.specs.Prelude.{◌<◌, ◌-◌, None, Option, length, sum_by, true, false};
ghost use Rattle.flow_types.specs.declared.numbers.Amounts.{Amounts as AmountsValue};
ghost use Rattle.flow_types.specs.declared.records.Record.{Record as RecordValue};
ghost use Rattle.flow_types.specs.Plans.{IsValid};
ghost use Rattle.flow_types.specs.Serial.{serial};
ghost use Rattle.run_history.specs.Answers.{before_end, end_over};
ghost use Rattle.run_history.specs.History.{since_opening};
ghost use Rattle.run_history.specs.Spent.{SpentOnce};
ghost use Rattle.outside.specs.Disk.{IsImage, LeavesOnly};
ghost use Rattle.outside.specs.Files.{Files};
ghost use Rattle.txn_log.specs.Spells.{Spells};
ghost use Rattle.file_store.specs.Outputs.{file_name};
ghost use Rattle.worker_pool.specs.Crews.{AllSure, AllTell};
ghost use Rattle.desk.specs.Admitted.{AreAdmitted};
ghost use Rattle.desk.specs.Kept.{IsLegal, Keeps, ReadsStay, StaysBeside};
ghost use Rattle.log_recover.specs.declared.fault.RecoverFault.TheVariants as faults;
ghost use Rattle.log_recover.specs.Recovery.{IsRecovering};
ghost use Rattle.local_run.specs.Added.{AddsRun};
ghost use Rattle.local_run.specs.Collecting.{AreGone, CollectsBy, RunCollects};
ghost use Rattle.local_run.specs.Completing.{HasRecordRoom, SerialInputsFit};
ghost use Rattle.local_run.specs.Course.{IsUnmade, TellsJobs};
ghost use Rattle.local_run.specs.Ends.{FitsHere, HasFailed, IsDone, IsRunEnd, IsSureEnd};
ghost use Rattle.local_run.specs.Ends.{OpensBy};
ghost use Rattle.local_run.specs.Ends.{IsWholeRun, LogsFailures, RunDamage, StartEnds, run_fault};
ghost use Rattle.local_run.specs.Moments.{IsBefore, IsDamageFault, IsMoment, IsResumable};
ghost use Rattle.local_run.specs.Moments.{IsUnread, KeepsSome};
ghost use Rattle.local_run.specs.Runs.{Adds, IsEarlyRun, IsRefusedRun, IsUnmetRun};
ghost use Rattle.local_run.specs.Runs.{BeginsWith, HasCauses, Held, IsAdmitted, IsClosedRun};
ghost use Rattle.local_run.specs.Runs.{IsCutRun, IsHallEnd, IsSparedName, LosesNone, SerialFits};
ghost use Rattle.local_run.specs.Runs.{read_sources};
ghost use Rattle.wq_run.specs.Calm.{ComeFew, GoesWell};
ghost use Rattle.wq_run.specs.Ends.{AreBack, EndsWaiting, IsSparedRunners, LosesOnLinks};
ghost use Rattle.wq_run.specs.Losses.{AreDueLosses};
ghost use Rattle.wq_run.specs.Results.{AreResults};
ghost use Rattle.wq_run.specs.Vain.{AreVain, IfWaited, NeedsAtMost};
ghost use Rattle.flow_run.specs.Openings.{MeetsNobody};
ghost use Rattle.flow_run.specs.Overs.{RunsOver};
ghost use Rattle.flow_run.specs.Places.{PlacedBy};
ghost use Rattle.flow_run.specs.Reached.{IsDoneAway};

use crate::runs::run;
use flow_types::{Name, Plan};
use links::Hall;
use local_run::{Born, ResumeRefused, RunEnded};
use log_recover::{files_spell_one_list, recover};
use outside::{Clock, Commands, Runner, Site};
use run_history::Options;
use std::alloc::Global;
use std::sync::Wait;
use std::thread::Threads;
use task_core::Admission;
use worker_pool::Gate;
use wq_run::Workers;

/// Reads the log under this name, and runs the plan over it.
///
/// From the entry on a crash leaves what it might have left before the log was read, or the records
/// that stood then and some that the run added, with their files.
pub fn resume<
    W: Threads + Wait + Sync,
    G: Gate,
    F: Commands,
    S: Site,
    H: Hall<F>,
    R: Runner<F>,
    C: Clock,
    A: Admission,
    B: Born,
>(
    rt: &W,
    alloc: Global,
    plan: Plan,
    admission: &mut A,
    site: S,
    name: Name,
    options: Options,
    hall: &mut H,
    workers: Workers,
    runners: &mut [R],
    gate: &G,
    clock: &C,
) -> Result<RunEnded<S>, ResumeRefused<S>>
    requires some { 0 < length runners.old }
    requires valid { IsValid plan }
    requires stands { A.stands_for admission.old plan }
    requires apart { (f : ℕ) → file_name plan f ≢ «name» }
    requires later { S.tells → B.born ≤ S.moment site }
    ensures damaged { IfErr result (λ refused. S.tells
        → IsUnread (S.files site «name») refused.why) }
    ensures site { IfErr result (λ refused. refused.why ≡ faults.Site
        → S.count site < S.count refused.site) }
    ensures unchanged { IfErr result (λ refused. S.tells → IsDamageFault refused.why
        → (m : List ℕ) → S.files refused.site m ≡ S.files site m) }
    ensures beside { IfErr result (λ refused. S.tells
        → ReadsStay S.files (λ m. m ≢ «name») site refused.site) }
    ensures unrun { IfErr result (λ refused. runners.new ≡ runners.old) }
    ensures crash { IfErr result (λ refused. S.tells → (m : List ℕ) (file : Option (List ℕ))
        → m ≢ «name» → S.may_leave refused.site m file → S.may_leave site m file) }
    ensures unread { IfErr result (λ refused. S.tells
        → LeavesOnly S.moment S.images_since site refused.site
        (IsRecovering «name» (S.files site «name») (S.may_leave site))) }
    ensures log { IfOk result (λ ended. S.tells
        → (H : List RecordValue) × Spells H (S.files site «name»)) }
    ensures same { IfOk result (λ ended. S.tells → (H : List RecordValue)
        → Spells H (S.files site «name») → IsRefusedRun ended.how → ended.records ≡ H) }
    ensures quiet { IfOk result (λ ended. S.tells → IsEarlyRun ended.how
        → (m : List ℕ) → S.files ended.site m ≡ S.files site m) }
    ensures before { IfOk result (λ ended. S.tells → IsEarlyRun ended.how
        → LeavesOnly S.moment S.images_since site ended.site
        (IsBefore «name» (S.files site «name») (S.may_leave site))) }
    ensures over { IfOk result (λ ended.
        RunsOver (λ past. S.tells → Spells past (S.files site «name»)) H.Way.tells F.gives
        F.may_fail H.Way.history H.Way.count H.Way.idle_count H.Way.is_closed workers.limit
        (H.got hall.old) (H.got hall.new) A.admitted plan options ended.records ended.how) }
    ensures honest { IfOk result (λ ended. (options.wq ≡ true → H.honest hall.old)
        → S.tells → (H : List RecordValue)
        → Spells H (S.files site «name»)
        → let sources = read_sources plan (S.files site) in
        IsResumable (SerialFits F.gives sources) plan «name» H (S.may_leave site)
        → TellsJobs plan options (AllTell R.tells runners.old) (serial plan F.gives sources)
        → Adds (Unit {0}) F.gives F.may_fail sources plan H ended.records) }
    ensures causes { IfOk result (λ ended. HasCauses (S.count site) (S.count ended.site)
        (sum_by R.count runners.old) (sum_by R.count runners.new) ended.how) }
    ensures grows { IfOk result (λ ended. S.tells → (H : List RecordValue)
        → Spells H (S.files site «name») → BeginsWith H ended.records) }
    ensures added { IfOk result (λ ended. S.tells → (H : List RecordValue)
        → Spells H (S.files site «name») → AddsRun options H ended.records ended.how) }
    ensures legal { IfOk result (λ ended. IsAdmitted ended.how → IsLegal plan ended.records) }
    ensures spent { IfOk result (λ ended. IsClosedRun ended.how
        → SpentOnce (since_opening ended.records)) }
    ensures lost { IfOk result (λ ended. options.wq ≡ false → OnOk ended.how (S.tells
        → (H : List RecordValue) → Spells H (S.files site «name»)
        → LosesNone H ended.records)) }
    ensures lost_away { IfOk result (λ ended. OnOk ended.how (S.tells
        → (H : List RecordValue) → Spells H (S.files site «name»)
        → LosesOnLinks H ended.records)) }
    ensures due_losses { IfOk result (λ ended. H.Way.tells → S.tells
        → (G : List RecordValue) → Spells G (S.files site «name»)
        → OnOk ended.how (AreDueLosses F.gives
        F.may_fail H.Way.history H.Way.count H.Way.idle_count H.Way.is_closed workers.limit
        (H.got hall.old) (H.got hall.new)
        G ended.records)) }
    ensures results { IfOk result (λ ended. options.wq ≡ true → H.Way.tells → S.tells
        → (G : List RecordValue) → Spells G (S.files site «name») → OnOk ended.how (AreResults
        H.Way.history (H.got hall.old) (H.got hall.new) G ended.records)) }
    ensures calm { IfOk result (λ ended. options.wq ≡ true → H.Way.tells → H.sure hall.old
        → AllSure R.sure runners.old → ComeFew H.Way.history H.Way.count
        H.Way.idle_count H.Way.is_closed (H.got hall.old) (H.got hall.new)
        → S.tells → (G : List RecordValue) → Spells G (S.files site «name»)
        → OnOk ended.how (GoesWell G ended.records)) }
    ensures ends { IfOk result (λ ended. options.wq ≡ false → IfOk ended.how (λ check. check
        ≡ end_over plan options (before_end ended.records) None)) }
    ensures waited { IfOk result (λ ended. options.wq ≡ true → IfOk ended.how
        (EndsWaiting A.admitted plan options workers.limit
        (H.idle_count hall.new - H.idle_count hall.old) ended.records)) }
    ensures vain { IfOk result (λ ended. options.wq ≡ true → H.Way.tells
        → IfOk ended.how (λ check. IfWaited check (AreVain F.gives F.may_fail H.Way.history
        H.Way.count H.Way.idle_count H.Way.is_closed workers.limit A.admitted plan options
        (before_end ended.records) (H.got hall.old) (H.got hall.new)))) }
    ensures others { IfOk result (λ ended. S.tells → StaysBeside S.may_leave S.moment
        S.images_since (IsUnmade plan «name») site ended.site) }
    ensures reads { IfOk result (λ ended. S.tells
        → ReadsStay S.files (IsSparedName plan «name» ended.how) site ended.site) }
    ensures moments { IfOk result (λ ended. S.tells → (H : List RecordValue)
        → Spells H (S.files site «name»)
        → IsResumable Held plan «name» H (S.may_leave site)
        → (image : Files) → S.images_since ended.site B.born image
        → S.images_since site B.born image
        ⊎ IsMoment Held plan «name» (S.files site) (S.may_leave site) H
        ended.records (IsCutRun ended.how) image) }
    ensures resumable { IfOk result (λ ended. S.tells → (H : List RecordValue)
        → Spells H (S.files site «name»)
        → ((image : Files) → IsImage (S.may_leave site) image
        → KeepsSome Held plan «name» image)
        → (image : Files) → S.images_since ended.site B.born image
        → S.images_since site B.born image ⊎ KeepsSome Held plan «name» image) }
    ensures contents { IfOk result (λ ended. (options.wq ≡ true → H.honest hall.old)
        → S.tells → (H : List RecordValue)
        → Spells H (S.files site «name»)
        → let sources = read_sources plan (S.files site) in
        IsResumable (SerialFits F.gives sources) plan «name» H (S.may_leave site)
        → TellsJobs plan options (AllTell R.tells runners.old) (serial plan F.gives sources)
        → (image : Files) → S.images_since ended.site B.born image
        → S.images_since site B.born image
        ⊎ IsMoment (SerialFits F.gives sources) plan «name» (S.files site)
        (S.may_leave site) H ended.records (IsCutRun ended.how) image) }
    ensures now { IfOk result (λ ended. S.tells → (H : List RecordValue)
        → Spells H (S.files site «name»)
        → IsResumable Held plan «name» H (S.may_leave site) → (IsCutRun ended.how → ⊥)
        → (image : Files) → IsImage (S.may_leave ended.site) image
        → Keeps Held plan «name» ended.records image) }
    ensures starts { IfOk result (λ ended. S.tells → (H : List RecordValue)
        → Spells H (S.files site «name»)
        → StartEnds (run_fault plan options H (S.files site)) ended.how) }
    ensures modes { IfOk result (λ ended. S.tells → (H : List RecordValue)
        → Spells H (S.files site «name»)
        → CollectsBy plan options.mode H ended.records) }
    ensures collects { IfOk result (λ ended. (IsRefusedRun ended.how → ⊥)
        → RunCollects plan options.mode ended.records) }
    ensures places { IfOk result (λ ended. S.tells → (H : List RecordValue)
        → Spells H (S.files site «name»)
        → PlacedBy plan options H ended.records) }
    ensures admitted { IfOk result (λ ended. S.tells → (H : List RecordValue)
        → Spells H (S.files site «name»)
        → AreAdmitted A.admitted plan options ended.records (length H)) }
    ensures gone { IfOk result (λ ended. S.tells → (IsCutRun ended.how → ⊥)
        → (H : List RecordValue) → Spells H (S.files site «name»)
        → AreGone plan (S.files ended.site) H ended.records) }
    ensures unused { IfOk result (λ ended. IsRefusedRun ended.how → runners.new ≡ runners.old) }
    ensures opened { IfOk result (λ ended. (IsRefusedRun ended.how → ⊥)
        → OpensBy options ended.records) }
    ensures closed { IfOk result (λ ended. FitsHere plan options
        → IfOk ended.how (IsRunEnd options.limit)) }
    ensures damage { IfOk result (λ ended. S.tells
        → RunDamage plan ended.records (S.files ended.site) ended.how) }
    ensures whole { IfOk result (λ ended. S.tells → (H : List RecordValue)
        → Spells H (S.files site «name»)
        → IsResumable Held plan «name» H (S.may_leave site) → IsWholeRun ended.how) }
    ensures never { IfOk result (λ ended. AllSure R.sure runners.old
        → IsSparedRunners ended.how) }
    ensures sure { IfOk result (λ ended. options.wq ≡ false → AllSure R.sure runners.old
        → IsSureEnd ended.how) }
    ensures risen { sum_by R.failures runners.old ≤ sum_by R.failures runners.new }
    ensures failed { IfOk result (λ ended. options.wq ≡ false
        → HasFailed (sum_by R.failures runners.old) (sum_by R.failures runners.new) ended.how) }
    ensures hall { IfOk result (λ ended. IsHallEnd ended.how
        → (options.wq ≡ true) × (H.count hall.old < H.count hall.new)) }
    ensures met { H.count hall.old ≤ H.count hall.new }
    ensures alone { options.wq ≡ false → hall.new ≡ hall.old }
    ensures unmet { IfOk result (λ ended. IsUnmetRun ended.how → hall.new ≡ hall.old) }
    ensures vacant { IfOk result (λ ended. IsRefusedRun ended.how → MeetsNobody
        (H.got hall.old) (H.got hall.new) (H.given hall.old) (H.given hall.new)
        (H.idle_count hall.old) (H.idle_count hall.new)) }
    ensures listens { IfOk result (λ ended. options.wq ≡ true → (IsRefusedRun ended.how → ⊥)
        → H.listens hall.new) }
    ensures unopened { IfErr result (λ refused. hall.new ≡ hall.old) }
    ensures back { IfOk result (λ ended. (IsCutRun ended.how → ⊥)
        → AreBack (H.got hall.old) (H.got hall.new) (H.given hall.old) (H.given hall.new)) }
    ensures failures { IfOk result (λ ended. options.wq ≡ false → IsClosedRun ended.how → S.tells
        → (H : List RecordValue) → Spells H (S.files site «name»)
        → LogsFailures H ended.records (sum_by R.failures runners.old)
        (sum_by R.failures runners.new)) }
    ensures completes { IfOk result (λ ended. S.tells → (H : List RecordValue)
        → Spells H (S.files site «name»)
        → let sources = read_sources plan (S.files site) in
        IsResumable (SerialFits F.gives sources) plan «name» H (S.may_leave site)
        → TellsJobs plan options (AllTell R.tells runners.old) (serial plan F.gives sources)
        → FitsHere plan options → SerialInputsFit plan F.gives sources
        → HasRecordRoom plan H → run_fault plan options H (S.files site) ≡ None
        → AllSure R.sure runners.old → S.count ended.site ≤ S.count site
        → IsDone options.limit ended.how) }
    ensures reaches { IfOk result (λ ended. options.wq ≡ true → H.Way.tells → H.honest hall.old
        → H.sure hall.old → AllSure R.sure runners.old → ComeFew H.Way.history H.Way.count
        H.Way.idle_count H.Way.is_closed (H.got hall.old) (H.got hall.new)
        → S.tells → (G : List RecordValue) → Spells G (S.files site «name»)
        → let sources = read_sources plan (S.files site) in
        IsResumable (SerialFits F.gives sources) plan «name» G (S.may_leave site)
        → TellsJobs plan options (AllTell R.tells runners.old) (serial plan F.gives sources)
        → SerialInputsFit plan F.gives sources
        → HasRecordRoom plan G → run_fault plan options G (S.files site) ≡ None
        → S.count ended.site ≤ S.count site → H.count hall.new ≤ H.count hall.old
        → IsDoneAway options.limit ended.how) }
    ensures manned { IfOk result (λ ended. options.wq ≡ true → (least : AmountsValue)
        → H.Way.tells → H.honest hall.old → H.sure hall.old → H.manned hall.old least
        → AllSure R.sure runners.old → ComeFew H.Way.history H.Way.count
        H.Way.idle_count H.Way.is_closed (H.got hall.old) (H.got hall.new) → 1 ≤ workers.limit
        → NeedsAtMost plan options least
        → S.tells → (G : List RecordValue) → Spells G (S.files site «name»)
        → let sources = read_sources plan (S.files site) in
        IsResumable (SerialFits F.gives sources) plan «name» G (S.may_leave site)
        → TellsJobs plan options (AllTell R.tells runners.old) (serial plan F.gives sources)
        → SerialInputsFit plan F.gives sources
        → HasRecordRoom plan G → run_fault plan options G (S.files site) ≡ None
        → S.count ended.site ≤ S.count site → H.count hall.new ≤ H.count hall.old
        → IsDone options.limit ended.how) }
{
    files_spell_one_list();
    let mut site = site;
    match recover(alloc, &mut site, name) {
        Ok((log, history)) => Ok(run::<W, G, F, S, H, R, C, A, B>(
            rt, alloc, plan, admission, site, log, history, options, hall, workers, runners, gate,
            clock,
        )),
        Err(why) => Err(ResumeRefused { why, site }),
    }
}
