//! A run over a desk, here or with workers.
ghost use Rattle.std.specs.Prelude.{◌≡◌, ◌≤◌, ◌<◌, ◌+◌, ◌-◌, ℕ, List, length, sum_by, IfOk, OnOk};
ghost use Rattle.std.specs.Prelude.{None, true, false};
ghost use Rattle.flow_types.specs.declared.numbers.Amounts.{Amounts as AmountsValue};
ghost use Rattle.flow_types.specs.declared.records.Record.{Record as RecordValue};
ghost use Rattle.flow_types.specs.Plans.{IsValid};
ghost use Rattle.flow_types.specs.Serial.{serial};
ghost use Rattle.run_history.specs.declared.moves.Move.{Move};
ghost use Rattle.run_history.specs.Answers.{before_end, end_over, passes_inputs};
ghost use Rattle.run_history.specs.Legal.{most_records};
ghost use Rattle.run_history.specs.Links.{records_of};
ghost use Rattle.run_history.specs.Moves.{joins_and_changes};
ghost use Rattle.run_history.specs.Storage.{running_rules};
ghost use Rattle.worker_pool.specs.Crews.{AllSure, AllTell};
ghost use Rattle.desk.specs.State.{IsFine};
ghost use Rattle.local_run.specs.Added.{RunAdds};
ghost use Rattle.local_run.specs.Completing.{SerialInputsFit};
ghost use Rattle.local_run.specs.Course.{GoesOn, TellsJobs};
ghost use Rattle.local_run.specs.Ends.{BeganOver, FitsHere, HasFailed, IsApart, IsCompleteEnd};
ghost use Rattle.local_run.specs.Ends.{IsFresh, IsRunEnd, IsSureEnd, IsWholeRun, LogsFailures};
ghost use Rattle.local_run.specs.Ends.{RunDamage, records_due};
ghost use Rattle.local_run.specs.Runs.{IsClosedRun, IsCutRun, IsHallEnd, LosesNone, ended_by};
ghost use Rattle.wq_run.specs.Calm.{ComeFew, GoesWell};
ghost use Rattle.wq_run.specs.Losses.{AreDueLosses};
ghost use Rattle.wq_run.specs.Results.{AreResults};
ghost use Rattle.wq_run.specs.Trusted.{IsOf};
ghost use Rattle.wq_run.specs.Ends.{AreBack, EndsHere, IsSparedRunners, LosesOnLinks, StopsBy};
ghost use Rattle.wq_run.specs.Vain.{AreVain, IfWaited, NeedsAtMost};

use desk::{Desk, Terms};
use links::Hall;
use local_run::{Halt, Stopped};
use outside::{Clock, Commands, Runner, Site};
use run_history::Check;
use std::alloc::Global;
use std::sync::Wait;
use std::thread::Threads;
use task_core::Admission;
use worker_pool::Gate;
use wq_run::{Trust, Workers};

fn ended_by(done: Result<Check, Halt>) -> Result<Check, Stopped>
    ensures { result ≡ ended_by done }
{
    match done {
        Ok(check) => Ok(check),
        Err(halt) => Err(Stopped::Halted(halt)),
    }
}

/// Runs the rules that the desk hands out, and ends the run: all of them here, or where the run
/// takes workers in (`wq`), here and at those that come to the hall, which listens already.
pub fn work<
    W: Threads + Wait + Sync,
    G: Gate,
    F: Commands,
    S: Site,
    H: Hall<F>,
    R: Runner<F>,
    C: Clock,
    T: Terms + Trust,
    A: Admission,
>(
    rt: &W,
    alloc: Global,
    wq: bool,
    desk: &mut Desk<F, S, T, A>,
    admission: &mut A,
    hall: &mut H,
    workers: Workers,
    runners: &mut [R],
    gate: &G,
    clock: &C,
) -> Result<Check, Stopped>
    requires some { 0 < length runners.old }
    requires asked { wq ≡ desk.old.options.wq }
    requires valid { IsValid desk.old.plan }
    requires stands { A.stands_for admission.old desk.old.plan }
    requires fine { IsFine desk.old.trouble }
    requires unset { desk.old.stop ≡ None }
    requires fresh { IsFresh desk.old.options.limit (records_of desk.old.moves) }
    requires idle { length (running_rules desk.old.plan (records_of desk.old.moves)) ≤ 0 }
    requires base { T.trust → S.tells × T.kept
        × TellsJobs desk.old.plan desk.old.options (AllTell R.tells runners.old)
        (serial desk.old.plan F.gives T.sources) }
    requires of { IsOf T.trust F.gives T.sources S.tells T.kept T.holds T.plan T.options T.run T.due
        desk.old.plan desk.old.options (records_of desk.old.moves) }
    requires told { T.trust → TellsJobs T.plan T.options (AllTell R.tells runners.old) T.due }
    requires honest { T.trust → desk.old.options.wq ≡ true → H.honest hall.old }
    requires listens { desk.old.options.wq ≡ true → H.listens hall.old }
    requires keen { (k : ℕ) → 0 < k → T.keen k → ⊥ }
    ensures goes { (links : List Move) × GoesOn T.trust F.gives F.may_fail T.sources S.tells
        S.files S.may_leave S.moment S.images_since links desk.old desk.new }
    ensures added { RunAdds (records_of desk.old.moves) (records_of desk.new.moves) result }
    ensures idle { IsFine desk.new.trouble
        → length (running_rules desk.new.plan (records_of desk.new.moves)) ≤ 0 }
    ensures stops { StopsBy desk.new.trouble (sum_by R.count runners.old)
        (sum_by R.count runners.new) (H.count hall.old) (H.count hall.new) result }
    ensures risen { sum_by R.failures runners.old ≤ sum_by R.failures runners.new }
    ensures met { H.count hall.old ≤ H.count hall.new }
    ensures hall { IsHallEnd result → desk.old.options.wq ≡ true }
    ensures listens { desk.old.options.wq ≡ true → H.listens hall.new }
    ensures alone { desk.old.options.wq ≡ false → hall.new ≡ hall.old }
    ensures back { (IsCutRun result → ⊥)
        → AreBack (H.got hall.old) (H.got hall.new) (H.given hall.old) (H.given hall.new) }
    ensures damage { S.tells → IsApart desk.new.plan desk.new.log → RunDamage desk.new.plan
        (records_of desk.new.moves) (S.files desk.new.site) result }
    ensures whole { S.tells → T.kept → IsWholeRun result }
    ensures never { AllSure R.sure runners.old → IsSparedRunners result }
    ensures lost_away { OnOk result
        (LosesOnLinks (records_of desk.old.moves) (records_of desk.new.moves)) }
    ensures due_losses { desk.old.options.wq ≡ true → H.Way.tells
        → joins_and_changes desk.old.moves ≡ 0 → OnOk result (AreDueLosses F.gives
        F.may_fail H.Way.history H.Way.count H.Way.idle_count H.Way.is_closed workers.limit
        (H.got hall.old) (H.got hall.new)
        (records_of desk.old.moves) (records_of desk.new.moves)) }
    ensures results { desk.old.options.wq ≡ true → H.Way.tells → OnOk result (AreResults
        H.Way.history (H.got hall.old) (H.got hall.new) (records_of desk.old.moves)
        (records_of desk.new.moves)) }
    ensures calm { desk.old.options.wq ≡ true → H.Way.tells
        → joins_and_changes desk.old.moves ≡ 0 → H.sure hall.old
        → AllSure R.sure runners.old → ComeFew H.Way.history H.Way.count
        H.Way.idle_count H.Way.is_closed (H.got hall.old) (H.got hall.new)
        → OnOk result (GoesWell (records_of desk.old.moves) (records_of desk.new.moves)) }
    ensures manned { desk.old.options.wq ≡ true → (least : AmountsValue) → H.Way.tells
        → joins_and_changes desk.old.moves ≡ 0 → H.sure hall.old → H.manned hall.old least
        → AllSure R.sure runners.old → ComeFew H.Way.history H.Way.count
        H.Way.idle_count H.Way.is_closed (H.got hall.old) (H.got hall.new) → 1 ≤ workers.limit
        → NeedsAtMost desk.old.plan desk.old.options least
        → IfOk result (λ check. IfWaited check (((r : ℕ) → passes_inputs desk.new.plan
        (before_end (records_of desk.new.moves)) r ≡ false) → ⊥)) }
    ensures waited { desk.old.options.wq ≡ true → IfOk result (EndsHere A.admitted desk.new.plan
        desk.new.options workers.limit (H.idle_count hall.new - H.idle_count hall.old)
        desk.new.moves) }
    ensures vain { desk.old.options.wq ≡ true → H.Way.tells
        → joins_and_changes desk.old.moves ≡ 0 → IfOk result (λ check. IfWaited check (AreVain
        F.gives F.may_fail H.Way.history H.Way.count H.Way.idle_count H.Way.is_closed
        workers.limit A.admitted desk.new.plan desk.new.options (before_end (records_of desk.new.moves))
        (H.got hall.old) (H.got hall.new))) }
    ensures lost { desk.old.options.wq ≡ false
        → (began : List RecordValue) → BeganOver desk.old began
        → OnOk result (LosesNone (records_of desk.old.moves) (records_of desk.new.moves)) }
    ensures ends { desk.old.options.wq ≡ false → IfOk result (λ check. check
        ≡ end_over desk.new.plan desk.new.options (before_end (records_of desk.new.moves)) None) }
    ensures sure { desk.old.options.wq ≡ false → AllSure R.sure runners.old → IsSureEnd result }
    ensures failed { desk.old.options.wq ≡ false
        → HasFailed (sum_by R.failures runners.old) (sum_by R.failures runners.new) result }
    ensures failures { desk.old.options.wq ≡ false → IsClosedRun result
        → LogsFailures (records_of desk.old.moves) (records_of desk.new.moves)
        (sum_by R.failures runners.old) (sum_by R.failures runners.new) }
    ensures ending { FitsHere desk.old.plan desk.old.options
        → IfOk result (IsRunEnd desk.old.options.limit) }
    ensures completes { FitsHere desk.old.plan desk.old.options → S.tells → T.kept → T.trust
        → SerialInputsFit desk.old.plan F.gives T.sources → AllSure R.sure runners.old
        → records_due desk.old.plan (records_of desk.old.moves) + 1 ≤ most_records
        → IfOk result (IsCompleteEnd desk.old.options.limit) }
{
    if wq {
        wq_run::work(
            rt, alloc, desk, admission, hall, workers, runners, gate, clock,
        )
    } else {
        ended_by(local_run::work(rt, alloc, desk, admission, runners, gate, clock))
    }
}
