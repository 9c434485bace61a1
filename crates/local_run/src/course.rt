//! A run over a desk, from its first claim to its end.
ghost use Rattle.std.specs.Prelude.{◌≡◌, ◌≤◌, ◌<◌, ◌+◌, [], length, sum_by, IfOk, IfErr, None};
ghost use Rattle.std.specs.Prelude.{OnOk};
ghost use Rattle.flow_types.specs.declared.plan.Plan.{Plan as PlanValue};
ghost use Rattle.flow_types.specs.Plans.{IsValid};
ghost use Rattle.flow_types.specs.Serial.{serial};
ghost use Rattle.run_history.specs.Answers.{before_end, end_over};
ghost use Rattle.run_history.specs.Legal.{most_records};
ghost use Rattle.run_history.specs.Links.{records_of};
ghost use Rattle.run_history.specs.Storage.{running_rules};
ghost use Rattle.worker_pool.specs.Crews.{AllSure, AllTell};
ghost use Rattle.desk.specs.State.{IsFine};
ghost use Rattle.local_run.specs.Added.{RunAdds};
ghost use Rattle.local_run.specs.Completing.{SerialInputsFit};
ghost use Rattle.local_run.specs.Course.{Closed, GoesOn, HaltsBy, TellsJobs};
ghost use Rattle.local_run.specs.Ends.{FitsHere, HasFailed, IsApart, IsCompleteEnd, IsFresh};
ghost use Rattle.local_run.specs.Ends.{IsFoundDamaged, IsRunEnd, IsSureHalt, IsWholeHalt};
ghost use Rattle.local_run.specs.Ends.{LogsFailures, records_due};
ghost use Rattle.local_run.specs.Runs.{ended_by};
ghost use Rattle.local_run.specs.Underway.{IsWant};

use crate::Halt;
use crate::serving::serve_all;
use desk::{Desk, EndRefused, Terms};
use outside::{Clock, Commands, Runner, Site};
use run_history::Check;
use std::alloc::Global;
use std::sync::Wait;
use std::thread::Threads;
use task_core::Admission;
use worker_pool::Gate;

/// Runs the rules that the desk hands out for the local place, and ends the run. After a fault of
/// the runner, or damage to an input, the run is stopped at once and has no end.
pub fn work<
    W: Threads + Wait + Sync,
    G: Gate,
    F: Commands,
    S: Site,
    R: Runner<F>,
    C: Clock,
    T: Terms,
    A: Admission,
>(
    rt: &W,
    alloc: Global,
    desk: &mut Desk<F, S, T, A>,
    admission: &mut A,
    runners: &mut [R],
    gate: &G,
    clock: &C,
) -> Result<Check, Halt>
    requires some { 0 < length runners.old }
    requires valid { IsValid desk.old.plan }
    requires stands { A.stands_for admission.old desk.old.plan }
    requires fine { IsFine desk.old.trouble }
    requires idle { length (running_rules desk.old.plan (records_of desk.old.moves)) ≤ 0 }
    requires base { T.trust → S.tells × T.kept
        × TellsJobs desk.old.plan desk.old.options (AllTell R.tells runners.old)
        (serial desk.old.plan F.gives T.sources) }
    ensures goes { GoesOn T.trust F.gives F.may_fail T.sources S.tells S.files S.may_leave
        S.moment S.images_since [] desk.old desk.new }
    ensures idle { IsFine desk.new.trouble
        → length (running_rules desk.new.plan (records_of desk.new.moves)) ≤ 0 }
    ensures closed { Closed desk.old desk.new result }
    ensures halts { HaltsBy desk.new.trouble (sum_by R.count runners.old)
        (sum_by R.count runners.new) result }
    ensures later { sum_by R.count runners.old ≤ sum_by R.count runners.new }
    ensures damage { IfErr result (λ halt. S.tells → IsApart desk.new.plan desk.new.log
        → IsFoundDamaged desk.new.plan (records_of desk.new.moves) (S.files desk.new.site)
        halt) }
    ensures whole { IfErr result (λ halt. S.tells → T.kept → IsWholeHalt halt) }
    ensures never { IfErr result (λ halt. AllSure R.sure runners.old → IsSureHalt halt) }
    ensures risen { sum_by R.failures runners.old ≤ sum_by R.failures runners.new }
    ensures none { OnOk result (AllSure R.sure runners.old
        → sum_by R.failures runners.new ≡ sum_by R.failures runners.old) }
    ensures failures { IsFine desk.new.trouble → (IsWant result → ⊥)
        → LogsFailures (records_of desk.old.moves) (records_of desk.new.moves)
        (sum_by R.failures runners.old) (sum_by R.failures runners.new) }
    ensures ending { IsFresh desk.old.options.limit (records_of desk.old.moves)
        → desk.old.stop ≡ None → FitsHere desk.old.plan desk.old.options
        → IfOk result (IsRunEnd desk.old.options.limit) }
    ensures failed { IsFresh desk.old.options.limit (records_of desk.old.moves)
        → desk.old.stop ≡ None
        → HasFailed (sum_by R.failures runners.old) (sum_by R.failures runners.new)
        (ended_by result) }
    ensures completes { IsFresh desk.old.options.limit (records_of desk.old.moves)
        → desk.old.stop ≡ None → FitsHere desk.old.plan desk.old.options
        → S.tells → T.kept → T.trust → SerialInputsFit desk.old.plan F.gives T.sources
        → AllSure R.sure runners.old
        → records_due desk.old.plan (records_of desk.old.moves) + 1 ≤ most_records
        → IfOk result (IsCompleteEnd desk.old.options.limit) }
    ensures ends { IfOk result (λ check. desk.new.stop ≡ None
        → check ≡ end_over desk.new.plan desk.new.options
        (before_end (records_of desk.new.moves)) None) }
    ensures added { IsFresh desk.old.options.limit (records_of desk.old.moves)
        → RunAdds (records_of desk.old.moves) (records_of desk.new.moves) (ended_by result) }
    ensures stays { (P : PlanValue) → A.stands_for admission.old P → A.stands_for admission.new P }
{
    match serve_all(rt, alloc, desk, admission, runners, gate, clock) {
        Ok(()) => {}
        Err(halt) => return Err(halt),
    }
    let _works = desk.works();
    match desk.end(clock.now()) {
        Ok(check) => Ok(check),
        Err(EndRefused::Broken { .. }) => Err(Halt::Site),
        Err(EndRefused::Memory) => Err(Halt::Memory),
    }
}
