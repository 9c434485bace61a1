//! A run with workers, from its first claim to its end.
ghost use Rattle.std.specs.Prelude.{◌≡◌, ◌≤◌, ◌<◌, ◌-◌, ℕ, List, length, sum_by, IfOk, OnOk, None, false};
ghost use Rattle.flow_types.specs.declared.numbers.Amounts.{Amounts as AmountsValue};
ghost use Rattle.flow_types.specs.declared.plan.Plan.{Plan as PlanValue};
ghost use Rattle.flow_types.specs.Plans.{IsValid};
ghost use Rattle.run_history.specs.declared.moves.Move.{Move};
ghost use Rattle.run_history.specs.Answers.{before_end, has_ended, passes_inputs};
ghost use Rattle.run_history.specs.Links.{records_of};
ghost use Rattle.run_history.specs.Moves.{joins_and_changes};
ghost use Rattle.run_history.specs.Storage.{running_rules};
ghost use Rattle.worker_pool.specs.Crews.{AllSure, AllTell};
ghost use Rattle.desk.specs.State.{IsFine};
ghost use Rattle.local_run.specs.Added.{RunAdds};
ghost use Rattle.local_run.specs.Course.{GoesOn, TellsJobs};
ghost use Rattle.local_run.specs.Ends.{IsApart, IsWholeRun, RunDamage};
ghost use Rattle.local_run.specs.Runs.{IsCutRun};
ghost use Rattle.wq_run.specs.Calm.{ComeFew, GoesWell};
ghost use Rattle.wq_run.specs.Ends.{AreBack, EndsHere, IsSparedRunners, LosesOnLinks, StopsBy};
ghost use Rattle.wq_run.specs.Losses.{AreDueLosses};
ghost use Rattle.wq_run.specs.Results.{AreResults};
ghost use Rattle.wq_run.specs.Trusted.{IsOf};
ghost use Rattle.wq_run.specs.Vain.{AreVain, IfWaited, NeedsAtMost};

use crate::company::{Company, disband};
use crate::laws::{manned_halls_are_staffed, offers_were_stated};
use crate::reliance::Trust;
use crate::rounds::run_all;
use crate::workers::Workers;
use desk::{Desk, Terms};
use links::Hall;
use local_run::{Halt, Stopped};
use outside::{Clock, Commands, Runner, Site};
use run_history::Check;
use std::alloc::Global;
use std::sync::Wait;
use std::thread::Threads;
use task_core::Admission;
use worker_pool::Gate;

/// Runs the rules that the desk hands out, here and at the workers that come, and ends the run. What
/// is relied on of the workers is stated by the desk's own terms.
pub fn work<
    W: Threads + Wait + Sync,
    G: Gate,
    F: Commands,
    S: Site,
    H: Hall<F>,
    R: Runner<F>,
    C: Clock,
    T: Terms + Trust,
    A: Admission,
>(
    rt: &W,
    alloc: Global,
    desk: &mut Desk<F, S, T, A>,
    admission: &mut A,
    hall: &mut H,
    workers: Workers,
    runners: &mut [R],
    gate: &G,
    clock: &C,
) -> Result<Check, Stopped>
    requires some { 0 < length runners.old }
    requires valid { IsValid desk.old.plan }
    requires stands { A.stands_for admission.old desk.old.plan }
    requires fine { IsFine desk.old.trouble }
    requires unset { desk.old.stop ≡ None }
    requires unended { has_ended (records_of desk.old.moves) ≡ false }
    requires idle { length (running_rules desk.old.plan (records_of desk.old.moves)) ≤ 0 }
    requires of { IsOf T.trust F.gives T.sources S.tells T.kept T.holds T.plan T.options T.run T.due
        desk.old.plan desk.old.options (records_of desk.old.moves) }
    requires told { T.trust → TellsJobs T.plan T.options (AllTell R.tells runners.old) T.due }
    requires honest { T.holds → H.honest hall.old }
    requires listens { H.listens hall.old }
    requires keen { (k : ℕ) → 0 < k → T.keen k → ⊥ }
    ensures goes { (links : List Move) × GoesOn T.trust F.gives F.may_fail T.sources S.tells
        S.files S.may_leave S.moment S.images_since links desk.old desk.new }
    ensures idle { IsFine desk.new.trouble
        → length (running_rules desk.new.plan (records_of desk.new.moves)) ≤ 0 }
    ensures added { RunAdds (records_of desk.old.moves) (records_of desk.new.moves) result }
    ensures stops { StopsBy desk.new.trouble (sum_by R.count runners.old)
        (sum_by R.count runners.new) (H.count hall.old) (H.count hall.new) result }
    ensures later { sum_by R.count runners.old ≤ sum_by R.count runners.new }
    ensures risen { sum_by R.failures runners.old ≤ sum_by R.failures runners.new }
    ensures listens { H.listens hall.new }
    ensures met { H.count hall.old ≤ H.count hall.new }
    ensures damage { S.tells → IsApart desk.new.plan desk.new.log → RunDamage desk.new.plan
        (records_of desk.new.moves) (S.files desk.new.site) result }
    ensures whole { S.tells → T.kept → IsWholeRun result }
    ensures never { AllSure R.sure runners.old → IsSparedRunners result }
    ensures lost { OnOk result
        (LosesOnLinks (records_of desk.old.moves) (records_of desk.new.moves)) }
    ensures ends { IfOk result (EndsHere A.admitted desk.new.plan desk.new.options workers.limit
        (H.idle_count hall.new - H.idle_count hall.old) desk.new.moves) }
    ensures back { (IsCutRun result → ⊥)
        → AreBack (H.got hall.old) (H.got hall.new) (H.given hall.old) (H.given hall.new) }
    ensures due_losses { H.Way.tells → joins_and_changes desk.old.moves ≡ 0
        → OnOk result (AreDueLosses F.gives F.may_fail H.Way.history H.Way.count
        H.Way.idle_count H.Way.is_closed workers.limit (H.got hall.old) (H.got hall.new)
        (records_of desk.old.moves) (records_of desk.new.moves)) }
    ensures results { H.Way.tells → OnOk result (AreResults H.Way.history (H.got hall.old)
        (H.got hall.new) (records_of desk.old.moves) (records_of desk.new.moves)) }
    ensures vain { H.Way.tells → joins_and_changes desk.old.moves ≡ 0
        → IfOk result (λ check. IfWaited check (AreVain F.gives F.may_fail H.Way.history
        H.Way.count H.Way.idle_count H.Way.is_closed workers.limit A.admitted desk.new.plan desk.new.options
        (before_end (records_of desk.new.moves)) (H.got hall.old) (H.got hall.new))) }
    ensures manned { (least : AmountsValue) → H.Way.tells → joins_and_changes desk.old.moves ≡ 0
        → H.sure hall.old → H.manned hall.old least → AllSure R.sure runners.old
        → ComeFew H.Way.history H.Way.count H.Way.idle_count H.Way.is_closed (H.got hall.old)
        (H.got hall.new) → 1 ≤ workers.limit
        → NeedsAtMost desk.old.plan desk.old.options least
        → IfOk result (λ check. IfWaited check (((r : ℕ) → passes_inputs desk.new.plan
        (before_end (records_of desk.new.moves)) r ≡ false) → ⊥)) }
    ensures calm { H.Way.tells → joins_and_changes desk.old.moves ≡ 0 → H.sure hall.old
        → AllSure R.sure runners.old → ComeFew H.Way.history H.Way.count H.Way.idle_count
        H.Way.is_closed (H.got hall.old) (H.got hall.new)
        → OnOk result (GoesWell (records_of desk.old.moves) (records_of desk.new.moves)) }
    ensures stays { (P : PlanValue) → A.stands_for admission.old P
        → A.stands_for admission.new P }
{
    offers_were_stated::<F, H::Way>();
    manned_halls_are_staffed::<F, H>();
    let mut company = Company::<F, H::Way, T>::new(alloc);
    let done = run_all(
        rt,
        alloc,
        desk,
        admission,
        &mut company,
        hall,
        workers.limit,
        runners,
        gate,
        clock,
    );
    disband::<F, H, T>(&mut company, alloc, hall);
    let has_lost = company.has_lost();
    company.end();
    if has_lost {
        return Err(Stopped::Halted(Halt::Memory));
    }
    done
}
