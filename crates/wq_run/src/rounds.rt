//! The rounds of a run with workers, until it ends.
ghost use Rattle.std.specs.Prelude.{◌≡◌, ◌≤◌, ◌<◌, [], ℕ, length, sum_by, IfOk, None, OnOk};
ghost use Rattle.std.specs.Prelude.{Option, Some, false, true};
ghost use Rattle.flow_types.specs.declared.job.Job.{Job};
ghost use Rattle.flow_types.specs.declared.plan.Plan.{Plan as PlanValue};
ghost use Rattle.flow_types.specs.Plans.{IsValid};
ghost use Rattle.run_history.specs.declared.answers.Stop.TheVariants as stops;
ghost use Rattle.run_history.specs.Admissions.{is_in_vain_by};
ghost use Rattle.run_history.specs.Answers.{has_ended};
ghost use Rattle.run_history.specs.Links.{records_of};
ghost use Rattle.run_history.specs.Storage.{running_rules};
ghost use Rattle.worker_pool.specs.Crews.{AllSure, AllTell};
ghost use Rattle.desk.specs.State.{IsFine};
ghost use Rattle.local_run.specs.Course.{TellsJobs};
ghost use Rattle.wq_run.specs.Ends.{IsOver};
ghost use Rattle.wq_run.specs.Dues.{IsIllLink};
ghost use Rattle.wq_run.specs.Keeping.{KeepsOn};
ghost use Rattle.wq_run.specs.Calm.{Asked, IsComing, IsSureOf, IsSureCompany, IsUnmet, KeepsCalm};
ghost use Rattle.wq_run.specs.Seats.{AreSeats, Meets, gathered, inside_of};
ghost use Rattle.wq_run.specs.Trusted.{IsOf, IsOpen};
ghost use Rattle.wq_run.specs.Vain.{IfWaited, IsAlone};
ghost use Rattle.wq_run.specs.Works.{EndsNow, IsLast, IsOn, Rounds, Works, with_check};

use crate::company::Company;
use crate::reliance::Trust;
use crate::serving::serve_all;
use crate::waiting::wait;
use desk::{Desk, EndRefused, Terms};
use links::Hall;
use local_run::{Halt, Stopped};
use outside::{Clock, Commands, Runner, Site};
use run_history::{Check, Stop};
use std::alloc::Global;
use std::marker::Brand;
use std::sync::Wait;
use std::thread::Threads;
use task_core::Admission;
use worker_pool::Gate;

/// What a round of a run tells.
pub(crate) enum Turn {
    /// The run has ended.
    Over(Check),
    /// So often nobody came while nothing could be done.
    Vain(u64),
    /// It goes on.
    Again,
}

/// Whether a run that is answered so has come to its end.
fn is_over(check: Check) -> bool
    ensures over { result ≡ true → IsOver check }
    ensures goes { result ≡ false → IsOver check → ⊥ }
{
    match check {
        Check::Going => false,
        Check::Halted => false,
        Check::Complete { .. } => true,
        Check::CommandFailed { .. } => true,
        Check::InputsTooLarge { .. } => true,
        Check::NoRoom { .. } => true,
        Check::LogFull { .. } => true,
        Check::Waited(_) => true,
    }
}

/// Ends the run, if it doesn't go on.
fn end<F: Commands, S: Site, T: Terms, A: Admission, C: Clock>(
    desk: &mut Desk<F, S, T, A>,
    clock: &C,
) -> Result<Option<Check>, Stopped>
    requires fine { IsFine desk.old.trouble }
    requires unended { has_ended (records_of desk.old.moves) ≡ false }
    requires idle { length (running_rules desk.old.plan (records_of desk.old.moves)) ≤ 0 }
    ensures ended { EndsNow T.trust F.gives F.may_fail T.sources S.tells T.kept S.files
        S.may_leave S.moment S.images_since desk.old desk.new result }
{
    let _works = desk.works();
    match desk.end(clock.now()) {
        Ok(check) => {
            if is_over(check) {
                return Ok(Some(check));
            }
            Ok(None)
        }
        Err(EndRefused::Broken { .. }) => Err(Stopped::Halted(Halt::Site)),
        Err(EndRefused::Memory) => Err(Stopped::Halted(Halt::Memory)),
    }
}

/// Waits for workers, and tells how often nobody came if that was too often and nobody who came is
/// still to join.
fn wait_round<W: Wait, F: Commands, S: Site, H: Hall<F>, C: Clock, T: Terms + Trust, A: Admission>(
    rt: &W,
    alloc: Global,
    desk: &mut Desk<F, S, T, A>,
    admission: &mut A,
    company: &mut Company<F, H::Way, T>,
    hall: &mut H,
    limit: u32,
    clock: &C,
) -> Result<Turn, Stopped>
    requires valid { IsValid desk.old.plan }
    requires stands { A.stands_for admission.old desk.old.plan }
    requires on { IsOn desk.old }
    requires idle { length (running_rules desk.old.plan (records_of desk.old.moves)) ≤ 0 }
    requires of { IsOf T.trust F.gives T.sources S.tells T.kept T.holds T.plan T.options T.run T.due
        desk.old.plan desk.old.options (records_of desk.old.moves) }
    requires keen { (k : ℕ) → 0 < k → T.keen k → ⊥ }
    requires listens { IsOpen T.holds (H.listens hall.old) (H.honest hall.old) }
    requires seats { AreSeats desk.old.plan desk.old.options desk.old.moves company.old.seats }
    requires none { gathered company.old.seats ≡ [] }
    ensures rounds { (n m : ℕ) → Rounds A.admitted T.trust F.gives F.may_fail T.sources
        S.tells T.kept (Unit {0}) S.files S.may_leave S.moment S.images_since limit desk.old desk.new
        n n m m (H.count hall.old) (H.count hall.new) (H.idle_count hall.old)
        (H.idle_count hall.new) result }
    ensures listens { IsOpen T.holds (H.listens hall.new) (H.honest hall.new) }
    ensures seats { AreSeats desk.new.plan desk.new.options desk.new.moves company.new.seats }
    ensures none { gathered company.new.seats ≡ [] }
    ensures due { H.Way.tells → OnOk result (KeepsOn
        (IsIllLink F.gives F.may_fail H.Way.history H.Way.count H.Way.idle_count H.Way.is_closed limit)
        H.Way.history desk.old.moves desk.new.moves None None company.old
        company.new (H.got hall.old) (H.got hall.new)) }
    ensures calm { (asked : Option Asked) → H.Way.tells
        → OnOk result (KeepsCalm (IsSureCompany F.gives F.may_fail H.Way.history H.Way.idle_count
        (IsSureOf H.Way.sure H.Way.offers asked) (IsComing H.sure H.staffed asked hall.old)
        (IsUnmet H.manned H.idle_count asked hall.old) desk.old.moves company.old) (IsSureCompany
        F.gives F.may_fail H.Way.history H.Way.idle_count (IsSureOf H.Way.sure H.Way.offers asked)
        (IsComing H.sure H.staffed asked hall.new) (IsUnmet H.manned H.idle_count asked hall.new)
        desk.new.moves company.new) desk.old.moves desk.new.moves None None company.old
        company.new) }
    ensures met { Meets (H.count hall.old) (H.count hall.new) (H.got hall.old)
        (H.got hall.new) (H.given hall.old) (H.given hall.new) (H.idle_count hall.old)
        (H.idle_count hall.new) (inside_of company.old) (inside_of company.new)
        company.old.failed company.new.failed company.old.lost company.new.lost }
    ensures sound { IfOk result (λ turn. IsLast turn
        → (company.new.failed ≡ false) × (company.new.lost ≡ false)) }
    ensures alone { IfOk result (IsAlone company.new.guests) }
    ensures stays { (P : PlanValue) → A.stands_for admission.old P
        → A.stands_for admission.new P }
{
    let before = hall.idles();
    match wait::<Brand, W, F, S, H, T, A, C>(
        rt, alloc, desk, admission, company, hall, limit, clock,
    ) {
        Ok(()) => {}
        Err(halt) => return Err(Stopped::Halted(halt)),
    }
    let idles = hall.idles() - before;
    if company.is_going() && !company.has_guests() && idles >= u64::from(limit) {
        return Ok(Turn::Vain(idles));
    }
    Ok(Turn::Again)
}

/// Runs what can be run, and ends the run or waits for workers.
fn go_round<
    W: Threads + Wait + Sync,
    G: Gate,
    F: Commands,
    S: Site,
    H: Hall<F>,
    R: Runner<F>,
    C: Clock,
    T: Terms + Trust,
    A: Admission,
>(
    rt: &W,
    alloc: Global,
    desk: &mut Desk<F, S, T, A>,
    admission: &mut A,
    company: &mut Company<F, H::Way, T>,
    hall: &mut H,
    limit: u32,
    runners: &mut [R],
    gate: &G,
    clock: &C,
) -> Result<Turn, Stopped>
    requires some { 0 < length runners.old }
    requires valid { IsValid desk.old.plan }
    requires stands { A.stands_for admission.old desk.old.plan }
    requires on { IsOn desk.old }
    requires idle { length (running_rules desk.old.plan (records_of desk.old.moves)) ≤ 0 }
    requires of { IsOf T.trust F.gives T.sources S.tells T.kept T.holds T.plan T.options T.run T.due
        desk.old.plan desk.old.options (records_of desk.old.moves) }
    requires told { T.trust → TellsJobs T.plan T.options (AllTell R.tells runners.old) T.due }
    requires keen { (k : ℕ) → 0 < k → T.keen k → ⊥ }
    requires listens { IsOpen T.holds (H.listens hall.old) (H.honest hall.old) }
    requires seats { AreSeats desk.old.plan desk.old.options desk.old.moves company.old.seats }
    requires none { gathered company.old.seats ≡ [] }
    ensures rounds { (n : ℕ) → n ≤ H.count hall.old → (company.old.failed ≡ true
        → n < H.count hall.old) → Rounds A.admitted T.trust F.gives F.may_fail T.sources S.tells T.kept
        (AllSure R.sure runners.old) S.files S.may_leave S.moment S.images_since limit desk.old
        desk.new (sum_by R.count runners.old) (sum_by R.count runners.new)
        (sum_by R.failures runners.old) (sum_by R.failures runners.new)
        n (H.count hall.new) (H.idle_count hall.old) (H.idle_count hall.new) result }
    ensures sure { AllSure R.sure runners.old → AllSure R.sure runners.new }
    ensures tells { (job : Job) → AllTell R.tells runners.old job → AllTell R.tells runners.new job }
    ensures seats { AreSeats desk.new.plan desk.new.options desk.new.moves company.new.seats }
    ensures none { gathered company.new.seats ≡ [] }
    ensures due { H.Way.tells → OnOk result (KeepsOn
        (IsIllLink F.gives F.may_fail H.Way.history H.Way.count H.Way.idle_count H.Way.is_closed limit)
        H.Way.history desk.old.moves desk.new.moves None None company.old
        company.new (H.got hall.old) (H.got hall.new)) }
    ensures calm { (asked : Option Asked) → H.Way.tells → AllSure R.sure runners.old
        → OnOk result (KeepsCalm (IsSureCompany F.gives F.may_fail H.Way.history H.Way.idle_count
        (IsSureOf H.Way.sure H.Way.offers asked) (IsComing H.sure H.staffed asked hall.old)
        (IsUnmet H.manned H.idle_count asked hall.old) desk.old.moves company.old) (IsSureCompany
        F.gives F.may_fail H.Way.history H.Way.idle_count (IsSureOf H.Way.sure H.Way.offers asked)
        (IsComing H.sure H.staffed asked hall.new) (IsUnmet H.manned H.idle_count asked hall.new)
        desk.new.moves company.new) desk.old.moves desk.new.moves None None company.old
        company.new) }
    ensures met { Meets (H.count hall.old) (H.count hall.new) (H.got hall.old)
        (H.got hall.new) (H.given hall.old) (H.given hall.new) (H.idle_count hall.old)
        (H.idle_count hall.new) (inside_of company.old) (inside_of company.new)
        company.old.failed company.new.failed company.old.lost company.new.lost }
    ensures listens { IsOpen T.holds (H.listens hall.new) (H.honest hall.new) }
    ensures sound { IfOk result (λ turn. IsLast turn
        → (company.new.failed ≡ false) × (company.new.lost ≡ false)) }
    ensures alone { IfOk result (IsAlone company.new.guests) }
    ensures stays { (P : PlanValue) → A.stands_for admission.old P
        → A.stands_for admission.new P }
{
    match serve_all(
        rt, alloc, desk, admission, company, hall, limit, runners, gate, clock,
    ) {
        Ok(()) => {}
        Err(halt) => return Err(Stopped::Halted(halt)),
    }
    if company.has_lost() {
        return Err(Stopped::Halted(Halt::Memory));
    }
    if company.has_failed() {
        return Err(Stopped::Hall);
    }
    match end(desk, clock) {
        Ok(Some(check)) => return Ok(Turn::Over(check)),
        Ok(None) => {}
        Err(why) => return Err(why),
    }
    wait_round::<W, F, S, H, C, T, A>(rt, alloc, desk, admission, company, hall, limit, clock)
}

/// The last end of a run in which waiting was in vain.
fn end_waiting<F: Commands, S: Site, T: Terms, A: Admission, C: Clock>(
    desk: &mut Desk<F, S, T, A>,
    clock: &C,
) -> Result<Check, Stopped>
    requires fine { IsFine desk.old.trouble }
    requires unended { has_ended (records_of desk.old.moves) ≡ false }
    requires idle { length (running_rules desk.old.plan (records_of desk.old.moves)) ≤ 0 }
    requires vain { (n : ℕ) × (desk.old.stop ≡ Some (stops.Waited n))
        × (is_in_vain_by A.admitted desk.old.plan desk.old.options desk.old.moves ≡ true) }
    ensures ended { EndsNow T.trust F.gives F.may_fail T.sources S.tells T.kept S.files
        S.may_leave S.moment S.images_since desk.old desk.new (with_check result) }
{
    match end(desk, clock) {
        Ok(Some(check)) => Ok(check),
        Ok(None) => unreachable!(),
        Err(why) => Err(why),
    }
}

/// Rounds until the run ends.
pub(crate) fn run_all<
    W: Threads + Wait + Sync,
    G: Gate,
    F: Commands,
    S: Site,
    H: Hall<F>,
    R: Runner<F>,
    C: Clock,
    T: Terms + Trust,
    A: Admission,
>(
    rt: &W,
    alloc: Global,
    desk: &mut Desk<F, S, T, A>,
    admission: &mut A,
    company: &mut Company<F, H::Way, T>,
    hall: &mut H,
    limit: u32,
    runners: &mut [R],
    gate: &G,
    clock: &C,
) -> Result<Check, Stopped>
    requires some { 0 < length runners.old }
    requires valid { IsValid desk.old.plan }
    requires stands { A.stands_for admission.old desk.old.plan }
    requires on { IsOn desk.old }
    requires idle { length (running_rules desk.old.plan (records_of desk.old.moves)) ≤ 0 }
    requires of { IsOf T.trust F.gives T.sources S.tells T.kept T.holds T.plan T.options T.run T.due
        desk.old.plan desk.old.options (records_of desk.old.moves) }
    requires told { T.trust → TellsJobs T.plan T.options (AllTell R.tells runners.old) T.due }
    requires keen { (k : ℕ) → 0 < k → T.keen k → ⊥ }
    requires listens { IsOpen T.holds (H.listens hall.old) (H.honest hall.old) }
    requires seats { AreSeats desk.old.plan desk.old.options desk.old.moves company.old.seats }
    requires none { gathered company.old.seats ≡ [] }
    requires going { company.old.failed ≡ false }
    ensures works { (n : ℕ) → n ≤ H.count hall.old → (company.old.failed ≡ true
        → n < H.count hall.old) → Works A.admitted T.trust F.gives F.may_fail T.sources S.tells T.kept
        (AllSure R.sure runners.old) S.files S.may_leave S.moment S.images_since limit desk.old
        desk.new (sum_by R.count runners.old) (sum_by R.count runners.new)
        (sum_by R.failures runners.old) (sum_by R.failures runners.new)
        n (H.count hall.new) (H.idle_count hall.old) (H.idle_count hall.new) result }
    ensures seats { AreSeats desk.new.plan desk.new.options desk.new.moves company.new.seats }
    ensures listens { IsOpen T.holds (H.listens hall.new) (H.honest hall.new) }
    ensures none { gathered company.new.seats ≡ [] }
    ensures due { H.Way.tells → OnOk result (KeepsOn
        (IsIllLink F.gives F.may_fail H.Way.history H.Way.count H.Way.idle_count H.Way.is_closed limit)
        H.Way.history desk.old.moves desk.new.moves None None company.old
        company.new (H.got hall.old) (H.got hall.new)) }
    ensures calm { (asked : Option Asked) → H.Way.tells → AllSure R.sure runners.old
        → OnOk result (KeepsCalm (IsSureCompany F.gives F.may_fail H.Way.history H.Way.idle_count
        (IsSureOf H.Way.sure H.Way.offers asked) (IsComing H.sure H.staffed asked hall.old)
        (IsUnmet H.manned H.idle_count asked hall.old) desk.old.moves company.old) (IsSureCompany
        F.gives F.may_fail H.Way.history H.Way.idle_count (IsSureOf H.Way.sure H.Way.offers asked)
        (IsComing H.sure H.staffed asked hall.new) (IsUnmet H.manned H.idle_count asked hall.new)
        desk.new.moves company.new) desk.old.moves desk.new.moves None None company.old
        company.new) }
    ensures met { Meets (H.count hall.old) (H.count hall.new) (H.got hall.old)
        (H.got hall.new) (H.given hall.old) (H.given hall.new) (H.idle_count hall.old)
        (H.idle_count hall.new) (inside_of company.old) (inside_of company.new)
        company.old.failed company.new.failed company.old.lost company.new.lost }
    ensures sound { OnOk result
        ((company.new.failed ≡ false) × (company.new.lost ≡ false)) }
    ensures alone { IfOk result (λ check. IfWaited check (company.new.guests ≡ [])) }
    ensures stays { (P : PlanValue) → A.stands_for admission.old P
        → A.stands_for admission.new P }
{
    for _ in rt.forever() {
        match go_round(
            rt, alloc, desk, admission, company, hall, limit, runners, gate, clock,
        ) {
            Ok(Turn::Over(check)) => return Ok(check),
            Ok(Turn::Vain(idles)) => {
                if desk.stop_by(admission, Stop::Waited { idles }) {
                    return end_waiting(desk, clock);
                }
            }
            Ok(Turn::Again) => {}
            Err(why) => return Err(why),
        }
    }
    unreachable!()
}
