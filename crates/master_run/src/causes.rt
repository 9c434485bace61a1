//! The causes of how the parts of a call end.
ghost use Rattle.std.specs.Prelude.{◌≡◌, length};
ghost use Rattle.std.specs.Prelude.{◌<◌, ◌^◌, IfOk};
ghost use Rattle.flow_types.specs.Plans.{is_source};
ghost use Rattle.wq_run.specs.Ends.{IsOver};
ghost use Rattle.master_run.specs.Ends.{end_cause, start_cause};
ghost use Rattle.master_run.specs.Runs.{clean_cause, damage_cause, halt_cause, look_cause};
ghost use Rattle.master_run.specs.Runs.{refusal_cause, refused_cause, run_cause, site_cause};
ghost use Rattle.master_run.specs.Runs.{unheard_cause, unopened_cause, unread_cause};
ghost use Rattle.report.specs.declared.cause.Cause.TheVariants.{HallFault};

use crate::asking::Refusal;
use crate::rises::Rise;
use cleaning::{CleanFault, LookFault};
use desk::StartFault;
use flow_types::{Content, FileNo, Plan};
use local_run::{Halt, Stopped};
use log_recover::RecoverFault;
use outside::Fault;
use report::Cause;
use run_history::{Check, Found};

fn site_cause(site: Rise) -> Cause
    ensures { result ≡ site_cause site }
{
    Cause::SiteFault {
        before: site.before,
        after: site.after,
    }
}

fn start_cause(why: StartFault) -> Cause
    ensures { result ≡ start_cause why }
{
    match why {
        StartFault::OtherFlow { logged, found } => Cause::OtherFlow { logged, found },
        StartFault::NotLegal { at } => Cause::NotLegal { at },
        StartFault::LogFull { records } => Cause::LogFull { records },
        StartFault::StoredAboveLimit { stored, limit } => Cause::StoredAboveLimit { stored, limit },
        StartFault::SourceMissing { file } => Cause::SourceMissing { file },
        StartFault::SourceTooLarge { file, size } => Cause::SourceTooLarge { file, size },
        StartFault::SourceChanged {
            file,
            logged,
            found,
        } => Cause::SourceChanged {
            file,
            logged,
            found,
        },
        StartFault::FileDamaged {
            file,
            logged,
            found,
        } => Cause::FileDamaged {
            file,
            logged,
            found,
        },
        StartFault::Site { before, after } => Cause::SiteFault { before, after },
        StartFault::Memory => Cause::Memory,
    }
}

fn refused_cause(site: Rise, why: StartFault) -> Cause
    ensures { result ≡ refused_cause site why }
{
    match why {
        StartFault::Site { .. } => site_cause(site),
        why => start_cause(why),
    }
}

fn is_source(plan: &Plan, file: FileNo) -> bool
    ensures { result ≡ is_source plan.now file.0 }
{
    match plan.files.as_slice().get(file.0 as usize) {
        Some(row) => row.maker.is_none(),
        None => false,
    }
}

fn damage_cause(plan: &Plan, file: FileNo, logged: Content, found: Found) -> Cause
    ensures { result ≡ damage_cause plan.now file logged found }
{
    if is_source(plan, file) {
        Cause::SourceChanged {
            file,
            logged,
            found,
        }
    } else {
        Cause::FileDamaged {
            file,
            logged,
            found,
        }
    }
}

fn halt_cause(site: Rise, runner: Rise, plan: &Plan, halt: Halt) -> Cause
    ensures { result ≡ halt_cause site runner plan.now halt }
{
    match halt {
        Halt::Damaged {
            file,
            logged,
            found,
        } => damage_cause(plan, file, logged, found),
        Halt::Runner => Cause::RunnerFault {
            before: runner.before,
            after: runner.after,
        },
        Halt::Site => site_cause(site),
        Halt::Memory => Cause::Memory,
    }
}

fn hall_cause(hall: Rise) -> Cause
    ensures { result ≡ HallFault hall.before hall.after }
{
    Cause::HallFault {
        before: hall.before,
        after: hall.after,
    }
}

/// The cause of a hall that can't listen.
fn unheard_cause(hall: Rise, fault: Fault) -> Cause
    ensures { result ≡ unheard_cause hall fault }
{
    match fault {
        Fault::Failed => hall_cause(hall),
        Fault::Memory => Cause::Memory,
    }
}

/// The cause of an opening that isn't logged.
fn unopened_cause(site: Rise, fault: Fault) -> Cause
    ensures { result ≡ unopened_cause site fault }
{
    match fault {
        Fault::Failed => site_cause(site),
        Fault::Memory => Cause::Memory,
    }
}

fn end_cause(rules: u32, check: Check) -> Cause
    requires { IsOver check }
    ensures { result ≡ end_cause rules check }
{
    match check {
        Check::Complete { collected } => Cause::Complete { rules, collected },
        Check::CommandFailed { rule, why } => Cause::CommandFailed { rule, why },
        Check::InputsTooLarge { rule, total } => Cause::InputsTooLarge { rule, total },
        Check::LogFull { records } => Cause::LogFull { records },
        Check::NoRoom {
            rule,
            need,
            stored,
            limit,
        } => Cause::NoRoom {
            rule,
            need,
            stored,
            limit,
        },
        Check::Waited(wait) => Cause::Waited(wait),
        Check::Going | Check::Halted => unreachable!(),
    }
}

/// The cause of how a run of this plan ended, by the counts of the site, of a runner and of the
/// hall.
pub fn run_cause(
    site: Rise,
    runner: Rise,
    hall: Rise,
    plan: &Plan,
    how: Result<Check, Stopped>,
) -> Cause
    requires ends { IfOk how IsOver }
    requires few { length plan.now.rules < 2 ^ 32 }
    ensures { result ≡ run_cause site runner hall plan.now how }
{
    match how {
        Ok(check) => end_cause(plan.rules.len() as u32, check),
        Err(Stopped::Refused(why)) => refused_cause(site, why),
        Err(Stopped::Halted(halt)) => halt_cause(site, runner, plan, halt),
        Err(Stopped::Hall) => hall_cause(hall),
        Err(Stopped::Unheard(fault)) => unheard_cause(hall, fault),
        Err(Stopped::Unopened(fault)) => unopened_cause(site, fault),
    }
}

/// The cause of a log that isn't read.
pub fn unread_cause(site: Rise, why: RecoverFault) -> Cause
    ensures { result ≡ unread_cause site why }
{
    match why {
        RecoverFault::Site => site_cause(site),
        RecoverFault::BadHeader => Cause::LogDamaged { at: 0 },
        RecoverFault::BadRecord { at } => Cause::LogDamaged { at },
        RecoverFault::Memory => Cause::Memory,
    }
}

/// The cause of a log that can't be used.
pub fn look_cause(site: Rise, why: LookFault) -> Cause
    ensures { result ≡ look_cause site why }
{
    match why {
        LookFault::Log(why) => unread_cause(site, why),
        LookFault::OtherFlow { logged, found } => Cause::OtherFlow { logged, found },
        LookFault::NotLegal { at } => Cause::NotLegal { at },
        LookFault::Memory => Cause::Memory,
    }
}

/// The cause of a part that isn't cleaned.
pub fn clean_cause(site: Rise, why: CleanFault) -> Cause
    ensures { result ≡ clean_cause site why }
{
    match why {
        CleanFault::Look(why) => look_cause(site, why),
        CleanFault::LogFull { records } => Cause::LogFull { records },
        CleanFault::Site => site_cause(site),
        CleanFault::Memory => Cause::Memory,
    }
}

/// The cause of a refusal.
pub fn refusal_cause(site: Rise, refusal: Refusal) -> Cause
    ensures { result ≡ refusal_cause site refusal }
{
    match refusal {
        Refusal::Said(cause) => cause,
        Refusal::Site => site_cause(site),
        Refusal::Memory => Cause::Memory,
    }
}
