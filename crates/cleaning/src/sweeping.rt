//! A cleaning of a whole log.
ghost use Rattle.std.specs.Prelude.{◌≡◌, ◌≢◌, ◌≤◌, ◌<◌, ◌^◌, ℕ, List, None, IfErr, [], length, map};
ghost use Rattle.flow_types.specs.declared.records.Record.{Record as RecordValue};
ghost use Rattle.flow_types.specs.Plans.{IsValid};
ghost use Rattle.flow_types.specs.Serial.{Contents, Function};
ghost use Rattle.run_history.specs.declared.moves.Move.TheVariants as moves;
ghost use Rattle.outside.specs.Disk.{IsImage, LeavesOnly};
ghost use Rattle.outside.specs.Files.{Files};
ghost use Rattle.task_core.specs.Stands.{Stands};
ghost use Rattle.txn_log.specs.Logs.{IsAt};
ghost use Rattle.txn_log.specs.Spells.{IsUnbegun, Spells};
ghost use Rattle.file_store.specs.Outputs.{file_name};
ghost use Rattle.desk.specs.Histories.{history_fault};
ghost use Rattle.desk.specs.Kept.{IsElse, Keeps};
ghost use Rattle.desk.specs.State.{Takes};
ghost use Rattle.local_run.specs.Course.{IsUnmade, LeavesAlone};
ghost use Rattle.local_run.specs.Moments.{IsBefore, IsMoment, IsResumable, KeepsSome};
ghost use Rattle.local_run.specs.Runs.{Held, SerialFits};
ghost use Rattle.cleaning.specs.declared.answers.CleanFault.TheVariants as cleans;
ghost use Rattle.cleaning.specs.declared.answers.LookFault.TheVariants as looks;
ghost use Rattle.cleaning.specs.Behind.{CleansOver};
ghost use Rattle.cleaning.specs.Cleanings.{CleanEnds, CleansLog, EndsPart, FailsRisen, GivesLegal};
ghost use Rattle.cleaning.specs.Cleanings.{GivesRecords, HasGone, IsCutClean, IsCutFor};
ghost use Rattle.cleaning.specs.Cleanings.{IsUnreadFor, present_made, records_in};

use crate::checking::check_records;
use crate::parts::clean_files;
use crate::present::present_made;
use crate::{CleanFault, CleanRefused, Cleaned, LookFault};
use flow_types::{Memory, Name, Plan, Record, Rows};
use log_recover::{RecoverFault, files_spell_one_list, recover};
use outside::Site;
use std::alloc::Global;
use task_core::Table;
use txn_log::Log;

/// From so many records on a log takes none.
const FULL_LOG: usize = 1_000_000;

/// The refusal of a log that isn't read.
fn unread(alloc: Global, why: RecoverFault) -> CleanRefused
    ensures { result ≡ record { why = cleans.Look (looks.Log why); records = [] } }
{
    CleanRefused {
        why: CleanFault::Look(LookFault::Log(why)),
        records: Rows::new(alloc),
    }
}

/// The refusal of a log that is full.
fn full(records: Rows<Record>) -> CleanRefused
    requires { length records < 2 ^ 32 }
    ensures { result ≡ record { why = cleans.LogFull (length records); records = records } }
{
    let why = CleanFault::LogFull {
        records: records.len() as u32,
    };
    CleanRefused { why, records }
}

/// Ends the part over whose records the table stands, and removes its files.
fn clean_over<S: Site>(
    alloc: Global,
    table: &Table,
    site: &mut S,
    log: Log,
    records: Rows<Record>,
    moment: u64,
) -> Result<Cleaned, CleanRefused>
    requires few { length records < 2 ^ 32 }
    requires admitted { history_fault table.now.plan records ≡ None }
    requires stands { Stands table.now (map moves.Logged records) }
    requires takes { Takes log records }
    requires gate { S.tells → IsAt records log.gate (S.may_leave site.old log.name) }
    requires apart { (f : ℕ) → file_name table.now.plan f ≢ log.name }
    ensures { CleansOver S.tells S.files S.may_leave S.moment S.images_since S.count
        table.now.plan log.name records moment site.old site.new result }
{
    if !table.is_begun() {
        return Ok(Cleaned {
            records,
            removed: 0,
        });
    }
    if records.len() >= FULL_LOG {
        return Err(full(records));
    }
    match present_made(alloc, table) {
        Ok(made) => clean_files(table.plan(), made.as_slice(), site, log, records, moment),
        Err(Memory) => Err(CleanRefused {
            why: CleanFault::Memory,
            records,
        }),
    }
}

/// Ends the part of a log that was read, and removes its files.
fn clean_read<S: Site>(
    alloc: Global,
    plan: &Plan,
    site: &mut S,
    log: Log,
    records: Rows<Record>,
    moment: u64,
) -> Result<Cleaned, CleanRefused>
    requires valid { IsValid plan.now }
    requires few { length records < 2 ^ 32 }
    requires takes { Takes log records }
    requires gate { S.tells → IsAt records log.gate (S.may_leave site.old log.name) }
    requires apart { (f : ℕ) → file_name plan.now f ≢ log.name }
    ensures { CleansOver S.tells S.files S.may_leave S.moment S.images_since S.count
        plan.now log.name records moment site.old site.new result }
{
    match check_records(alloc, plan, records.as_slice()) {
        Ok(table) => clean_over(alloc, &table, site, log, records, moment),
        Err(why) => Err(CleanRefused {
            why: CleanFault::Look(why),
            records,
        }),
    }
}

/// Ends the part of the log under this name, and removes the made files that are present in it.
///
/// The record of the end comes first. So a crash at any moment leaves the records with their files,
/// or the records and the end of the part, behind which no file is present. A part that isn't begun
/// stays as it is. LogFull comes, behind the refusals of a look, exactly where the part is begun
/// and the log has 1,000,000 records or more. Removals aren't synced. Beside what a look costs,
/// each file of the plan is looked at once in memory, and one call of the site is made for each
/// file that is removed. Conditions: the plan is valid, and none of its files has the log's name.
pub fn clean<S: Site>(
    alloc: Global,
    plan: &Plan,
    site: &mut S,
    name: Name,
    moment: u64,
) -> Result<Cleaned, CleanRefused>
    requires valid { IsValid plan.now }
    requires apart { (f : ℕ) → file_name plan.now f ≢ «name» }
    ensures log { S.tells → CleansLog (S.files site.old «name») result }
    ensures ends { S.tells → (H : List RecordValue) → Spells H (S.files site.old «name»)
        → CleanEnds plan.now H result }
    ensures records { S.tells → (H : List RecordValue) → Spells H (S.files site.old «name»)
        → GivesRecords H moment result }
    ensures legal { GivesLegal plan.now result }
    ensures ended { EndsPart result }
    ensures gone { S.tells → (H : List RecordValue) → Spells H (S.files site.old «name»)
        → HasGone plan.now H (S.files site.new) result }
    ensures moments { S.tells → (H : List RecordValue) → Spells H (S.files site.old «name»)
        → IsResumable Held plan.now «name» H (S.may_leave site.old)
        → LeavesOnly S.moment S.images_since site.old site.new
        (IsMoment Held plan.now «name» (S.files site.old) (S.may_leave site.old) H
        (records_in result) (IsCutClean result)) }
    ensures contents { S.tells → (H : List RecordValue) → Spells H (S.files site.old «name»)
        → (gives : Function) (sources : Contents)
        → IsResumable (SerialFits gives sources) plan.now «name» H (S.may_leave site.old)
        → LeavesOnly S.moment S.images_since site.old site.new
        (IsMoment (SerialFits gives sources) plan.now «name» (S.files site.old)
        (S.may_leave site.old) H (records_in result) (IsCutClean result)) }
    ensures resumable { S.tells → ((image : Files) → IsImage (S.may_leave site.old) image
        → KeepsSome Held plan.now «name» image)
        → LeavesOnly S.moment S.images_since site.old site.new
        (KeepsSome Held plan.now «name») }
    ensures now { S.tells → (H : List RecordValue) → Spells H (S.files site.old «name»)
        → IsResumable Held plan.now «name» H (S.may_leave site.old) → (IsCutClean result → ⊥)
        → (image : Files) → IsImage (S.may_leave site.new) image
        → Keeps Held plan.now «name» (records_in result) image }
    ensures inside { S.tells → (H : List RecordValue) → Spells H (S.files site.old «name»)
        → LeavesAlone S.files S.may_leave S.moment S.images_since
        (IsElse plan.now «name» (present_made plan.now H)) site.old site.new }
    ensures others { S.tells → LeavesAlone S.files S.may_leave S.moment S.images_since
        (IsUnmade plan.now «name») site.old site.new }
    ensures reads { IfErr result (λ refused. S.tells → (IsCutFor refused.why → ⊥)
        → (IsUnbegun (S.files site.old «name») → ⊥)
        → (m : List ℕ) → S.files site.new m ≡ S.files site.old m) }
    ensures unread { IfErr result (λ refused. S.tells → IsUnreadFor refused.why
        → LeavesOnly S.moment S.images_since site.old site.new
        (IsBefore «name» (S.files site.old «name») (S.may_leave site.old))) }
    ensures before { IfErr result (λ refused. S.tells → (IsCutFor refused.why → ⊥)
        → LeavesOnly S.moment S.images_since site.old site.new
        (IsBefore «name» (S.files site.old «name») (S.may_leave site.old))) }
    ensures later { S.count site.old ≤ S.count site.new }
    ensures cause { FailsRisen (S.count site.old) (S.count site.new) result }
{
    files_spell_one_list();
    match recover(alloc, site, name) {
        Ok((log, records)) => {
            let _count = log.count();
            clean_read(alloc, plan, site, log, records, moment)
        }
        Err(why) => Err(unread(alloc, why)),
    }
}
