//! A look at a log.
ghost use Rattle.std.specs.Prelude.{◌≡◌, ◌≢◌, ◌≤◌, ◌<◌, ◌^◌, ℕ, List, IfErr, IfOk, [], length};
ghost use Rattle.flow_types.specs.declared.records.Record.{Record as RecordValue};
ghost use Rattle.flow_types.specs.Plans.{IsValid};
ghost use Rattle.flow_types.specs.Serial.{Contents, Function};
ghost use Rattle.outside.specs.Disk.{IsImage, LeavesOnly};
ghost use Rattle.outside.specs.Files.{Files};
ghost use Rattle.txn_log.specs.Spells.{IsUnbegun, Spells};
ghost use Rattle.file_store.specs.Outputs.{file_name};
ghost use Rattle.desk.specs.Kept.{IsLegal, Keeps};
ghost use Rattle.local_run.specs.Course.{LeavesAlone};
ghost use Rattle.local_run.specs.Moments.{IsBefore, IsResumable, KeepsSome};
ghost use Rattle.local_run.specs.Runs.{Held, SerialFits};
ghost use Rattle.cleaning.specs.declared.answers.LookFault.TheVariants as looks;
ghost use Rattle.cleaning.specs.Looks.{IsCutLook, IsSiteFault, LookEnds, Looks, ReadsLog, WasLogRead};

use crate::checking::check_records;
use crate::{LookFault, LookRefused};
use flow_types::{Name, Plan, Record, Rows};
use log_recover::{RecoverFault, files_spell_one_list, recover};
use outside::Site;
use std::alloc::Global;

/// The refusal of a log that isn't read.
fn unread(alloc: Global, why: RecoverFault) -> LookRefused
    ensures { result ≡ record { why = looks.Log why; records = [] } }
{
    LookRefused {
        why: LookFault::Log(why),
        records: Rows::new(alloc),
    }
}

/// A look at records that were read.
fn look_over(alloc: Global, plan: &Plan, records: Rows<Record>) -> Result<Rows<Record>, LookRefused>
    requires valid { IsValid plan.now }
    requires few { length records < 2 ^ 32 }
    ensures { Looks plan.now records result }
{
    match check_records(alloc, plan, records.as_slice()) {
        Ok(_table) => Ok(records),
        Err(why) => Err(LookRefused { why, records }),
    }
}

/// The records of the log under this name, where they can be used for the plan.
///
/// A log that is absent or not begun is begun anew. A crash at any moment leaves the file as it
/// was, or a log that isn't begun where it wasn't. What is wrong with the file's bytes comes first,
/// then OtherFlow where the part was opened for another plan, then NotLegal at the first record
/// that may not stand where it does; each comes exactly there, unless the site fails or memory is
/// wanting. The plan is copied, and looked through for each record. Conditions: the plan is valid,
/// and none of its files has the log's name.
pub fn look<S: Site>(
    alloc: Global,
    plan: &Plan,
    site: &mut S,
    name: Name,
) -> Result<Rows<Record>, LookRefused>
    requires valid { IsValid plan.now }
    requires apart { (f : ℕ) → file_name plan.now f ≢ «name» }
    ensures log { S.tells → ReadsLog (S.files site.old «name») result }
    ensures ends { S.tells → (H : List RecordValue) → Spells H (S.files site.old «name»)
        → LookEnds plan.now H result }
    ensures legal { IfOk result (λ records. IsLegal plan.now records) }
    ensures few { IfOk result (λ records. length records < 2 ^ 32) }
    ensures moments { S.tells → LeavesOnly S.moment S.images_since site.old site.new
        (IsBefore «name» (S.files site.old «name») (S.may_leave site.old)) }
    ensures resumable { S.tells → ((image : Files) → IsImage (S.may_leave site.old) image
        → KeepsSome Held plan.now «name» image)
        → LeavesOnly S.moment S.images_since site.old site.new
        (KeepsSome Held plan.now «name») }
    ensures kept { S.tells → (H : List RecordValue) → Spells H (S.files site.old «name»)
        → IsResumable Held plan.now «name» H (S.may_leave site.old) → WasLogRead result
        → (image : Files) → IsImage (S.may_leave site.new) image
        → Keeps Held plan.now «name» H image }
    ensures contents { S.tells → (H : List RecordValue) → Spells H (S.files site.old «name»)
        → (gives : Function) (sources : Contents)
        → IsResumable (SerialFits gives sources) plan.now «name» H (S.may_leave site.old)
        → WasLogRead result → (image : Files) → IsImage (S.may_leave site.new) image
        → Keeps (SerialFits gives sources) plan.now «name» H image }
    ensures others { S.tells → LeavesAlone S.files S.may_leave S.moment S.images_since
        (λ m. m ≢ «name») site.old site.new }
    ensures reads { S.tells → (IsCutLook result → ⊥)
        → (IsUnbegun (S.files site.old «name») → ⊥)
        → (m : List ℕ) → S.files site.new m ≡ S.files site.old m }
    ensures later { S.count site.old ≤ S.count site.new }
    ensures cause { IfErr result (λ refused. IsSiteFault refused.why
        → S.count site.old < S.count site.new) }
{
    files_spell_one_list();
    match recover(alloc, site, name) {
        Ok((log, records)) => {
            let _count = log.count();
            look_over(alloc, plan, records)
        }
        Err(why) => Err(unread(alloc, why)),
    }
}
