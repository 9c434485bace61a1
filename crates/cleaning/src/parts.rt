//! The end of a part, and the removal of its files.
ghost use Rattle.std.specs.Prelude.{◌≡◌, ◌≢◌, ◌≤◌, ◌<◌, ◌⊎◌, ◌++◌, ◌∷◌, [], ℕ, List, None, Option};
ghost use Rattle.std.specs.Prelude.{OnErr, OnOk, length, false};
ghost use Rattle.flow_types.specs.Plans.{is_empty, most_files};
ghost use Rattle.flow_types.specs.Serial.{Contents, Function};
ghost use Rattle.run_history.specs.History.{part};
ghost use Rattle.outside.specs.Causes.{HasCause};
ghost use Rattle.outside.specs.Disk.{IsImage, LeavesOnly};
ghost use Rattle.outside.specs.Files.{Files};
ghost use Rattle.txn_log.specs.Logs.{IsAppended, IsAt, most_records};
ghost use Rattle.file_store.specs.Outputs.{AreInside, file_name};
ghost use Rattle.desk.specs.Kept.{IsElse, IsLegal, Keeps, KeepsEither};
ghost use Rattle.desk.specs.State.{Takes};
ghost use Rattle.local_run.specs.Course.{LeavesAlone};
ghost use Rattle.local_run.specs.Runs.{Held, IsKeeping, IsStanding, SerialFits};
ghost use Rattle.cleaning.specs.Behind.{CleansOver};
ghost use Rattle.cleaning.specs.Cleanings.{AreGone, clean_fault, cleaned, numbers_of, present_made};

use crate::removal::remove_files;
use crate::{CleanFault, CleanRefused, Cleaned};
use flow_types::{EndKind, FileNo, Plan, Record, Rows};
use outside::{Fault, Site};
use txn_log::{Log, LogFault};

/// Ends the part in the log.
fn end_part<S: Site>(
    site: &mut S,
    log: &mut Log,
    history: &mut Rows<Record>,
    moment: u64,
) -> Result<(), Fault>
    requires takes { Takes log.old history.old }
    requires place { length history.old < most_records }
    requires gate { S.tells → IsAt history.old log.old.gate (S.may_leave site.old log.old.name) }
    ensures done { OnOk result (history.new ≡ history.old ++ cleaned moment ∷ []) }
    ensures same { OnErr result (history.new ≡ history.old) }
    ensures gate { OnOk result (S.tells → IsAt (history.old ++ cleaned moment ∷ []) log.new.gate
        (S.may_leave site.new log.old.name)) }
    ensures any_moment { S.tells → LeavesOnly S.moment S.images_since site.old site.new
        (IsAppended log.old.name history.old (cleaned moment) (S.may_leave site.old)) }
    ensures crash { S.tells → (m : List ℕ) (file : Option (List ℕ)) → m ≢ log.old.name
        → S.may_leave site.new m file → S.may_leave site.old m file }
    ensures reads { S.tells → (m : List ℕ) → m ≢ log.old.name
        → S.files site.new m ≡ S.files site.old m }
    ensures cause { HasCause (S.count site.old) (S.count site.new) result }
{
    let entry = Record::Ended {
        moment,
        kind: EndKind::Cleaned,
    };
    match log.append(site, &entry) {
        Ok(()) => {}
        Err(LogFault::Site) => return Err(Fault::Failed),
        Err(LogFault::Full) => unreachable!(),
        Err(LogFault::Memory) => return Err(Fault::Memory),
    }
    match history.push(entry) {
        Ok(()) => Ok(()),
        Err(_) => Err(Fault::Memory),
    }
}

/// Ends a part that is begun, and then removes these files.
fn clean_part<S: Site>(
    plan: &Plan,
    made: &[FileNo],
    site: &mut S,
    log: &mut Log,
    history: &mut Rows<Record>,
    moment: u64,
) -> Result<(), Fault>
    requires legal { IsLegal plan.now history.old }
    requires takes { Takes log.old history.old }
    requires place { length history.old < most_records }
    requires gate { S.tells → IsAt history.old log.old.gate (S.may_leave site.old log.old.name) }
    requires apart { (f : ℕ) → file_name plan.now f ≢ log.old.name }
    requires inside { AreInside plan.now (numbers_of made.now) }
    ensures done { OnOk result (history.new ≡ history.old ++ cleaned moment ∷ []) }
    ensures records { (history.new ≡ history.old)
        ⊎ (history.new ≡ history.old ++ cleaned moment ∷ []) }
    ensures gone { OnOk result (S.tells
        → AreGone plan.now (numbers_of made.now) (S.files site.new)) }
    ensures kept { S.tells → IsKeeping plan.now log.old.name history.old (S.may_leave site.old)
        → LeavesOnly S.moment S.images_since site.old site.new
        (KeepsEither Held plan.now log.old.name history.old (cleaned moment)) }
    ensures serial { S.tells → (gives : Function) (sources : Contents)
        → IsStanding gives sources plan.now log.old.name history.old (S.may_leave site.old)
        → LeavesOnly S.moment S.images_since site.old site.new
        (KeepsEither (SerialFits gives sources) plan.now log.old.name history.old
        (cleaned moment)) }
    ensures now { OnOk result (S.tells → (image : Files) → IsImage (S.may_leave site.new) image
        → Keeps Held plan.now log.old.name (history.old ++ cleaned moment ∷ []) image) }
    ensures others { S.tells → LeavesAlone S.files S.may_leave S.moment S.images_since
        (IsElse plan.now log.old.name (numbers_of made.now)) site.old site.new }
    ensures cause { HasCause (S.count site.old) (S.count site.new) result }
{
    match end_part(site, log, history, moment) {
        Ok(()) => {}
        Err(fault) => return Err(fault),
    }
    remove_files(site, plan, made)
}

/// Ends a part that is begun, and removes its made files that are present: these.
///
/// At any moment of the call a crash leaves the records with their files, or the records and the
/// end of the part, behind which no file is present.
pub(crate) fn clean_files<S: Site>(
    plan: &Plan,
    made: &[FileNo],
    site: &mut S,
    log: Log,
    records: Rows<Record>,
    moment: u64,
) -> Result<Cleaned, CleanRefused>
    requires admitted { clean_fault plan.now records ≡ None }
    requires legal { IsLegal plan.now records }
    requires begun { is_empty (part records) ≡ false }
    requires place { length records < most_records }
    requires takes { Takes log records }
    requires gate { S.tells → IsAt records log.gate (S.may_leave site.old log.name) }
    requires apart { (f : ℕ) → file_name plan.now f ≢ log.name }
    requires inside { AreInside plan.now (numbers_of made.now) }
    requires these { numbers_of made.now ≡ present_made plan.now records }
    requires few { length made.now ≤ most_files }
    ensures { CleansOver S.tells S.files S.may_leave S.moment S.images_since S.count
        plan.now log.name records moment site.old site.new result }
{
    let mut log = log;
    let mut records = records;
    match clean_part(plan, made, site, &mut log, &mut records, moment) {
        Ok(()) => Ok(Cleaned {
            records,
            removed: made.len() as u32,
        }),
        Err(Fault::Failed) => Err(CleanRefused {
            why: CleanFault::Site,
            records,
        }),
        Err(Fault::Memory) => Err(CleanRefused {
            why: CleanFault::Memory,
            records,
        }),
    }
}
