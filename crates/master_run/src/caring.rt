//! What is done with a log beside a run: its part is cleaned, or it is printed.
ghost use Rattle.std.specs.Prelude.{◌≡◌, ◌≢◌, ◌≤◌, ◌<◌, ◌^◌, ℕ, List, [], length, IsFalse};
ghost use Rattle.flow_types.specs.declared.records.Record.{Record as RecordValue};
ghost use Rattle.flow_types.specs.Plans.{IsValid};
ghost use Rattle.run_history.specs.History.{part};
ghost use Rattle.run_history.specs.Admissions.{Admitting};
ghost use Rattle.txn_log.specs.Spells.{Spells};
ghost use Rattle.file_store.specs.Outputs.{file_name};
ghost use Rattle.command_words.specs.declared.options.Work.TheVariants.{Clean, PrintLog};
ghost use Rattle.report.specs.declared.cause.Kind.TheVariants.{RuleFailed};
ghost use Rattle.report.specs.Causes.{kind_of};
ghost use Rattle.local_run.specs.Ends.{failed_count};
ghost use Rattle.local_run.specs.Runs.{LosesNone};
ghost use Rattle.master_run.specs.Ends.{counts};
ghost use Rattle.master_run.specs.Headline.{is_run_end};
ghost use Rattle.master_run.specs.Serves.{IsCut, Serves};

use crate::ask::Ask;
use crate::causes::{clean_cause, look_cause};
use crate::course::Course;
use crate::rises::Rise;
use cleaning::{CleanRefused, Cleaned, LookRefused, clean, look};
use local_run::Born;
use log_recover::files_spell_one_list;
use log_text::part_of;
use outside::{Commands, Site};
use report::Cause;
use std::alloc::Global;

/// Ends the part of the log, and removes the files that were made in it.
pub fn clean_flow<F: Commands, S: Site, B: Born>(
    alloc: Global,
    before: u64,
    ask: Ask,
    site: S,
    moment: u64,
) -> Course<S>
    requires valid { IsValid ask.plan }
    requires apart { (f : ℕ) → file_name ask.plan f ≢ ask.log }
    requires later { S.tells → B.born ≤ S.moment site }
    requires work { ask.work ≡ Clean }
    requires counted { before ≤ S.count site }
    ensures serves { (E : Admitting) → Serves E S.tells S.files S.may_leave S.moment S.images_since B.born
        F.gives F.may_fail (λ job. Unit {0}) (Unit {0}) (Unit {0})
        (counts before [] 0 0 0) (counts (S.count result.site) [] 0 0 0)
        ask site result.site result.records result.cause }
    ensures fails_none { S.tells → (H : List RecordValue) → Spells H (S.files site ask.log)
        → (IsCut result.cause → ⊥) → failed_count result.records ≡ failed_count H }
    ensures loses_none { S.tells → (H : List RecordValue) → Spells H (S.files site ask.log)
        → (IsCut result.cause → ⊥) → LosesNone H result.records }
    ensures runs_not { IsFalse (is_run_end (kind_of result.cause)) }
    ensures fails_not { kind_of result.cause ≡ RuleFailed → ⊥ }
    ensures plan { result.plan ≡ ask.plan }
{
    files_spell_one_list();
    let mut site = site;
    let Ask { plan, log, .. } = ask;
    match clean(alloc, &plan, &mut site, log, moment) {
        Ok(Cleaned { records, removed }) => Course {
            cause: Cause::Cleaned { removed },
            site,
            records,
            plan,
        },
        Err(CleanRefused { why, records }) => {
            let after = site.faults();
            Course {
                cause: clean_cause(Rise { before, after }, why),
                site,
                records,
                plan,
            }
        }
    }
}

/// Reads the log, for its lines to be printed.
pub fn read_log<F: Commands, S: Site, B: Born>(
    alloc: Global,
    before: u64,
    ask: Ask,
    site: S,
) -> Course<S>
    requires valid { IsValid ask.plan }
    requires apart { (f : ℕ) → file_name ask.plan f ≢ ask.log }
    requires later { S.tells → B.born ≤ S.moment site }
    requires work { ask.work ≡ PrintLog }
    requires counted { before ≤ S.count site }
    ensures serves { (E : Admitting) → Serves E S.tells S.files S.may_leave S.moment S.images_since B.born
        F.gives F.may_fail (λ job. Unit {0}) (Unit {0}) (Unit {0})
        (counts before [] 0 0 0) (counts (S.count result.site) [] 0 0 0)
        ask site result.site result.records result.cause }
    ensures fails_none { S.tells → (H : List RecordValue) → Spells H (S.files site ask.log)
        → (IsCut result.cause → ⊥) → failed_count result.records ≡ failed_count H }
    ensures loses_none { S.tells → (H : List RecordValue) → Spells H (S.files site ask.log)
        → (IsCut result.cause → ⊥) → LosesNone H result.records }
    ensures runs_not { IsFalse (is_run_end (kind_of result.cause)) }
    ensures fails_not { kind_of result.cause ≡ RuleFailed → ⊥ }
    ensures plan { result.plan ≡ ask.plan }
{
    files_spell_one_list();
    let mut site = site;
    let Ask { plan, log, .. } = ask;
    match look(alloc, &plan, &mut site, log) {
        Ok(records) => Course {
            cause: Cause::Printed {
                lines: part_of(records.as_slice()).len() as u32,
            },
            site,
            records,
            plan,
        },
        Err(LookRefused { why, records }) => {
            let after = site.faults();
            Course {
                cause: look_cause(Rise { before, after }, why),
                site,
                records,
                plan,
            }
        }
    }
}
