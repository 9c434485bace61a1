//! The printed log.
ghost use Rattle.std.specs.Prelude.{◌≡◌, ◌<◌, ◌≤◌, ◌+◌, ◌++◌, ◌∷◌, ◌^◌, ◌-◌, [], false, true, List};
ghost use Rattle.std.specs.Prelude.{IfOk, OnOk, codes, length};
ghost use Rattle.std.specs.List.{list_all, list_any};
ghost use Rattle.flow_types.specs.declared.records.Record.{Record as RecordValue};
ghost use Rattle.flow_types.specs.Plans.{IsValid, most_rules};
ghost use Rattle.run_history.specs.History.{is_cleaned};
ghost use Rattle.log_text.specs.Lines.{lines_behind, log_lines, record_line};
ghost use Rattle.log_text.specs.Tallies.{HasLegal, IsTally, Tells, is_below};

use crate::lines::add_line;
use crate::part::part_of;
use crate::tally::Tally;
use flow_types::{Bytes, Memory, Plan, Record};
use std::alloc::{AllocError, Global};

// Takes a record in, and writes its line.
fn add_record(
    out: &mut Vec<u8>,
    plan: &Plan,
    tally: &mut Tally,
    entry: &Record,
) -> Result<(), AllocError>
    requires counted { IsTally (length plan.now.rules) tally.old }
    requires few { tally.old.records < 2 ^ 64 - 1 }
    requires inside { is_below (length plan.now.rules) entry.now ≡ true }
    requires goes_on { is_cleaned entry.now ≡ false }
    ensures counted { IsTally (length plan.now.rules) tally.new }
    ensures records { tally.new.records ≡ tally.old.records + 1 }
    ensures tells { (H : List RecordValue) → Tells tally.old H
        → Tells tally.new (H ++ entry.now ∷ []) }
    ensures line { (H : List RecordValue) → Tells tally.old H
        → OnOk result (out.new.items ≡ out.old.items
        ++ (record_line plan.now (H ++ entry.now ∷ []) entry.now ++ codes "\n")) }
{
    tally.note(entry);
    add_line(out, plan, tally, entry)?;
    out.extend_from_slice(b"\n")
}

// The lines of a part.
fn lines_of(alloc: Global, plan: &Plan, part: &[Record]) -> Result<Vec<u8>, AllocError>
    requires few { length plan.now.rules ≤ most_rules }
    requires inside { list_all (is_below (length plan.now.rules)) part.now ≡ true }
    requires goes_on { list_any is_cleaned part.now ≡ false }
    ensures { IfOk result (λ text. text.items ≡ lines_behind plan.now [] part.now) }
{
    let mut tally = Tally::new(alloc, plan.rules.len())?;
    let mut out = Vec::new(alloc);
    for entry in part {
        add_record(&mut out, plan, &mut tally, entry)?;
    }
    Ok(out)
}

/// The lines of the records of the current part, each with a newline.
///
/// It keeps a row for each rule and the four counts, and changes them by each record, so it takes
/// time and memory linear in the plan, the records and the text. Conditions: the plan is valid, and
/// the history is legal for it.
pub fn print_log(alloc: Global, plan: &Plan, history: &[Record]) -> Result<Bytes, Memory>
    requires valid { IsValid plan.now }
    requires legal { HasLegal plan.now history.now }
    ensures { IfOk result (λ text. text ≡ log_lines plan.now history.now) }
{
    match lines_of(alloc, plan, part_of(history)) {
        Ok(text) => Ok(Bytes::from_vec(text)),
        Err(_) => Err(Memory),
    }
}
