//! The line of a record.
ghost use Rattle.std.specs.Prelude.{◌≡◌, ◌<◌, ◌++◌, true, List, OnOk, codes, length};
ghost use Rattle.std.specs.Prelude.{if◌then◌else◌};
ghost use Rattle.std.specs.Fmt.{decimal};
ghost use Rattle.flow_types.specs.declared.records.Record.{Record as RecordValue};
ghost use Rattle.file_store.specs.Outputs.{file_name};
ghost use Rattle.run_history.specs.Storage.{has_failed};
ghost use Rattle.log_text.specs.Lines.{counts_of, end_word, record_line, state_line};
ghost use Rattle.log_text.specs.Tallies.{IsTally, Tells, counts_text, is_below};

use crate::counts::Counts;
use crate::fields::{add_field, add_number};
use crate::tally::Tally;
use flow_types::{AttemptNo, EndKind, FileNo, Plan, Record, RuleNo};
use std::alloc::AllocError;

/// The states that a record enters.
const WAITING: u64 = 0;

const RUNNING: u64 = 1;

const COMPLETE: u64 = 2;

const FAILED: u64 = 3;

/// How many rules were given up: none ever is.
const ABORTED: u64 = 0;

fn add_counts(out: &mut Vec<u8>, counts: Counts, rules: usize) -> Result<(), AllocError>
    ensures { OnOk result (out.new.items ≡ out.old.items ++ counts_text counts rules) }
{
    add_field(out, counts.waiting as u64)?;
    add_field(out, counts.running as u64)?;
    add_field(out, counts.complete as u64)?;
    add_field(out, counts.failed as u64)?;
    add_field(out, ABORTED)?;
    add_number(out, rules as u64)
}

// Writes how many rules are in each state, and how many there are.
fn add_tally(out: &mut Vec<u8>, plan: &Plan, tally: &Tally) -> Result<(), AllocError>
    requires { IsTally (length plan.now.rules) tally.now }
    ensures { (H : List RecordValue) → Tells tally.now H
        → OnOk result (out.new.items ≡ out.old.items ++ counts_of plan.now H) }
{
    add_counts(out, tally.counts(), plan.rules.len())
}

// Writes that a rule entered a state with an attempt.
fn add_state(
    out: &mut Vec<u8>,
    plan: &Plan,
    tally: &Tally,
    moment: u64,
    rule: RuleNo,
    state: u64,
    attempt: AttemptNo,
) -> Result<(), AllocError>
    requires { IsTally (length plan.now.rules) tally.now }
    ensures { (H : List RecordValue) → Tells tally.now H
        → OnOk result (out.new.items ≡ out.old.items
        ++ state_line plan.now H moment rule.0 state attempt.0) }
{
    add_field(out, moment)?;
    add_field(out, rule.0 as u64)?;
    add_field(out, state)?;
    add_field(out, attempt.0)?;
    add_tally(out, plan, tally)
}

// The state that a rule enters with a failure.
fn state_behind_failure(tally: &Tally, rule: RuleNo) -> u64
    requires { rule.0 < length tally.now.rows.items }
    ensures { (H : List RecordValue) → Tells tally.now H
        → result ≡ (if has_failed H rule.0 then 3 else 0) }
{
    if tally.has_failed(rule) {
        FAILED
    } else {
        WAITING
    }
}

// Writes two words and a number.
fn add_run(out: &mut Vec<u8>, words: &[u8], run: u64) -> Result<(), AllocError>
    ensures { OnOk result (out.new.items ≡ out.old.items ++ (words.now ++ decimal run)) }
{
    out.extend_from_slice(words)?;
    add_number(out, run)
}

// The plan's name of a file.
fn file_name(plan: &Plan, file: FileNo) -> &[u8]
    ensures { result.now ≡ file_name plan.now file.0 }
{
    match plan.files.get(file.0 as usize) {
        Some(row) => row.name.as_bytes(),
        None => b"",
    }
}

fn add_drop(out: &mut Vec<u8>, plan: &Plan, file: FileNo) -> Result<(), AllocError>
    ensures { OnOk result (out.new.items ≡ out.old.items
        ++ (codes "# dropped " ++ file_name plan.now file.0)) }
{
    out.extend_from_slice(b"# dropped ")?;
    out.extend_from_slice(file_name(plan, file))
}

fn end_word(kind: EndKind) -> &'static [u8]
    ensures { result.now ≡ end_word kind }
{
    match kind {
        EndKind::Complete => b"complete",
        EndKind::CommandFailed => b"failed",
        EndKind::InputsTooLarge => b"inputs too large",
        EndKind::NoRoom => b"no room",
        EndKind::Waited => b"waited",
        EndKind::Cleaned => b"",
    }
}

fn add_end(out: &mut Vec<u8>, kind: EndKind) -> Result<(), AllocError>
    ensures { OnOk result (out.new.items ≡ out.old.items
        ++ (codes "# ended " ++ end_word kind)) }
{
    out.extend_from_slice(b"# ended ")?;
    out.extend_from_slice(end_word(kind))
}

/// Writes the line of a record, by the tally behind it, without the newline.
pub(crate) fn add_line(
    out: &mut Vec<u8>,
    plan: &Plan,
    tally: &Tally,
    entry: &Record,
) -> Result<(), AllocError>
    requires counted { IsTally (length plan.now.rules) tally.now }
    requires inside { is_below (length plan.now.rules) entry.now ≡ true }
    ensures { (H : List RecordValue) → Tells tally.now H
        → OnOk result (out.new.items ≡ out.old.items ++ record_line plan.now H entry.now) }
{
    match entry {
        Record::Opened { run, .. } => add_run(out, b"# opened run ", *run),
        Record::Resumed { run, .. } => add_run(out, b"# resumed run ", *run),
        Record::Started {
            moment,
            rule,
            attempt,
            ..
        } => add_state(out, plan, tally, *moment, *rule, RUNNING, *attempt),
        Record::Done {
            moment,
            rule,
            attempt,
            ..
        } => add_state(out, plan, tally, *moment, *rule, COMPLETE, *attempt),
        Record::Failed {
            moment,
            rule,
            attempt,
            ..
        } => {
            let state = state_behind_failure(tally, *rule);
            add_state(out, plan, tally, *moment, *rule, state, *attempt)
        }
        Record::Lost {
            moment,
            rule,
            attempt,
        } => add_state(out, plan, tally, *moment, *rule, WAITING, *attempt),
        Record::Dropped { file, .. } => add_drop(out, plan, *file),
        Record::Ended { kind, .. } => add_end(out, *kind),
    }
}
