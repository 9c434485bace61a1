//! Prints the text of a cause.
ghost use Rattle.std.specs.Prelude.{◌≡◌, ◌≤◌, ◌++◌, IfOk, IsTrue, string_bytes};
ghost use Rattle.flow_types.specs.Plans.{IsValid};
ghost use Rattle.desk.specs.Kept.{IsLegal};
ghost use Rattle.report.specs.Causes.{kind_of, was_read};
ghost use Rattle.master_run.specs.Asked.{choice};
ghost use Rattle.master_run.specs.Prints.{IsPrinted, Told, end_text, printed_cause, summary_line};
ghost use Rattle.master_run.specs.Prints.{text_of};
ghost use Rattle.master_run.specs.Words.{makes_up};

use crate::asking::{Refusal, chosen};
use crate::stored::stored_bytes;
use command_words::{Flow, Options};
use flow_types::{Bytes, Memory, Plan, Record};
use log_text::print_log;
use outside::{Fault, Sink};
use report::{Cause, Kind};
use std::alloc::Global;

// Whether the words make the flow up.
fn makes_up(alloc: Global, words: &[String]) -> Result<bool, Memory>
    ensures { IfOk result (λ made_up. made_up ≡ makes_up (choice words.now)) }
{
    match chosen(alloc, words) {
        Ok(Options { flow, .. }) => Ok(matches!(&flow, Flow::Generated { .. })),
        Err(Refusal::Said(_)) => Ok(false),
        Err(_) => Err(Memory),
    }
}

// The second line of a flow that is made up.
fn summary_line(alloc: Global, plan: &Plan, records: &[Record]) -> Result<String, Memory>
    requires valid { IsValid plan.now }
    ensures { IfOk result (λ line. string_bytes line ≡ summary_line plan.now records.now) }
{
    let rules = plan.rules.len();
    let bytes = stored_bytes(alloc, plan, records)?;
    match format!(in alloc; "makeflow: generated {rules} rules, {bytes} bytes\n") {
        Ok(line) => Ok(line),
        Err(_) => Err(Memory),
    }
}

// The line, and behind it a second one.
fn with_line(line: Bytes, second: &[u8]) -> Result<Bytes, Memory>
    ensures { IfOk result (λ lines. lines ≡ line ++ second.now) }
{
    let mut lines = line.into_vec();
    match lines.extend_from_slice(second) {
        Ok(()) => Ok(Bytes::from_vec(lines)),
        Err(_) => Err(Memory),
    }
}

// What is printed of a run that is complete.
fn end_text(
    alloc: Global,
    words: &[String],
    plan: &Plan,
    records: &[Record],
    cause: &Cause,
) -> Result<Bytes, Memory>
    requires valid { IsValid plan.now }
    ensures { IfOk result (λ text. text
        ≡ end_text (makes_up (choice words.now)) plan.now records.now cause.now) }
{
    let line = cause.line(alloc, plan)?;
    if makes_up(alloc, words)? {
        let second = summary_line(alloc, plan, records)?;
        with_line(line, second.as_bytes())
    } else {
        Ok(line)
    }
}

fn text_of(
    alloc: Global,
    words: &[String],
    plan: &Plan,
    records: &[Record],
    cause: &Cause,
) -> Result<Bytes, Memory>
    requires valid { IsTrue (was_read (kind_of cause.now)) → IsValid plan.now }
    requires legal { IsTrue (was_read (kind_of cause.now)) → IsLegal plan.now records.now }
    ensures { IfOk result (λ text. text
        ≡ text_of (choice words.now) plan.now records.now cause.now) }
{
    match cause.kind() {
        Kind::LogPrinted => print_log(alloc, plan, records),
        Kind::Completed => end_text(alloc, words, plan, records, cause),
        _ => cause.line(alloc, plan),
    }
}

fn printed_cause(cause: Cause, before: u64, after: u64, printed: Result<(), Fault>) -> Cause
    ensures { result ≡ printed_cause before after cause printed }
{
    match printed {
        Ok(()) => cause,
        Err(Fault::Memory) => Cause::Memory,
        Err(Fault::Failed) => {
            if cause.kind().is_end() {
                Cause::SinkFault { before, after }
            } else {
                cause
            }
        }
    }
}

/// Prints the text of a call with these words that ended by this cause, and answers the cause that
/// stands then.
pub fn tell<O: Sink>(
    alloc: Global,
    words: &[String],
    plan: &Plan,
    records: &[Record],
    cause: Cause,
    out: &mut O,
) -> Cause
    requires valid { IsTrue (was_read (kind_of cause)) → IsValid plan.now }
    requires legal { IsTrue (was_read (kind_of cause)) → IsLegal plan.now records.now }
    ensures told { O.tells → Told (choice words.now) plan.now records.now
        (O.count out.old) (O.count out.new) (O.bytes out.old) (O.bytes out.new) cause result }
    ensures stands { IsPrinted (O.count out.old) (O.count out.new) cause result }
    ensures later { O.count out.old ≤ O.count out.new }
{
    let before = out.faults();
    match text_of(alloc, words, plan, records, &cause) {
        Ok(text) => {
            let printed = out.write(text.as_slice());
            printed_cause(cause, before, out.faults(), printed)
        }
        Err(_) => {
            let _ = out.write(b"makeflow: out of memory\n");
            Cause::Memory
        }
    }
}
