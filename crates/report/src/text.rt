//! What a line says of each cause.
ghost use Rattle.std.specs.Prelude.{◌≡◌, ◌++◌, IfOk, codes};
ghost use Rattle.std.specs.Fmt.{decimal};
ghost use Rattle.report.specs.Lines.{failure_text, file_name, output_name, output_name_in};
ghost use Rattle.report.specs.Lines.{rule_text, text_of, fault_text, needs_text, inputs_text};
ghost use Rattle.report.specs.Lines.{room_text, source_text, stored_text, wait_text};

use crate::cause::{Cause, FlowFault};
use crate::flow_text::{graph_text, make_text};
use crate::jx_text::jx_text;
use flow_types::{Failure, FileNo, Name, Plan, Rule, RuleNo};
use std::alloc::{AllocError, Global};

// What is said of a cause.
pub(crate) fn text_of(alloc: Global, plan: &Plan, cause: &Cause) -> Result<Vec<u8>, AllocError>
    ensures { IfOk result (λ text. text.items ≡ text_of plan.now cause.now) }
{
    match cause {
        Cause::Complete { rules, collected } => complete_text(alloc, *rules, *collected),
        Cause::Cleaned { removed } => numbered(alloc, b"cleaned, ", *removed, b" files removed"),
        Cause::Printed { .. } | Cause::SinkFault { .. } => Ok(Vec::new(alloc)),
        Cause::CommandFailed { rule, why } => rule_text(alloc, plan, *rule, *why),
        Cause::Usage => Vec::from_slice(alloc, b"usage: makeflow [options] FILE"),
        Cause::FlowMissing { name } => around(alloc, b"no flow file ", name.as_bytes(), b""),
        Cause::FlowRefused { flow, fault } => refusal_text(alloc, flow, fault),
        Cause::LogNameTaken { .. } => Vec::from_slice(alloc, b"the log's name is in the flow"),
        Cause::NeedsTooMuch { rule, need, total } => needs_text(alloc, *rule, *need, *total),
        Cause::LogDamaged { at } => damage_text(alloc, *at),
        Cause::OtherFlow { .. } => Vec::from_slice(alloc, b"the log is of another flow"),
        Cause::NotLegal { at } => numbered(alloc, b"log record ", *at, b" is not allowed"),
        Cause::StoredAboveLimit { stored, limit } => stored_text(alloc, *stored, *limit),
        Cause::SourceMissing { file } => source_text(alloc, plan, *file, b" missing"),
        Cause::SourceTooLarge { file, .. } => source_text(alloc, plan, *file, b" too large"),
        Cause::SourceChanged { file, .. } => source_text(alloc, plan, *file, b" changed"),
        Cause::FileDamaged { file, .. } => {
            around(alloc, b"file ", file_name(plan, *file), b" damaged")
        }
        Cause::SiteFault { .. } => Vec::from_slice(alloc, b"folder fault"),
        Cause::RunnerFault { .. } => Vec::from_slice(alloc, b"runner fault"),
        Cause::HallFault { .. } => Vec::from_slice(alloc, b"network fault"),
        Cause::NoRoom {
            rule,
            need,
            stored,
            limit,
        } => room_text(alloc, *rule, *need, *stored, *limit),
        Cause::InputsTooLarge { rule, total } => inputs_text(alloc, *rule, *total),
        Cause::Waited(wait) => wait_text(alloc, wait.idles, wait.rule),
        Cause::Memory => Vec::from_slice(alloc, b"out of memory"),
        Cause::LogFull { .. } => Vec::from_slice(alloc, b"log full"),
    }
}

// How much of a run is done.
fn complete_text(alloc: Global, rules: u32, collected: u32) -> Result<Vec<u8>, AllocError>
    ensures { IfOk result (λ text. text.items ≡ codes "complete, " ++ decimal rules
        ++ (codes " rules, " ++ decimal collected ++ codes " files collected")) }
{
    let text = format!(in alloc; "complete, {rules} rules, {collected} files collected")?;
    Ok(text.into_bytes())
}

// Where the log is damaged.
fn damage_text(alloc: Global, at: u64) -> Result<Vec<u8>, AllocError>
    ensures { IfOk result (λ text. text.items ≡ codes "log damaged at " ++ decimal at) }
{
    let text = format!(in alloc; "log damaged at {at}")?;
    Ok(text.into_bytes())
}

// How much the made files have together.
fn stored_text(alloc: Global, stored: u64, limit: u64) -> Result<Vec<u8>, AllocError>
    ensures { IfOk result (λ text. text.items ≡ stored_text stored limit) }
{
    let text = format!(in alloc; "stored {stored} is above the limit {limit}")?;
    Ok(text.into_bytes())
}

// What is said of a file that no rule makes.
fn source_text(alloc: Global, plan: &Plan, file: FileNo, what: &[u8]) -> Result<Vec<u8>, AllocError>
    ensures { IfOk result (λ text. text.items ≡ source_text plan.now file.0 what.now) }
{
    around(alloc, b"source ", file_name(plan, file), what)
}

// What a rule needs more than there is.
fn needs_text(alloc: Global, rule: RuleNo, need: u64, total: u64) -> Result<Vec<u8>, AllocError>
    ensures { IfOk result (λ text. text.items ≡ needs_text rule.0 need total) }
{
    let number = rule.0;
    let text = format!(in alloc; "rule {number} needs {need}, there is {total}")?;
    Ok(text.into_bytes())
}

// For which rule there is no room.
fn room_text(
    alloc: Global,
    rule: RuleNo,
    need: u64,
    stored: u64,
    limit: u64,
) -> Result<Vec<u8>, AllocError>
    ensures { IfOk result (λ text. text.items ≡ room_text rule.0 need stored limit) }
{
    let number = rule.0;
    let text = format!(in alloc;
        "no room for rule {number}: needs {need}, stored {stored}, limit {limit}"
    )?;
    Ok(text.into_bytes())
}

// How much the inputs of a rule have together.
fn inputs_text(alloc: Global, rule: RuleNo, total: u64) -> Result<Vec<u8>, AllocError>
    ensures { IfOk result (λ text. text.items ≡ inputs_text rule.0 total) }
{
    let number = rule.0;
    let text = format!(in alloc; "inputs of rule {number} too large: {total}")?;
    Ok(text.into_bytes())
}

// For which rule nobody came, and for how many idle looks.
fn wait_text(alloc: Global, idles: u64, rule: RuleNo) -> Result<Vec<u8>, AllocError>
    ensures { IfOk result (λ text. text.items ≡ wait_text idles rule.0) }
{
    let number = rule.0;
    let text = format!(in alloc; "waited, {idles} idle, rule {number}")?;
    Ok(text.into_bytes())
}

// Why the flow of this name is refused.
fn refusal_text(alloc: Global, flow: &Name, fault: &FlowFault) -> Result<Vec<u8>, AllocError>
    ensures { IfOk result (λ text. text.items ≡ flow.now ++ codes ": " ++ fault_text fault.now) }
{
    let why = match fault {
        FlowFault::Make(fault) => make_text(alloc, fault)?,
        FlowFault::Jx(fault) => jx_text(alloc, fault)?,
        FlowFault::Graph(fault) => graph_text(alloc, fault)?,
    };
    around(alloc, flow.as_bytes(), b": ", &why)
}

// What is said of a failed rule.
fn rule_text(alloc: Global, plan: &Plan, rule: RuleNo, why: Failure) -> Result<Vec<u8>, AllocError>
    ensures { IfOk result (λ text. text.items ≡ rule_text plan.now rule.0 why) }
{
    let number = rule.0;
    let mut text = format!(in alloc; "rule {number} failed: ")?.into_bytes();
    let why = failure_text(alloc, plan, rule, why)?;
    text.extend_from_slice(&why)?;
    Ok(text)
}

// What a rule failed with.
fn failure_text(
    alloc: Global,
    plan: &Plan,
    rule: RuleNo,
    why: Failure,
) -> Result<Vec<u8>, AllocError>
    ensures { IfOk result (λ text. text.items ≡ failure_text plan.now rule.0 why) }
{
    match why {
        Failure::Status(status) => {
            let text = format!(in alloc; "status {status}")?;
            Ok(text.into_bytes())
        }
        Failure::MissingOutput(index) => around(
            alloc,
            b"output ",
            output_name(plan, rule, index),
            b" missing",
        ),
        Failure::TooLong { index, size } => {
            let size = format!(in alloc; " too long, {size} bytes")?;
            around(
                alloc,
                b"output ",
                output_name(plan, rule, index),
                size.as_bytes(),
            )
        }
    }
}

// A number between two texts.
fn numbered(alloc: Global, before: &[u8], number: u32, after: &[u8]) -> Result<Vec<u8>, AllocError>
    ensures { IfOk result (λ text. text.items ≡ before.now ++ decimal number ++ after.now) }
{
    let digits = format!(in alloc; "{number}")?;
    around(alloc, before, digits.as_bytes(), after)
}

// A name between two texts.
pub(crate) fn around(
    alloc: Global,
    before: &[u8],
    name: &[u8],
    after: &[u8],
) -> Result<Vec<u8>, AllocError>
    ensures { IfOk result (λ text. text.items ≡ before.now ++ name.now ++ after.now) }
{
    let mut text = Vec::from_slice(alloc, before)?;
    text.extend_from_slice(name)?;
    text.extend_from_slice(after)?;
    Ok(text)
}

// The plan's name of a file.
fn file_name(plan: &Plan, file: FileNo) -> &[u8]
    ensures { result.now ≡ file_name plan.now file.0 }
{
    match plan.files.get(file.0 as usize) {
        Some(row) => row.name.as_bytes(),
        None => b"",
    }
}

// The plan's name of a rule's output.
fn output_name(plan: &Plan, rule: RuleNo, index: u32) -> &[u8]
    ensures { result.now ≡ output_name plan.now rule.0 index }
{
    match plan.rules.get(rule.0 as usize) {
        Some(row) => output_name_in(plan, row, index),
        None => b"",
    }
}

// The same of a rule of the plan.
fn output_name_in<'a>(plan: &'a Plan, rule: &'a Rule, index: u32) -> &'a [u8]
    ensures { result.now ≡ output_name_in plan.now rule.now index }
{
    match rule.outputs.get(index as usize) {
        Some(port) => file_name(plan, port.file),
        None => b"",
    }
}
