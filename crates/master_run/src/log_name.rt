//! Which names a log can't have.
ghost use Rattle.std.specs.Prelude.{◌≡◌, ◌≢◌, ℕ, List, IfOk, IsErrOf, None, Some};
ghost use Rattle.std.specs.Prelude.{find, map};
ghost use Rattle.std.specs.Option.{option_copied};
ghost use Rattle.flow_types.specs.Names.{is_folder_of};
ghost use Rattle.flow_types.specs.Plans.{IsValid};
ghost use Rattle.file_store.specs.Outputs.{file_name};
ghost use Rattle.master_run.specs.LogNames.{clash, with_log_name};
ghost use Rattle.master_run.specs.Stages.{OfFlow, SaysRefusal, Stage};

use crate::asking::Refusal;
use flow_types::{FileRow, Memory, Name, Plan};
use report::Cause;
use std::alloc::Global;

fn is_folder_of(folder: &[u8], name: &[u8]) -> bool
    ensures { result ≡ is_folder_of folder.now name.now }
{
    name.starts_with(folder) && name[folder.len()..].starts_with(b"/")
}

fn clash(a: &[u8], b: &[u8]) -> bool
    ensures { result ≡ clash a.now b.now }
{
    a == b || is_folder_of(a, b) || is_folder_of(b, a)
}

// The name of the least file beside which the log can't stand.
fn taken_file<'a>(log: &[u8], files: &'a [FileRow]) -> Option<&'a Name>
    ensures { option_copied result ≡ find (clash log.now) (map (λ row. row.name) files.now) }
{
    for row in files {
        if clash(log, row.name.as_bytes()) {
            return Some(&row.name);
        }
    }
    None
}

// The plan, where the log can stand beside each of its files.
fn beside_files(alloc: Global, log: &Name, plan: Plan) -> Result<Plan, Refusal>
    requires { IsValid plan }
    ensures stage { Stage (with_log_name log.now None plan) result }
    ensures flow { (name : List ℕ) → OfFlow name result }
    ensures kind { SaysRefusal result }
    ensures valid { IfOk result IsValid }
    ensures apart { IfOk result (λ plan. (f : ℕ) → file_name plan f ≢ log.now) }
    ensures no_site { IsErrOf result Refusal.Site → ⊥ }
{
    let name = log.as_bytes();
    match taken_file(name, plan.files.as_slice()) {
        Some(name) => match name.copy(alloc) {
            Ok(file) => Err(Refusal::Said(Cause::LogNameTaken { file })),
            Err(Memory) => Err(Refusal::Memory),
        },
        None => Ok(plan),
    }
}

// The plan, where the log can stand beside this flow file and each of its files.
fn beside_flow(alloc: Global, log: &Name, flow: Name, plan: Plan) -> Result<Plan, Refusal>
    requires { IsValid plan }
    ensures stage { Stage (with_log_name log.now (Some flow) plan) result }
    ensures flow { (name : List ℕ) → OfFlow name result }
    ensures kind { SaysRefusal result }
    ensures valid { IfOk result IsValid }
    ensures apart { IfOk result (λ plan. (f : ℕ) → file_name plan f ≢ log.now) }
    ensures no_site { IsErrOf result Refusal.Site → ⊥ }
{
    if clash(log.as_bytes(), flow.as_bytes()) {
        return Err(Refusal::Said(Cause::LogNameTaken { file: flow }));
    }
    beside_files(alloc, log, plan)
}

/// The plan, where the log can stand beside the flow file, if there is one, and each of its files.
pub fn with_log_name(
    alloc: Global,
    log: &Name,
    flow: Option<Name>,
    plan: Plan,
) -> Result<Plan, Refusal>
    requires { IsValid plan }
    ensures stage { Stage (with_log_name log.now flow plan) result }
    ensures flow { (name : List ℕ) → OfFlow name result }
    ensures kind { SaysRefusal result }
    ensures valid { IfOk result IsValid }
    ensures apart { IfOk result (λ plan. (f : ℕ) → file_name plan f ≢ log.now) }
    ensures no_site { IsErrOf result Refusal.Site → ⊥ }
{
    match flow {
        Some(flow) => beside_flow(alloc, log, flow, plan),
        None => beside_files(alloc, log, plan),
    }
}
