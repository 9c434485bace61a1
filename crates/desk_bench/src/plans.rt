//! Plans and folders.
ghost use Rattle.std.specs.Prelude.{◌≡◌, ◌≢◌, ℕ, IfOk, None, true, map, sum_by, nat_le};
ghost use Rattle.std.specs.List.{list_any};
ghost use Rattle.std.specs.Str.{bytes_eq};
ghost use Rattle.flow_types.specs.Plans.{IsValid, bound_of, files_of};
ghost use Rattle.file_store.specs.Outputs.{file_name};
ghost use Rattle.run_history.specs.Legal.{are_within};
ghost use Rattle.desk.specs.Kept.{logged};
ghost use Rattle.desk.specs.State.{AreOutputs};

use flow_types::{
    Bytes, FileRow, Memory, Name, Needs, Plan, Port, RawFile, RawFlow, RawRule, Rows, Text,
};
use mem_outside::MemSite;
use rule_graph::{fits_limits, plan_of};
use std::alloc::Global;

/// The name of the log.
pub const LOG: &[u8] = b"log";

// The file of a word: a name, or a name with the one that it has elsewhere, as `near=far`.
fn raw_file(alloc: Global, word: &str) -> Result<RawFile, Memory> {
    match word.split_once('=') {
        Some((local, remote)) => Ok(RawFile {
            local: Text::of(alloc, local)?,
            remote: Some(Text::of(alloc, remote)?),
        }),
        None => Ok(RawFile {
            local: Text::of(alloc, word)?,
            remote: None,
        }),
    }
}

// The files of these words.
fn raw_files(alloc: Global, words: &str) -> Result<Rows<RawFile>, Memory> {
    let mut rows = Rows::new(alloc);
    for word in words.split_whitespace() {
        if rows.push(raw_file(alloc, word)?).is_err() {
            return Err(Memory);
        }
    }
    Ok(rows)
}

/// A rule of these outputs and inputs, with these needs. Its command is `cat in > out`.
pub fn raw_rule(
    alloc: Global,
    outputs: &str,
    inputs: &str,
    needs: Needs,
) -> Result<RawRule, Memory> {
    Ok(RawRule {
        place: 0,
        outputs: raw_files(alloc, outputs)?,
        inputs: raw_files(alloc, inputs)?,
        command: Text::of(alloc, "cat in > out")?,
        local: false,
        needs,
        env: Rows::new(alloc),
    })
}

/// A plan or a folder couldn't be made.
#[derive(Clone, Copy, Debug)]
pub struct Unmade;

/// The plan of a flow.
pub fn planned(alloc: Global, flow: RawFlow) -> Result<Plan, Unmade>
    ensures { IfOk result IsValid }
{
    if !fits_limits(&flow) {
        return Err(Unmade);
    }
    match plan_of(alloc, flow) {
        Ok(plan) => Ok(plan),
        Err(_) => Err(Unmade),
    }
}

/// A folder with these files, each of which holds its name.
pub fn folder(alloc: Global, names: &[&str]) -> Result<MemSite, Unmade> {
    let mut site = MemSite::new(alloc);
    for name in names.iter() {
        let Ok(name) = Name::of(alloc, name.as_bytes()) else {
            return Err(Unmade);
        };
        if site.put(&name, name.as_bytes()).is_err() {
            return Err(Unmade);
        }
    }
    Ok(site)
}

fn is_named(row: &FileRow, name: &Name) -> bool
    ensures { result ≡ bytes_eq row.now.name name.now }
{
    row.name.as_bytes() == name.as_bytes()
}

fn has_name(rows: &[FileRow], name: &Name) -> bool
    ensures { result ≡ list_any (λ row. bytes_eq row.name name.now) rows.now }
{
    match rows {
        [] => false,
        [row, rows @ ..] => is_named(row, name) || has_name(rows, name),
    }
}

/// Whether no file of the plan has the name.
pub(crate) fn is_apart(plan: &Plan, name: &Name) -> bool
    ensures { result ≡ true → (f : ℕ) → file_name plan.now f ≢ name.now }
{
    let _bytes = name.as_bytes();
    !has_name(plan.files.as_slice(), name)
}

// What the ports' files are to hold: each its name.
fn contents(alloc: Global, plan: &Plan, ports: &[Port]) -> Result<Rows<Bytes>, Memory> {
    let mut rows = Rows::new(alloc);
    for port in ports {
        if let Some(row) = plan.files.get(port.file.0 as usize) {
            if rows.push(Bytes::of(alloc, row.name.as_bytes())?).is_err() {
                return Err(Memory);
            }
        }
    }
    Ok(rows)
}

fn bound_of(plan: &Plan, port: &Port) -> u64
    ensures { result ≡ bound_of plan.now port.now.file.0 }
{
    match plan.files.get(port.file.0 as usize) {
        Some(row) => row.bound,
        None => 0,
    }
}

// Whether there is a content for each port, within the bound of its file.
fn are_within(plan: &Plan, ports: &[Port], outs: &[Bytes]) -> bool
    ensures { result ≡ are_within plan.now (files_of ports.now) (map logged outs.now) }
{
    match ports {
        [] => outs.is_empty(),
        [port, ports @ ..] => match outs {
            [] => false,
            [out, outs @ ..] => {
                out.as_slice().len() as u64 <= bound_of(plan, port) && are_within(plan, ports, outs)
            }
        },
    }
}

// Whether the contents have at most so many bytes together.
fn are_within_together(outs: &[Bytes], bound: u64) -> bool
    ensures { result ≡ nat_le (sum_by (λ row. row.size) (map logged outs.now)) bound }
{
    match outs {
        [] => true,
        [out, outs @ ..] => {
            let len = out.as_slice().len() as u64;
            len <= bound && are_within_together(outs, bound - len)
        }
    }
}

/// What a rule makes: each file holds its name.
pub(crate) fn outputs(alloc: Global, plan: &Plan, rule: usize) -> Result<Rows<Bytes>, Memory>
    ensures { IfOk result (AreOutputs plan.now rule) }
{
    let Some(row) = plan.rules.get(rule) else {
        return Err(Memory);
    };
    let outs = contents(alloc, plan, row.outputs.as_slice())?;
    if are_within(plan, row.outputs.as_slice(), outs.as_slice())
        && are_within_together(outs.as_slice(), row.bound)
    {
        Ok(outs)
    } else {
        Err(Memory)
    }
}
