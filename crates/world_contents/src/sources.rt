//! The sources of a plan.
ghost use Rattle.std.specs.Prelude.{◌≡◌, ◌∷◌, ◌++◌, [], ℕ, IfOk, None, OnOk, filter, length, map};
ghost use Rattle.std.specs.Prelude.{replicate, ◌<◌, ◌≤◌, ◌+◌, ◌^◌, nat_le};
ghost use Rattle.flow_types.specs.Plans.{IsValid, is_source, sources_of, most_bytes};
ghost use Rattle.flow_types.specs.Serial.{of_sources};
ghost use Rattle.world_contents.specs.Holdings.{held_in};
ghost use Rattle.world_laws.specs.Reach.{opening};
ghost use Rattle.world_contents.specs.Sources.{sources_in, fit_sources};
ghost use Rattle.std.specs.List.{list_all};

use crate::contents::put_all;
use crate::rows::rows_for;
use flow_types::{Bytes, FileNo, Memory, Plan, Record, Rows};
use rule_graph::plan_digest;
use run_history::Options;
use std::alloc::Global;

/// There is one content for each source of the plan, each of at most 67,108,864 bytes.
pub fn fit_sources(plan: &Plan, sources: &Rows<Bytes>) -> bool
    requires { IsValid plan.now }
    ensures { result ≡ fit_sources plan.now sources.now }
{
    sources.len() == source_count(plan) && are_small(sources.as_slice())
}

/// The record of the first run.
pub fn opening(
    alloc: Global,
    plan: &Plan,
    sources: &[Bytes],
    options: &Options,
) -> Result<Record, Memory>
    requires valid { IsValid plan.now }
    requires sources { length sources.now ≡ length (sources_of plan.now) }
    ensures { IfOk result (λ entry. entry
        ≡ opening plan.now options.now (sources_in plan.now sources.now)) }
{
    let rows = rows_for(alloc, sources)?;
    Ok(Record::Opened {
        moment: 0,
        run: 0,
        retries: options.retries,
        limit: options.limit,
        plan: plan_digest(plan),
        sources: rows,
    })
}

// No rule makes the file.
fn is_source(plan: &Plan, file: FileNo) -> bool
    ensures { result ≡ is_source plan.now file.0 }
{
    match plan.files.get(file.0 as usize) {
        Some(row) => row.maker.is_none(),
        None => false,
    }
}

// The sources, ascending.
fn sources_of(alloc: Global, plan: &Plan) -> Result<Vec<FileNo>, Memory>
    requires { IsValid plan.now }
    ensures { IfOk result (λ files. map (λ file. file.0) files.items ≡ sources_of plan.now) }
{
    let mut files = Vec::new(alloc);
    for file in 0..plan.files.len() as u32 {
        take_source(&mut files, plan, FileNo(file))?;
    }
    Ok(files)
}

// The file is taken where it is a source.
fn take_source(files: &mut Vec<FileNo>, plan: &Plan, file: FileNo) -> Result<(), Memory>
    ensures { OnOk result (map (λ file. file.0) files.new.items
        ≡ map (λ file. file.0) files.old.items ++ filter (is_source plan.now) (file.0 ∷ [])) }
{
    if !is_source(plan, file) {
        return Ok(());
    }
    match files.push(file) {
        Ok(()) => Ok(()),
        Err(_) => Err(Memory),
    }
}

// A place for each of so many files, and no content.
fn places(alloc: Global, count: usize) -> Result<Vec<Option<Bytes>>, Memory>
    ensures { IfOk result (λ contents. contents.items ≡ replicate count None) }
{
    let mut contents = Vec::new(alloc);
    for _ in 0..count {
        if contents.push(None).is_err() {
            return Err(Memory);
        }
    }
    Ok(contents)
}

/// The contents of the sources alone.
pub fn first_contents(
    alloc: Global,
    plan: &Plan,
    sources: &[Bytes],
) -> Result<Vec<Option<Bytes>>, Memory>
    requires valid { IsValid plan.now }
    requires sources { length sources.now ≡ length (sources_of plan.now) }
    ensures places { IfOk result (λ contents. length contents.items ≡ length plan.now.files) }
    ensures held { IfOk result (λ contents. (f : ℕ) → held_in contents.items f
        ≡ of_sources plan.now (sources_in plan.now sources.now) f) }
{
    let files = sources_of(alloc, plan)?;
    let mut contents = places(alloc, plan.files.len())?;
    put_all(alloc, &mut contents, files.as_slice(), sources)?;
    Ok(contents)
}

// How many sources the plan has.
fn source_count(plan: &Plan) -> usize
    requires { IsValid plan.now }
    ensures { result ≡ length (sources_of plan.now) }
{
    let mut count = 0;
    for file in 0..plan.files.len() as u32 {
        count = count_source(count, plan, FileNo(file));
    }
    count
}

// One more, where the file is a source.
fn count_source(count: usize, plan: &Plan, file: FileNo) -> usize
    requires { count < 2 ^ 32 }
    ensures counted { result ≡ count + length (filter (is_source plan.now) (file.0 ∷ [])) }
    ensures most { result ≤ count + 1 }
{
    if is_source(plan, file) {
        count + 1
    } else {
        count
    }
}

/// The most bytes of a source.
const MOST_BYTES: usize = 67_108_864;

// Each content is within its limit.
fn are_small(contents: &[Bytes]) -> bool
    ensures { result ≡ list_all (λ content. nat_le (length content) most_bytes) contents.now }
{
    contents
        .iter()
        .all(|content| content.as_slice().len() <= MOST_BYTES)
}
