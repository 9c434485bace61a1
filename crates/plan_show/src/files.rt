//! The text of files: by whom each is made and taken in.
ghost use Rattle.std.specs.Prelude.{◌≡◌, ◌<◌, ◌++◌, ℕ, [], true, All, IfOk, OnOk};
ghost use Rattle.std.specs.Prelude.{codes, length, slice_index_or, slice_set, string_bytes};
ghost use Rattle.std.specs.Fmt.{decimal};
ghost use Rattle.flow_types.specs.Plans.{IsValid, contains_number, files_of};
ghost use Rattle.plan_show.specs.Files.{IsIndexBelow, IsWired, are_below, ends_with};
ghost use Rattle.plan_show.specs.Files.{file_line, files_text, joined_by, made_text, numbered_lines};
ghost use Rattle.plan_show.specs.Files.{rules_list, taken_text, with_rule};

use crate::text::{add_number, add_quoted};
use flow_types::{FileNo, FileRow, Memory, Plan, Port, Rows, RuleNo};
use std::alloc::{AllocError, Global};

fn no_takers(alloc: Global, files: usize) -> Result<Vec<Rows<u32>>, AllocError>
    ensures len { IfOk result (λ index. length index.items ≡ files) }
    ensures empty { IfOk result (λ index. All (λ takers. takers ≡ []) index.items) }
{
    let mut index = Vec::new(alloc);
    'files: for _file in 0..files {
        index.push(Rows::new(alloc))?;
    }
    Ok(index)
}

fn ends_with(takers: &[u32], rule: u32) -> bool
    ensures { result ≡ ends_with takers.now rule }
{
    match takers.last() {
        Some(last) => *last == rule,
        None => false,
    }
}

// Puts a rule behind the takers of a file, once.
fn add_taker(index: &mut Vec<Rows<u32>>, file: FileNo, rule: u32) -> Result<(), AllocError>
    requires { file.0 < length index.old.items }
    ensures { OnOk result (index.new.items ≡ slice_set index.old.items file.0
        (with_rule (slice_index_or index.old.items file.0 []) rule)) }
{
    if ends_with(index[file.0 as usize].as_slice(), rule) {
        return Ok(());
    }
    match index[file.0 as usize].push(rule) {
        Ok(()) => Ok(()),
        Err(_) => Err(AllocError),
    }
}

// Puts a rule behind the takers of each of its inputs.
fn add_takers(index: &mut Vec<Rows<u32>>, rule: u32, inputs: &Rows<Port>) -> Result<(), AllocError>
    requires { All (λ port. port.file.0 < length index.old.items) inputs.now }
    ensures len { OnOk result (length index.new.items ≡ length index.old.items) }
    ensures each { OnOk result ((f : ℕ)
        → are_below rule (slice_index_or index.old.items f []) ≡ true
        → slice_index_or index.new.items f [] ≡ joined_by (contains_number f (files_of inputs.now))
        (slice_index_or index.old.items f []) rule) }
{
    for port in inputs.as_slice() {
        add_taker(index, port.file, rule)?;
    }
    Ok(())
}

// The takers of each file.
fn takers_of(alloc: Global, plan: &Plan) -> Result<Vec<Rows<u32>>, AllocError>
    requires { IsWired plan.now }
    ensures { IfOk result (λ index. IsIndexBelow plan.now (length plan.now.rules) index.items) }
{
    let mut index = no_takers(alloc, plan.files.len())?;
    'rules: for rule in 0..plan.rules.len() {
        let row = &plan.rules.as_slice()[rule];
        add_takers(&mut index, rule as u32, &row.inputs)?;
    }
    Ok(index)
}

fn add_maker(out: &mut String, maker: Option<RuleNo>) -> Result<(), AllocError>
    ensures { OnOk result (string_bytes out.new ≡ string_bytes out.old ++ made_text maker) }
{
    match maker {
        Some(rule) => {
            out.push_str(": made by ")?;
            add_number(out, rule.0 as u64)
        }
        None => out.push_str(": source"),
    }
}

fn add_rule(out: &mut String, rule: u32) -> Result<(), AllocError>
    ensures { OnOk result (string_bytes out.new ≡ string_bytes out.old
        ++ (codes " " ++ decimal rule)) }
{
    out.push_str(" ")?;
    add_number(out, rule as u64)
}

fn add_rules(out: &mut String, rules: &[u32]) -> Result<(), AllocError>
    ensures { OnOk result (string_bytes out.new ≡ string_bytes out.old ++ rules_list rules.now) }
{
    for rule in rules {
        add_rule(out, *rule)?;
    }
    Ok(())
}

fn add_taking(out: &mut String, takers: &[u32]) -> Result<(), AllocError>
    ensures { OnOk result (string_bytes out.new ≡ string_bytes out.old ++ taken_text takers.now) }
{
    if takers.is_empty() {
        return Ok(());
    }
    out.push_str(", taken by")?;
    add_rules(out, takers)
}

fn add_file(out: &mut String, row: &FileRow, takers: &[u32]) -> Result<(), AllocError>
    ensures { OnOk result (string_bytes out.new ≡ string_bytes out.old
        ++ file_line row.now takers.now) }
{
    add_quoted(out, row.name.as_bytes())?;
    add_maker(out, row.maker)?;
    add_taking(out, takers)?;
    out.push_str("\n")
}

// The lines of files that have these takers.
fn add_files(out: &mut String, rows: &[FileRow], index: &[Rows<u32>]) -> Result<(), AllocError>
    requires { length index.now ≡ length rows.now }
    ensures { OnOk result (string_bytes out.new ≡ string_bytes out.old
        ++ numbered_lines index.now rows.now) }
{
    for (file, row) in rows.iter().enumerate() {
        add_file(out, row, index[file].as_slice())?;
    }
    Ok(())
}

#[tactic(auto, using(crate::proofs::Taking::lines_of_files))]
fn files_of(alloc: Global, plan: &Plan) -> Result<String, AllocError>
    requires { IsWired plan.now }
    ensures { IfOk result (λ text. string_bytes text ≡ files_text plan.now) }
{
    let index = takers_of(alloc, plan)?;
    let mut out = String::new(alloc);
    add_files(&mut out, plan.files.as_slice(), index.as_slice())?;
    Ok(out)
}

/// A line for each file, in the order of their names: the rule that makes it, and those that take
/// it in.
#[tactic(auto, using(crate::proofs::Taking::valid_is_wired))]
pub fn files_text(alloc: Global, plan: &Plan) -> Result<String, Memory>
    requires { IsValid plan.now }
    ensures { IfOk result (λ text. string_bytes text ≡ files_text plan.now) }
{
    match files_of(alloc, plan) {
        Ok(text) => Ok(text),
        Err(_) => Err(Memory),
    }
}
