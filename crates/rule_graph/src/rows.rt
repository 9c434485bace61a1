//! The rows of the files and the rules of a plan.
ghost use Rattle.std.specs.Prelude.{◌≡◌, ◌<◌, ◌≤◌, ◌||◌, not, false, IfOk, IfErr, All, Some, None};
ghost use Rattle.std.specs.Prelude.{length, map, slice_index_or};
ghost use Rattle.flow_types.specs.Plans.{most_rules, most_files};
ghost use Rattle.rule_graph.specs.Flows.{names_of, port_for};
ghost use Rattle.rule_graph.specs.Faults.{makings, second_maker};
ghost use Rattle.rule_graph.specs.Checked.{HasNames, IsAscending};
ghost use Rattle.rule_graph.specs.Numbering.{AreLevel, AreOf, AreRowsOf};
ghost use Rattle.rule_graph.specs.Numbering.{AreRulesOf, IsBoundOf, IsPortAmong};
ghost use Rattle.rule_graph.specs.Numbering.{IsNumberedPlan, IsRowOf};
ghost use Rattle.rule_graph.specs.Numbering.{IsRuleAmong, IsRuleOf, numbered};

use crate::faults::GraphFault;
use crate::numbering::{
    MOST_BYTES, Makers, bounds_of, kept_of, look, makers_of, makings_of, name_of, place_of,
    taken_of,
};
use crate::raw::{RawPort, raw_inputs, raw_outputs};
use flow_types::{Bytes, FileNo, FileRow, Plan, Port, RawFlow, RawRule, Rows, Rule, RuleNo};
use std::alloc::{AllocError, Global};

// The names of the files, and what is known of each.
#[derive(Drop)]
pub(crate) struct Tables {
    names: Vec<Bytes>,
    makers: Vec<Option<RuleNo>>,
    taken: Vec<bool>,
    kept: Vec<bool>,
    bounds: Vec<u64>,
}

// Whether a made file is kept: where it is named so or no rule takes it in.
fn is_kept(tables: &Tables, file: usize) -> bool
    requires level { AreLevel tables.now }
    requires inside { file < length tables.now.names.items }
    ensures { result ≡ (slice_index_or tables.now.kept.items file false
        || not (slice_index_or tables.now.taken.items file false)) }
{
    tables.kept[file] || !tables.taken[file]
}

fn row_of(alloc: Global, tables: &Tables, file: usize) -> Result<FileRow, AllocError>
    requires level { AreLevel tables.now }
    requires inside { file < length tables.now.names.items }
    ensures { IfOk result (IsRowOf tables.now file) }
{
    let name = name_of(alloc, tables.names[file].as_slice())?;
    match tables.makers[file] {
        Some(rule) => Ok(FileRow {
            name,
            maker: Some(rule),
            kept: is_kept(tables, file),
            bound: tables.bounds[file],
        }),
        None => Ok(FileRow {
            name,
            maker: None,
            kept: false,
            bound: MOST_BYTES,
        }),
    }
}

fn rows_of(alloc: Global, tables: &Tables) -> Result<Rows<FileRow>, AllocError>
    requires { AreLevel tables.now }
    ensures { IfOk result (AreRowsOf tables.now) }
{
    let mut rows = Vec::with_capacity(alloc, tables.names.len())?;
    'files: for file in 0..tables.names.len() {
        rows.push(row_of(alloc, tables, file)?)?;
    }
    Ok(Rows::of(rows))
}

fn port_of(alloc: Global, names: &[Bytes], port: &RawPort) -> Result<Port, AllocError>
    requires ascending { IsAscending names.now }
    requires few { length names.now ≤ most_files }
    requires among { IsPortAmong names.now port.now }
    ensures { IfOk result (λ made. made ≡ port_for names.now port.now) }
{
    let file = place_of(names, port.local.as_slice()).unwrap_or(0);
    let remote = name_of(alloc, port.remote.as_slice())?;
    Ok(Port {
        file: FileNo(file as u32),
        remote,
    })
}

fn ports_of(alloc: Global, names: &[Bytes], ports: &[RawPort]) -> Result<Rows<Port>, AllocError>
    requires ascending { IsAscending names.now }
    requires few { length names.now ≤ most_files }
    requires among { All (IsPortAmong names.now) ports.now }
    ensures { IfOk result (λ made. made ≡ map (port_for names.now) ports.now) }
{
    let mut made = Vec::with_capacity(alloc, ports.len())?;
    for port in ports {
        made.push(port_of(alloc, names, port)?)?;
    }
    Ok(Rows::of(made))
}

// The sum of the ports' bounds, or the most bytes of a file if that is less.
fn bound_of(names: &[Bytes], bounds: &[u64], ports: &[RawPort]) -> u64
    requires ascending { IsAscending names.now }
    requires among { All (IsPortAmong names.now) ports.now }
    ensures { IsBoundOf names.now bounds.now ports.now result }
{
    let mut bound: u64 = 0;
    for port in ports {
        let stated = look(names, bounds, port.local.as_slice()).unwrap_or(0);
        bound = bound.saturating_add(stated).min(MOST_BYTES);
    }
    bound
}

fn rule_of(alloc: Global, tables: &Tables, raw: RawRule) -> Result<Rule, AllocError>
    requires level { AreLevel tables.now }
    requires few { length tables.now.names.items ≤ most_files }
    requires among { IsRuleAmong tables.now.names.items raw }
    ensures { IfOk result (IsRuleOf tables.now raw) }
{
    let raw_outputs = raw_outputs(alloc, &raw)?;
    let outputs = ports_of(alloc, &tables.names, &raw_outputs)?;
    let bound = bound_of(&tables.names, &tables.bounds, &raw_outputs);
    let raw_inputs = raw_inputs(alloc, &raw)?;
    let inputs = ports_of(alloc, &tables.names, &raw_inputs)?;
    let RawRule {
        place: _,
        outputs: _,
        inputs: _,
        command,
        local,
        needs,
        env,
    } = raw;
    Ok(Rule {
        inputs,
        outputs,
        command,
        local,
        needs,
        env,
        bound,
    })
}

fn rules_of(alloc: Global, tables: &Tables, raw: Rows<RawRule>) -> Result<Rows<Rule>, AllocError>
    requires level { AreLevel tables.now }
    requires few { length tables.now.names.items ≤ most_files }
    requires among { All (IsRuleAmong tables.now.names.items) raw }
    ensures { IfOk result (AreRulesOf tables.now raw) }
{
    let mut rules = Vec::with_capacity(alloc, raw.len())?;
    for rule in raw.into_vec() {
        rules.push(rule_of(alloc, tables, rule)?)?;
    }
    Ok(Rows::of(rules))
}

// What the flow says of each file, where no file has two makers.
fn tables_of(
    alloc: Global,
    flow: &RawFlow,
    names: Vec<Bytes>,
) -> Result<Result<Tables, GraphFault>, AllocError>
    requires of_flow { names.items ≡ names_of flow.now }
    requires few { length flow.now.rules ≤ most_rules }
    requires names { All HasNames flow.now.rules }
    ensures fault { IfOk result
        (λ made. IfErr made (λ fault. second_maker (makings flow.now) ≡ Some fault)) }
    ensures faultless { IfOk result
        (λ made. IfOk made (λ tables. second_maker (makings flow.now) ≡ None)) }
    ensures level { IfOk result (λ made. IfOk made AreLevel) }
    ensures tables { IfOk result (λ made. IfOk made (AreOf flow.now)) }
{
    let makings = makings_of(alloc, flow)?;
    let makers = makers_of(alloc, &names, &makings)?;
    let Makers { fault, first } = makers;
    if let Some(fault) = fault {
        return Ok(Err(fault));
    }
    let taken = taken_of(alloc, &names, flow)?;
    let kept = kept_of(alloc, &names, flow)?;
    let bounds = bounds_of(alloc, &names, flow)?;
    Ok(Ok(Tables {
        names,
        makers: first,
        taken,
        kept,
        bounds,
    }))
}

/// The plan of a flow whose ports have names, or the fault of two makers of one file.
pub(crate) fn numbered(
    alloc: Global,
    flow: RawFlow,
    names: Vec<Bytes>,
) -> Result<Result<Plan, GraphFault>, AllocError>
    requires of_flow { names.items ≡ names_of flow }
    requires few_rules { length flow.rules ≤ most_rules }
    requires few_files { length (names_of flow) ≤ most_files }
    requires names { All HasNames flow.rules }
    ensures plan { IfOk result (λ made. made ≡ numbered flow) }
    ensures numbered { IfOk result (λ made. IfOk made IsNumberedPlan) }
{
    let tables = match tables_of(alloc, &flow, names)? {
        Ok(tables) => tables,
        Err(fault) => return Ok(Err(fault)),
    };
    let files = rows_of(alloc, &tables)?;
    let RawFlow {
        rules: raw,
        keep: _,
        bounds: _,
    } = flow;
    let rules = rules_of(alloc, &tables, raw)?;
    Ok(Ok(Plan { rules, files }))
}
