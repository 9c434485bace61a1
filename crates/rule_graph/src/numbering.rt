//! The files of a flow by their numbers, and tables that say something of each.
ghost use Rattle.std.specs.Prelude.{◌≡◌, ◌++◌, ◌≤◌, IfOk, OnOk, All, length, map, position};
ghost use Rattle.std.specs.Str.{bytes_eq};
ghost use Rattle.flow_types.specs.Plans.{most_rules};
ghost use Rattle.rule_graph.specs.Flows.{is_text_of, is_taken, is_named_kept, stated_bound};
ghost use Rattle.rule_graph.specs.Stated.{has_file};
ghost use Rattle.rule_graph.specs.Faults.{or_else, makings, second_maker};
ghost use Rattle.rule_graph.specs.Checked.{IsAscending, IsName};
ghost use Rattle.rule_graph.specs.Numbering.{AreFirst, GoesBack, IsClash, IsMakingAmong};
ghost use Rattle.rule_graph.specs.Numbering.{Marks, Sets, Tells, port_makings};

use crate::faults::GraphFault;
use crate::raw::{RawPort, raw_outputs};
use flow_types::{Bytes, Name, NameFault, RawFile, RawFlow, Rows, RuleNo, Text, form_of};
use std::alloc::{AllocError, Global};
use std::cmp::Ordering;

// The most bytes of a file, where no line says otherwise.
pub(crate) const MOST_BYTES: u64 = 67108864;

// The place of a name among the names.
pub(crate) fn place_of(names: &[Bytes], name: &[u8]) -> Option<usize>
    requires { IsAscending names.now }
    ensures { result ≡ position (bytes_eq name.now) names.now }
{
    let mut low = 0;
    let mut high = names.len();
    'search: while low < high {
        let middle = low + (high - low) / 2;
        match names[middle].as_slice().cmp(name) {
            Ordering::Less => low = middle + 1,
            Ordering::Equal => return Some(middle),
            Ordering::Greater => high = middle,
        }
    }
    None
}

// The name of this form.
pub(crate) fn name_of(alloc: Global, form: &[u8]) -> Result<Name, AllocError>
    requires { IsName form.now }
    ensures { IfOk result (λ name. name ≡ form.now) }
{
    match Name::of(alloc, form) {
        Ok(name) => Ok(name),
        Err(_) => Err(AllocError),
    }
}

// The table that says the same of each name.
fn same_of_all<T: Copy>(alloc: Global, names: &[Bytes], value: T) -> Result<Vec<T>, AllocError>
    ensures { IfOk result (λ table. table.items ≡ map (λ name. value) names.now) }
{
    let mut table = Vec::new(alloc);
    for _name in names {
        table.push(value)?;
    }
    Ok(table)
}

// Sets what a table says of a name. A name that isn't among the names is passed over.
fn put<T: Copy>(names: &[Bytes], table: &mut [T], name: &[u8], value: T)
    requires { IsAscending names.now }
    ensures { Sets names.now table.old table.new (λ n. bytes_eq n name.now) value }
{
    if let Some(place) = place_of(names, name) {
        if place < table.len() {
            table[place] = value;
        }
    }
}

// What a table says of a name.
pub(crate) fn look<T: Copy>(names: &[Bytes], table: &[T], name: &[u8]) -> Option<T>
    requires { IsAscending names.now }
    ensures { Tells names.now table.now name.now result }
{
    match place_of(names, name) {
        Some(place) if place < table.len() => Some(table[place]),
        _ => None,
    }
}

// Marks these files.
fn mark_files(
    alloc: Global,
    names: &[Bytes],
    table: &mut [bool],
    files: &Rows<RawFile>,
) -> Result<(), AllocError>
    requires { IsAscending names.now }
    ensures { OnOk result (Marks names.now table.old table.new
        (λ n. has_file n files.now)) }
{
    for file in files.as_slice() {
        let name = form_of(alloc, file.local.as_str().as_bytes())?;
        put(names, table, name.as_slice(), true);
    }
    Ok(())
}

// Whether a rule takes each file in.
pub(crate) fn taken_of(
    alloc: Global,
    names: &[Bytes],
    flow: &RawFlow,
) -> Result<Vec<bool>, AllocError>
    requires { IsAscending names.now }
    ensures { IfOk result (λ table. table.items ≡ map (is_taken flow.now) names.now) }
{
    let mut table = same_of_all(alloc, names, false)?;
    for rule in flow.rules.as_slice() {
        mark_files(alloc, names, &mut table, &rule.inputs)?;
    }
    Ok(table)
}

// Sets what a table says of the file that a text names. What is no name, or the name of no file, is
// passed over.
fn put_text<T: Copy>(
    alloc: Global,
    names: &[Bytes],
    table: &mut [T],
    text: &Text,
    value: T,
) -> Result<(), AllocError>
    requires { IsAscending names.now }
    ensures { OnOk result (Sets names.now table.old table.new (λ n. is_text_of n text.now) value) }
{
    match Name::of(alloc, text.as_str().as_bytes()) {
        Ok(name) => put(names, table, name.as_bytes(), value),
        Err(NameFault::Bad) => {}
        Err(NameFault::Memory) => return Err(AllocError),
    }
    Ok(())
}

// Whether the flow names each file kept.
pub(crate) fn kept_of(
    alloc: Global,
    names: &[Bytes],
    flow: &RawFlow,
) -> Result<Vec<bool>, AllocError>
    requires { IsAscending names.now }
    ensures { IfOk result (λ table. table.items ≡ map (is_named_kept flow.now) names.now) }
{
    let mut table = same_of_all(alloc, names, false)?;
    for text in flow.keep.as_slice() {
        put_text(alloc, names, &mut table, text, true)?;
    }
    Ok(table)
}

// The bound that the flow states for each file: that of the last line for its name.
pub(crate) fn bounds_of(
    alloc: Global,
    names: &[Bytes],
    flow: &RawFlow,
) -> Result<Vec<u64>, AllocError>
    requires { IsAscending names.now }
    ensures { IfOk result (λ table. table.items ≡ map (stated_bound flow.now) names.now) }
{
    let mut table = same_of_all(alloc, names, MOST_BYTES)?;
    for line in flow.bounds.as_slice() {
        put_text(alloc, names, &mut table, &line.name, line.bytes)?;
    }
    Ok(table)
}

// A rule and a name that it makes.
#[derive(Drop)]
pub(crate) struct Making {
    pub(crate) maker: u32,
    pub(crate) name: Bytes,
}

fn add_makings(
    makings: &mut Vec<Making>,
    maker: u32,
    outputs: Vec<RawPort>,
) -> Result<(), AllocError>
    ensures { OnOk result
        (makings.new.items ≡ makings.old.items ++ port_makings maker outputs.items) }
{
    for port in outputs {
        let RawPort { local, remote: _ } = port;
        makings.push(Making { maker, name: local })?;
    }
    Ok(())
}

// The outputs of all rules, as they stand.
pub(crate) fn makings_of(alloc: Global, flow: &RawFlow) -> Result<Vec<Making>, AllocError>
    requires { length flow.now.rules ≤ most_rules }
    ensures { IfOk result (λ all. all.items ≡ makings flow.now) }
{
    let mut all = Vec::new(alloc);
    'rules: for rule in 0..flow.rules.len() {
        let outputs = raw_outputs(alloc, &flow.rules.as_slice()[rule])?;
        add_makings(&mut all, rule as u32, outputs)?;
    }
    Ok(all)
}

// The first output whose file a later one makes too, and the first maker of each file.
#[derive(Drop)]
pub(crate) struct Makers {
    pub(crate) fault: Option<GraphFault>,
    pub(crate) first: Vec<Option<RuleNo>>,
}

// The fault of an output whose file one of the later ones makes too.
fn clash(
    alloc: Global,
    names: &[Bytes],
    later: &[Option<RuleNo>],
    making: &Making,
) -> Result<Option<GraphFault>, AllocError>
    requires ascending { IsAscending names.now }
    requires among { IsMakingAmong names.now making.now }
    ensures { IfOk result (IsClash names.now later.now making.now) }
{
    match look(names, later, making.name.as_slice()) {
        Some(Some(second)) => {
            let name = name_of(alloc, making.name.as_slice())?;
            Ok(Some(GraphFault::TwoMakers(name, RuleNo(making.maker), second)))
        }
        _ => Ok(None),
    }
}

// Keeps the fault of the earlier output.
fn put_first(fault: &mut Option<GraphFault>, earlier: Option<GraphFault>)
    ensures { fault.new ≡ or_else earlier fault.old }
{
    if earlier.is_some() {
        *fault = earlier;
    }
}

// Puts an output before those that were looked at.
fn put_before(
    alloc: Global,
    names: &[Bytes],
    makers: &mut Makers,
    making: &Making,
) -> Result<(), AllocError>
    requires ascending { IsAscending names.now }
    requires among { IsMakingAmong names.now making.now }
    ensures { OnOk result (GoesBack names.now making.now makers.old makers.new) }
{
    let fault = clash(alloc, names, &makers.first, making)?;
    put_first(&mut makers.fault, fault);
    put(
        names,
        &mut makers.first,
        making.name.as_slice(),
        Some(RuleNo(making.maker)),
    );
    Ok(())
}

// Goes from the last output to the first, so that the first maker so far is the nearest later one.
pub(crate) fn makers_of(
    alloc: Global,
    names: &[Bytes],
    makings: &[Making],
) -> Result<Makers, AllocError>
    requires ascending { IsAscending names.now }
    requires among { All (IsMakingAmong names.now) makings.now }
    ensures fault { IfOk result (λ makers. makers.fault ≡ second_maker makings.now) }
    ensures first { IfOk result (λ makers. AreFirst names.now makings.now makers.first.items) }
{
    let first = same_of_all(alloc, names, None)?;
    let mut makers = Makers { fault: None, first };
    let mut left = makings.len();
    'makings: while left > 0 {
        left -= 1;
        put_before(alloc, names, &mut makers, &makings[left])?;
    }
    Ok(makers)
}
