//! Names that are folders of other names.
ghost use Rattle.std.specs.Prelude.{◌≡◌, ◌∷◌, [], ◌++◌, ◌<◌, ◌≤◌, ◌^◌, ℕ, false};
ghost use Rattle.std.specs.Prelude.{true, All, IfOk, find, is_none, length, nat_eq};
ghost use Rattle.std.specs.List.{list_all, list_any, starts_with};
ghost use Rattle.std.specs.Option.{option_copied};
ghost use Rattle.flow_types.specs.Plans.{is_name_less};
ghost use Rattle.rule_graph.specs.Flows.{names_of};
ghost use Rattle.rule_graph.specs.Faults.{nested_under, nested_in, nested_name, remote_names};
ghost use Rattle.rule_graph.specs.Checked.{HasNames, IsName, IsAscending};
ghost use Rattle.rule_graph.specs.Checked.{HasAll, ascending, stands_before};
ghost use Rattle.rule_graph.specs.Stated.{IsNestedByRemotes};

use crate::checks::{RuleCheck, name_from, over_rules, remote_names};
use crate::faults::GraphFault;
use crate::raw::listed;
use flow_types::{Bytes, RawFile, RawFlow, RawRule, Rows, RuleNo};
use std::alloc::{AllocError, Global};
use std::collections::BTreeSet;

// How many of ascending names stand before this text.
fn first_from(names: &[Bytes], start: &[u8]) -> usize
    requires { IsAscending names.now }
    ensures within { result ≤ length names.now }
    ensures before { (k : ℕ) → k < result → stands_before names.now k start.now ≡ true }
    ensures from { result < length names.now → stands_before names.now result start.now ≡ false }
{
    let mut low = 0;
    let mut high = names.len();
    while low < high {
        let middle = low + (high - low) / 2;
        if is_less(&names[middle], start) {
            low = middle + 1;
        } else {
            high = middle;
        }
    }
    low
}

fn is_less(name: &Bytes, start: &[u8]) -> bool
    ensures { result ≡ is_name_less name.now start.now }
{
    name.as_slice() < start
}

// Whether one of ascending names begins so.
fn any_begins(names: &[Bytes], start: &[u8]) -> bool
    requires { IsAscending names.now }
    ensures { result ≡ list_any (λ name. starts_with nat_eq name start.now) names.now }
{
    let at = first_from(names, start);
    if at == names.len() {
        return false;
    }
    names[at].as_slice().starts_with(start)
}

// The first of the names that begins so.
fn first_begins<'a>(names: &'a [Bytes], start: &[u8]) -> Option<&'a Bytes>
    ensures { option_copied result ≡ find (λ name. starts_with nat_eq name start.now) names.now }
{
    for name in names {
        if name.as_slice().starts_with(start) {
            return Some(name);
        }
    }
    None
}

// How the names below a folder begin.
fn start_below(alloc: Global, folder: &Bytes) -> Result<Vec<u8>, AllocError>
    ensures { IfOk result (λ start. start.items ≡ folder.now ++ 47 ∷ []) }
{
    let mut start = Vec::from_slice(alloc, folder.as_slice())?;
    start.push(b'/')?;
    Ok(start)
}

// A folder with the first of the names below it, where there is one.
fn nested_under(
    alloc: Global,
    sorted: &[Bytes],
    names: &[Bytes],
    folder: &Bytes,
) -> Result<Option<GraphFault>, AllocError>
    requires ascending { IsAscending sorted.now }
    requires all { HasAll sorted.now names.now }
    requires names { All IsName names.now }
    requires folder { IsName folder.now }
    ensures { IfOk result (λ fault. fault ≡ nested_under names.now folder.now) }
{
    let start = start_below(alloc, folder)?;
    if !any_begins(sorted, &start) {
        return Ok(None);
    }
    match first_begins(names, &start) {
        Some(name) => {
            let outer = name_from(alloc, folder)?;
            let inner = name_from(alloc, name)?;
            Ok(Some(GraphFault::NestedName(outer, inner)))
        }
        None => Ok(None),
    }
}

// The first of the names that is a folder of another, with the first of which it is. Each stands
// among the sorted names.
fn nested_in(
    alloc: Global,
    sorted: &[Bytes],
    names: &[Bytes],
) -> Result<Option<GraphFault>, AllocError>
    requires ascending { IsAscending sorted.now }
    requires all { HasAll sorted.now names.now }
    requires names { All IsName names.now }
    ensures { IfOk result (λ fault. fault ≡ nested_in names.now) }
{
    for folder in names {
        let fault = nested_under(alloc, sorted, names, folder)?;
        if fault.is_some() {
            return Ok(fault);
        }
    }
    Ok(None)
}

// The names, each once, ascending.
fn ascending(alloc: Global, names: &[Bytes]) -> Result<Vec<Bytes>, AllocError>
    ensures { IfOk result (λ sorted. sorted.items ≡ ascending names.now) }
{
    let mut sorted = BTreeSet::new(alloc);
    for name in names {
        sorted.insert(Vec::from_slice(alloc, name.as_slice())?)?;
    }
    listed(alloc, sorted)
}

// Whether no file has a remote text.
fn has_no_remote(files: &Rows<RawFile>) -> bool
    ensures { result ≡ list_all (λ file. is_none file.remote) files.now }
{
    for file in files.as_slice() {
        if file.remote.is_some() {
            return false;
        }
    }
    true
}

// A rule of which one remote name is a folder of another. One without remote texts is known to be
// none, since its names are those of files, of which none is nested.
struct NestedRemotes;

impl RuleCheck for NestedRemotes {
    ghost says = { λ r rule. nested_in (remote_names rule) };

    ghost fits = { IsNestedByRemotes };

    fn fault(
        alloc: Global,
        _number: RuleNo,
        rule: &RawRule,
    ) -> Result<Option<GraphFault>, AllocError> {
        if has_no_remote(&rule.outputs) && has_no_remote(&rule.inputs) {
            return Ok(None);
        }
        let names = remote_names(alloc, rule)?;
        let sorted = ascending(alloc, &names)?;
        nested_in(alloc, &sorted, &names)
    }
}

// Names of files before remote names.
pub(crate) fn nested_name(
    alloc: Global,
    flow: &RawFlow,
    names: &[Bytes],
) -> Result<Option<GraphFault>, AllocError>
    requires of_flow { names.now ≡ names_of flow.now }
    requires count { length flow.now.rules < 2 ^ 32 }
    requires names { All HasNames flow.now.rules }
    ensures { IfOk result (λ fault. fault ≡ nested_name flow.now) }
{
    let fault = nested_in(alloc, names, names)?;
    if fault.is_some() {
        return Ok(fault);
    }
    over_rules::<NestedRemotes>(alloc, flow)
}
