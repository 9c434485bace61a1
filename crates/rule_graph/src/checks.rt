//! The faults that a flow's rules show one by one.
ghost use Rattle.std.specs.Prelude.{◌≡◌, ◌∷◌, [], ◌++◌, ◌<◌, ◌^◌, ℕ, Option, Some, None};
ghost use Rattle.std.specs.Prelude.{if◌then◌else◌, ⊤, All, IfOk, OnOk, find, is_none, length, map, nat_lt};
ghost use Rattle.std.specs.Option.{option_copied};
ghost use Rattle.flow_types.specs.declared.flow.RawRule.{RawRule as RawRuleValue};
ghost use Rattle.rule_graph.specs.declared.faults.GraphFault.{GraphFault as GraphFaultValue};
ghost use Rattle.flow_types.specs.Plans.{most_inputs};
ghost use Rattle.flow_types.specs.Names.{form_of};
ghost use Rattle.rule_graph.specs.Flows.{names_of, raw_inputs, remote_text};
ghost use Rattle.rule_graph.specs.Faults.{remotes, over_rules, too_many_ports, too_many};
ghost use Rattle.rule_graph.specs.Faults.{is_no_name, file_texts, texts_of, bad_name};
ghost use Rattle.rule_graph.specs.Faults.{no_output, remote_names, first_repeat, same_name};
ghost use Rattle.rule_graph.specs.Checked.{HasNames, IsName};

use crate::faults::GraphFault;
use crate::raw::{RawPort, form, raw_inputs, raw_outputs, remote_text};
use flow_types::{Bytes, Name, NameFault, RawFile, RawFlow, RawRule, Rows, RuleNo, Text};
use std::alloc::{AllocError, Global};
use std::collections::BTreeSet;

const MOST_RULES: u32 = 20000;

const MOST_FILES: u32 = 65536;

const MOST_INPUTS: u32 = 4096;

const MOST_OUTPUTS: u32 = 1024;

// A fault that is looked for in each rule.
pub(crate) trait RuleCheck {
    // What is said of a rule with its number.
    ghost says: { ℕ → RawRuleValue → Option GraphFaultValue };

    // What is known of each rule by then.
    ghost fits: { RawRuleValue → Type 0 };

    fn fault(
        alloc: Global,
        number: RuleNo,
        rule: &RawRule,
    ) -> Result<Option<GraphFault>, AllocError>
        requires { fits rule.now }
        ensures { IfOk result (λ fault. fault ≡ says number.0 rule.now) };
}

// The fault of the first rule that has one.
pub(crate) fn over_rules<C: RuleCheck>(
    alloc: Global,
    flow: &RawFlow,
) -> Result<Option<GraphFault>, AllocError>
    requires count { length flow.now.rules < 2 ^ 32 }
    requires each { All C.fits flow.now.rules }
    ensures { IfOk result (λ fault. fault ≡ over_rules C.says flow.now) }
{
    let rules = flow.rules.as_slice();
    'rules: for number in 0..rules.len() {
        let fault = C::fault(alloc, RuleNo(number as u32), &rules[number])?;
        if fault.is_some() {
            return Ok(fault);
        }
    }
    Ok(None)
}

// Whether a rule has more inputs than it may have. Only of one that states more are they told
// apart.
fn has_many_inputs(alloc: Global, rule: &RawRule) -> Result<bool, AllocError>
    ensures { IfOk result (λ many. many ≡ nat_lt most_inputs (length (raw_inputs rule.now))) }
{
    if rule.inputs.len() <= MOST_INPUTS as usize {
        return Ok(false);
    }
    let inputs = raw_inputs(alloc, rule)?;
    Ok(inputs.len() > MOST_INPUTS as usize)
}

// A rule with more inputs or outputs than it may have.
pub(crate) struct TooManyPorts;

impl RuleCheck for TooManyPorts {
    ghost says = { too_many_ports };

    ghost fits = { λ rule. ⊤ };

    fn fault(
        alloc: Global,
        _number: RuleNo,
        rule: &RawRule,
    ) -> Result<Option<GraphFault>, AllocError> {
        if has_many_inputs(alloc, rule)? {
            return Ok(Some(GraphFault::TooMany(MOST_INPUTS)));
        }
        if rule.outputs.len() > MOST_OUTPUTS as usize {
            return Ok(Some(GraphFault::TooMany(MOST_OUTPUTS)));
        }
        Ok(None)
    }
}

pub(crate) fn too_many(
    alloc: Global,
    flow: &RawFlow,
    names: &[Bytes],
) -> Result<Option<GraphFault>, AllocError>
    requires { names.now ≡ names_of flow.now }
    ensures { IfOk result (λ fault. fault ≡ too_many flow.now) }
{
    if flow.rules.len() > MOST_RULES as usize {
        return Ok(Some(GraphFault::TooMany(MOST_RULES)));
    }
    if names.len() > MOST_FILES as usize {
        return Ok(Some(GraphFault::TooMany(MOST_FILES)));
    }
    over_rules::<TooManyPorts>(alloc, flow)
}

// A copy of a text that is no name.
fn bad_copy(alloc: Global, text: &Text) -> Result<Option<Text>, AllocError>
    ensures { IfOk result (λ bad. bad ≡ (if is_no_name text.now then Some text.now else None)) }
{
    match Name::of(alloc, text.as_str().as_bytes()) {
        Ok(_) => Ok(None),
        Err(NameFault::Bad) => match text.copy(alloc) {
            Ok(copy) => Ok(Some(copy)),
            Err(_) => Err(AllocError),
        },
        Err(NameFault::Memory) => Err(AllocError),
    }
}

// The first text of a file that is no name: its own before its remote one.
fn bad_text(alloc: Global, file: &RawFile) -> Result<Option<Text>, AllocError>
    ensures { IfOk result (λ text. text ≡ find is_no_name (file_texts (file.now ∷ []))) }
{
    let own = bad_copy(alloc, &file.local)?;
    if own.is_some() {
        return Ok(own);
    }
    match &file.remote {
        Some(remote) => bad_copy(alloc, remote),
        None => Ok(None),
    }
}

// The first text of these files that is no name.
fn bad_among(alloc: Global, files: &Rows<RawFile>) -> Result<Option<Text>, AllocError>
    ensures { IfOk result (λ text. text ≡ find is_no_name (file_texts files.now)) }
{
    for file in files.as_slice() {
        let text = bad_text(alloc, file)?;
        if text.is_some() {
            return Ok(text);
        }
    }
    Ok(None)
}

// The first text of a rule that is no name.
fn bad_of_rule(alloc: Global, rule: &RawRule) -> Result<Option<Text>, AllocError>
    ensures { IfOk result (λ text. text ≡ find is_no_name (texts_of rule.now)) }
{
    let text = bad_among(alloc, &rule.outputs)?;
    if text.is_some() {
        return Ok(text);
    }
    bad_among(alloc, &rule.inputs)
}

// A rule with a text that is no name.
pub(crate) struct BadNames;

impl RuleCheck for BadNames {
    ghost says = { bad_name };

    ghost fits = { λ rule. ⊤ };

    fn fault(
        alloc: Global,
        number: RuleNo,
        rule: &RawRule,
    ) -> Result<Option<GraphFault>, AllocError> {
        match bad_of_rule(alloc, rule)? {
            Some(text) => Ok(Some(GraphFault::BadName(number, text))),
            None => Ok(None),
        }
    }
}

// A rule that makes nothing.
pub(crate) struct NoOutput;

impl RuleCheck for NoOutput {
    ghost says = { no_output };

    ghost fits = { λ rule. ⊤ };

    fn fault(
        _alloc: Global,
        number: RuleNo,
        rule: &RawRule,
    ) -> Result<Option<GraphFault>, AllocError> {
        if rule.outputs.is_empty() {
            return Ok(Some(GraphFault::NoOutput(number)));
        }
        Ok(None)
    }
}

// The name of which these are the bytes.
pub(crate) fn name_from(alloc: Global, bytes: &Bytes) -> Result<Name, AllocError>
    requires { IsName bytes.now }
    ensures { IfOk result (λ name. name ≡ bytes.now) }
{
    match Name::of(alloc, bytes.as_slice()) {
        Ok(name) => Ok(name),
        Err(_) => Err(AllocError),
    }
}

fn add_remotes(names: &mut Vec<Bytes>, ports: Vec<RawPort>) -> Result<(), AllocError>
    ensures { OnOk result (names.new.items ≡ names.old.items ++ remotes ports.items) }
{
    for port in ports {
        let RawPort { local: _, remote } = port;
        names.push(remote)?;
    }
    Ok(())
}

// The remote names of a rule's ports, outputs first.
pub(crate) fn remote_names(alloc: Global, rule: &RawRule) -> Result<Vec<Bytes>, AllocError>
    ensures { IfOk result (λ names. names.items ≡ remote_names rule.now) }
{
    let mut names = Vec::new(alloc);
    add_remotes(&mut names, raw_outputs(alloc, rule)?)?;
    add_remotes(&mut names, raw_inputs(alloc, rule)?)?;
    Ok(names)
}

// The first name that stands a second time.
fn repeated<'a>(alloc: Global, names: &'a [Bytes]) -> Result<Option<&'a Bytes>, AllocError>
    ensures { IfOk result (λ name. option_copied name ≡ first_repeat [] names.now) }
{
    let mut seen = BTreeSet::new(alloc);
    for name in names {
        if !seen.insert(Vec::from_slice(alloc, name.as_slice())?)? {
            return Ok(Some(name));
        }
    }
    Ok(None)
}

// Puts the files' remote names behind the names, as often as they stand.
fn add_stated(
    alloc: Global,
    names: &mut Vec<Bytes>,
    files: &Rows<RawFile>,
) -> Result<(), AllocError>
    ensures { OnOk result (names.new.items
        ≡ names.old.items ++ map (λ file. form_of (remote_text file)) files.now) }
{
    for file in files.as_slice() {
        names.push(form(alloc, remote_text(file))?)?;
    }
    Ok(())
}

// Whether the files that a rule states have remote names of their own each, so that no two of its
// inputs are one.
fn has_own_remotes(alloc: Global, rule: &RawRule) -> Result<bool, AllocError>
    ensures { IfOk result (λ own. own ≡ is_none (first_repeat []
        (map (λ file. form_of (remote_text file)) rule.now.outputs
        ++ map (λ file. form_of (remote_text file)) rule.now.inputs))) }
{
    let mut names = Vec::new(alloc);
    add_stated(alloc, &mut names, &rule.outputs)?;
    add_stated(alloc, &mut names, &rule.inputs)?;
    match repeated(alloc, &names)? {
        Some(_) => Ok(false),
        None => Ok(true),
    }
}

// A rule of which two ports have one remote name.
pub(crate) struct SameNames;

impl RuleCheck for SameNames {
    ghost says = { same_name };

    ghost fits = { HasNames };

    fn fault(
        alloc: Global,
        number: RuleNo,
        rule: &RawRule,
    ) -> Result<Option<GraphFault>, AllocError> {
        if has_own_remotes(alloc, rule)? {
            return Ok(None);
        }
        let names = remote_names(alloc, rule)?;
        match repeated(alloc, &names)? {
            Some(name) => Ok(Some(GraphFault::SameName(number, name_from(alloc, name)?))),
            None => Ok(None),
        }
    }
}
