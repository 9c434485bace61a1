//! Flows and their plans.
ghost use Rattle.flow_types.specs.Plans.{IsValid};

use anyhow::{Result, bail};
use cases::{flow_shown, shown};
use flow_gen::generate;
use flow_types::{Name, Needs, Pair, Plan, Port, Rows, Rule, RuleNo};
use mf_rules::read_make;
use rule_graph::{GraphFault, fits_limits, plan_digest, plan_of, serial_order};
use std::alloc::{AllocError, Global};

/// The plan of a Makeflow text's flow, or its fault.
pub(crate) fn plan_shown(alloc: Global, text: &[u8]) -> Result<String> {
    let flow = match read_make(alloc, text, &[]) {
        Ok(flow) => flow,
        Err(fault) => bail!("bad case: no flow, {fault}"),
    };
    if !fits_limits(&flow) {
        bail!("bad case: a flow that passes its limits");
    }
    let mut text = String::new(alloc);
    match plan_of(alloc, flow) {
        Ok(plan) => add_plan(alloc, &mut text, &plan)?,
        Err(fault) => add_fault(alloc, &mut text, &fault)?,
    }
    Ok(text)
}

// How many rules, files, kept files and inputs a plan has.
fn counts_shown(alloc: Global, plan: &Plan) -> Result<String> {
    let mut inputs: u64 = 0;
    for rule in plan.rules.as_slice() {
        inputs = inputs.saturating_add(rule.inputs.len() as u64);
    }
    let mut kept: u64 = 0;
    for file in plan.files.as_slice() {
        kept = kept.saturating_add(u64::from(file.kept));
    }
    let (rules, files) = (plan.rules.len(), plan.files.len());
    Ok(format!(in alloc; "plan: {rules} rules, {files} files, {kept} kept, {inputs} inputs\n")?)
}

/// The flow that is made up of a number, where it has at most twenty rules, and the counts of its
/// plan.
pub(crate) fn made_up_shown(alloc: Global, text: &str) -> Result<String> {
    let Ok(count) = text.trim().parse::<u32>() else {
        bail!("bad case: no number");
    };
    let Ok(flow) = generate(alloc, count) else {
        bail!("out of memory");
    };
    let mut shown = String::new(alloc);
    if count <= 20 {
        shown.push_str(&flow_shown(alloc, &flow)?)?;
    }
    match plan_of(alloc, flow) {
        Ok(plan) => shown.push_str(&counts_shown(alloc, &plan)?)?,
        Err(_) => shown.push_str("! no plan\n")?,
    }
    Ok(shown)
}

// Each file, each rule, the order of a serial run, and the digest.
fn add_plan(alloc: Global, text: &mut String, plan: &Plan) -> Result<(), AllocError>
    requires { IsValid plan.now }
{
    for (number, file) in plan.files.as_slice().iter().enumerate() {
        let name = bracketed(alloc, &file.name)?;
        let piece = match file.maker {
            None => format!(in alloc; "file {number} {name} source")?,
            Some(maker) => format!(in alloc; "file {number} {name} by {}", maker.0)?,
        };
        text.push_str(&piece)?;
        if file.kept {
            text.push_str(" kept")?;
        }
        let bound = file.bound;
        let piece = format!(in alloc; " bound {bound}\n")?;
        text.push_str(&piece)?;
    }
    for (number, rule) in plan.rules.as_slice().iter().enumerate() {
        let piece = format!(in alloc; "rule {number}:")?;
        text.push_str(&piece)?;
        add_rule(alloc, text, rule)?;
    }
    text.push_str("serial")?;
    let Ok(order) = serial_order(alloc, plan) else {
        return Err(AllocError);
    };
    add_rules(alloc, text, order.as_slice())?;
    text.push_str("\ndigest ")?;
    for byte in plan_digest(plan).0.iter() {
        let byte = *byte;
        let piece = format!(in alloc; "{byte:02x}")?;
        text.push_str(&piece)?;
    }
    text.push_str("\n")
}

fn bracketed(alloc: Global, name: &Name) -> Result<String, AllocError> {
    let name = shown(alloc, name.as_bytes())?;
    format!(in alloc; "[{name}]")
}

fn add_rule(alloc: Global, text: &mut String, rule: &Rule) -> Result<(), AllocError> {
    add_ports(alloc, text, &rule.inputs)?;
    text.push_str(" ->")?;
    add_ports(alloc, text, &rule.outputs)?;
    let command = shown(alloc, rule.command.as_str().as_bytes())?;
    let bound = rule.bound;
    let piece = format!(in alloc; " : [{command}] bound {bound}")?;
    text.push_str(&piece)?;
    if rule.local {
        text.push_str(" local")?;
    }
    if let Needs::Stated(amounts) = &rule.needs {
        let (cores, memory, disk) = (amounts.cores, amounts.memory, amounts.disk);
        let piece = format!(in alloc; " {cores}/{memory}/{disk}")?;
        text.push_str(&piece)?;
    }
    add_pairs(alloc, text, &rule.env)?;
    text.push_str("\n")
}

fn add_ports(alloc: Global, text: &mut String, ports: &Rows<Port>) -> Result<(), AllocError> {
    for port in ports.as_slice() {
        let number = port.file.0;
        let remote = bracketed(alloc, &port.remote)?;
        let piece = format!(in alloc; " {number} as {remote}")?;
        text.push_str(&piece)?;
    }
    Ok(())
}

fn add_pairs(alloc: Global, text: &mut String, pairs: &Rows<Pair>) -> Result<(), AllocError> {
    for pair in pairs.as_slice() {
        let name = shown(alloc, pair.name.as_str().as_bytes())?;
        let value = shown(alloc, pair.value.as_str().as_bytes())?;
        let piece = format!(in alloc; " {name}=[{value}]")?;
        text.push_str(&piece)?;
    }
    Ok(())
}

fn add_rules(alloc: Global, text: &mut String, rules: &[RuleNo]) -> Result<(), AllocError> {
    for rule in rules {
        let number = rule.0;
        let piece = format!(in alloc; " {number}")?;
        text.push_str(&piece)?;
    }
    Ok(())
}

// The fault, with its numbers and names.
fn add_fault(alloc: Global, text: &mut String, fault: &GraphFault) -> Result<(), AllocError> {
    let piece = match fault {
        GraphFault::TooMany(limit) => format!(in alloc; "! too many: {limit}")?,
        GraphFault::BadName(rule, name) => {
            let name = shown(alloc, name.as_str().as_bytes())?;
            format!(in alloc; "! rule {}: bad name [{name}]", rule.0)?
        }
        GraphFault::NoOutput(rule) => format!(in alloc; "! rule {}: no output", rule.0)?,
        GraphFault::SameName(rule, name) => {
            let name = bracketed(alloc, name)?;
            format!(in alloc; "! rule {}: same name {name}", rule.0)?
        }
        GraphFault::NestedName(folder, name) => {
            let (folder, name) = (bracketed(alloc, folder)?, bracketed(alloc, name)?);
            format!(in alloc; "! nested names {folder} and {name}")?
        }
        GraphFault::TwoMakers(name, first, second) => {
            let name = bracketed(alloc, name)?;
            format!(in alloc; "! two makers of {name}: {} {}", first.0, second.0)?
        }
        GraphFault::Cycle(_) => String::from_str(alloc, "! cycle:")?,
        GraphFault::Memory => String::from_str(alloc, "! out of memory")?,
    };
    text.push_str(&piece)?;
    if let GraphFault::Cycle(rules) = fault {
        add_rules(alloc, text, rules.as_slice())?;
    }
    text.push_str("\n")
}
