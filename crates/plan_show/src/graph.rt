//! The graph of a plan for Graphviz.
ghost use Rattle.std.specs.Prelude.{◌≡◌, ◌++◌, IfOk, OnOk, chars, string_bytes};
ghost use Rattle.std.specs.List.{flat_map};
ghost use Rattle.plan_show.specs.Graph.{dot_char, dot_text, edge, edge_line, first_output};
ghost use Rattle.plan_show.specs.Graph.{graph_text, node_line, numbered_lines, rule_lines};

use crate::rules::file_name;
use crate::text::{add_number, add_shown};
use flow_types::{FileNo, Memory, Plan, Port, Rows, Rule, RuleNo};
use std::alloc::{AllocError, Global};

// Writes a character of a label, in which quotes, backslashes and `&` have meanings of their own.
fn add_dot_char(out: &mut String, c: char) -> Result<(), AllocError>
    ensures { OnOk result (string_bytes out.new ≡ string_bytes out.old ++ dot_char c) }
{
    match c {
        '"' => out.push_str("\\\""),
        '\\' => out.push_str("\\\\"),
        '&' => out.push_str("&amp;"),
        c => out.push(c),
    }
}

fn add_label(out: &mut String, text: &str) -> Result<(), AllocError>
    ensures { OnOk result (string_bytes out.new ≡ string_bytes out.old
        ++ flat_map dot_char (chars text.now)) }
{
    for c in text.chars() {
        add_dot_char(out, c)?;
    }
    Ok(())
}

// Writes a name so that a label has it as it is shown elsewhere.
fn add_dot_text(alloc: Global, out: &mut String, name: &[u8]) -> Result<(), AllocError>
    ensures { OnOk result (string_bytes out.new ≡ string_bytes out.old ++ dot_text name.now) }
{
    let mut text = String::new(alloc);
    add_shown(&mut text, name)?;
    add_label(out, text.as_str())
}

fn first_output<'a>(plan: &'a Plan, rule: &'a Rule) -> &'a [u8]
    ensures { result.now ≡ first_output plan.now rule.now }
{
    match rule.outputs.get(0) {
        Some(port) => file_name(plan, port.file),
        None => b"",
    }
}

fn add_node(
    alloc: Global,
    out: &mut String,
    plan: &Plan,
    number: usize,
    rule: &Rule,
) -> Result<(), AllocError>
    ensures { OnOk result (string_bytes out.new ≡ string_bytes out.old
        ++ node_line plan.now number rule.now) }
{
    out.push_str("  ")?;
    add_number(out, number as u64)?;
    out.push_str(" [label=\"")?;
    add_number(out, number as u64)?;
    out.push_str(": ")?;
    add_dot_text(alloc, out, first_output(plan, rule))?;
    out.push_str("\"];\n")
}

// The edge of a file from its maker to a taker.
fn add_edge(
    alloc: Global,
    out: &mut String,
    maker: RuleNo,
    taker: usize,
    name: &[u8],
) -> Result<(), AllocError>
    ensures { OnOk result (string_bytes out.new ≡ string_bytes out.old
        ++ edge maker.0 taker name.now) }
{
    out.push_str("  ")?;
    add_number(out, maker.0 as u64)?;
    out.push_str(" -> ")?;
    add_number(out, taker as u64)?;
    out.push_str(" [label=\"")?;
    add_dot_text(alloc, out, name)?;
    out.push_str("\"];\n")
}

// The same of an input, where a rule makes it.
fn add_input(
    alloc: Global,
    out: &mut String,
    plan: &Plan,
    taker: usize,
    file: FileNo,
) -> Result<(), AllocError>
    ensures { OnOk result (string_bytes out.new ≡ string_bytes out.old
        ++ edge_line plan.now taker file.0) }
{
    let Some(row) = plan.files.get(file.0 as usize) else {
        return Ok(());
    };
    match row.maker {
        Some(maker) => add_edge(alloc, out, maker, taker, row.name.as_bytes()),
        None => Ok(()),
    }
}

fn add_inputs(
    alloc: Global,
    out: &mut String,
    plan: &Plan,
    taker: usize,
    inputs: &Rows<Port>,
) -> Result<(), AllocError>
    ensures { OnOk result (string_bytes out.new ≡ string_bytes out.old
        ++ flat_map (λ port. edge_line plan.now taker port.file.0) inputs.now) }
{
    for port in inputs.as_slice() {
        add_input(alloc, out, plan, taker, port.file)?;
    }
    Ok(())
}

// A rule's box, and the files that come to it from other rules.
fn add_rule(
    alloc: Global,
    out: &mut String,
    plan: &Plan,
    number: usize,
    rule: &Rule,
) -> Result<(), AllocError>
    ensures { OnOk result (string_bytes out.new ≡ string_bytes out.old
        ++ rule_lines plan.now number rule.now) }
{
    add_node(alloc, out, plan, number, rule)?;
    add_inputs(alloc, out, plan, number, &rule.inputs)
}

fn add_rules(alloc: Global, out: &mut String, plan: &Plan, rules: &[Rule]) -> Result<(), AllocError>
    ensures { OnOk result (string_bytes out.new ≡ string_bytes out.old
        ++ numbered_lines plan.now rules.now) }
{
    for (number, rule) in rules.iter().enumerate() {
        add_rule(alloc, out, plan, number, rule)?;
    }
    Ok(())
}

fn graph_of(alloc: Global, plan: &Plan) -> Result<String, AllocError>
    ensures { IfOk result (λ text. string_bytes text ≡ graph_text plan.now) }
{
    let mut out = String::new(alloc);
    out.push_str("digraph flow {\n  node [shape=box];\n")?;
    add_rules(alloc, &mut out, plan, plan.rules.as_slice())?;
    out.push_str("}\n")?;
    Ok(out)
}

/// The graph in Graphviz' language: a box for each rule with its number and its first output, and
/// an edge for each input that a rule makes, from that rule.
pub fn graph_text(alloc: Global, plan: &Plan) -> Result<String, Memory>
    ensures { IfOk result (λ text. string_bytes text ≡ graph_text plan.now) }
{
    match graph_of(alloc, plan) {
        Ok(text) => Ok(text),
        Err(_) => Err(Memory),
    }
}
