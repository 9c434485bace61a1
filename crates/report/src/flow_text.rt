//! Why a flow is refused, in words.
ghost use Rattle.std.specs.Prelude.{◌≡◌, ◌++◌, codes, IfOk, OnOk};
ghost use Rattle.std.specs.List.{flat_map};
ghost use Rattle.std.specs.Fmt.{decimal};
ghost use Rattle.report.specs.Lines.{line_text, make_text, of_rule, graph_text};

use crate::text::around;
use flow_types::RuleNo;
use mf_text::MakeFault;
use rule_graph::GraphFault;
use std::alloc::{AllocError, Global};

// A line, and what is said of it.
fn line_text(alloc: Global, line: u32, what: &[u8], name: &[u8]) -> Result<Vec<u8>, AllocError>
    ensures { IfOk result (λ text. text.items ≡ line_text line (what.now ++ name.now)) }
{
    let mut text = format!(in alloc; "line {line}: ")?.into_bytes();
    text.extend_from_slice(what)?;
    text.extend_from_slice(name)?;
    Ok(text)
}

/// Why a text is no Makeflow text.
pub(crate) fn make_text(alloc: Global, fault: &MakeFault) -> Result<Vec<u8>, AllocError>
    ensures { IfOk result (λ text. text.items ≡ make_text fault.now) }
{
    match fault {
        MakeFault::NotUtf8(at) => {
            let text = format!(in alloc; "not UTF-8 at {at}")?;
            Ok(text.into_bytes())
        }
        MakeFault::OpenQuote(line) => line_text(alloc, *line, b"open quote", b""),
        MakeFault::UnknownName(line, name) => {
            line_text(alloc, *line, b"unknown name ", name.as_str().as_bytes())
        }
        MakeFault::OpenParen(line) => line_text(alloc, *line, b"open parenthesis", b""),
        MakeFault::NoColon(line) => line_text(alloc, *line, b"no colon", b""),
        MakeFault::NoCommand(line) => line_text(alloc, *line, b"no command", b""),
        MakeFault::StrayCommand(line) => line_text(alloc, *line, b"stray command", b""),
        MakeFault::BadNumber(line) => line_text(alloc, *line, b"bad number", b""),
        MakeFault::TooLarge(_) => Vec::from_slice(alloc, b"too large"),
        MakeFault::Memory => Vec::from_slice(alloc, b"out of memory"),
    }
}

// A rule, and what is said of it.
fn of_rule(alloc: Global, rule: RuleNo, what: &[u8], name: &[u8]) -> Result<Vec<u8>, AllocError>
    ensures { IfOk result (λ text. text.items ≡ of_rule rule.0 (what.now ++ name.now)) }
{
    let number = rule.0;
    let mut text = format!(in alloc; "rule {number}: ")?.into_bytes();
    text.extend_from_slice(what)?;
    text.extend_from_slice(name)?;
    Ok(text)
}

// Two rules.
fn pair_text(alloc: Global, rule: RuleNo, other: RuleNo) -> Result<Vec<u8>, AllocError>
    ensures { IfOk result
        (λ text. text.items ≡ codes ": " ++ decimal rule.0 ++ codes " and " ++ decimal other.0) }
{
    let first = rule.0;
    let second = other.0;
    let text = format!(in alloc; ": {first} and {second}")?;
    Ok(text.into_bytes())
}

// One more rule of a loop.
fn add_rule(alloc: Global, text: &mut Vec<u8>, rule: RuleNo) -> Result<(), AllocError>
    ensures { OnOk result (text.new.items ≡ text.old.items ++ codes " " ++ decimal rule.0) }
{
    let number = rule.0;
    let part = format!(in alloc; " {number}")?;
    text.extend_from_slice(part.as_bytes())
}

// The rules of a loop.
fn cycle_text(alloc: Global, rules: &[RuleNo]) -> Result<Vec<u8>, AllocError>
    ensures { IfOk result (λ text. text.items
        ≡ codes "cycle of rules" ++ flat_map (λ rule. codes " " ++ decimal rule.0) rules.now) }
{
    let mut text = Vec::from_slice(alloc, b"cycle of rules")?;
    for rule in rules {
        add_rule(alloc, &mut text, *rule)?;
    }
    Ok(text)
}

/// Why the rules of a flow are no plan.
pub(crate) fn graph_text(alloc: Global, fault: &GraphFault) -> Result<Vec<u8>, AllocError>
    ensures { IfOk result (λ text. text.items ≡ graph_text fault.now) }
{
    match fault {
        GraphFault::TooMany(_) => Vec::from_slice(alloc, b"too many"),
        GraphFault::BadName(rule, text) => {
            of_rule(alloc, *rule, b"bad name ", text.as_str().as_bytes())
        }
        GraphFault::NoOutput(rule) => of_rule(alloc, *rule, b"no output", b""),
        GraphFault::SameName(rule, name) => of_rule(alloc, *rule, b"same name ", name.as_bytes()),
        GraphFault::NestedName(folder, name) => {
            let folder = around(alloc, b"nested names ", folder.as_bytes(), b" and ")?;
            around(alloc, &folder, name.as_bytes(), b"")
        }
        GraphFault::TwoMakers(name, rule, other) => {
            let rules = pair_text(alloc, *rule, *other)?;
            around(alloc, b"two rules make ", name.as_bytes(), &rules)
        }
        GraphFault::Cycle(rules) => cycle_text(alloc, rules.as_slice()),
        GraphFault::Memory => Vec::from_slice(alloc, b"out of memory"),
    }
}
