//! Faults of flows by their words, behind `make FLOW`, `jx FLOW` or `graph FLOW`.
use crate::ends::words::{first, name, number, place, rule, text, whole};
use flow_types::{Name, Rows, RuleNo};
use jx_flow::JxFlowFault;
use jx_meaning::EvalFault;
use jx_tokens::JxFault;
use mf_text::MakeFault;
use rule_graph::GraphFault;
use std::alloc::Global;

/// `utf8 AT`, `quote LINE`, `name LINE TEXT`, `parenthesis LINE`, `colon LINE`, `command LINE`,
/// `stray LINE`, `number LINE`, `large LIMIT` or `memory`.
pub fn make_fault(alloc: Global, line: &str) -> Option<MakeFault> {
    let (word, rest) = first(line);
    match word {
        "utf8" => Some(MakeFault::NotUtf8(place(rest)?)),
        "quote" => Some(MakeFault::OpenQuote(number(rest)?)),
        "name" => {
            let (line, rest) = first(rest);
            Some(MakeFault::UnknownName(number(line)?, text(alloc, rest)?))
        }
        "parenthesis" => Some(MakeFault::OpenParen(number(rest)?)),
        "colon" => Some(MakeFault::NoColon(number(rest)?)),
        "command" => Some(MakeFault::NoCommand(number(rest)?)),
        "stray" => Some(MakeFault::StrayCommand(number(rest)?)),
        "number" => Some(MakeFault::BadNumber(number(rest)?)),
        "large" => Some(MakeFault::TooLarge(whole(rest)?)),
        "memory" => Some(MakeFault::Memory),
        _ => None,
    }
}

fn syntax_fault(line: &str) -> Option<JxFault> {
    let (word, rest) = first(line);
    match word {
        "large" => Some(JxFault::TooLarge),
        "memory" => Some(JxFault::Memory),
        "utf8" => Some(JxFault::NotUtf8(place(rest)?)),
        "unexpected" => Some(JxFault::Unexpected(place(rest)?)),
        "open" => Some(JxFault::OpenText(place(rest)?)),
        "float" => Some(JxFault::FloatUnsupported(place(rest)?)),
        "wide" => Some(JxFault::IntTooWide(place(rest)?)),
        "deep" => Some(JxFault::TooDeep(place(rest)?)),
        _ => None,
    }
}

fn evaluation_fault(line: &str) -> Option<EvalFault> {
    let (word, rest) = first(line);
    match word {
        "memory" => Some(EvalFault::Memory),
        "name" => Some(EvalFault::UnknownName(place(rest)?)),
        "kind" => Some(EvalFault::WrongKind(place(rest)?)),
        "overflow" => Some(EvalFault::Overflow(place(rest)?)),
        "divisor" => Some(EvalFault::ZeroDivisor(place(rest)?)),
        "index" => Some(EvalFault::IndexRange(place(rest)?)),
        "key" => Some(EvalFault::NoSuchKey(place(rest)?)),
        "mark" => Some(EvalFault::BadMark(place(rest)?)),
        "count" => Some(EvalFault::ArgCount(place(rest)?)),
        "much" => Some(EvalFault::TooMuch(place(rest)?)),
        _ => None,
    }
}

// A rule's number, or `-` outside of the rules.
fn rule_or_none(word: &str) -> Option<Option<u32>> {
    if word == "-" {
        return Some(None);
    }
    Some(Some(number(word)?))
}

/// `syntax ..` with `utf8`, `unexpected`, `open`, `float`, `wide`, `deep` and a place, `large` or
/// `memory`; `evaluation ..` with `name`, `kind`, `overflow`, `divisor`, `index`, `key`, `mark`,
/// `count`, `much` and a place, or `memory`; `missing RULE FIELD`, `field RULE FIELD`, `category
/// RULE`, `large LIMIT` or `memory`.
pub fn jx_fault(alloc: Global, line: &str) -> Option<JxFlowFault> {
    let (word, rest) = first(line);
    match word {
        "syntax" => Some(JxFlowFault::Syntax(syntax_fault(rest)?)),
        "evaluation" => Some(JxFlowFault::Evaluation(evaluation_fault(rest)?)),
        "category" => Some(JxFlowFault::UnknownCategory(number(rest)?)),
        "large" => Some(JxFlowFault::TooLarge(whole(rest)?)),
        "memory" => Some(JxFlowFault::Memory),
        _ => field_fault(alloc, word, rest),
    }
}

fn field_fault(alloc: Global, kind: &str, line: &str) -> Option<JxFlowFault> {
    let (rule, field) = first(line);
    let (rule, field) = (rule_or_none(rule)?, text(alloc, field)?);
    match kind {
        "missing" => Some(JxFlowFault::MissingField { rule, field }),
        "field" => Some(JxFlowFault::FieldKind { rule, field }),
        _ => None,
    }
}

fn cycle(alloc: Global, line: &str) -> Option<GraphFault> {
    let mut rules = Rows::new(alloc);
    for word in line.split_whitespace() {
        let Ok(()) = rules.push(rule(word)?) else {
            return None;
        };
    }
    Some(GraphFault::Cycle(rules))
}

fn two_names(alloc: Global, line: &str) -> Option<(Name, Name)> {
    let (one, other) = first(line);
    Some((name(alloc, one)?, name(alloc, other)?))
}

fn two_makers(alloc: Global, line: &str) -> Option<GraphFault> {
    let (file, rest) = first(line);
    let (one, other) = first(rest);
    let (one, other): (RuleNo, RuleNo) = (rule(one)?, rule(other)?);
    Some(GraphFault::TwoMakers(name(alloc, file)?, one, other))
}

/// `many LIMIT`, `bad RULE TEXT`, `none RULE`, `same RULE NAME`, `nested NAME NAME`, `makers NAME
/// RULE RULE`, `cycle RULE..` or `memory`.
pub fn graph_fault(alloc: Global, line: &str) -> Option<GraphFault> {
    let (word, rest) = first(line);
    let (head, tail) = first(rest);
    match word {
        "many" => Some(GraphFault::TooMany(number(rest)?)),
        "bad" => Some(GraphFault::BadName(rule(head)?, text(alloc, tail)?)),
        "none" => Some(GraphFault::NoOutput(rule(rest)?)),
        "same" => Some(GraphFault::SameName(rule(head)?, name(alloc, tail)?)),
        "nested" => {
            let (one, other) = two_names(alloc, rest)?;
            Some(GraphFault::NestedName(one, other))
        }
        "makers" => two_makers(alloc, rest),
        "cycle" => cycle(alloc, rest),
        "memory" => Some(GraphFault::Memory),
        _ => None,
    }
}
