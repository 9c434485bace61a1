//! Expressions with all their brackets.
use crate::tokens::quoted;
use flow_types::{Rows, Text};
use jx_syntax::{Expr, Field, Form, Item, Operator, Sign, parse};
use std::alloc::{AllocError, Global};

// An expression of more nodes is shown by their number.
const MOST_NODES: usize = 100;

/// A text as an expression in which each operation, sign and loop has its brackets, or its fault.
pub(crate) fn tree_shown(alloc: Global, text: &[u8]) -> Result<String, AllocError> {
    match parse(alloc, text) {
        Ok(expr) => expression_shown(alloc, &expr),
        Err(fault) => format!(in alloc; "! {fault}"),
    }
}

fn expression_shown(alloc: Global, expr: &Expr) -> Result<String, AllocError> {
    let nodes = expr.nodes();
    let count = nodes.len();
    if count > MOST_NODES {
        return format!(in alloc; "{count} nodes");
    }
    let mut parts = Vec::new(alloc);
    for node in nodes {
        let part = form_shown(alloc, &parts, &node.form)?;
        parts.push(part)?;
    }
    match parts.pop() {
        Some(whole) => Ok(whole),
        None => Ok(String::new(alloc)),
    }
}

/// The nodes of a text in order: the place of each, and what it says of the nodes #0, #1 and on.
pub(crate) fn nodes_shown(alloc: Global, text: &[u8]) -> Result<String, AllocError> {
    let expr = match parse(alloc, text) {
        Ok(expr) => expr,
        Err(fault) => return format!(in alloc; "! {fault}"),
    };
    let mut parts = Vec::new(alloc);
    let mut shown = String::new(alloc);
    for (number, node) in expr.nodes().iter().enumerate() {
        if number > 0 {
            shown.push_str(", ")?;
        }
        let form = form_shown(alloc, &parts, &node.form)?;
        let place = node.place;
        let piece = format!(in alloc; "{place} {form}")?;
        shown.push_str(&piece)?;
        let part = format!(in alloc; "#{number}")?;
        parts.push(part)?;
    }
    Ok(shown)
}

fn part_at(parts: &[String], at: usize) -> &str {
    match parts.get(at) {
        Some(part) => part.as_str(),
        None => "?",
    }
}

// What a node says, where the nodes before it are these.
fn form_shown(alloc: Global, parts: &[String], form: &Form) -> Result<String, AllocError> {
    match form {
        Form::Null => String::from_str(alloc, "null"),
        Form::Truth(true) => String::from_str(alloc, "true"),
        Form::Truth(false) => String::from_str(alloc, "false"),
        Form::Number(number) => {
            let number = *number;
            format!(in alloc; "{number}")
        }
        Form::Text(text) => quoted(alloc, text.as_str()),
        Form::Name(name) => String::from_str(alloc, name.as_str()),
        Form::Call(name, given) => call_shown(alloc, parts, name, given),
        Form::List(items) => list_shown(alloc, parts, items),
        Form::Object(fields) => object_shown(alloc, parts, fields),
        Form::Index(base, index) => {
            let (base, index) = (part_at(parts, *base), part_at(parts, *index));
            format!(in alloc; "{base}[{index}]")
        }
        Form::Slice(base, start, end) => {
            let base = part_at(parts, *base);
            let (start, end) = (end_at(parts, *start), end_at(parts, *end));
            format!(in alloc; "{base}[{start}:{end}]")
        }
        Form::Signed(sign, operand) => signed_shown(alloc, *sign, part_at(parts, *operand)),
        Form::Operation(operator, left, right) => {
            let (left, right) = (part_at(parts, *left), part_at(parts, *right));
            let mark = mark_of(*operator);
            format!(in alloc; "({left} {mark} {right})")
        }
    }
}

fn end_at(parts: &[String], end: Option<usize>) -> &str {
    match end {
        Some(at) => part_at(parts, at),
        None => "",
    }
}

fn signed_shown(alloc: Global, sign: Sign, operand: &str) -> Result<String, AllocError> {
    match sign {
        Sign::Minus => format!(in alloc; "(-{operand})"),
        Sign::Plus => format!(in alloc; "(+{operand})"),
        Sign::Not => format!(in alloc; "(not {operand})"),
    }
}

fn call_shown(
    alloc: Global,
    parts: &[String],
    name: &Text,
    given: &Rows<usize>,
) -> Result<String, AllocError> {
    let mut shown = String::from_str(alloc, name.as_str())?;
    shown.push_str("(")?;
    for (place, at) in given.as_slice().iter().enumerate() {
        separate(&mut shown, place)?;
        shown.push_str(part_at(parts, *at))?;
    }
    shown.push_str(")")?;
    Ok(shown)
}

fn list_shown(alloc: Global, parts: &[String], items: &Rows<Item>) -> Result<String, AllocError> {
    let mut shown = String::from_str(alloc, "[")?;
    for (place, item) in items.as_slice().iter().enumerate() {
        separate(&mut shown, place)?;
        if item.loops.as_slice().is_empty() {
            shown.push_str(part_at(parts, item.body))?;
        } else {
            let looped = looped_shown(alloc, parts, item)?;
            shown.push_str(&looped)?;
        }
    }
    shown.push_str("]")?;
    Ok(shown)
}

// An item with its loops.
fn looped_shown(alloc: Global, parts: &[String], item: &Item) -> Result<String, AllocError> {
    let mut shown = String::from_str(alloc, "(")?;
    shown.push_str(part_at(parts, item.body))?;
    for one in item.loops.as_slice() {
        let (name, over) = (one.name.as_str(), part_at(parts, one.over));
        let piece = format!(in alloc; " for {name} in {over}")?;
        shown.push_str(&piece)?;
        if let Some(condition) = one.condition {
            shown.push_str(" if ")?;
            shown.push_str(part_at(parts, condition.test))?;
        }
    }
    shown.push_str(")")?;
    Ok(shown)
}

fn object_shown(
    alloc: Global,
    parts: &[String],
    fields: &Rows<Field>,
) -> Result<String, AllocError> {
    let mut shown = String::from_str(alloc, "{")?;
    for (place, field) in fields.as_slice().iter().enumerate() {
        separate(&mut shown, place)?;
        let key = quoted(alloc, field.key.as_str())?;
        shown.push_str(&key)?;
        shown.push_str(": ")?;
        shown.push_str(part_at(parts, field.value))?;
    }
    shown.push_str("}")?;
    Ok(shown)
}

fn separate(shown: &mut String, place: usize) -> Result<(), AllocError> {
    if place == 0 {
        return Ok(());
    }
    shown.push_str(", ")
}

fn mark_of(operator: Operator) -> &'static str {
    match operator {
        Operator::Or => "or",
        Operator::And => "and",
        Operator::Equal => "==",
        Operator::Unequal => "!=",
        Operator::Less => "<",
        Operator::AtMost => "<=",
        Operator::More => ">",
        Operator::AtLeast => ">=",
        Operator::Add => "+",
        Operator::Subtract => "-",
        Operator::Multiply => "*",
        Operator::Divide => "/",
        Operator::Remainder => "%",
    }
}
