//! The flow of a text.
ghost use Rattle.std.specs.Prelude.{◌≡◌, length, Err, IfOk};
ghost use Rattle.flow_types.specs.Flows.{FitsLimits};
ghost use Rattle.jx_tokens.specs.declared.fault.JxFault.{JxFault};
ghost use Rattle.jx_syntax.specs.Grammar.{Derivation, IsWritten, IsNoExpression};
ghost use Rattle.jx_syntax.specs.Tree.{tree_of, expression_of};
ghost use Rattle.jx_meaning.specs.Scopes.{names_of};
ghost use Rattle.jx_flow.specs.declared.fault.JxFlowFault.TheVariants.{Syntax};
ghost use Rattle.jx_flow.specs.Answers.{Gives};
ghost use Rattle.jx_flow.specs.Flow.{flow_by, flow_within, flow_of, flow_of_text};
ghost use Rattle.jx_flow.specs.Nodes.{said, AreWithin};

use crate::fault::JxFlowFault;
use crate::general::{general_of, kept_in};
use crate::literals::literal_at;
use crate::reading::{bad, items_of, missing};
use crate::rules::{Made, rules_of};
use crate::scopes::{definitions, worth_of};
use flow_types::{Memory, RawFlow, Rows, Text};
use jx_meaning::JxScope;
use jx_syntax::{Expr, Field, parse};
use jx_tokens::JxFault;
use jx_values::Texts;
use std::alloc::Global;

/// The flow of these rules.
fn flow_by(alloc: Global, keep: Rows<Text>, made: Rows<Made>) -> Result<RawFlow, Memory>
    ensures { IfOk result (λ flow. flow ≡ flow_by keep made) }
{
    let mut rules = Vec::new(alloc);
    let mut bounds = Vec::new(alloc);
    for one in made.into_vec() {
        let mut stated = one.bounds.into_vec();
        if rules.push(one.rule).is_err() || bounds.append(&mut stated).is_err() {
            return Err(Memory);
        }
    }
    Ok(RawFlow {
        rules: Rows::of(rules),
        keep,
        bounds: Rows::of(bounds),
    })
}

/// The flow of an object literal whose names have these values, where so many nodes were begun.
fn flow_within(
    alloc: Global,
    expr: &Expr,
    fields: &[Field],
    scope: &JxScope,
    begun: u32,
    texts: &Texts,
) -> Result<RawFlow, JxFlowFault>
    requires { AreWithin (length expr.now) fields.now }
    ensures { Gives (λ flow. flow) result
        (flow_within (said expr.now fields.now) (names_of scope.now) begun) }
{
    let mut count = begun;
    let rules = match worth_of(alloc, expr, fields, "rules", scope, &mut count, texts)? {
        Some(rules) => rules,
        None => return Err(missing(alloc, None, "rules")),
    };
    let items = items_of(alloc, None, "rules", &rules)?;
    let general = general_of(alloc, expr, fields, scope, &mut count, texts)?;
    let made = rules_of(alloc, &general, items)?;
    let keep = kept_in(alloc, scope)?;
    Ok(flow_by(alloc, keep, made)?)
}

/// The flow of an expression.
fn flow_of(alloc: Global, expr: &Expr) -> Result<RawFlow, JxFlowFault>
    ensures { Gives (λ flow. flow) result (flow_of (expression_of expr.now)) }
{
    match literal_at(expr, expr.nodes().len() - 1) {
        Some(fields) => {
            let texts = Texts::new();
            let (scope, count) = definitions(alloc, expr, fields, &texts)?;
            flow_within(alloc, expr, fields, &scope, count, &texts)
        }
        None => Err(bad(alloc, None, "")),
    }
}

/// The flow that a JX text says, or its first fault.
///
/// The text is an object literal. Its fields are looked at in the order `define`, `rules`,
/// `environment`, `categories`, `default_category`, and then the rules by their index.
pub fn read_jx(alloc: Global, text: &[u8]) -> Result<RawFlow, JxFlowFault>
    ensures flow { Gives (λ flow. flow) result (flow_of_text text.now) }
    ensures limits { IfOk result FitsLimits }
    // A text that is an expression gives that expression's flow or its first fault.
    ensures written { (d : Derivation) → IsWritten text.now d
        → Gives (λ flow. flow) result (flow_of (tree_of d)) }
    // A text that is none is refused for the reason for which it is none.
    ensures refused { (e : JxFault) → IsNoExpression text.now e
        → Gives (λ flow. flow) result (Err (Syntax e)) }
{
    match parse(alloc, text) {
        Ok(expr) => flow_of(alloc, &expr),
        Err(fault) => match fault {
            JxFault::Memory => Err(JxFlowFault::Memory),
            other => Err(JxFlowFault::Syntax(other)),
        },
    }
}
