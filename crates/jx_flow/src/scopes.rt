//! What fields are worth, and the names that a text gives values.
ghost use Rattle.std.specs.Prelude.{◌≡◌, ◌<◌, length, option_map, codes};
ghost use Rattle.jx_meaning.specs.Values.{plain};
ghost use Rattle.jx_meaning.specs.Scopes.{names_of};
ghost use Rattle.jx_meaning.specs.Meaning.{evaluate};
ghost use Rattle.jx_flow.specs.Answers.{Gives};
ghost use Rattle.jx_flow.specs.Flow.{counted, field_of, worth_of, defined, defined_by};
ghost use Rattle.jx_flow.specs.Nodes.{tree_at, said, AreWithin};

use crate::fault::JxFlowFault;
use crate::literals::{last_of, literal_at};
use crate::reading::bad;
use jx_eval::eval_counted;
use jx_meaning::{EvalFault, JxScope};
use jx_syntax::{Expr, Field, JxValue};
use jx_values::Texts;
use std::alloc::Global;

/// What the expression of a node is worth.
fn evaluated(
    alloc: Global,
    expr: &Expr,
    node: usize,
    scope: &JxScope,
    count: &mut u32,
    texts: &Texts,
) -> Result<JxValue, JxFlowFault>
    requires { node < length expr.now }
    ensures { Gives (λ v. (plain v, count.new)) result
        (counted (evaluate (tree_at expr.now node) (names_of scope.now) count.old)) }
{
    match eval_counted(alloc, expr, node, scope, *count, texts) {
        Ok((value, begun)) => {
            *count = begun;
            Ok(value)
        }
        Err(fault) => match fault {
            EvalFault::Memory => Err(JxFlowFault::Memory),
            other => Err(JxFlowFault::Evaluation(other)),
        },
    }
}

/// What the field of this key is worth, where it is there. The nodes that are begun are counted.
pub(crate) fn worth_of(
    alloc: Global,
    expr: &Expr,
    fields: &[Field],
    key: &str,
    scope: &JxScope,
    count: &mut u32,
    texts: &Texts,
) -> Result<Option<JxValue>, JxFlowFault>
    requires { AreWithin (length expr.now) fields.now }
    ensures { Gives (λ v. (option_map plain v, count.new)) result
        (worth_of key.now (said expr.now fields.now) (names_of scope.now) count.old) }
{
    match last_of(fields, key) {
        Some(node) => {
            let value = evaluated(alloc, expr, node, scope, count, texts)?;
            Ok(Some(value))
        }
        None => Ok(None),
    }
}

/// Gives names their values, of which each sees the ones before.
fn define(
    alloc: Global,
    expr: &Expr,
    fields: &[Field],
    scope: &mut JxScope,
    count: &mut u32,
    texts: &Texts,
) -> Result<(), JxFlowFault>
    requires { AreWithin (length expr.now) fields.now }
    ensures { Gives (λ _. (names_of scope.new, count.new)) result
        (defined (said expr.now fields.now) (names_of scope.old) count.old) }
{
    for field in fields {
        let value = evaluated(alloc, expr, field.value, scope, count, texts)?;
        scope.set(field.key.as_str(), value)?;
    }
    Ok(())
}

/// The names to which the field `define` gives values, and the nodes begun so far.
pub(crate) fn definitions(
    alloc: Global,
    expr: &Expr,
    fields: &[Field],
    texts: &Texts,
) -> Result<(JxScope, u32), JxFlowFault>
    requires { AreWithin (length expr.now) fields.now }
    ensures { Gives (λ p. (names_of p.0, p.1)) result
        (defined_by (field_of (codes "define") (said expr.now fields.now))) }
{
    let mut scope = JxScope::new(alloc);
    let mut count = 0;
    match last_of(fields, "define") {
        Some(node) => match literal_at(expr, node) {
            Some(names) => {
                define(alloc, expr, names, &mut scope, &mut count, texts)?;
                Ok((scope, count))
            }
            None => Err(bad(alloc, None, "define")),
        },
        None => Ok((scope, count)),
    }
}
