//! What a text says of all rules.
ghost use Rattle.std.specs.Prelude.{◌≡◌, length, option_map, option_copied, IfOk};
ghost use Rattle.jx_meaning.specs.Values.{plain};
ghost use Rattle.jx_meaning.specs.Scopes.{names_of};
ghost use Rattle.jx_flow.specs.Answers.{Gives};
ghost use Rattle.jx_flow.specs.Flow.{default_by, general_by, kept_by};
ghost use Rattle.jx_flow.specs.Nodes.{said, AreWithin};

use crate::amounts::categories_of;
use crate::fault::JxFlowFault;
use crate::reading::text_of;
use crate::rules::General;
use crate::scopes::worth_of;
use crate::variables::variables_of;
use flow_types::{Memory, Rows, Text};
use jx_meaning::JxScope;
use jx_syntax::{Expr, Field, JxValue};
use jx_values::{Texts, text_in};
use mf_forms::words;
use std::alloc::Global;

/// The category of a rule that names none.
fn default_of(alloc: Global, value: Option<&JxValue>) -> Result<Text, JxFlowFault>
    ensures { Gives (λ t. t) result (default_by (option_map plain (option_copied value.entry))) }
{
    match value {
        Some(value) => {
            let text = text_of(alloc, None, "default_category", value)?;
            Ok(Text::of(alloc, text)?)
        }
        None => Ok(Text::of(alloc, "default")?),
    }
}

/// The environment of all rules, the categories, and the category of a rule that names none.
pub(crate) fn general_of(
    alloc: Global,
    expr: &Expr,
    fields: &[Field],
    scope: &JxScope,
    count: &mut u32,
    texts: &Texts,
) -> Result<General, JxFlowFault>
    requires { AreWithin (length expr.now) fields.now }
    ensures { Gives (λ g. g) result
        (general_by (said expr.now fields.now) (names_of scope.now) count.old) }
{
    let environment = worth_of(alloc, expr, fields, "environment", scope, count, texts)?;
    let variables = variables_of(alloc, None, environment.as_ref())?;
    let categories = worth_of(alloc, expr, fields, "categories", scope, count, texts)?;
    let categories = categories_of(alloc, categories.as_ref())?;
    let category = worth_of(alloc, expr, fields, "default_category", scope, count, texts)?;
    let category = default_of(alloc, category.as_ref())?;
    Ok(General {
        variables,
        categories,
        category,
    })
}

/// The names of the files to keep.
pub(crate) fn kept_in(alloc: Global, scope: &JxScope) -> Result<Rows<Text>, Memory>
    ensures { IfOk result (λ names. names ≡ kept_by (names_of scope.now)) }
{
    match scope.get("MAKEFLOW_OUTPUTS") {
        Some(value) => match text_in(value) {
            Some(text) => words(alloc, text),
            None => Ok(Rows::new(alloc)),
        },
        None => Ok(Rows::new(alloc)),
    }
}
