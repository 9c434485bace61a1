//! Object literals, by their nodes.
ghost use Rattle.std.specs.Prelude.{◌≡◌, ◌<◌, ℕ, List, length, option_map, IfSome};
ghost use Rattle.jx_syntax.specs.Tree.{Tree, node_at, fields_at, no_fields};
ghost use Rattle.jx_flow.specs.Flow.{literal, field_of};
ghost use Rattle.jx_flow.specs.Nodes.{tree_at, said, AreWithin};

use jx_syntax::{Expr, Field, Form};

/// The fields of the object literal that a node is.
pub(crate) fn literal_at(expr: &Expr, node: usize) -> Option<&[Field]>
    requires { node < length expr.now }
    ensures fields { option_map (λ fields. said expr.now fields.now) result
        ≡ literal (tree_at expr.now node) }
    ensures within { IfSome result (λ fields. AreWithin (length expr.now) fields.now) }
{
    match &expr.nodes()[node].form {
        Form::Object(fields) => Some(fields.as_slice()),
        _ => None,
    }
}

/// The node of a key's value; of a key that stands there again it is the last one.
pub(crate) fn last_of(fields: &[Field], key: &str) -> Option<usize>
    ensures found { (ts : List Tree) → option_map (node_at ts) result
        ≡ field_of key.now (fields_at ts fields.now no_fields) }
    ensures within { (n : ℕ) → AreWithin n fields.now → IfSome result (λ node. node < n) }
{
    let mut last = None;
    for field in fields {
        if field.key.as_str() == key {
            last = Some(field.value);
        }
    }
    last
}
