//! Expressions.
ghost use Rattle.std.specs.Prelude.{◌≡◌, ◌<◌, length};
ghost use Rattle.jx_syntax.specs.Tree.{IsOrdered};

use crate::node::Node;
use flow_types::Rows;
use std::marker::Model;

/// An expression. Contracts see it as its nodes: operands stand before their operators, and the
/// last node is the whole expression.
///
/// Neither reading nor dropping it costs call depth.
#[derive(Drop)]
pub struct Expr {
    nodes: Rows<Node>,
}

impl Model for Expr {
    ghost use Rattle.std.specs.Prelude.{◌<◌, List, length};
    ghost use Rattle.jx_syntax.specs.declared.node.Node.{Node};
    ghost use Rattle.jx_syntax.specs.Tree.{IsOrdered};

    ghost Value = { List Node };

    ghost view = { λ e. e.nodes };

    ghost invariant = { λ e. IsOrdered 0 e.nodes × (0 < length e.nodes) };
}

impl Expr {
    /// The nodes.
    pub fn nodes(&self) -> &[Node]
        ensures nodes { result.now ≡ self.now }
        ensures ordered { IsOrdered 0 result.now }
        ensures some { 0 < length result.now }
    {
        self.nodes.as_slice()
    }
}

/// The expression of these nodes.
pub fn expr_of(nodes: Vec<Node>) -> Expr
    requires ordered { IsOrdered 0 nodes.items }
    requires some { 0 < length nodes.items }
    ensures { result ≡ nodes.items }
{
    Expr {
        nodes: Rows::of(nodes),
    }
}
