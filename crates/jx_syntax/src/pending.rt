//! What waits while a text is read.
use crate::node::{Field, Item, Node};
use crate::operator::{Operator, Sign};
use flow_types::{Rows, Text};
use std::alloc::Global;

/// Which part of an item is wanted.
#[derive(Drop)]
pub enum Part {
    /// What the item gives.
    Body,
    /// The list of a loop, for the item so far, the loop's place and its name.
    Over(Item, usize, Text),
    /// The condition of a loop, with the loop's list and the place of its `if` too.
    Only(Item, usize, Text, usize, usize),
}

/// What waits for an expression.
#[derive(Drop)]
pub enum Pending {
    /// An operator with its left operand.
    Left(usize, Operator, usize),
    /// A sign.
    Before(usize, Sign),
    /// A parenthesis.
    Grouped,
    /// A call with its name and the arguments so far.
    Argued(usize, Text, Rows<usize>),
    /// A list with the items so far.
    Listed(usize, Rows<Item>, Part),
    /// An object with the fields so far and a key.
    Keyed(usize, Rows<Field>, Text),
    /// What is indexed, and the place of the bracket.
    Indexed(usize, usize),
    /// What is sliced, the place of the bracket, and the first end.
    Sliced(usize, usize, Option<usize>),
}

/// What is wanted next.
#[derive(Drop)]
pub enum Wanted {
    /// An expression.
    Operand,
    /// What can stand behind a name.
    Named(usize, Text),
    /// What can stand behind the expression of a node.
    Behind(usize),
    /// A key of an object, or its end.
    Key(usize, Rows<Field>),
    /// The colon behind a key.
    Colon(usize, Rows<Field>, Text),
    /// The name behind a `for`.
    LoopName(usize, Rows<Item>, Item, usize),
    /// The `in` behind that name.
    In(usize, Rows<Item>, Item, usize, Text),
}

/// The nodes so far, what waits, and how many levels are open.
#[derive(Drop)]
pub struct Reader {
    pub alloc: Global,
    pub nodes: Vec<Node>,
    pub stack: Vec<Pending>,
    pub depth: usize,
}
