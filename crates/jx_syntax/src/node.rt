//! The nodes of an expression.
use crate::operator::{Operator, Sign};
use flow_types::{Rows, Text};

/// The condition of a loop.
#[derive(Clone, Copy, Debug, PartialEq, Eq)]
pub struct Condition {
    /// The byte of its `if`.
    pub place: usize,
    /// The node of the condition.
    pub test: usize,
}

/// A loop of an item: `for name in over if condition`.
#[derive(Drop)]
pub struct Loop {
    /// The byte of its `for`.
    pub place: usize,
    /// The name that it binds.
    pub name: Text,
    /// The node of the list that it goes over.
    pub over: usize,
    /// Its condition, where it has one.
    pub condition: Option<Condition>,
}

/// An item of a list: an expression, given once for each turn of its loops.
#[derive(Drop)]
pub struct Item {
    /// The node of the expression.
    pub body: usize,
    /// The loops, the outermost first.
    pub loops: Rows<Loop>,
}

/// A key of an object literal and its value.
#[derive(Drop)]
pub struct Field {
    /// The key.
    pub key: Text,
    /// The node of the value.
    pub value: usize,
}

/// What a node says. The other nodes that it names stand before it.
#[derive(Drop)]
pub enum Form {
    /// `null`
    Null,
    /// `true` or `false`
    Truth(bool),
    /// A whole number.
    Number(i64),
    /// A text.
    Text(Text),
    /// A name.
    Name(Text),
    /// A call of this name with these arguments.
    Call(Text, Rows<usize>),
    /// A list of these items.
    List(Rows<Item>),
    /// An object of these fields.
    Object(Rows<Field>),
    /// An index: what is indexed, and by what.
    Index(usize, usize),
    /// A slice: what is sliced, and its ends where they are given.
    Slice(usize, Option<usize>, Option<usize>),
    /// A sign and its operand.
    Signed(Sign, usize),
    /// An operator with its left and its right operand.
    Operation(Operator, usize, usize),
}

/// A node of an expression.
///
/// Its place is the byte of a name, of a call's name, of an operator, of the `[` of an index or a
/// slice, else the first byte of what it says.
#[derive(Drop)]
pub struct Node {
    /// The byte in the text.
    pub place: usize,
    /// What it says.
    pub form: Form,
}
