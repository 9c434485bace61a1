//! Values.
use flow_types::{Rows, Text};

/// What an expression is worth.
#[derive(Drop)]
#[cycle(value)]
pub enum JxValue {
    /// `null`
    Null,
    /// `true` or `false`
    Truth(bool),
    /// A whole number.
    Number(i64),
    /// A text.
    Text(Text),
    /// The items in order.
    List(Rows<JxValue>),
    /// The pairs in order, each key once.
    Object(Rows<JxPair>),
}

/// A key of an object and its value.
#[derive(Drop)]
#[cycle(value)]
pub struct JxPair {
    /// The key.
    pub key: Text,
    /// Its value.
    pub value: JxValue,
}
