//! What waits for the value of an operand.
use crate::operand::{Operand, Seen};
use crate::turns::Turns;
use flow_types::Text;
use jx_syntax::{Condition, Field, Item, Loop, Operator, Sign};
use jx_values::{Fields, Items};

/// A name that a loop binds, and its value.
#[derive(Drop)]
pub(crate) struct Bound<'a> {
    pub(crate) name: &'a Text,
    pub(crate) value: Seen<'a>,
}

/// A call whose arguments are being evaluated.
#[derive(Drop)]
pub(crate) struct Call<'a> {
    pub(crate) place: usize,
    pub(crate) name: &'a Text,
    /// The arguments behind the one at hand.
    pub(crate) rest: &'a [usize],
    /// The arguments so far.
    pub(crate) done: Vec<Operand<'a>>,
}

/// An object that is being made.
#[derive(Drop)]
pub(crate) struct Object<'a> {
    pub(crate) place: usize,
    /// The key of the value at hand.
    pub(crate) key: &'a Text,
    /// The fields behind the one at hand.
    pub(crate) rest: &'a [Field],
    /// The keys so far.
    pub(crate) done: Fields,
}

/// A loop that is under way.
#[derive(Drop)]
pub(crate) struct Turn<'a> {
    pub(crate) name: &'a Text,
    pub(crate) condition: Option<Condition>,
    /// The loops within it.
    pub(crate) inner: &'a [Loop],
    /// The values of the turns to come.
    pub(crate) left: Turns<'a>,
    /// How many names loops bind outside of it.
    pub(crate) depth: usize,
}

/// A list that is being made, at one of its items.
#[derive(Drop)]
pub(crate) struct Making<'a> {
    pub(crate) place: usize,
    /// The items behind the one at hand.
    pub(crate) rest: &'a [Item],
    /// The results so far.
    pub(crate) done: Items,
    /// The node that each turn evaluates.
    pub(crate) body: usize,
    /// The loops that are under way, the outermost first.
    pub(crate) loops: Vec<Turn<'a>>,
    /// How many names loops bind outside of the list.
    pub(crate) depth: usize,
}

/// What waits for the value of an operand. The first number is the place of its node.
#[derive(Drop)]
pub(crate) enum Frame<'a> {
    /// An operator waits for its left operand, with the node of the right one.
    Left(Operator, usize, usize),
    /// An operator waits for its right operand, with the left one.
    Right(Operator, usize, Operand<'a>),
    /// `and` or `or` waits for its right operand.
    Truth(usize),
    /// An index waits for what is indexed, with the node of the index.
    Indexed(usize, usize),
    /// An index waits for the index, with what is indexed.
    Index(usize, Operand<'a>),
    /// A slice waits for what is sliced, with the nodes of its ends.
    Sliced(usize, Option<usize>, Option<usize>),
    /// A slice waits for its start, with what is sliced and the node of its stop.
    Start(usize, Operand<'a>, Option<usize>),
    /// A slice waits for its stop, with what is sliced and its start.
    Stop(usize, Operand<'a>, Option<Operand<'a>>),
    /// A sign waits for its operand.
    Signed(usize, Sign),
    /// A call waits for an argument.
    Argument(Call<'a>),
    /// An object waits for a value.
    Field(Object<'a>),
    /// A list waits for what a loop goes over, with the loops within it.
    Over(Making<'a>, &'a Loop, &'a [Loop]),
    /// A list waits for the condition of a loop at a place, with the loops within it.
    Test(Making<'a>, usize, &'a [Loop]),
    /// A list waits for the result of an item.
    Body(Making<'a>),
}
