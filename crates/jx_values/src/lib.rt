//! The operations of JX on values.
#![tactic(auto)]

mod copy;
mod equality;
mod fields;
mod kinds;
mod limits;
mod numbers;
mod operators;
mod order;
mod parts;
mod size;
mod slices;
mod texts;

pub use copy::copied;
pub use equality::{are_equal, find};
pub use fields::Fields;
pub use kinds::{entries_in, is_null, items_in, number_in, text_in, truth_in};
pub use limits::{Items, MOST_BYTES, MOST_ITEMS, may_be_list, text_value};
pub use numbers::{arithmetic, signed};
pub use operators::{added, operated};
pub use order::compared;
pub use parts::{char_at, char_count, end_in, indexed};
pub use size::{Size, size_of};
pub use slices::sliced;
pub use texts::Texts;
