//! What JX expressions are worth.
#![tactic(auto)]

mod examples;
mod fault;
mod function;
mod laws;
mod scope;

pub use examples::{
    functions_are_worked_out, limits_are_kept, lists_and_objects_are_made, numbers_are_worked_out,
    operators_are_worked_out, parts_are_taken, texts_are_filled_in,
};
pub use fault::EvalFault;
pub use function::Function;
pub use laws::{a_fault_is_the_only_one, a_value_excludes_a_fault, a_value_is_the_only_one};
pub use scope::{Binding, JxScope};
