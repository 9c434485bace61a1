//! JX expressions and JX values.
//!
//! `parse` reads a text as the expression that the grammar derives from its tokens, or says why
//! there is none. `value_text` writes a value's text. The laws say that the grammar is
//! unambiguous, that each text is an expression or is refused for one reason, and that the text of
//! a value is an expression of that value, exactly within the limits of length and nesting. What
//! an expression evaluates to isn't here.
#![tactic(auto)]

mod behind;
mod closers;
mod examples;
mod expr;
mod laws;
mod levels;
mod node;
mod operator;
mod parser;
mod pending;
mod reader;
mod states;
mod value;
mod wanted;
mod write;

pub use examples::{
    forms_are_written, operators_group, texts_that_are_unexpected, texts_with_other_faults,
};
pub use expr::Expr;
pub use laws::{
    a_refusal_has_one_reason, a_text_is_an_expression_or_refused, no_text_is_both,
    numbers_read_back, texts_read_back, the_grammar_is_unambiguous, values_read_back,
};
pub use node::{Condition, Field, Form, Item, Loop, Node};
pub use operator::{Operator, Sign};
pub use parser::parse;
pub use value::{JxPair, JxValue};
pub use write::{value_text, write_char};
