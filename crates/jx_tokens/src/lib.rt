//! The tokens of a JX text.
#![tactic(auto)]

mod bytes;
mod content;
mod escape;
mod fault;
mod number;
mod pieces;
mod symbol;
mod token;
mod tokens;
mod word;

pub use fault::JxFault;
pub use pieces::front;
pub use token::{Kind, Piece, Token};
pub use tokens::{cut_off, tokens_of};
