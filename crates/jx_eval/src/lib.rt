//! The values of JX expressions.
#![tactic(auto)]

mod calls;
mod enter;
mod frame;
mod lists;
mod objects;
mod operand;
mod operations;
mod run;
mod state;
mod turns;
mod visible;

pub use run::{eval, eval_counted};
