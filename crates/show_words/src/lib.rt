//! The command line of `makeflow_show`.
//!
//! What stands: which words are a command line, and what they choose, as `clap`'s simple command
//! reads them (`options_of`). There is no help text, so `--help` and `--version` are words outside.
#![tactic(auto)]

mod examples;
mod options;
mod words;

pub use examples::{command_lines, words_that_are_no_command_line};
pub use options::{Options, Part};
pub use words::read_words;
