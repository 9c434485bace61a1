//! The command lines of `makeflow`, `work_queue_worker` and `work_queue_foreman`.
//!
//! What stands: which words are a command line of each program, and what they choose, as `clap`'s
//! simple command reads them. The crates above see the options and the definition of them
//! (`options_of`, `worker_options_of`, `foreman_options_of`), and never `clap`. There is no help
//! text, so `--help` and `--version` are words outside.
//!
//! What reads one argument of a parsed command line is public for the command lines of other
//! programs: a command that is made of `with_long_flag` and `with_place`, `parse`, and `value_of`,
//! `flag`, `number_in`, `name_of` and `language_in` over what it found.
#![tactic(auto)]

mod choices;
mod command;
mod examples;
mod fault;
mod names;
mod numbers;
mod options;
mod peers;
mod values;
mod words;

pub use choices::language_in;
pub use command::{with_long_flag, with_place};
pub use examples::{command_lines, peer_command_lines, words_that_are_no_command_line};
pub use fault::WordsFault;
pub use names::name_of;
pub use numbers::number_in;
pub use options::{
    Flow, ForemanOptions, Language, Limits, Mode, Options, Service, Transport, Work, WorkerOptions,
};
pub use peers::{read_foreman_words, read_worker_words};
pub use values::{flag, value_of};
pub use words::{parse, read_words};
