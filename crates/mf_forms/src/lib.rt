//! The form of one line of a Makeflow text, and the readers of a line's parts.
#![tactic(auto)]

mod assignments;
mod blanks;
mod commands;
mod form;
mod heads;
mod laws;
mod numbers;
mod quotes;
mod settings;

pub use blanks::words;
pub use commands::{command_in, is_local, is_no_command};
pub use form::{Form, Resource, form_of};
pub use heads::{HeadFiles, files_of_head};
pub use laws::quotes_end_at_the_next_same_mark;
pub use numbers::{MOST_FILE_BYTES, number_within, size_bound_in};
pub use quotes::is_open_at_end;
