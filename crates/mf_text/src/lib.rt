//! The lines of a Makeflow text, and the expansion of its variables.
#![tactic(auto)]

mod expansion;
mod fault;
mod laws;
mod lines;
mod names;
mod output;
mod parts;
mod scope;

pub use expansion::{expand, expand_shortened};
pub use fault::MakeFault;
pub use laws::texts_are_cut_once;
pub use lines::{Line, MAX_TEXT, logical_lines};
pub use names::{is_variable, name_len};
pub use output::Expanded;
pub use scope::Scope;
