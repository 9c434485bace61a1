//! The functions of JX on values.
#![tactic(auto)]

mod draft;
mod formats;
mod functions;
mod joins;
mod measures;
mod names;
mod ranges;
mod shown;
mod templates;

pub use formats::format_of;
pub use functions::applied;
pub use joins::{join, join_of};
pub use measures::len_of;
pub use names::{KeysBefore, Names};
pub use ranges::range_of;
pub use templates::template_of;
