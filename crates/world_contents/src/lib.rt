//! What the master of a world makes of its plan, its records and the contents that it holds: rows,
//! jobs, tasks, and the first record.
#![tactic(auto)]

mod contents;
mod copies;
mod jobs;
mod present;
mod rows;
mod sources;

pub use contents::{content_at, files_of, put_all, take_away};
pub use copies::copy_message;
pub use jobs::{job_of, task_with};
pub use present::{is_present, keep_present};
pub use rows::{may_fail, may_finish, rows_for, rule_at, rule_of};
pub use sources::{first_contents, fit_sources, opening};
