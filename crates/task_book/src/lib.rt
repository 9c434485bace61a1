//! The books of a queue of tasks: the files that its tasks take in, the tasks that were submitted,
//! and which of them were given, were cancelled, or are held. Nothing is sent here.
#![tactic(auto)]

mod book;
mod files;
mod limits;
mod line;
mod refused;
mod stages;
mod task;

pub use book::Book;
pub use files::Files;
pub use refused::{FileRefused, SubmitRefused};
pub use task::{Given, Held, Ready, Stage, Submission, TaskId};
