//! The Work Queue library: a queue to which a program submits tasks, and which gives each back once
//! workers have done it.
#![tactic(auto)]

mod cause;
mod queue;
mod rounds;

pub use cause::{QueueCame, WaitFault};
pub use queue::Queue;
pub use task_book::{FileRefused, Ready, Submission, SubmitRefused, TaskId};
