//! A worker as a machine: messages and reports in, messages and jobs out. It runs nothing itself.
#![tactic(auto)]

mod acts;
mod files;
mod inputs;
mod laws;
mod running;
mod worker;

pub use acts::Acts;
pub use files::{files_of, missing_of, touch_all};
pub use inputs::{holds_all, pin_all, unpin_all};
pub use laws::missing_files_ascend;
pub use worker::WorkerCore;
