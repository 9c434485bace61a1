//! The outside of this machine: the current folder, a shell, a clock, and standard output.
//!
//! Each object tells nothing of content, and counts each call that the system refused.
#![tactic(auto)]

mod commands;
mod stdout_sink;
mod system_clock;

pub use commands::System;
pub use real_jobs::ShellRunner;
pub use real_programs::Owner;
pub use real_site::{FolderSite, PlainSite};
pub use stdout_sink::StdoutSink;
pub use system_clock::SystemClock;
