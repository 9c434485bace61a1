//! Jobs by the system's shell, each in a folder of its own.
#![tactic(auto)]

mod below;
mod job_folder;
mod outputs;
mod script;
mod shell_runner;
mod workplace;

pub use shell_runner::ShellRunner;
