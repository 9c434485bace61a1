//! The states of a plan's files, as they were last noted.
#![tactic(auto)]

mod files;

pub use files::FileStates;
