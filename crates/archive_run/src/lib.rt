//! The top call of `makeflow_archive`: that of `makeflow`, over runners that ask an archive first.
#![tactic(auto)]

mod folder;
mod over;
mod plain;
mod top;

pub use top::{ArchiveEnded, archive_top};
