//! The files of the current folder: of a flow, and those that several programs share.
#![tactic(auto)]

mod folder;
mod folder_site;
mod leftovers;
mod parts;
mod plain_site;

pub use folder_site::FolderSite;
pub use plain_site::PlainSite;
