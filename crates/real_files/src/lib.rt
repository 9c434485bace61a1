//! Regular files of this machine by path: what the real outside shares.
//!
//! Which file stands under a name, what makes it durable, who holds it, and how a refusal of the
//! system is counted.
#![tactic(auto)]

mod counts;
mod file_id;
mod files;
mod holding;
mod synced_folders;

pub use counts::{counted, counted_or_memory, failure_counted};
pub use file_id::FileId;
pub use files::{
    CURRENT, Found, file_len, folder_of, is_absent, link_target, open_folder, path_of, read_seen,
    regular, seen_at, set_len, sync_seen, write_from,
};
pub use holding::{hold, remove_left, take_left};
pub use synced_folders::SyncedFolders;
