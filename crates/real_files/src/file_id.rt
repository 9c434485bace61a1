//! Which file it is that stands under a name.
use std::fs::Metadata;
use std::os::unix::fs::MetadataExt;

/// A file or folder of this machine, whatever names it has.
#[derive(Clone, Copy, PartialEq, Eq, PartialOrd, Ord)]
pub struct FileId {
    device: u64,
    number: u64,
}

impl FileId {
    /// Of what the system tells of a file.
    pub fn of(data: &Metadata) -> FileId {
        FileId {
            device: data.dev(),
            number: data.ino(),
        }
    }
}
