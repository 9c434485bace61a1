//! Who made a file or a folder for a while holds a lock on it, which goes with the program.
use crate::file_id::FileId;
use std::fs::{File, TryLockError};
use std::os::unix::fs::MetadataExt;
use std::rt::Files;
use std::{fs, io};

/// Holds what this program just made and opened, and tells which file it is. None where another
/// program took it for left behind before it was held: then it is gone, or about to go.
pub fn hold(file: &File) -> io::Result<Option<FileId>> {
    if let Err(TryLockError::WouldBlock) = file.try_lock() {
        return Ok(None);
    }
    let data = file.metadata()?;
    Ok((data.nlink() > 0).then_some(FileId::of(&data)))
}

/// Takes what the program left behind that made it, and holds it while it is removed. None where
/// that program lives, or where it can't be told, as on a file system without locks.
pub fn take_left<R: Files<File = File>>(rt: &R, path: &str) -> io::Result<Option<File>> {
    let file = fs::open(rt, path)?;
    if file.try_lock().is_err() {
        return Ok(None);
    }
    // The one that was opened may have been put in place since, and another one made.
    let held = FileId::of(&file.metadata()?);
    let named = FileId::of(&fs::symlink_metadata(rt, path)?);
    Ok((held == named).then_some(file))
}

/// Removes a file that a dead program left.
pub fn remove_left<R: Files<File = File>>(rt: &R, path: &str) -> io::Result<()> {
    match take_left(rt, path)? {
        Some(_held) => fs::remove_file(rt, path),
        None => Ok(()),
    }
}
