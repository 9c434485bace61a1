//! What dead programs left beside the files of a folder.
use real_files::remove_left;
use real_programs::{Owner, number_of, user_of};
use std::alloc::Global;
use std::fs::{DirEntry, File};
use std::os::unix::fs::MetadataExt;
use std::rt::Files;
use std::{fs, io};

/// How the name of each part file ends.
pub const PART: &str = ".makeflow-part";

// The number of the program of this host that made a part file of this name.
fn maker_of_part(name: &str, host: &str) -> Option<u32> {
    let middle = name.strip_prefix('.')?.strip_suffix(PART)?;
    let (before, process) = middle.rsplit_once('.')?;
    before.strip_suffix(host)?.strip_suffix('.')?;
    number_of(process)
}

/// Removes the part files in a folder that programs of this host and user left there when they were
/// killed. It does what it can: a folder that can't be read is left as it is.
pub fn clear_parts<R: Files<File = File> + AllocGlobal>(rt: &R, owner: &Owner, folder: &str) {
    let Some(user) = user_of(rt) else {
        return;
    };
    let Ok(entries) = fs::read_dir(&rt, folder) else {
        return;
    };
    for entry in entries {
        if let Ok(entry) = entry {
            let _ = clear_part(rt, owner, user, &entry);
        }
    }
}

fn clear_part<R: Files<File = File> + AllocGlobal>(
    rt: &R,
    owner: &Owner,
    user: u32,
    entry: &DirEntry<&R, Global>,
) -> io::Result<()> {
    if maker_of_part(entry.file_name(), owner.host()).is_none() {
        return Ok(());
    }
    let data = entry.metadata()?;
    if data.is_file() && data.uid() == user {
        remove_left(rt, entry.path().as_str())?;
    }
    Ok(())
}
