//! Which folders stand on the disk as they are.
use crate::files::{CURRENT, file_len, folder_of, link_target, open_folder};
use std::alloc::Global;
use std::collections::BTreeSet;
use std::fs::{File, OpenFile};
use std::rt::Files;
use std::{fs, io};

/// The folders that were synced since this program last made, replaced or removed a name in them.
#[derive(Drop)]
pub struct SyncedFolders {
    folders: BTreeSet<String>,
    // The current folder, once it was opened: it stays the same as long as the program runs.
    current: Option<File>,
}

impl SyncedFolders {
    /// No folder: what an earlier program did there may not be on the disk yet.
    pub fn new(alloc: Global) -> Self {
        SyncedFolders {
            folders: BTreeSet::new(alloc),
            current: None,
        }
    }

    /// A name was made, replaced or removed: its folder is to be synced again.
    pub fn name_changed(&mut self, path: &str) {
        let (folder, _) = folder_of(path);
        self.folders.remove(folder);
    }

    /// Opens a file to write to it. It makes the file and the folders that its name needs.
    pub fn open<R: Files + AllocGlobal>(&mut self, rt: &R, path: &str) -> io::Result<R::File> {
        self.make_for(rt, path)?;
        let is_there = file_len(rt, path)?.is_some();
        if !is_there {
            self.name_changed(path);
        }
        let file = File::options().write(true).create(true).open(rt, path)?;
        if !is_there {
            self.target_made(rt, path)?;
        }
        Ok(file)
    }

    // Where the name is a link, the file to which it points was made.
    fn target_made<R: Files + AllocGlobal>(&mut self, rt: &R, path: &str) -> io::Result<()> {
        if let Some(target) = link_target(rt, path)? {
            self.name_changed(target.as_str());
        }
        Ok(())
    }

    /// Makes the folders that a name needs.
    pub fn make_for<R: Files>(&mut self, rt: &R, path: &str) -> io::Result<()> {
        for end in 1..path.len() {
            if let Some((folder, rest)) = path.split_at_checked(end)
                && rest.starts_with('/')
                && !is_folder(rt, folder)
            {
                self.name_changed(folder);
                fs::create_dir_all(rt, folder)?;
            }
        }
        Ok(())
    }

    /// Syncs each folder on the way to a name, and that of the file to which it is a link, unless
    /// they are synced: a new or a removed name is durable only once the folder that holds it is.
    pub fn sync<R: Files<File = File> + AllocGlobal>(
        &mut self,
        rt: &R,
        path: &str,
    ) -> io::Result<()> {
        self.sync_way(rt, path)?;
        match link_target(rt, path)? {
            Some(target) => self.sync_folder_of(rt, target.as_str()),
            None => Ok(()),
        }
    }

    /// As [`SyncedFolders::sync`], where this is known to be the file of the name.
    pub fn sync_to<R: Files<File = File> + AllocGlobal>(
        &mut self,
        rt: &R,
        path: &str,
        target: &str,
    ) -> io::Result<()> {
        self.sync_way(rt, path)?;
        if target == path {
            return Ok(());
        }
        self.sync_folder_of(rt, target)
    }

    /// Syncs each folder on the way to a name, unless they are synced.
    pub fn sync_way<R: Files<File = File> + AllocGlobal>(
        &mut self,
        rt: &R,
        path: &str,
    ) -> io::Result<()> {
        for end in 1..path.len() {
            if let Some((folder, rest)) = path.split_at_checked(end)
                && rest.starts_with('/')
            {
                self.sync_one(rt, folder)?;
            }
        }
        self.sync_one(rt, CURRENT)
    }

    /// Syncs the folder that holds a name, unless it is synced.
    pub fn sync_folder_of<R: Files<File = File> + AllocGlobal>(
        &mut self,
        rt: &R,
        path: &str,
    ) -> io::Result<()> {
        let (folder, _) = folder_of(path);
        self.sync_one(rt, folder)
    }

    // A folder that isn't there, or whose sync fails, isn't taken for synced.
    fn sync_one<R: Files<File = File> + AllocGlobal>(
        &mut self,
        rt: &R,
        folder: &str,
    ) -> io::Result<()> {
        if !self.folders.contains(folder) {
            let named = String::from_str(rt.alloc(), folder)?;
            if self.sync_there(rt, folder)? {
                self.folders.insert(named)?;
            }
        }
        Ok(())
    }

    // Syncs a folder, and tells whether it is there.
    fn sync_there<R: Files<File = File> + AllocGlobal>(
        &mut self,
        rt: &R,
        folder: &str,
    ) -> io::Result<bool> {
        if folder != CURRENT {
            return match open_folder(rt, folder)? {
                Some(there) => there.sync_all().map(|_| true),
                None => Ok(false),
            };
        }
        if self.current.is_none() {
            self.current = open_folder(rt, folder)?;
        }
        match &self.current {
            Some(there) => there.sync_all().map(|_| true),
            None => Ok(false),
        }
    }
}

fn is_folder<R: Files>(rt: &R, path: &str) -> bool {
    match fs::metadata(rt, path) {
        Ok(data) => data.is_dir(),
        Err(_) => false,
    }
}
