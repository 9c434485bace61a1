//! The folders below a job's into which its names lead.
use flow_types::{Job, Name};
use real_files::path_of;
use std::alloc::{AllocError, Global};
use std::collections::BTreeSet;
use std::rt::Files;
use std::{fs, io};

/// Names of folders, each once. One above another stands before it.
#[derive(Drop)]
pub struct Below {
    names: BTreeSet<String>,
}

impl Below {
    /// Those that a job's inputs and outputs need.
    pub fn of(alloc: Global, job: &Job) -> io::Result<Self> {
        let mut names = BTreeSet::new(alloc);
        for given in job.inputs.as_slice() {
            note_folders(alloc, &mut names, &given.remote)?;
        }
        for want in job.outputs.as_slice() {
            note_folders(alloc, &mut names, &want.remote)?;
        }
        Ok(Below { names })
    }

    /// Makes them in a new folder.
    pub fn make<R: Files>(&self, rt: &R, alloc: Global, folder: &str) -> io::Result<()> {
        for name in self.names.iter() {
            let path = format!(in alloc; "{folder}/{name}")?;
            fs::create_dir(rt, path.as_str())?;
        }
        Ok(())
    }

    /// They are there, and no link is in the place of one, or of the folder.
    pub fn stand<R: Files>(&self, rt: &R, alloc: Global, folder: &str) -> bool {
        is_folder(rt, folder)
            && self
                .names
                .iter()
                .all(|name| stands_in(rt, alloc, folder, name.as_str()))
    }

    /// Removes those that are empty, as far as that can be done.
    pub fn remove<R: Files>(&self, rt: &R, alloc: Global, folder: &str) {
        for name in self.names.iter().rev() {
            if let Ok(path) = format!(in alloc; "{folder}/{name}") {
                let _ = fs::remove_dir(rt, path.as_str());
            }
        }
    }
}

fn note_folders(alloc: Global, names: &mut BTreeSet<String>, remote: &Name) -> io::Result<()> {
    let path = path_of(remote)?;
    for end in 1..path.len() {
        if let Some((above, rest)) = path.split_at_checked(end)
            && rest.starts_with('/')
            && !names.contains(above)
        {
            note(alloc, names, above)?;
        }
    }
    Ok(())
}

fn note(alloc: Global, names: &mut BTreeSet<String>, name: &str) -> Result<(), AllocError> {
    let named = String::from_str(alloc, name)?;
    names.insert(named)?;
    Ok(())
}

fn stands_in<R: Files>(rt: &R, alloc: Global, folder: &str, name: &str) -> bool {
    match format!(in alloc; "{folder}/{name}") {
        Ok(path) => is_folder(rt, path.as_str()),
        Err(_) => false,
    }
}

// A folder itself, and no link in its place.
fn is_folder<R: Files>(rt: &R, path: &str) -> bool {
    match fs::symlink_metadata(rt, path) {
        Ok(data) => data.is_dir(),
        Err(_) => false,
    }
}
