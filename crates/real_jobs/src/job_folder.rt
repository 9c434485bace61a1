//! The folder in which one job runs.
use crate::below::Below;
use crate::workplace::{Workplace, temporary};
use flow_types::{Given, Job, Name};
use real_files::{hold, is_absent, path_of, take_left};
use real_programs::{Owner, Streams, number_of, program, run_program, user_of};
use std::alloc::Global;
use std::fs::{DirBuilder, DirEntry, File};
use std::io::{ErrorKind, Write};
use std::os::unix::fs::{DirBuilderExt, MetadataExt, OpenOptionsExt};
use std::process::Processes;
use std::rt::{Env, Files};
use std::sync::Wait;
use std::{fs, io};

const OWNER_ALONE: u32 = 0o700;

const RUNNABLE: u32 = 0o755;

const MOST_TRIES: u32 = 1_000_000;

/// A new folder, held: as long as it is, no program takes it for left behind.
#[derive(Drop)]
pub struct JobFolder {
    path: String,
    held: File,
}

impl JobFolder {
    /// Where it is.
    pub fn path(&self) -> &str {
        self.path.as_str()
    }
}

/// Makes a new folder under the system's temporary folder, for its owner alone. One that is there
/// already is never taken, so no two jobs share a folder, and none has the name of an earlier one.
pub fn new_folder<R: Files<File = File> + AllocGlobal + Wait>(
    rt: &R,
    owner: &Owner,
    place: &Workplace,
) -> io::Result<JobFolder> {
    for _ in 0..MOST_TRIES {
        let number = owner.next_folder(rt);
        if let Some(made) = new_numbered(rt, owner, place.base(), number)? {
            return Ok(made);
        }
    }
    Err(io::Error::from(ErrorKind::AlreadyExists))
}

fn new_numbered<R: Files<File = File> + AllocGlobal>(
    rt: &R,
    owner: &Owner,
    base: &str,
    number: u32,
) -> io::Result<Option<JobFolder>> {
    let (host, process) = (owner.host(), owner.process());
    let path = format!(in rt.alloc(); "{base}/makeflow-{host}-{process}-{number}")?;
    let held = made_at(rt, path.as_str())?;
    Ok(held.map(|held| JobFolder { path, held }))
}

// A new folder of this path. None where another one is there, or where a program took it for left
// behind before it was held.
fn made_at<R: Files<File = File>>(rt: &R, path: &str) -> io::Result<Option<File>> {
    let mut private = DirBuilder::new();
    private.mode(OWNER_ALONE);
    match private.create(rt, path) {
        Ok(()) => held_at(rt, path),
        Err(e) if e.kind() == ErrorKind::AlreadyExists => Ok(None),
        Err(e) => Err(e),
    }
}

fn held_at<R: Files<File = File>>(rt: &R, path: &str) -> io::Result<Option<File>> {
    match fs::open(rt, path) {
        Ok(folder) => Ok(hold(&folder)?.map(|_| folder)),
        Err(e) if is_absent(e.kind()) => Ok(None),
        Err(e) => Err(e),
    }
}

// The number of the program of this host that made a job's folder of this name.
fn maker_of_folder(name: &str, host: &str) -> Option<u32> {
    let after = name.strip_prefix("makeflow-")?.strip_prefix(host)?;
    let (process, job) = after.strip_prefix('-')?.split_once('-')?;
    number_of(job)?;
    number_of(process)
}

/// Removes the folders that programs of this host and user left under the temporary folder when
/// they were killed. It does what it can.
pub fn clear_folders<R: Files<File = File> + AllocGlobal + Env + Processes + Wait>(
    rt: &R,
    owner: &Owner,
) {
    let Some(user) = user_of(rt) else {
        return;
    };
    let Ok(base) = temporary(rt) else {
        return;
    };
    let Ok(entries) = fs::read_dir(&rt, base.as_str()) else {
        return;
    };
    for entry in entries {
        if let Ok(entry) = entry {
            let _ = clear_folder(rt, owner, user, &entry);
        }
    }
}

fn clear_folder<R: Files<File = File> + AllocGlobal + Processes + Wait>(
    rt: &R,
    owner: &Owner,
    user: u32,
    entry: &DirEntry<&R, Global>,
) -> io::Result<()> {
    if maker_of_folder(entry.file_name(), owner.host()).is_none() {
        return Ok(());
    }
    let data = entry.metadata()?;
    if !data.is_dir() || data.uid() != user {
        return Ok(());
    }
    match take_left(rt, entry.path().as_str())? {
        Some(_held) => remove_folder(rt, owner, entry.path().as_str()),
        None => Ok(()),
    }
}

/// Where a remote name stands in the folder.
pub fn place_of(alloc: Global, folder: &str, remote: &Name) -> io::Result<String> {
    let name = path_of(remote)?;
    let path = format!(in alloc; "{folder}/{name}")?;
    Ok(path)
}

/// Puts the inputs into a new folder, and makes the folders that the names need.
pub fn fill_folder<R: Files<File = File> + Wait>(
    rt: &R,
    alloc: Global,
    owner: &Owner,
    place: &mut Workplace,
    folder: &str,
    below: &Below,
    job: &Job,
) -> io::Result<()> {
    below.make(rt, alloc, folder)?;
    for given in job.inputs.as_slice() {
        put_input(rt, alloc, owner, place, folder, given)?;
    }
    Ok(())
}

// Each input may be run, since commands say `./program`.
fn put_input<R: Files<File = File> + Wait>(
    rt: &R,
    alloc: Global,
    owner: &Owner,
    place: &mut Workplace,
    folder: &str,
    given: &Given,
) -> io::Result<()> {
    let path = place_of(alloc, folder, &given.remote)?;
    let _turn = owner.writes(rt);
    let mut how = File::options();
    how.write(true).create(true).truncate(true).mode(RUNNABLE);
    let mut file = how.open(rt, path.as_str())?;
    file.write_all(given.content.as_slice())?;
    place.set_mode(&file, RUNNABLE)
}

/// Removes a job's folder with all that the command left there. Where that is no more than what the
/// job names, no folder has to be read: a name leads through none in whose place a command put a link
/// to elsewhere, since each is looked at first.
pub fn remove_job<R: Files + AllocGlobal + Processes + Wait>(
    rt: &R,
    owner: &Owner,
    folder: &str,
    below: &Below,
    job: &Job,
) -> io::Result<()> {
    if below.stand(rt, rt.alloc(), folder) {
        for given in job.inputs.as_slice() {
            remove_in(rt, folder, &given.remote);
        }
        for want in job.outputs.as_slice() {
            remove_in(rt, folder, &want.remote);
        }
        below.remove(rt, rt.alloc(), folder);
        if fs::remove_dir(rt, folder).is_ok() {
            return Ok(());
        }
    }
    remove_folder(rt, owner, folder)
}

// What can't be removed so shows at the removal of the folder.
fn remove_in<R: Files + AllocGlobal>(rt: &R, folder: &str, remote: &Name) {
    if let Ok(path) = place_of(rt.alloc(), folder, remote) {
        let _ = fs::remove_file(rt, path.as_str());
    }
}

/// Removes the folder with all that the command left there.
pub fn remove_folder<R: Files + AllocGlobal + Processes + Wait>(
    rt: &R,
    owner: &Owner,
    folder: &str,
) -> io::Result<()> {
    if remove_all(rt, folder).is_ok() {
        return Ok(());
    }
    // A folder that the command closed to its owner can't be emptied.
    open_to_owner(rt, owner, folder)?;
    remove_all(rt, folder)
}

fn remove_all<R: Files + AllocGlobal>(rt: &R, folder: &str) -> io::Result<()> {
    match fs::remove_dir_all(rt, folder) {
        Err(e) if !is_absent(e.kind()) => Err(e),
        _ => Ok(()),
    }
}

fn open_to_owner<R: AllocGlobal + Processes + Wait>(
    rt: &R,
    owner: &Owner,
    folder: &str,
) -> io::Result<()> {
    let chmod = program(rt.alloc(), "chmod", &["-R", "u+rwx", folder])?;
    // Whether it did what it could shows at the removal.
    let _ = run_program(rt, owner, &chmod, &Streams::of_nothing());
    Ok(())
}
