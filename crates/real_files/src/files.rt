//! Regular files by path. None of these calls opens anything but a regular file or a folder, so
//! none waits at a pipe.
ghost use Rattle.std.specs.Prelude.{◌≤◌, length, IfOk};

use flow_types::Name;
use std::fs::{File, Metadata, OpenFile};
use std::io::{ErrorKind, Read, Seek, SeekFrom, Write};
use std::rt::Files;
use std::{fs, io, str};

/// The name as a path below the current folder.
pub fn path_of(name: &Name) -> io::Result<&str> {
    match str::from_utf8(name.as_bytes()) {
        Ok(path) => Ok(path),
        Err(_) => Err(io::Error::from(ErrorKind::InvalidInput)),
    }
}

/// Nothing has the name, or its folder is a file.
pub fn is_absent(kind: ErrorKind) -> bool {
    kind == ErrorKind::NotFound || kind == ErrorKind::NotADirectory
}

/// What the system tells of the file, None where nothing has the name. What is no regular file is
/// an error.
pub fn regular<R: Files>(rt: &R, path: &str) -> io::Result<Option<Metadata>> {
    match fs::metadata(rt, path) {
        Ok(data) if data.is_file() => Ok(Some(data)),
        Ok(_) => Err(io::Error::from(ErrorKind::InvalidInput)),
        Err(e) if is_absent(e.kind()) => Ok(None),
        Err(e) => Err(e),
    }
}

/// What stands under a name.
#[derive(Drop)]
pub enum Found {
    /// A regular file, or a link to one.
    File(Metadata),
    /// A link to nothing.
    Link,
    /// Nothing, or its folder is a file.
    Nothing,
}

/// What stands under the name, by one call where that is no link. What is no regular file is an error.
pub fn seen_at<R: Files>(rt: &R, path: &str) -> io::Result<Found> {
    match fs::symlink_metadata(rt, path) {
        Ok(data) if data.is_file() => Ok(Found::File(data)),
        Ok(data) if data.is_symlink() => match regular(rt, path)? {
            Some(data) => Ok(Found::File(data)),
            None => Ok(Found::Link),
        },
        Ok(_) => Err(io::Error::from(ErrorKind::InvalidInput)),
        Err(e) if is_absent(e.kind()) => Ok(Found::Nothing),
        Err(e) => Err(e),
    }
}

/// The length of the file, None where nothing has the name. What is no regular file is an error.
pub fn file_len<R: Files>(rt: &R, path: &str) -> io::Result<Option<u64>> {
    match regular(rt, path)? {
        Some(data) => Ok(Some(data.len())),
        None => Ok(None),
    }
}

/// Fills from the bytes that begin at `at`, as far as the file goes, where a regular file was just
/// seen.
pub fn read_seen<R: Files>(rt: &R, path: &str, at: u64, into: &mut [u8]) -> io::Result<usize>
    ensures { IfOk result (λ count. count ≤ length into.new) }
{
    let mut file = fs::open(rt, path)?;
    go_to(&mut file, at)?;
    fill(&mut file, into)
}

// Goes to an offset of a file that was just opened, which stands at its beginning.
fn go_to<F: Seek>(file: &mut F, at: u64) -> io::Result<()> {
    if at > 0 {
        file.seek(SeekFrom::Start(at))?;
    }
    Ok(())
}

// Reads until the room is full or the reader ends.
fn fill<F: Read>(reader: &mut F, into: &mut [u8]) -> io::Result<usize>
    ensures { IfOk result (λ count. count ≤ length into.new) }
{
    let room = into.len();
    let mut done = 0;
    for _ in 0..room {
        if done >= room {
            break;
        }
        let count = reader.read(&mut into[done..])?;
        if count == 0 {
            break;
        }
        done += count;
    }
    Ok(done)
}

/// Writes at an offset of a file that was just opened.
pub fn write_from<F: Seek + Write>(file: &mut F, at: u64, bytes: &[u8]) -> io::Result<()> {
    go_to(file, at)?;
    file.write_all(bytes)
}

/// Sets the length of a file that is there. One that has it already is left alone.
pub fn set_len<R: Files>(rt: &R, path: &str, len: u64) -> io::Result<()> {
    if file_len(rt, path)? == Some(len) {
        return Ok(());
    }
    let file = File::options().write(true).open(rt, path)?;
    file.set_len(len)
}

/// Syncs the file, where a regular one was just seen. One that was removed since has nothing left.
pub fn sync_seen<R: Files>(rt: &R, path: &str) -> io::Result<()> {
    match fs::open(rt, path) {
        Ok(file) => file.sync_all(),
        Err(e) if is_absent(e.kind()) => Ok(()),
        Err(e) => Err(e),
    }
}

/// The path of the file to which a link points, None where this is no link, or one to nothing.
pub fn link_target<R: Files + AllocGlobal>(rt: &R, path: &str) -> io::Result<Option<String>> {
    match fs::symlink_metadata(rt, path) {
        Ok(data) if data.is_symlink() => {
            if file_len(rt, path)?.is_none() {
                return Ok(None);
            }
            Ok(Some(fs::canonicalize(rt, path)?.into_string()))
        }
        Err(e) if !is_absent(e.kind()) => Err(e),
        _ => Ok(None),
    }
}

/// The folder in which the program was started.
pub const CURRENT: &str = ".";

/// The folder of a path, and the name in it.
pub fn folder_of(path: &str) -> (&str, &str) {
    match path.rsplit_once('/') {
        Some(("", name)) => ("/", name),
        Some(parts) => parts,
        None => (CURRENT, path),
    }
}

/// A folder, None where it isn't there.
pub fn open_folder<R: Files + AllocGlobal>(rt: &R, folder: &str) -> io::Result<Option<R::File>> {
    // By such a name nothing but a folder is opened.
    let itself = format!(in rt.alloc(); "{folder}/.")?;
    match fs::open(rt, itself.as_str()) {
        Ok(there) => Ok(Some(there)),
        Err(e) if is_absent(e.kind()) => Ok(None),
        Err(e) => Err(e),
    }
}
