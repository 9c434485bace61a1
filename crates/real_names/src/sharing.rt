//! Whether two names are one file.
use crate::known_names::KnownNames;
use real_files::{FileId, is_absent};
use std::fs::Metadata;
use std::os::unix::fs::MetadataExt;
use std::rt::Files;
use std::{fs, io};

/// How the file under a name stands to the other names that are known.
#[derive(Clone, Copy, PartialEq, Eq)]
pub enum Sharing {
    /// It has none of them.
    Alone,
    /// It has another one by a hard link: where one of them is replaced the other stays.
    Linked,
    /// Another one leads to the same place: where one of them changes the other does.
    One,
}

/// How the file that stands under the name stands to the names that are known.
pub fn sharing_of<R: Files + AllocGlobal>(
    rt: &R,
    known: &KnownNames,
    name: &str,
    file: FileId,
) -> io::Result<Sharing> {
    let mut found = Sharing::Alone;
    for other in known.names_of(file) {
        match sharing_with(rt, name, other.as_str(), file)? {
            Sharing::Alone => {}
            Sharing::Linked => found = Sharing::Linked,
            Sharing::One => return Ok(Sharing::One),
        }
    }
    Ok(found)
}

/// The file stands under a name that is known.
pub fn is_shared<R: Files>(rt: &R, known: &KnownNames, file: FileId) -> io::Result<bool> {
    for name in known.names_of(file) {
        if seen_again(rt, name.as_str(), file)?.is_some() {
            return Ok(true);
        }
    }
    Ok(false)
}

// What the system tells of the file, if it still stands under the name.
fn seen_again<R: Files>(rt: &R, name: &str, file: FileId) -> io::Result<Option<Metadata>> {
    match fs::metadata(rt, name) {
        Ok(data) if FileId::of(&data) == file => Ok(Some(data)),
        Err(e) if !is_absent(e.kind()) => Err(e),
        _ => Ok(None),
    }
}

fn sharing_with<R: Files + AllocGlobal>(
    rt: &R,
    name: &str,
    other: &str,
    file: FileId,
) -> io::Result<Sharing> {
    if name == other {
        return Ok(Sharing::Alone);
    }
    let Some(data) = seen_again(rt, other, file)? else {
        return Ok(Sharing::Alone);
    };
    if data.nlink() <= 1 || is_one_place(rt, name, other)? {
        return Ok(Sharing::One);
    }
    Ok(Sharing::Linked)
}

fn is_one_place<R: Files + AllocGlobal>(rt: &R, name: &str, other: &str) -> io::Result<bool> {
    let (here, there) = (fs::canonicalize(rt, name)?, fs::canonicalize(rt, other)?);
    let (here, there) = (here.into_string(), there.into_string());
    Ok(here.as_str() == there.as_str())
}
