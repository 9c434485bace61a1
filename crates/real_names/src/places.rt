//! Where a name leads that no file has.
use real_files::{CURRENT, FileId, folder_of, is_absent};
use std::alloc::{AllocError, Global};
use std::collections::BTreeMap;
use std::io::ErrorKind;
use std::rt::Files;
use std::{fs, io};

// A path has no more parts, and the system follows no more links in it.
const MOST_PARTS: u32 = 4_096;

const MOST_LINKS: u32 = 40;

/// A place that no file has: a folder that is there, and the way from it.
#[derive(Drop, PartialEq, Eq, PartialOrd, Ord)]
pub struct Place {
    folder: FileId,
    way: String,
}

/// The places of folders, as they were since something was changed last.
#[derive(Drop)]
pub struct FolderPlaces {
    places: BTreeMap<String, Place>,
}

impl FolderPlaces {
    /// No folder.
    pub fn new(alloc: Global) -> Self {
        FolderPlaces {
            places: BTreeMap::new(alloc),
        }
    }

    /// Something is changed: folders may be made.
    pub fn clear(&mut self) {
        self.places.clear();
    }

    /// The place of a name that no file has, and that is no link. Of each folder the system is asked
    /// once.
    pub fn place_of<R: Files + AllocGlobal>(&mut self, rt: &R, path: &str) -> io::Result<Place> {
        let (folder, name) = folder_of(path);
        self.see(rt, folder)?;
        match self.places.get(folder) {
            Some(above) => Ok(below(rt.alloc(), above, name)?),
            None => Err(io::Error::from(ErrorKind::NotFound)),
        }
    }

    fn see<R: Files + AllocGlobal>(&mut self, rt: &R, folder: &str) -> io::Result<()> {
        if !self.places.contains_key(folder) {
            let place = place_of_folder(rt, folder)?;
            let named = String::from_str(rt.alloc(), folder)?;
            self.places.insert(named, place)?;
        }
        Ok(())
    }
}

fn below(alloc: Global, above: &Place, name: &str) -> Result<Place, AllocError> {
    let way = joined(alloc, above.way.as_str(), name)?;
    let folder = above.folder;
    Ok(Place { folder, way })
}

// One part of a way behind the other.
fn joined(alloc: Global, first: &str, rest: &str) -> Result<String, AllocError> {
    if is_nothing(first) {
        return String::from_str(alloc, rest);
    }
    if is_nothing(rest) {
        return String::from_str(alloc, first);
    }
    format!(in alloc; "{first}/{rest}")
}

// This part of a way leads nowhere else.
fn is_nothing(part: &str) -> bool {
    part.is_empty() || part == CURRENT
}

// One that isn't there has its place in the first one above it that is.
fn place_of_folder<R: Files + AllocGlobal>(rt: &R, folder: &str) -> io::Result<Place> {
    let mut at = String::from_str(rt.alloc(), folder)?;
    let mut way = String::new(rt.alloc());
    for _ in 0..MOST_PARTS {
        if let Some(folder) = file_at(rt, at.as_str())? {
            return Ok(Place { folder, way });
        }
        at = end_of_links(rt, at.as_str())?;
        let (above, name) = folder_of(at.as_str());
        way = joined(rt.alloc(), name, way.as_str())?;
        at = String::from_str(rt.alloc(), above)?;
    }
    Err(io::Error::from(ErrorKind::InvalidInput))
}

fn file_at<R: Files>(rt: &R, path: &str) -> io::Result<Option<FileId>> {
    match fs::metadata(rt, path) {
        Ok(data) => Ok(Some(FileId::of(&data))),
        Err(e) if is_absent(e.kind()) => Ok(None),
        Err(e) => Err(e),
    }
}

/// The path to which a link to nothing leads; a name that is no link leads to itself.
pub fn end_of_links<R: Files + AllocGlobal>(rt: &R, path: &str) -> io::Result<String> {
    let mut at = String::from_str(rt.alloc(), path)?;
    for _ in 0..MOST_LINKS {
        let Ok(target) = fs::read_link(rt, at.as_str()) else {
            break;
        };
        at = target_from(rt.alloc(), at.as_str(), target.into_string().as_str())?;
    }
    Ok(at)
}

// What the link of this path points to, as a path like that.
fn target_from(alloc: Global, link: &str, target: &str) -> Result<String, AllocError> {
    if target.starts_with('/') {
        return String::from_str(alloc, target);
    }
    let (folder, _) = folder_of(link);
    joined(alloc, folder, target)
}
