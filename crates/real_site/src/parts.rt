//! Files that are written beside those whose place they take.
ghost use Rattle.std.specs.Prelude.{◌<◌, IfSome, vec_len};

use crate::leftovers::PART;
use real_files::{
    FileId, SyncedFolders, file_len, folder_of, hold, is_absent, regular, remove_left,
};
use real_programs::Owner;
use std::alloc::{AllocError, Global};
use std::fs::{File, Metadata};
use std::io::{ErrorKind, Write};
use std::os::unix::fs::FileExt;
use std::rt::Files;
use std::{fs, io};

// The longest name of a file on Linux.
const MOST_NAME: usize = 255;

const MOST_TRIES: u32 = 1_000_000;

/// Where the bytes of a name stand: at its own path, or where its link points to.
#[derive(Drop)]
pub struct Target {
    /// The path.
    pub path: String,
    /// The file that is there.
    pub old: Option<Metadata>,
}

/// A file that was put in place.
#[derive(Drop)]
pub struct Settled {
    /// Where it stands.
    pub target: String,
    /// Which file it is.
    pub file: FileId,
}

// A file that was begun: `place` holds what reads give under `path`, until it takes the place of
// `target`, which is the file of that path, or what its link points to.
#[derive(Drop)]
struct Part {
    path: String,
    place: String,
    target: String,
    // What stands at `place`, held until it is gone from there.
    file: File,
    id: FileId,
    len: u64,
}

// A new file beside a target.
#[derive(Drop)]
struct Beside {
    place: String,
    file: File,
    id: FileId,
}

/// The files that were begun and not yet put in place.
#[derive(Drop)]
pub struct Parts {
    parts: Vec<Part>,
    // How many had a name too long to stand in that of its part, or a part's name that was taken.
    numbered: u64,
}

impl Parts {
    /// No file.
    pub fn new(alloc: Global) -> Self {
        Parts {
            parts: Vec::new(alloc),
            numbered: 0,
        }
    }

    fn position(&self, path: &str) -> Option<usize>
        ensures { IfSome result (λ index. index < vec_len self.now.parts) }
    {
        self.parts
            .iter()
            .position(|part| part.path.as_str() == path)
    }

    /// The file was begun, and isn't in place.
    pub fn has(&self, path: &str) -> bool {
        self.position(path).is_some()
    }

    /// The path of the file that holds what stands under `path`.
    pub fn place_of<'p>(&'p self, path: &'p str) -> &'p str {
        match self.parts.iter().find(|part| part.path.as_str() == path) {
            Some(part) => part.place.as_str(),
            None => path,
        }
    }

    /// Begins the file of this path by its first bytes; what stood behind them stays. It is put in
    /// place by [`Parts::settle`]. At an error nothing is begun: one of permission is answered where
    /// no file can be made beside it, or it may not be read or written.
    pub fn begin<R: Files<File = File> + AllocGlobal>(
        &mut self,
        rt: &R,
        owner: &Owner,
        path: &str,
        target: Target,
        bytes: &[u8],
    ) -> io::Result<()> {
        if target.old.is_some() {
            // An old file that may not be written isn't replaced either.
            File::options().write(true).open(rt, target.path.as_str())?;
        }
        let named = String::from_str(rt.alloc(), path)?;
        let mut beside = self.new_beside(rt, owner, target.path.as_str())?;
        match fill_part(rt, &mut beside, &target, bytes) {
            Ok(len) => self.keep(rt, part_of(named, beside, target, len)),
            Err(e) => {
                drop_at(rt, beside.place.as_str());
                Err(e)
            }
        }
    }

    // A new file beside the target. Where its name is another program's, or too long, a number
    // stands in it.
    fn new_beside<R: Files<File = File> + AllocGlobal>(
        &mut self,
        rt: &R,
        owner: &Owner,
        target: &str,
    ) -> io::Result<Beside> {
        let (folder, name) = folder_of(target);
        let place = part_path(rt.alloc(), owner, folder, name)?;
        if place.len().saturating_sub(folder.len()) <= MOST_NAME
            && let Some(made) = made_at(rt, place)?
        {
            return Ok(made);
        }
        for _ in 0..MOST_TRIES {
            if let Some(made) = self.new_numbered(rt, owner, folder)? {
                return Ok(made);
            }
        }
        Err(io::Error::from(ErrorKind::AlreadyExists))
    }

    fn new_numbered<R: Files<File = File> + AllocGlobal>(
        &mut self,
        rt: &R,
        owner: &Owner,
        folder: &str,
    ) -> io::Result<Option<Beside>> {
        self.numbered = self.numbered.wrapping_add(1);
        let number = self.numbered;
        let name = format!(in rt.alloc(); "{number}")?;
        let place = part_path(rt.alloc(), owner, folder, name.as_str())?;
        made_at(rt, place)
    }

    fn keep<R: Files>(&mut self, rt: &R, part: Part) -> io::Result<()> {
        if let Err(e) = self.parts.reserve(1) {
            drop_at(rt, part.place.as_str());
            return Err(io::Error::from(e));
        }
        self.parts.push(part)?;
        Ok(())
    }

    /// Writes at an offset of a file that was begun. None where it wasn't.
    pub fn write(&mut self, path: &str, at: u64, bytes: &[u8]) -> Option<io::Result<()>> {
        let index = self.position(path)?;
        Some(write_part(&mut self.parts[index], at, bytes))
    }

    /// Sets the length of a file that was begun. None where it wasn't.
    pub fn cut(&mut self, path: &str, len: u64) -> Option<io::Result<()>> {
        let index = self.position(path)?;
        Some(cut_part(&mut self.parts[index], len))
    }

    /// Puts the file in place as it stands, and tells where that is; None where it wasn't begun. Its
    /// bytes are synced then, and its folder isn't yet. At an error it is gone, and what it was to
    /// replace stands.
    pub fn settle<R: Files>(
        &mut self,
        rt: &R,
        synced: &mut SyncedFolders,
        path: &str,
    ) -> io::Result<Option<Settled>> {
        let Some(index) = self.position(path) else {
            return Ok(None);
        };
        let part = self.parts.swap_remove(index);
        put_in_place(rt, synced, &part)?;
        Ok(Some(Settled {
            target: part.target,
            file: part.id,
        }))
    }

    /// Puts each file in place that can be, unsynced.
    pub fn move_all<R: Files>(&mut self, rt: &R) {
        for part in self.parts.as_slice() {
            let _ = move_part(rt, part);
        }
        self.parts.clear();
    }

    /// Forgets what was begun under this path: what stood there before stands again.
    pub fn forget<R: Files>(&mut self, rt: &R, path: &str) {
        if let Some(index) = self.position(path) {
            let part = self.parts.swap_remove(index);
            drop_at(rt, part.place.as_str());
        }
    }
}

fn part_of(path: String, beside: Beside, target: Target, len: u64) -> Part {
    Part {
        path,
        place: beside.place,
        target: target.path,
        file: beside.file,
        id: beside.id,
        len,
    }
}

fn part_path(alloc: Global, owner: &Owner, folder: &str, name: &str) -> Result<String, AllocError> {
    let (host, process) = (owner.host(), owner.process());
    format!(in alloc; "{folder}/.{name}.{host}.{process}{PART}")
}

// A new file of this path, held. None where another one has the name; that of a dead program goes.
fn made_at<R: Files<File = File>>(rt: &R, place: String) -> io::Result<Option<Beside>> {
    match File::create_new(rt, place.as_str()) {
        Ok(file) => {
            let held = hold(&file)?;
            Ok(held.map(|id| Beside { place, file, id }))
        }
        Err(e) if e.kind() == ErrorKind::AlreadyExists => {
            let _ = remove_left(rt, place.as_str());
            Ok(None)
        }
        Err(e) => Err(e),
    }
}

fn drop_at<R: Files>(rt: &R, place: &str) {
    let _ = fs::remove_file(rt, place);
}

fn write_part(part: &mut Part, at: u64, bytes: &[u8]) -> io::Result<()> {
    part.file.write_all_at(bytes, at)?;
    part.len = part.len.max(at.saturating_add(bytes.len() as u64));
    Ok(())
}

fn cut_part(part: &mut Part, len: u64) -> io::Result<()> {
    if part.len != len {
        part.file.set_len(len)?;
        part.len = len;
    }
    Ok(())
}

fn move_part<R: Files>(rt: &R, part: &Part) -> io::Result<()> {
    let moved = fs::rename(rt, part.place.as_str(), part.target.as_str());
    if moved.is_err() {
        drop_at(rt, part.place.as_str());
    }
    moved
}

fn put_in_place<R: Files>(rt: &R, synced: &mut SyncedFolders, part: &Part) -> io::Result<()> {
    if let Err(e) = part.file.sync_all() {
        drop_at(rt, part.place.as_str());
        return Err(e);
    }
    synced.name_changed(part.target.as_str());
    move_part(rt, part)
}

/// Where the bytes of this name are to stand.
pub fn target_of<R: Files + AllocGlobal>(
    rt: &R,
    synced: &mut SyncedFolders,
    path: &str,
) -> io::Result<Target> {
    match fs::symlink_metadata(rt, path) {
        Ok(data) if data.is_symlink() => link_of(rt, synced, path),
        Ok(data) if data.is_file() => named(rt.alloc(), path, Some(data)),
        Ok(_) => Err(io::Error::from(ErrorKind::InvalidInput)),
        Err(e) if is_absent(e.kind()) => named(rt.alloc(), path, None),
        Err(e) => Err(e),
    }
}

fn named(alloc: Global, path: &str, old: Option<Metadata>) -> io::Result<Target> {
    let path = String::from_str(alloc, path)?;
    Ok(Target { path, old })
}

// What a link points to.
fn link_of<R: Files + AllocGlobal>(
    rt: &R,
    synced: &mut SyncedFolders,
    path: &str,
) -> io::Result<Target> {
    if file_len(rt, path)?.is_none() {
        // A link to nothing: the file that it is to point to has to be there to be found.
        synced.open(rt, path)?;
    }
    let path = fs::canonicalize(rt, path)?.into_string();
    let old = regular(rt, path.as_str())?;
    Ok(Target { path, old })
}

// Gives the part the mode of the old file, and its bytes behind the new ones. It answers its length.
fn fill_part<R: Files>(
    rt: &R,
    beside: &mut Beside,
    target: &Target,
    bytes: &[u8],
) -> io::Result<u64> {
    let len = bytes.len() as u64;
    let old = match &target.old {
        Some(old) => old.len(),
        None => 0,
    };
    if old > len {
        fs::copy(rt, target.path.as_str(), beside.place.as_str())?;
    } else if let Some(data) = &target.old {
        beside.file.set_permissions(data.permissions())?;
    }
    beside.file.write_all(bytes)?;
    Ok(len.max(old))
}
