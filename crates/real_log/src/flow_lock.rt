//! A lock on a file, by which programs that work on one flow keep out of each other's way.
use crate::draft::Draft;
use crate::first_look::{FirstLook, Stamp};
use real_files::{FileId, SyncedFolders, file_len, link_target, read_seen, regular};
use std::alloc::{AllocError, Global};
use std::fs::{File, TryLockError};
use std::io;
use std::io::ErrorKind;
use std::mem::replace;
use std::os::unix::fs::FileExt;
use std::rt::Files;

// So often a lock is tried that another program holds, which takes a second or so.
const MOST_LOOKS: u32 = 2_000_000;

// The file that this program alone writes.
#[derive(Drop)]
struct Held {
    file: File,
    id: FileId,
    // What its name points to, where that is a link.
    target: Option<String>,
    // The bytes by which it is begun, until they are in it.
    draft: Option<Draft>,
    // As far as this its bytes were written while it had its name.
    known_end: u64,
}

// How this program stands to the lock.
#[derive(Drop)]
enum Standing {
    // It changed nothing yet. No lock was taken, since one who only reads keeps nobody out.
    Looked(FirstLook),
    // This program alone writes.
    Held(Held),
    // Another program works here, or did since the file was looked at.
    Refused,
}

/// The lock on the first file that is synced: the log of a flow. It goes with the program, however
/// that ends.
#[derive(Drop)]
pub struct FlowLock {
    path: Option<String>,
    standing: Standing,
}

impl FlowLock {
    /// No lock.
    pub fn new() -> Self {
        FlowLock {
            path: None,
            standing: Standing::Looked(FirstLook::absent()),
        }
    }

    /// This is the name of the file that the lock is on.
    pub fn is_on(&self, path: &str) -> bool {
        match &self.path {
            Some(locked) => locked.as_str() == path,
            None => false,
        }
    }

    /// This is the file that the lock is on, as far as it is known.
    pub fn is_file(&self, file: FileId) -> bool {
        match &self.standing {
            Standing::Looked(look) => match look.seen() {
                Some(stamp) => stamp.file == file,
                None => false,
            },
            Standing::Held(held) => held.id == file,
            Standing::Refused => false,
        }
    }

    /// This program alone writes the file of this name.
    pub fn is_held_on(&self, path: &str) -> bool {
        match &self.standing {
            Standing::Held(_) => self.is_on(path),
            _ => false,
        }
    }

    /// Before the first sync, which names the file: that it changed since then, or that another
    /// program works here, shows at the first change alone, so that a log can be read meanwhile. True
    /// where this is the first one.
    pub fn begin<R: Files<File = File> + AllocGlobal>(
        &mut self,
        rt: &R,
        path: &str,
    ) -> io::Result<bool> {
        if self.path.is_some() {
            return Ok(false);
        }
        let named = String::from_str(rt.alloc(), path)?;
        self.standing = Standing::Looked(FirstLook::of(rt, path)?);
        self.path = Some(named);
        Ok(true)
    }

    /// What was seen of the file of this name, as long as this program changed nothing.
    pub fn look_at(&self, path: &str) -> Option<&FirstLook> {
        match &self.standing {
            Standing::Looked(look) if self.is_on(path) => Some(look),
            _ => None,
        }
    }

    /// There was no file as it was looked at, and this program changed nothing yet.
    pub fn saw_nothing(&self) -> bool {
        match &self.standing {
            Standing::Looked(look) => look.seen().is_none(),
            _ => false,
        }
    }

    /// This program began the file of this name, and changed nothing else yet.
    pub fn is_begun(&self, path: &str) -> bool {
        match self.look_at(path) {
            Some(look) => look.is_begun(),
            None => false,
        }
    }

    /// Keeps the first bytes of a file that isn't there until something else is changed. False where
    /// it is there.
    pub fn keep_beginning(
        &mut self,
        alloc: Global,
        path: &str,
        bytes: &[u8],
    ) -> Result<bool, AllocError> {
        let is_on = self.is_on(path);
        match &mut self.standing {
            Standing::Looked(look) if is_on => look.begin(alloc, bytes),
            _ => Ok(false),
        }
    }

    /// The file is begun anew, which is kept until something else is changed. False where this
    /// program writes it, or may not.
    pub fn keep_emptied(&mut self, alloc: Global, path: &str) -> bool {
        let is_on = self.is_on(path);
        match &mut self.standing {
            Standing::Looked(look) if is_on => {
                look.empty(alloc);
                true
            }
            _ => false,
        }
    }

    /// Before each change: an error unless this program alone writes, or no file was synced yet. It
    /// tells which file it is, where it became the one that writes just now.
    pub fn claim<R: Files<File = File> + AllocGlobal>(
        &mut self,
        rt: &R,
        synced: &mut SyncedFolders,
    ) -> io::Result<Option<FileId>> {
        let Some(path) = &self.path else {
            return Ok(None);
        };
        if let Standing::Held(_) = &self.standing {
            return Ok(None);
        }
        let standing = replace(&mut self.standing, Standing::Refused);
        let Some(held) = claimed(rt, synced, path.as_str(), standing)? else {
            return Err(io::Error::from(ErrorKind::WouldBlock));
        };
        let id = held.id;
        self.standing = Standing::Held(held);
        Ok(Some(id))
    }

    /// Puts the bytes by which the file is begun into it, and syncs them. At an error no change is made
    /// from then on.
    pub fn put_beginning(&mut self) -> io::Result<()> {
        let Standing::Held(held) = &mut self.standing else {
            return Ok(());
        };
        let Some(draft) = held.draft.take() else {
            return Ok(());
        };
        let done = put(&held.file, draft.as_slice());
        if done.is_err() {
            self.refuse();
        }
        done
    }

    /// No change is made from now on.
    pub fn refuse(&mut self) {
        self.standing = Standing::Refused;
    }

    // The file, if it is held and still has its name.
    fn in_place<R: Files>(&self, rt: &R) -> io::Result<&File> {
        if let (Some(path), Standing::Held(held)) = (&self.path, &self.standing)
            && let Some(data) = regular(rt, path.as_str())?
            && FileId::of(&data) == held.id
        {
            return Ok(&held.file);
        }
        Err(io::Error::from(ErrorKind::NotFound))
    }

    /// Writes at an offset of the file: an error where it lost its name. What makes it no longer than
    /// the last such write did, as a byte before an entry, belongs to that one, and isn't looked at.
    pub fn write<R: Files>(&mut self, rt: &R, at: u64, bytes: &[u8]) -> io::Result<()> {
        let end = at.saturating_add(bytes.len() as u64);
        if let Standing::Held(held) = &self.standing
            && end <= held.known_end
        {
            return held.file.write_all_at(bytes, at);
        }
        self.in_place(rt)?.write_all_at(bytes, at)?;
        self.set_known_end(end);
        Ok(())
    }

    fn set_known_end(&mut self, end: u64) {
        if let Standing::Held(held) = &mut self.standing {
            held.known_end = end;
        }
    }

    /// Sets the length of the file: an error where it lost its name.
    pub fn cut<R: Files>(&mut self, rt: &R, len: u64) -> io::Result<()> {
        self.set_known_end(0);
        let file = self.in_place(rt)?;
        if file.metadata()?.len() == len {
            return Ok(());
        }
        file.set_len(len)
    }

    /// Syncs the file that is held, and the folders that lead to it.
    pub fn sync<R: Files<File = File> + AllocGlobal>(
        &self,
        rt: &R,
        synced: &mut SyncedFolders,
    ) -> io::Result<()> {
        let (Some(path), Standing::Held(held)) = (&self.path, &self.standing) else {
            return Ok(());
        };
        held.file.sync_all()?;
        synced.sync_way(rt, path.as_str())?;
        match &held.target {
            Some(target) => synced.sync_folder_of(rt, target.as_str()),
            None => Ok(()),
        }
    }
}

// Writes the whole of a file, and syncs it.
fn put(file: &File, bytes: &[u8]) -> io::Result<()> {
    file.set_len(0)?;
    file.write_all_at(bytes, 0)?;
    file.sync_all()
}

fn claimed<R: Files<File = File> + AllocGlobal>(
    rt: &R,
    synced: &mut SyncedFolders,
    path: &str,
    standing: Standing,
) -> io::Result<Option<Held>> {
    let look = match standing {
        Standing::Looked(look) => look,
        Standing::Held(held) => return Ok(Some(held)),
        Standing::Refused => return Ok(None),
    };
    match look.seen() {
        Some(stamp) => taken(rt, path, stamp, look.into_begun()),
        None => begun(rt, synced, path, look.into_begun()),
    }
}

// Another program writes the file. One that was killed while it started a command holds it for a
// moment more. A file system that has no locks keeps nobody out.
fn is_locked(file: &File) -> bool {
    for _ in 0..MOST_LOOKS {
        if !matches!(file.try_lock(), Err(TryLockError::WouldBlock)) {
            return false;
        }
    }
    true
}

// Takes the file, unless somebody wrote it since it was seen.
fn taken<R: Files<File = File> + AllocGlobal>(
    rt: &R,
    path: &str,
    stamp: Stamp,
    draft: Option<Draft>,
) -> io::Result<Option<Held>> {
    let file = File::options().read(true).write(true).open(rt, path)?;
    if is_locked(&file) || !stamp.stands(&Stamp::of(&file.metadata()?)) {
        return Ok(None);
    }
    let held = kept(rt, path, file, stamp.file, draft)?;
    Ok(Some(held))
}

// Makes the file that wasn't there. One that has bytes by now is another program's, unless it is
// begun by the same ones, and no further.
fn begun<R: Files<File = File> + AllocGlobal>(
    rt: &R,
    synced: &mut SyncedFolders,
    path: &str,
    draft: Option<Draft>,
) -> io::Result<Option<Held>> {
    let file = synced.open(rt, path)?;
    if is_locked(&file) {
        return Ok(None);
    }
    let data = file.metadata()?;
    if data.len() > 0 && !has_just(rt, path, draft.as_ref())? {
        return Ok(None);
    }
    let held = kept(rt, path, file, FileId::of(&data), draft)?;
    Ok(Some(held))
}

// The file has these bytes and no others.
fn has_just<R: Files + AllocGlobal>(rt: &R, path: &str, draft: Option<&Draft>) -> io::Result<bool> {
    let Some(draft) = draft else {
        return Ok(false);
    };
    let bytes = draft.as_slice();
    if file_len(rt, path)? != Some(bytes.len() as u64) {
        return Ok(false);
    }
    let mut found = vec![in rt.alloc(); 0u8; bytes.len()]?;
    let count = read_seen(rt, path, 0, found.as_mut_slice())?;
    Ok(count == bytes.len() && found.as_slice() == bytes)
}

fn kept<R: Files + AllocGlobal>(
    rt: &R,
    path: &str,
    file: File,
    id: FileId,
    draft: Option<Draft>,
) -> io::Result<Held> {
    let target = link_target(rt, path)?;
    Ok(Held {
        file,
        id,
        target,
        draft,
        known_end: 0,
    })
}
