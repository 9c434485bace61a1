//! Files below the current folder, by path.
ghost use Rattle.std.specs.Prelude.{◌≤◌, length, IfOk};

use crate::leftovers::clear_parts;
use crate::parts::{Parts, Settled, target_of};
use real_files::{
    CURRENT, FileId, Found, SyncedFolders, folder_of, is_absent, read_seen, regular, seen_at,
    set_len, sync_seen, write_from,
};
use real_log::FlowLock;
use real_names::{AskedNames, Sharing};
use real_programs::Owner;
use std::collections::BTreeSet;
use std::fs::{File, Metadata};
use std::io::ErrorKind;
use std::rt::Files;
use std::{fs, io};

/// The files, and which of them were begun anew and aren't in place yet.
pub struct Folder<'a, R: Files<File = File> + AllocGlobal> {
    rt: &'a R,
    owner: &'a Owner,
    lock: FlowLock,
    parts: Parts,
    synced: SyncedFolders,
    // The names that were asked for.
    asked: AskedNames,
    // The name of which the last call saw that a regular file stands there.
    just_seen: String,
    // The folders in which what dead programs left was looked for.
    cleared: BTreeSet<String>,
}

impl<'a, R: Files<File = File> + AllocGlobal> Drop for Folder<'a, R> {
    fn drop(self) {
        let Folder {
            rt,
            owner: _,
            lock,
            mut parts,
            synced: _,
            asked: _,
            just_seen: _,
            cleared: _,
        } = self;
        parts.move_all(rt);
        drop(lock);
    }
}

impl<'a, R: Files<File = File> + AllocGlobal> Folder<'a, R> {
    /// The folder in which the program was started.
    pub fn new(rt: &'a R, owner: &'a Owner) -> Self {
        Folder {
            rt,
            owner,
            lock: FlowLock::new(),
            parts: Parts::new(rt.alloc()),
            synced: SyncedFolders::new(rt.alloc()),
            asked: AskedNames::new(rt.alloc()),
            just_seen: String::new(rt.alloc()),
            cleared: BTreeSet::new(rt.alloc()),
        }
    }

    /// The length of the file, None where nothing has the name.
    pub fn size(&mut self, path: &str) -> io::Result<Option<u64>> {
        self.just_seen.clear();
        if let Some(first) = self.lock.look_at(path) {
            return Ok(first.size());
        }
        let Some(data) = self.look(path)? else {
            return Ok(None);
        };
        self.just_seen.push_str(path)?;
        self.asked.note_length(self.rt.alloc(), path)?;
        Ok(Some(data.len()))
    }

    /// Fills from the bytes that begin at `at`. An absent file has no bytes. Right behind a look at
    /// the same name there is no second one.
    pub fn read(&mut self, path: &str, at: u64, into: &mut [u8]) -> io::Result<usize>
        ensures { IfOk result (λ count. count ≤ length into.new) }
    {
        if let Some(first) = self.lock.look_at(path) {
            return first.read(self.rt, path, at, into);
        }
        self.asked.note_bytes(path);
        let was_seen = self.just_seen.as_str() == path;
        self.just_seen.clear();
        if !was_seen && self.look(path)?.is_none() {
            return Ok(0);
        }
        match read_seen(self.rt, self.parts.place_of(path), at, into) {
            Err(e) if is_absent(e.kind()) => Ok(0),
            read => read,
        }
    }

    // What stands under the name.
    fn look(&mut self, path: &str) -> io::Result<Option<Metadata>> {
        if self.parts.has(path) || self.lock.is_on(path) {
            return regular(self.rt, self.parts.place_of(path));
        }
        match seen_at(self.rt, path)? {
            Found::File(data) => {
                self.note(path, FileId::of(&data))?;
                Ok(Some(data))
            }
            nothing => {
                self.asked.note_free(self.rt, path, &nothing)?;
                Ok(None)
            }
        }
    }

    // Keeps in mind which file has the name. An error where that is the log.
    fn note(&mut self, path: &str, file: FileId) -> io::Result<()> {
        if self.lock.is_file(file) {
            return Err(io::Error::from(ErrorKind::InvalidInput));
        }
        self.asked.note(self.rt.alloc(), path, file)?;
        Ok(())
    }

    /// Writes at an offset. A file is begun anew by a write at its beginning, and changes then only
    /// when it is synced. The log is written in place, as long as it has its name; one that is begun
    /// is made at the next change.
    pub fn write(&mut self, path: &str, at: u64, bytes: &[u8]) -> io::Result<()> {
        self.just_seen.clear();
        if at == 0 && self.lock.keep_beginning(self.rt.alloc(), path, bytes)? {
            return Ok(());
        }
        self.begin_change()?;
        if self.lock.is_on(path) {
            return self.lock.write(self.rt, at, bytes);
        }
        if at == 0 && !self.parts.has(path) {
            return self.begin(path, bytes);
        }
        let done = self.write_on(path, at, bytes);
        if done.is_err() {
            self.parts.forget(self.rt, path);
        }
        done
    }

    // Begins a file anew. Its folder is most often there: where it isn't it is made.
    fn begin(&mut self, path: &str, bytes: &[u8]) -> io::Result<()> {
        if self.asked.shares_place(path) {
            return Err(io::Error::from(ErrorKind::InvalidInput));
        }
        match self.begin_there(path, bytes) {
            Err(e) if is_absent(e.kind()) => {
                self.synced.make_for(self.rt, path)?;
                self.begin_there(path, bytes)
            }
            begun => begun,
        }
    }

    // An error of absence where the folder isn't there. Where no file can be made beside the one that
    // is begun, that is written in place, unless another name would change with it.
    fn begin_there(&mut self, path: &str, bytes: &[u8]) -> io::Result<()> {
        let (folder, _) = folder_of(path);
        self.clear(folder)?;
        let target = target_of(self.rt, &mut self.synced, path)?;
        let sharing = self.own_place(path, target.old.as_ref())?;
        match self.parts.begin(self.rt, self.owner, path, target, bytes) {
            Err(e) if e.kind() == ErrorKind::PermissionDenied && sharing == Sharing::Alone => {
                self.write_in_place(path, 0, bytes)
            }
            begun => begun,
        }
    }

    // How the file that is to be replaced stands to the other names. An error where one of them is
    // the same place, or the log.
    fn own_place(&mut self, path: &str, old: Option<&Metadata>) -> io::Result<Sharing> {
        let Some(data) = old else {
            return Ok(Sharing::Alone);
        };
        let file = FileId::of(data);
        let sharing = self.asked.sharing(self.rt, path, file)?;
        if sharing == Sharing::One || self.lock.is_file(file) {
            return Err(io::Error::from(ErrorKind::InvalidInput));
        }
        self.asked.note(self.rt.alloc(), path, file)?;
        Ok(sharing)
    }

    fn write_on(&mut self, path: &str, at: u64, bytes: &[u8]) -> io::Result<()> {
        match self.parts.write(path, at, bytes) {
            Some(done) => done,
            None => self.write_in_place(path, at, bytes),
        }
    }

    fn write_in_place(&mut self, path: &str, at: u64, bytes: &[u8]) -> io::Result<()> {
        let mut file = self.synced.open(self.rt, path)?;
        write_from(&mut file, at, bytes)
    }

    // Before each change: no two names may be one, no other program may work here, and what dead ones
    // left goes.
    fn begin_change(&mut self) -> io::Result<()> {
        self.asked.begin_change(self.rt)?;
        if let Some(log) = self.lock.claim(self.rt, &mut self.synced)? {
            self.log_alone(log)?;
            self.lock.put_beginning()?;
        }
        self.clear(CURRENT)
    }

    // No other name that was seen may be the log: it is written in place.
    fn log_alone(&mut self, log: FileId) -> io::Result<()> {
        match self.asked.has_file(self.rt, log) {
            Ok(false) => Ok(()),
            Ok(true) => {
                self.lock.refuse();
                Err(io::Error::from(ErrorKind::InvalidInput))
            }
            Err(e) => {
                self.lock.refuse();
                Err(e)
            }
        }
    }

    // Removes what dead programs left in a folder, the first time.
    fn clear(&mut self, folder: &str) -> io::Result<()> {
        if !self.cleared.contains(folder) {
            let named = String::from_str(self.rt.alloc(), folder)?;
            self.cleared.insert(named)?;
            clear_parts(self.rt, self.owner, folder);
        }
        Ok(())
    }

    /// Sets the length of a file that is there.
    pub fn cut(&mut self, path: &str, len: u64) -> io::Result<()> {
        self.just_seen.clear();
        if len == 0 && self.lock.keep_emptied(self.rt.alloc(), path) {
            return Ok(());
        }
        self.begin_change()?;
        if self.lock.is_on(path) {
            return self.lock.cut(self.rt, len);
        }
        let done = match self.parts.cut(path, len) {
            Some(done) => done,
            None => set_len(self.rt, path, len),
        };
        if done.is_err() {
            self.parts.forget(self.rt, path);
        }
        done
    }

    /// Makes what stands under the name outlive a crash, and puts it in place where it was begun.
    /// Of the folders on the way it syncs those alone in which a name changed since their last sync.
    pub fn sync(&mut self, path: &str) -> io::Result<()> {
        self.just_seen.clear();
        if self.lock.is_held_on(path) {
            return self.lock.sync(self.rt, &mut self.synced);
        }
        if let Some(settled) = self.parts.settle(self.rt, &mut self.synced, path)? {
            return self.sync_settled(path, &settled);
        }
        self.begin_lock(path)?;
        if self.lock.is_begun(path) {
            return Ok(());
        }
        if !self.lock.is_on(path) {
            self.asked.note_first();
        }
        if self.look(path)?.is_some() {
            sync_seen(self.rt, path)?;
        }
        self.synced.sync(self.rt, path)
    }

    fn sync_settled(&mut self, path: &str, settled: &Settled) -> io::Result<()> {
        self.asked.note(self.rt.alloc(), path, settled.file)?;
        self.begin_lock(path)?;
        self.synced.sync_to(self.rt, path, settled.target.as_str())
    }

    // The first name that is synced is the log's, which is none of the others.
    fn begin_lock(&mut self, path: &str) -> io::Result<()> {
        if self.lock.begin(self.rt, path)? {
            self.asked.forget(path);
            if self.lock.saw_nothing() {
                let found = seen_at(self.rt, path)?;
                self.asked.note_free(self.rt, path, &found)?;
                self.asked.note_first();
            }
        }
        Ok(())
    }

    /// Removes the file. The name may be absent.
    pub fn remove(&mut self, path: &str) -> io::Result<()> {
        self.just_seen.clear();
        self.begin_change()?;
        self.parts.forget(self.rt, path);
        self.asked.forget(path);
        match fs::remove_file(self.rt, path) {
            Err(e) if is_absent(e.kind()) => Ok(()),
            removed => {
                self.synced.name_changed(path);
                removed
            }
        }
    }
}
