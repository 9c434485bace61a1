//! Files that are written where they stand.
ghost use Rattle.std.specs.Prelude.{◌≤◌, ◌<◌, ◌-◌, ◌^◌, None, IfOk, length};

use flow_types::Name;
use outside::{Fault, Site};
use real_files::{
    SyncedFolders, counted, file_len, is_absent, path_of, read_seen, regular, set_len, sync_seen,
    write_from,
};
use std::fs::File;
use std::rt::Files;
use std::{fs, io};

/// The files below the current folder, of which each is written in place: for files that several
/// programs may share, each of which tells by its own bytes whether it is whole.
///
/// It takes no lock, makes no file beside another one, and lets several names be one file. A sync
/// makes the file durable, and the folders on the way to its name where a name changed in them.
#[derive(Drop)]
pub struct PlainSite<'a, R: Files<File = File> + AllocGlobal> {
    files: InPlace<'a, R>,
    faults: u64,
}

impl<'a, R: Files<File = File> + AllocGlobal> PlainSite<'a, R> {
    /// The folder in which the program was started.
    pub fn new(rt: &'a R) -> Self {
        let synced = SyncedFolders::new(rt.alloc());
        PlainSite {
            files: InPlace { rt, synced },
            faults: 0,
        }
    }
}

/// The files themselves, by their paths, and the folders that wait for a sync.
#[derive(Drop)]
struct InPlace<'a, R: Files<File = File> + AllocGlobal> {
    rt: &'a R,
    synced: SyncedFolders,
}

impl<'a, R: Files<File = File> + AllocGlobal> InPlace<'a, R> {
    fn read(&self, path: &str, at: u64, into: &mut [u8]) -> io::Result<usize>
        ensures { IfOk result (λ count. count ≤ length into.new) }
    {
        if regular(self.rt, path)?.is_none() {
            return Ok(0);
        }
        read_seen(self.rt, path, at, into)
    }

    fn write(&mut self, path: &str, at: u64, bytes: &[u8]) -> io::Result<()> {
        let mut file = self.synced.open(self.rt, path)?;
        write_from(&mut file, at, bytes)
    }

    fn sync(&mut self, path: &str) -> io::Result<()> {
        if regular(self.rt, path)?.is_some() {
            sync_seen(self.rt, path)?;
        }
        self.synced.sync(self.rt, path)
    }

    fn remove(&mut self, path: &str) -> io::Result<()> {
        match fs::remove_file(self.rt, path) {
            Err(e) if is_absent(e.kind()) => Ok(()),
            removed => {
                self.synced.name_changed(path);
                removed
            }
        }
    }
}

impl<'a, R: Files<File = File> + AllocGlobal + Sync> Site for PlainSite<'a, R> {
    ghost tells = { ⊥ };

    ghost files = { λ s name. None };

    ghost may_leave = { λ s name entry. ⊥ };

    ghost moment = { λ s. 0 };

    ghost images_since = { λ s t image. ⊥ };

    ghost count = { λ s. s.faults };

    ghost ample = { λ s. s.faults < 2 ^ 64 - 1 };

    ghost reads_image = { λ told. absurd told };

    ghost counts_now = { λ told. absurd told };

    ghost only_now = { λ told. absurd told };

    ghost ample_below = { λ s is. is };

    fn size(&mut self, name: &Name) -> Result<Option<u64>, Fault> {
        let answer = path_of(name).and_then(|path| file_len(self.files.rt, path));
        counted(&mut self.faults, answer)
    }

    fn read(&mut self, name: &Name, at: u64, into: &mut [u8]) -> Result<usize, Fault> {
        let answer = match path_of(name) {
            Ok(path) => self.files.read(path, at, into),
            Err(e) => Err(e),
        };
        counted(&mut self.faults, answer)
    }

    fn write(&mut self, name: &Name, at: u64, bytes: &[u8]) -> Result<(), Fault> {
        let answer = path_of(name).and_then(|path| self.files.write(path, at, bytes));
        counted(&mut self.faults, answer)
    }

    fn cut(&mut self, name: &Name, len: u64) -> Result<(), Fault> {
        let answer = path_of(name).and_then(|path| set_len(self.files.rt, path, len));
        counted(&mut self.faults, answer)
    }

    fn sync(&mut self, name: &Name) -> Result<(), Fault> {
        let answer = path_of(name).and_then(|path| self.files.sync(path));
        counted(&mut self.faults, answer)
    }

    fn remove(&mut self, name: &Name) -> Result<(), Fault> {
        let answer = path_of(name).and_then(|path| self.files.remove(path));
        counted(&mut self.faults, answer)
    }

    fn faults(&self) -> u64 {
        self.faults
    }
}
