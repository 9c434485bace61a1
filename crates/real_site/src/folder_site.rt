//! The current folder.
ghost use Rattle.std.specs.Prelude.{◌<◌, ◌-◌, ◌^◌, None};

use crate::folder::Folder;
use flow_types::Name;
use outside::{Fault, Site};
use real_files::{counted, path_of};
use real_programs::Owner;
use std::fs::File;
use std::rt::Files;

/// The files of the current folder.
///
/// What is written at the beginning of a file goes to a file beside it, and takes its place at the
/// next sync of its name, or when the site is let go: a refused write or a kill leaves the old file.
/// Such a file is hidden, `.NAME.HOST.PROCESS.makeflow-part`, and locked. Those of this host and user
/// that no program holds are removed.
///
/// The first file that is synced is the log of a flow. It is written in place, as long as it has its
/// name, and locked from the first change on: while one site changes files, each change by another
/// one with that log is refused. Calls that change nothing take no lock, and are served.
///
/// No two names that were asked for may be one file where one of them is written: a write to a name
/// that leads where another one does, by a link to a file or a folder, is refused.
///
/// The little memory that paths need is the system's: where it is wanting a call is refused.
#[derive(Drop)]
pub struct FolderSite<'a, R: Files<File = File> + AllocGlobal> {
    folder: Folder<'a, R>,
    faults: u64,
}

impl<'a, R: Files<File = File> + AllocGlobal> FolderSite<'a, R> {
    /// The folder in which the program was started. `owner` is this program.
    pub fn new(rt: &'a R, owner: &'a Owner) -> Self {
        FolderSite {
            folder: Folder::new(rt, owner),
            faults: 0,
        }
    }
}

impl<'a, R: Files<File = File> + AllocGlobal + Sync> Site for FolderSite<'a, R> {
    ghost tells = { ⊥ };

    ghost files = { λ s name. None };

    ghost may_leave = { λ s name entry. ⊥ };

    ghost moment = { λ s. 0 };

    ghost images_since = { λ s t image. ⊥ };

    ghost count = { λ s. s.faults };

    ghost ample = { λ s. s.faults < 2 ^ 64 - 1 };

    ghost reads_image = { λ told. absurd told };

    ghost counts_now = { λ told. absurd told };

    ghost only_now = { λ told. absurd told };

    ghost ample_below = { λ s is. is };

    fn size(&mut self, name: &Name) -> Result<Option<u64>, Fault> {
        let answer = path_of(name).and_then(|path| self.folder.size(path));
        counted(&mut self.faults, answer)
    }

    fn read(&mut self, name: &Name, at: u64, into: &mut [u8]) -> Result<usize, Fault> {
        let answer = match path_of(name) {
            Ok(path) => self.folder.read(path, at, into),
            Err(e) => Err(e),
        };
        counted(&mut self.faults, answer)
    }

    fn write(&mut self, name: &Name, at: u64, bytes: &[u8]) -> Result<(), Fault> {
        let answer = path_of(name).and_then(|path| self.folder.write(path, at, bytes));
        counted(&mut self.faults, answer)
    }

    fn cut(&mut self, name: &Name, len: u64) -> Result<(), Fault> {
        let answer = path_of(name).and_then(|path| self.folder.cut(path, len));
        counted(&mut self.faults, answer)
    }

    fn sync(&mut self, name: &Name) -> Result<(), Fault> {
        let answer = path_of(name).and_then(|path| self.folder.sync(path));
        counted(&mut self.faults, answer)
    }

    fn remove(&mut self, name: &Name) -> Result<(), Fault> {
        let answer = path_of(name).and_then(|path| self.folder.remove(path));
        counted(&mut self.faults, answer)
    }

    fn faults(&self) -> u64 {
        self.faults
    }
}
