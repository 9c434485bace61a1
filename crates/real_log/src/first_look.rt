//! The log as a program saw it, before it changes anything.
ghost use Rattle.std.specs.Prelude.{◌≤◌, length, IfOk};

use crate::draft::Draft;
use real_files::{FileId, is_absent, read_seen, regular};
use std::alloc::{AllocError, Global};
use std::fs::{File, Metadata};
use std::io::Read;
use std::os::unix::fs::MetadataExt;
use std::rt::Files;
use std::{fs, io};

// The longest file whose bytes are kept as they were when it was seen.
const MOST_KEPT: u64 = 67_108_864;

/// A file at some moment.
#[derive(Clone, Copy)]
pub struct Stamp {
    /// Which file it is.
    pub file: FileId,
    len: u64,
    seconds: i64,
    nanos: i64,
}

impl Stamp {
    /// Of what the system tells of a file.
    pub fn of(data: &Metadata) -> Stamp {
        Stamp {
            file: FileId::of(data),
            len: data.len(),
            seconds: data.mtime(),
            nanos: data.mtime_nsec(),
        }
    }

    /// Nobody wrote the file between the two moments.
    pub fn stands(&self, now: &Stamp) -> bool {
        let is_as_old = self.seconds == now.seconds && self.nanos == now.nanos;
        self.file == now.file && self.len == now.len && is_as_old
    }
}

/// What stood under a name, and what this program would begin there.
///
/// Reads give what was there at that moment, whatever another program writes since. What this one
/// begins anew stands here alone, until it changes something else.
#[derive(Drop)]
pub struct FirstLook {
    // The file that was there.
    seen: Option<Stamp>,
    // Its bytes, unless they are too many, or those by which it is begun.
    draft: Option<Draft>,
    is_begun: bool,
}

impl FirstLook {
    /// There was no file.
    pub fn absent() -> Self {
        FirstLook {
            seen: None,
            draft: None,
            is_begun: false,
        }
    }

    /// Looks at a file. What is no regular file is an error.
    pub fn of<R: Files<File = File> + AllocGlobal>(rt: &R, path: &str) -> io::Result<Self> {
        if regular(rt, path)?.is_none() {
            return Ok(FirstLook::absent());
        }
        match fs::open(rt, path) {
            Ok(file) => FirstLook::in_file(rt, file),
            Err(e) if is_absent(e.kind()) => Ok(FirstLook::absent()),
            Err(e) => Err(e),
        }
    }

    // It is read from its beginning to its end, while another program may write behind that: who
    // writes the log puts nothing before the end that tells of what isn't there yet.
    fn in_file<R: AllocGlobal>(rt: &R, file: File) -> io::Result<Self> {
        let seen = Stamp::of(&file.metadata()?);
        let mut draft = None;
        if seen.len <= MOST_KEPT {
            let mut file = file;
            let mut bytes = Vec::new(rt.alloc());
            file.read_to_end(&mut bytes)?;
            draft = Some(Draft::of(bytes));
        }
        Ok(FirstLook {
            seen: Some(seen),
            draft,
            is_begun: false,
        })
    }

    /// The file that was there.
    pub fn seen(&self) -> Option<Stamp> {
        self.seen
    }

    /// This program began it, and there is nothing of that on the disk.
    pub fn is_begun(&self) -> bool {
        self.is_begun
    }

    /// How many bytes there are to be read, None where nothing is there.
    pub fn size(&self) -> Option<u64> {
        match (&self.draft, &self.seen) {
            (Some(draft), _) => Some(draft.as_slice().len() as u64),
            (None, Some(seen)) => Some(seen.len),
            (None, None) => None,
        }
    }

    /// Fills from the bytes that begin at `at`. This is the file's path.
    pub fn read<R: Files>(&self, rt: &R, path: &str, at: u64, into: &mut [u8]) -> io::Result<usize>
        ensures { IfOk result (λ count. count ≤ length into.new) }
    {
        match (&self.draft, &self.seen) {
            (Some(draft), _) => Ok(draft.read(at, into)),
            (None, Some(seen)) => {
                let left = seen.len.saturating_sub(at).min(into.len() as u64) as usize;
                read_seen(rt, path, at, &mut into[..left])
            }
            (None, None) => Ok(0),
        }
    }

    /// Takes bytes for the beginning of a file that isn't there, or that was cut to nothing. False
    /// where there is one.
    pub fn begin(&mut self, alloc: Global, bytes: &[u8]) -> Result<bool, AllocError> {
        if self.seen.is_some() && !self.is_begun {
            return Ok(false);
        }
        let mut draft = self.draft.take().unwrap_or(Draft::new(alloc));
        draft.begin(alloc, bytes)?;
        self.draft = Some(draft);
        self.is_begun = true;
        Ok(true)
    }

    /// Begins anew, with no bytes.
    pub fn empty(&mut self, alloc: Global) {
        self.draft = Some(Draft::new(alloc));
        self.is_begun = true;
    }

    /// The bytes that are to be put into the file, None where it wasn't begun.
    pub fn into_begun(self) -> Option<Draft> {
        let FirstLook {
            seen: _,
            draft,
            is_begun,
        } = self;
        if is_begun { draft } else { None }
    }
}
