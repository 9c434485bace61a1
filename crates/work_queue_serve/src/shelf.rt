//! The files here: those that tasks take in, and those that their outputs become.
use flow_types::{Bytes, Digest, FileNo, Port, Rows};
use links::Hall;
use outside::Commands;
use serve_lines::{Place, Rejection};
use sha2::{Digest as Hasher, Sha256};
use std::alloc::{AllocError, Global};
use std::collections::BTreeMap;
use std::fs::{self, File, Metadata};
use std::io::{self, ErrorKind};
use std::os::unix::fs::MetadataExt;
use std::rt::Files;
use std::time::Clock;
use wq_submit::{FileRefused, Queue};

/// The most bytes of a file.
const MOST_BYTES: u64 = 67_108_864;

/// How many seconds a file was left alone before it was read, at least, so that a later change of
/// it shows in its times. Some file systems keep whole seconds, some two.
const REST: i64 = 3;

// Which file stands under a path, and when it last changed, in seconds and nanoseconds.
#[derive(Clone, Copy, PartialEq, Eq)]
struct Stamp {
    device: u64,
    inode: u64,
    size: u64,
    changed: (i64, i64),
}

// A file as it was when the queue took it in.
#[derive(Clone, Copy)]
struct Seen {
    stamp: Stamp,
    // It was at rest when it was read: what has this stamp has this content.
    at_rest: bool,
    digest: Digest,
    number: FileNo,
}

/// The files that the queue has, by their paths.
#[derive(Drop)]
pub struct Shelf {
    seen: BTreeMap<String, Seen>,
}

/// Why an input isn't taken.
pub enum Lack {
    Refused(Rejection),
    Memory,
}

impl From<AllocError> for Lack {
    fn from(_lack: AllocError) -> Lack {
        Lack::Memory
    }
}

// Why a file can't be read.
fn unread(e: io::Error) -> Lack {
    match e.kind() {
        ErrorKind::NotFound | ErrorKind::NotADirectory => Lack::Refused(Rejection::InputMissing),
        ErrorKind::OutOfMemory => Lack::Memory,
        _ => Lack::Refused(Rejection::InputUnread),
    }
}

// The file at a path, where it may be an input.
fn stamp_of<R: Files<File = File> + AllocGlobal>(rt: &R, path: &str) -> Result<Stamp, Lack> {
    let found: Metadata = fs::metadata(rt, path).map_err(unread)?;
    if !found.is_file() {
        return Err(Lack::Refused(Rejection::InputUnread));
    }
    if found.len() > MOST_BYTES {
        return Err(Lack::Refused(Rejection::InputTooLarge));
    }
    Ok(Stamp {
        device: found.dev(),
        inode: found.ino(),
        size: found.len(),
        changed: (found.ctime(), found.ctime_nsec()),
    })
}

// Whether a file with this stamp has been left alone for some seconds. Where there is no clock it
// isn't known.
fn is_at_rest<R: Clock>(rt: &R, stamp: Stamp) -> bool {
    match rt.since_1970() {
        Ok(now) => match i64::try_from(now.as_secs()) {
            Ok(now) => stamp.changed.0.saturating_add(REST) <= now,
            Err(_) => false,
        },
        Err(_) => false,
    }
}

fn digest_of(content: &[u8]) -> Digest {
    let mut hasher = Sha256::new();
    hasher.update(content);
    let digest = hasher.finalize();
    Digest(digest)
}

// The number of a content that the queue takes in.
fn take_in<F: Commands, H: Hall<F>>(
    queue: &mut Queue<F, H>,
    content: Vec<u8>,
) -> Result<FileNo, Lack> {
    match queue.file(Bytes::from_vec(content)) {
        Ok(number) => Ok(number),
        Err(FileRefused::TooMany) => Err(Lack::Refused(Rejection::TooManyFiles)),
        Err(FileRefused::TooLarge { .. }) => Err(Lack::Refused(Rejection::InputTooLarge)),
        Err(FileRefused::Memory) => Err(Lack::Memory),
    }
}

impl Shelf {
    /// One that has taken no file in.
    pub fn new(alloc: Global) -> Shelf {
        Shelf {
            seen: BTreeMap::new(alloc),
        }
    }

    /// The number of the file at a path. A content is taken in once for each path: where the file
    /// is the same one and hasn't changed since it was read it isn't read again, and where it was
    /// read again and has the same bytes it keeps its number. A file that had changed in the last
    /// seconds before it was read is read again each time, since its times may not tell.
    pub fn number_of<F: Commands, H: Hall<F>, R: Files<File = File> + Clock + AllocGlobal>(
        &mut self,
        rt: &R,
        queue: &mut Queue<F, H>,
        path: &str,
    ) -> Result<FileNo, Lack> {
        let stamp = stamp_of(rt, path)?;
        let before = self.seen.get(path).copied();
        if let Some(seen) = before {
            if seen.at_rest && seen.stamp == stamp {
                return Ok(seen.number);
            }
        }
        let at_rest = is_at_rest(rt, stamp);
        let content = fs::read(rt, path).map_err(unread)?;
        let digest = digest_of(content.as_slice());
        let number = match before {
            Some(seen) if seen.digest == digest => seen.number,
            _ => take_in(queue, content)?,
        };
        let name = String::from_str(rt.alloc(), path)?;
        let row = Seen {
            stamp,
            at_rest,
            digest,
            number,
        };
        match self.seen.insert(name, row) {
            Ok(_) => Ok(number),
            Err(_) => Err(Lack::Memory),
        }
    }
}

/// An input of a task by its place.
pub fn port_of(alloc: Global, file: FileNo, place: &Place) -> Result<Port, Lack> {
    match place.name.copy(alloc) {
        Ok(remote) => Ok(Port { file, remote }),
        Err(_) => Err(Lack::Memory),
    }
}

/// Writes an output. Under its path stands what stood there, or all of it.
pub fn write_output<R: Files<File = File> + AllocGlobal>(
    rt: &R,
    path: &str,
    content: &[u8],
) -> io::Result<()> {
    let part = format!(in rt.alloc(); "{path}.work_queue-part")?;
    fs::write(rt, part.as_str(), content)?;
    fs::rename(rt, part.as_str(), path)
}
