//! Whose a file is that a program makes for itself.

use crate::watch::Watch;
use std::alloc::AllocError;
use std::os::unix::fs::MetadataExt;
use std::process::{Processes, SystemProcess};
use std::rt::Files;
use std::sync::{Mutex, RwLock, RwLockReadGuard, RwLockWriteGuard, Wait};
use std::{fs, io};

const HOST_NAME: &str = "/proc/sys/kernel/hostname";

// What the system tells of this program, which signals it ignores among it.
const STATUS: &str = "/proc/self/status";

const IGNORED: &str = "SigIgn:";

// SIGCHLD is the lowest bit of this hexadecimal digit, counted from the last.
const CHILD_DIGIT: usize = 5;

// The longest name of a host on Linux.
const MOST_HOST: usize = 64;

/// This program among those that share a folder: the name of its host, and its number there.
///
/// Its threads take turns by it. A program that is started while a file is open for writing holds
/// that file open until it runs itself, and a file that is open for writing can't be run. So a
/// program is started while no thread writes a file that may be run.
#[derive(Drop)]
pub struct Owner {
    host: String,
    process: u32,
    is_told: bool,
    turns: RwLock<()>,
    watch: Mutex<Watching>,
    // How many folders its jobs had.
    folders: Mutex<u32>,
}

// Whether a shell watches over this program.
#[derive(Drop)]
enum Watching {
    Not,
    Watched(Watch),
    // It couldn't be started.
    Never,
}

impl Owner {
    /// `process` is this program's own number. The host is `localhost` where the system tells no
    /// name of letters, digits, `-`, `_` and `.`.
    pub fn of<R: Files + AllocGlobal>(rt: &R, process: u32) -> Result<Self, AllocError> {
        let host = host_of(rt)?;
        let is_told = !ignores_ends(rt);
        Ok(Owner {
            host,
            process,
            is_told,
            turns: RwLock::new(()),
            watch: Mutex::new(Watching::Not),
            folders: Mutex::new(0),
        })
    }

    /// The name of the host.
    pub fn host(&self) -> &str {
        self.host.as_str()
    }

    /// The number of this program.
    pub fn process(&self) -> u32 {
        self.process
    }

    /// The system tells this program how those end that it starts. It doesn't where SIGCHLD is ignored,
    /// as the starter of this program may have left it.
    pub fn is_told(&self) -> bool {
        self.is_told
    }

    /// Waits until no thread starts a program. None does until what is answered is let go.
    pub fn writes<R: Wait>(&self, rt: &R) -> RwLockReadGuard<'_, ()> {
        self.turns.read(rt)
    }

    /// Waits until no thread writes a file that may be run, nor starts a program. None does until
    /// what is answered is let go.
    pub fn starts<R: Wait>(&self, rt: &R) -> RwLockWriteGuard<'_, ()> {
        self.turns.write(rt)
    }

    /// The number of a job's folder, which no other one of this program has, or had among the last
    /// 4,294,967,295: what a job leaves running knows no later folder by its name.
    pub fn next_folder<R: Wait>(&self, rt: &R) -> u32 {
        let mut folders = self.folders.lock(rt);
        let number = *folders;
        *folders = number.wrapping_add(1);
        number
    }

    /// From here on commands end with this program, however that ends. It does what it can.
    pub fn be_watched<R>(&self, rt: &R)
    where
        R: Processes<Started = SystemProcess> + AllocGlobal + Wait,
    {
        let mut watch = self.watch.lock(rt);
        if let Watching::Not = *watch {
            *watch = match Watch::begin(rt, self) {
                Ok(watch) => Watching::Watched(watch),
                Err(_) => Watching::Never,
            };
        }
    }
}

fn host_of<R: Files + AllocGlobal>(rt: &R) -> Result<String, AllocError> {
    if let Ok(text) = fs::read_to_string(rt, HOST_NAME) {
        let name = text.as_str().trim();
        if is_host(name) {
            return String::from_str(rt.alloc(), name);
        }
    }
    String::from_str(rt.alloc(), "localhost")
}

fn ignores_ends<R: Files + AllocGlobal>(rt: &R) -> bool {
    let Ok(text) = fs::read_to_string(rt, STATUS) else {
        return false;
    };
    for line in text.as_str().lines() {
        if let Some(signals) = line.strip_prefix(IGNORED) {
            return has_child(signals.as_bytes());
        }
    }
    false
}

fn has_child(signals: &[u8]) -> bool {
    signals.len() >= CHILD_DIGIT
        && matches!(
            signals[signals.len() - CHILD_DIGIT],
            b'1' | b'3' | b'5' | b'7' | b'9' | b'b' | b'd' | b'f'
        )
}

fn is_host(name: &str) -> bool {
    !name.is_empty() && name.len() <= MOST_HOST && name.bytes().all(is_host_byte)
}

fn is_host_byte(byte: u8) -> bool {
    byte.is_ascii_alphanumeric() || byte == b'-' || byte == b'_' || byte == b'.'
}

/// The user as whom this program runs, None where the system doesn't show its processes.
pub fn user_of<R: Files>(rt: &R) -> Option<u32> {
    match fs::metadata(rt, "/proc/self") {
        Ok(data) => Some(data.uid()),
        Err(_) => None,
    }
}

/// The number that decimal digits spell.
pub fn number_of(digits: &str) -> Option<u32> {
    if !digits.bytes().all(|byte| byte.is_ascii_digit()) {
        return None;
    }
    digits.parse().ok()
}
