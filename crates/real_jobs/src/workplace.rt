//! What a runner has at hand for all of its jobs.
use real_programs::Streams;
use std::fs::{File, Permissions};
use std::os::unix::fs::{MetadataExt, PermissionsExt};
use std::rt::{Env, Files};
use std::{env, io};

// The bits of a mode that can be asked for.
const ALL_BITS: u32 = 0o7777;

// Whether a new file has the mode that was asked for: this program's mask may take from it.
#[derive(Clone, Copy, PartialEq, Eq)]
enum Modes {
    Unknown,
    AsAsked,
    Masked,
}

/// The temporary folder, streams for commands, and what is known of new files.
#[derive(Drop)]
pub struct Workplace {
    base: String,
    streams: Streams,
    modes: Modes,
}

impl Workplace {
    /// The system's temporary folder, `/tmp` where none is named.
    pub fn of<R: Files<File = File> + AllocGlobal + Env>(rt: &R) -> io::Result<Self> {
        Ok(Workplace {
            base: temporary(rt)?,
            streams: Streams::open_of_nothing(rt)?,
            modes: Modes::Unknown,
        })
    }

    /// Where jobs' folders are made.
    pub fn base(&self) -> &str {
        self.base.as_str()
    }

    /// A command reads nothing, and what it prints is thrown away.
    pub fn streams(&self) -> &Streams {
        &self.streams
    }

    /// Gives a new file the mode that was asked for when it was made, where it may have another one.
    pub fn set_mode(&mut self, file: &File, mode: u32) -> io::Result<()> {
        if self.modes == Modes::Unknown {
            let made = file.metadata()?.mode() & ALL_BITS;
            self.modes = if made == mode {
                Modes::AsAsked
            } else {
                Modes::Masked
            };
        }
        if self.modes == Modes::AsAsked {
            return Ok(());
        }
        file.set_permissions(Permissions::from_mode(mode))
    }
}

/// The system's temporary folder.
pub fn temporary<R: Env + AllocGlobal>(rt: &R) -> io::Result<String> {
    let base = env::temp_dir(rt)?.into_string();
    if base.is_empty() {
        return Ok(String::from_str(rt.alloc(), "/tmp")?);
    }
    Ok(base)
}
