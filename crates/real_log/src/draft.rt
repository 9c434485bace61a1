//! Bytes of a file that are kept in memory.
ghost use Rattle.std.specs.Prelude.{◌≤◌, length};

use std::alloc::{AllocError, Global};

/// What reads of a file give, in place of what the file has.
#[derive(Drop)]
pub struct Draft {
    bytes: Vec<u8>,
}

impl Draft {
    /// No bytes.
    pub fn new(alloc: Global) -> Self {
        Draft {
            bytes: Vec::new(alloc),
        }
    }

    /// These bytes.
    pub fn of(bytes: Vec<u8>) -> Self {
        Draft { bytes }
    }

    /// All of them.
    pub fn as_slice(&self) -> &[u8] {
        self.bytes.as_slice()
    }

    /// Fills from the bytes that begin at `at`, as far as they go.
    pub fn read(&self, at: u64, into: &mut [u8]) -> usize
        ensures { result ≤ length into.new }
    {
        let from = usize::try_from(at).unwrap_or(usize::MAX);
        let rest = &self.bytes[from.min(self.bytes.len())..];
        let count = rest.len().min(into.len());
        into[..count].copy_from_slice(&rest[..count]);
        count
    }

    /// Writes at the beginning.
    pub fn begin(&mut self, alloc: Global, bytes: &[u8]) -> Result<(), AllocError> {
        let mut whole = Vec::new(alloc);
        whole.extend_from_slice(bytes)?;
        if self.bytes.len() > bytes.len() {
            whole.extend_from_slice(&self.bytes[bytes.len()..])?;
        }
        self.bytes = whole;
        Ok(())
    }
}
