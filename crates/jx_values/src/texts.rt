//! Room for the texts that an evaluation makes.
ghost use Rattle.std.specs.Prelude.{◌≡◌, IfOk};

use flow_types::{Memory, Text};
use std::alloc::Global;
use std::cell::Cell;

/// The most bytes of all texts that are made under one `Texts`.
const MOST_MADE: u64 = 2_147_483_648;

/// Counts the bytes of the texts that are made, copies too. Where they would pass 2 GiB, memory is
/// wanting. It is shared, as an allocator is; no clause speaks of how much room is left.
#[derive(Drop)]
pub struct Texts {
    left: Cell<u64>,
}

impl Texts {
    /// Room for 2 GiB.
    pub fn new() -> Texts {
        Texts {
            left: Cell::new(MOST_MADE),
        }
    }

    /// Takes the room for a text of so many bytes.
    pub fn reserve(&self, len: usize) -> Result<(), Memory> {
        match self.left.get().checked_sub(len as u64) {
            Some(left) => {
                self.left.set(left);
                Ok(())
            }
            None => Err(Memory),
        }
    }

    /// An equal text.
    pub fn copy(&self, alloc: Global, text: &Text) -> Result<Text, Memory>
        ensures { IfOk result (λ t. t ≡ text.now) }
    {
        self.reserve(text.as_str().len())?;
        text.copy(alloc)
    }
}
