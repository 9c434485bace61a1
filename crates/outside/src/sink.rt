//! A place to print to.
ghost use Rattle.std.specs.Prelude.{◌≡◌, List, ℕ};
ghost use Rattle.outside.specs.Causes.{HasCause};
ghost use Rattle.outside.specs.Sent.{Sends};

use crate::Fault;

/// Takes printed bytes.
pub trait Sink: Send + Drop {
    /// Whether it tells its bytes.
    ghost tells: { Type 0 };

    /// The bytes that it has taken.
    ghost bytes: { Self → List ℕ };

    /// A count that rises at each failure.
    ghost count: { Self → ℕ };

    /// Takes all bytes at Ok, some first of them at Failed, and none at Memory.
    fn write(&mut self, text: &[u8]) -> Result<(), Fault>
        ensures bytes { tells → Sends result text.now (bytes self.old) (bytes self.new) }
        ensures cause { HasCause (count self.old) (count self.new) result };

    /// The count of failures.
    fn faults(&self) -> u64
        ensures { result ≡ count self.now };
}
