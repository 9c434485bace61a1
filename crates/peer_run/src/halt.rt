//! Why a peer leaves its parent.

/// Why a peer leaves its parent.
#[derive(Clone, Copy, Debug, PartialEq, Eq)]
pub enum Halt {
    /// Its work is over.
    Bye,
    /// The other end has closed the link.
    Closed,
    /// The link failed.
    Link,
    /// At this byte of all that came begins what is no message to a worker.
    Bad { at: u64 },
    /// Want of memory.
    Memory,
}
