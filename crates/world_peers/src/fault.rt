//! Why a world can't go on.
use thiserror::Error;

/// Why a world can't go on.
#[derive(Clone, Copy, Debug, PartialEq, Eq, Error)]
pub enum WorldFault {
    /// The runner failed.
    #[error("runner failed")]
    Runner,
    /// There is no memory.
    #[error("out of memory")]
    Memory,
}
