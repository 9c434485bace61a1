//! Why a record can't be read.
use thiserror::Error;

/// Why a body isn't read as a record.
#[derive(Clone, Copy, Debug, PartialEq, Eq, Error)]
pub enum RecordFault {
    /// The body is no record's spelling. No spelling begins with its bytes up to this one; where it
    /// is too short, the place is behind its last byte.
    #[error("not a record from byte {at} on")]
    Bad { at: usize },
    /// There is no memory for the record.
    #[error("out of memory")]
    Memory,
}
