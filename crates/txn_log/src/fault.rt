//! Why a record isn't appended.
use thiserror::Error;

/// Why a record isn't appended.
#[derive(Clone, Copy, Debug, PartialEq, Eq, Error)]
pub enum LogFault {
    /// The site failed, in this call or in an earlier one of this log. The log is to be recovered.
    #[error("the site of the log failed")]
    Site,
    /// The log has as many records as one may have.
    #[error("the log is full")]
    Full,
    /// There is no memory, in this call or in an earlier one of this log. The log is to be
    /// recovered.
    #[error("out of memory")]
    Memory,
}
