//! How a call went, before anything is printed.
use flow_types::{Plan, Record, Rows};
use outside::Site;
use report::Cause;

/// How a call went, before anything is printed.
#[derive(Drop)]
pub struct Course<S: Site> {
    /// Why it ended.
    pub cause: Cause,
    /// The files, as the call left them.
    pub site: S,
    /// What the log has; nothing where it wasn't read.
    pub records: Rows<Record>,
    /// The plan of which the cause speaks.
    pub plan: Plan,
}
