//! Links.

/// Why a link doesn't join, or its amounts don't change.
#[derive(Clone, Copy, Debug, PartialEq, Eq)]
pub enum JoinRefused {
    /// As many links live as may live at a time.
    TooManyLinks,
    /// As many joins and changes were made as may be made.
    TooManyJoins,
    /// Want of memory.
    Memory,
}
