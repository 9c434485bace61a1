//! Where workers come.

/// Where workers come, and how long is waited for them.
#[derive(Clone, Copy, Debug, PartialEq, Eq)]
pub struct Workers {
    /// The port at which they are met.
    pub port: u16,
    /// After so many looks for which nobody came, a second each, a run ends that can't go on without
    /// one; and a link is left that was silent for so many while an attempt runs there.
    pub limit: u32,
}
