//! Heads that wait for their commands, and rules before their category is known whole.
use flow_types::{Pair, Rows, Text};
use mf_forms::HeadFiles;

/// The head of a rule.
#[derive(Drop)]
pub(crate) struct Head {
    pub place: u32,
    pub files: HeadFiles,
    pub category: Text,
}

/// A rule, all but what it needs, which its category says at the end of the text.
#[derive(Drop)]
pub(crate) struct Draft {
    pub head: Head,
    pub command: Text,
    pub local: bool,
    pub env: Rows<Pair>,
}
