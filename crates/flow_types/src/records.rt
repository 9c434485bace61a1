//! Records of the log.
use crate::job::Failure;
use crate::lists::Rows;
use crate::numbers::{AttemptNo, Content, Digest, FileNo, LinkNo, RuleNo};

/// How a run ended.
#[derive(Clone, Copy, Debug, PartialEq, Eq)]
pub enum EndKind {
    /// Every rule is complete.
    Complete,
    /// A rule has failed.
    CommandFailed,
    /// A rule's inputs are too large for one job.
    InputsTooLarge,
    /// No rule fits the storage.
    NoRoom,
    /// No worker came on which a rule fits.
    Waited,
    /// The made files were removed, and the next run starts afresh.
    Cleaned,
}

/// What the log holds. A moment is what the clock showed.
#[derive(Drop)]
pub enum Record {
    /// A first run: its number, its options, the plan's digest and the sources by file number.
    Opened {
        moment: u64,
        run: u64,
        retries: u32,
        limit: Option<u64>,
        plan: Digest,
        sources: Rows<Content>,
    },
    /// A later run over the same plan.
    Resumed {
        moment: u64,
        run: u64,
        retries: u32,
        limit: Option<u64>,
    },
    /// An attempt at a rule on a link.
    Started {
        moment: u64,
        rule: RuleNo,
        attempt: AttemptNo,
        link: LinkNo,
    },
    /// The attempt made the rule's outputs, in the rule's order.
    Done {
        moment: u64,
        rule: RuleNo,
        attempt: AttemptNo,
        outs: Rows<Content>,
    },
    /// The attempt ran, and its command failed.
    Failed {
        moment: u64,
        rule: RuleNo,
        attempt: AttemptNo,
        why: Failure,
    },
    /// The attempt came to no end.
    Lost {
        moment: u64,
        rule: RuleNo,
        attempt: AttemptNo,
    },
    /// A made file that nothing needs any more is dropped.
    Dropped {
        moment: u64,
        file: FileNo,
    },
    /// The run ended.
    Ended {
        moment: u64,
        kind: EndKind,
    },
}
