//! What runs at a peer.
use flow_types::{AttemptNo, FileNo, Needs, Rows};
use task_book::TaskId;

/// A task that runs at a peer with an attempt, and what it takes there.
#[derive(Drop)]
pub(crate) struct Run {
    pub(crate) id: TaskId,
    pub(crate) attempt: AttemptNo,
    pub(crate) needs: Needs,
    pub(crate) bytes: u64,
}

/// The inputs of an attempt that a peer lacks. They are put again, and then the task is asked again.
#[derive(Drop)]
pub(crate) struct Again {
    pub(crate) attempt: AttemptNo,
    pub(crate) files: Rows<FileNo>,
}
