//! What a message means for whoever holds the session.
ghost use Rattle.std.specs.Prelude.{◌≡◌};
ghost use Rattle.flow_types.specs.declared.job.Outcome.{Outcome};
ghost use Rattle.wq_messages.specs.Heads.{ended_of};
ghost use Rattle.link_session.specs.Sessions.{word_of};

use flow_types::{Amounts, AttemptNo, Failure, FileNo, Memory, Rows};
use thiserror::Error;
use wq_messages::Ended;

/// What a message from the peer means.
#[derive(Drop)]
pub enum Word {
    /// The peer said hello, with what it offers.
    Joined {
        total: Amounts,
        largest: Amounts,
        cache: u64,
    },
    /// The peer offers something else from now on.
    Changed {
        total: Amounts,
        largest: Amounts,
        cache: u64,
    },
    /// The attempt succeeded. The message has its contents.
    Finish(AttemptNo),
    /// The attempt failed.
    Fail(AttemptNo, Failure),
    /// The attempt came to no end there.
    Lose(AttemptNo),
    /// The peer lacks these inputs. Each is put again, and then the task is sent again.
    PutAgain {
        attempt: AttemptNo,
        files: Rows<FileNo>,
    },
    /// The message is about an attempt that isn't open. It changes nothing.
    Stale(AttemptNo),
}

impl Word {
    // What the end of an attempt means.
    pub(crate) fn of_end(attempt: AttemptNo, ended: Ended) -> Word
        ensures { (outcome : Outcome) → ended_of outcome ≡ ended
            → result ≡ word_of attempt outcome }
    {
        match ended {
            Ended::Success => Word::Finish(attempt),
            Ended::Failed(why) => Word::Fail(attempt, why),
            Ended::NotRun => Word::Lose(attempt),
        }
    }
}

/// Why a message has no meaning.
#[derive(Clone, Copy, Debug, PartialEq, Eq, Error)]
pub enum SessionFault {
    /// The peer spoke out of turn, or against a task. From then on the session answers this alone.
    #[error("unexpected message")]
    Unexpected,
    /// There is no memory for what the message means. Nothing has changed.
    #[error("out of memory")]
    Memory,
}

impl From<Memory> for SessionFault {
    ghost use Rattle.std.specs.Prelude.{◌≡◌};
    ghost use Rattle.link_session.specs.declared.word.SessionFault.TheVariants as faults;

    ghost from_gives = { λ _ e. e ≡ faults.Memory };

    fn from(_: Memory) -> Self {
        SessionFault::Memory
    }
}
