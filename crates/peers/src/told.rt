//! What a peer tells.
ghost use Rattle.std.specs.Prelude.{◌≡◌, IfOk};
ghost use Rattle.peers.specs.Hears.{made_in, told_as};

use flow_types::{Amounts, AttemptNo, Bytes, Failure, FileNo, Memory, Message, Outcome, Rows};
use link_session::Word;
use std::alloc::Global;
use wq_messages::View;

/// What came of waiting for bytes.
#[derive(Clone, Copy, Debug, PartialEq, Eq)]
pub enum Listened {
    /// Some bytes came.
    Piece,
    /// Nothing came for a while; so often by now since bytes last passed.
    Idle(u64),
}

/// What the next message of a peer tells.
#[derive(Drop)]
pub enum Told {
    /// Less than a whole message is there.
    Nothing,
    /// The peer said hello, with what it offers.
    Joined {
        total: Amounts,
        largest: Amounts,
        cache: u64,
    },
    /// The peer offers something else from now on.
    Changed {
        total: Amounts,
        largest: Amounts,
        cache: u64,
    },
    /// The attempt succeeded with these outputs.
    Finish {
        attempt: AttemptNo,
        outs: Rows<Bytes>,
    },
    /// The attempt failed.
    Fail {
        attempt: AttemptNo,
        why: Failure,
    },
    /// The attempt came to no end there.
    Lose(AttemptNo),
    /// The peer lacks these inputs. Each is put again, and then the task is asked again.
    PutAgain {
        attempt: AttemptNo,
        files: Rows<FileNo>,
    },
    /// It is about an attempt that isn't open, and changes nothing.
    Stale(AttemptNo),
}

// The outputs that the message brings, copied out of it once.
fn outs_of(alloc: Global, message: &View<'_>) -> Result<Rows<Bytes>, Memory>
    ensures { IfOk result (λ outs. outs ≡ made_in message.now) }
{
    match message.to_message(alloc)? {
        Message::Done {
            outcome: Outcome::Success(outs),
            ..
        } => Ok(outs),
        _ => Ok(Rows::new(alloc)),
    }
}

impl Told {
    // A session's word, with what its message brings.
    pub(crate) fn of(alloc: Global, word: Word, message: &View<'_>) -> Result<Told, Memory>
        ensures { IfOk result (λ told. told ≡ told_as word message.now) }
    {
        match word {
            Word::Joined {
                total,
                largest,
                cache,
            } => Ok(Told::Joined {
                total,
                largest,
                cache,
            }),
            Word::Changed {
                total,
                largest,
                cache,
            } => Ok(Told::Changed {
                total,
                largest,
                cache,
            }),
            Word::Finish(attempt) => {
                let outs = outs_of(alloc, message)?;
                Ok(Told::Finish { attempt, outs })
            }
            Word::Fail(attempt, why) => Ok(Told::Fail { attempt, why }),
            Word::Lose(attempt) => Ok(Told::Lose(attempt)),
            Word::PutAgain { attempt, files } => Ok(Told::PutAgain { attempt, files }),
            Word::Stale(attempt) => Ok(Told::Stale(attempt)),
        }
    }
}
