//! Messages as bytes.
ghost use Rattle.std.specs.Prelude.{◌≡◌, ◌≤◌, Ok, IfOk, length, nat_le, sum_by, true};
ghost use Rattle.world_peers.specs.Sizes.{IsSmall};
ghost use Rattle.wq_messages.specs.Reading.{message_of};
ghost use Rattle.wq_messages.specs.Spelling.{HasCounts, are_ascending, most_body, spelling};

use flow_types::{Bytes, FileNo, Memory, Message, Outcome};
use std::alloc::Global;
use wq_messages::write_message;

/// The most contents of a message.
const MOST_CONTENTS: usize = 1024;

/// The most files that a message tells as missing.
const MOST_FILES: usize = 4096;

/// The most bytes of the contents of a message together.
const MOST_BYTES: usize = 67_108_864;

/// The body of a message that a peer sent. One that no frame takes is refused as for want of
/// memory, and so is a task: that no world has such a message is `every_report_fits_a_frame` of
/// `world_laws`.
pub fn body_of(alloc: Global, message: &Message) -> Result<Bytes, Memory>
    ensures { IfOk result (λ body. message_of body ≡ Ok message.now) }
{
    if !is_short(message) {
        return Err(Memory);
    }
    write_message(alloc, message)
}

// A frame takes the message.
fn is_short(message: &Message) -> bool
    ensures counts { result ≡ true → HasCounts message.now }
    ensures short { result ≡ true → length (spelling message.now) ≤ most_body }
{
    match message {
        Message::Done { outcome, .. } => is_small(outcome),
        Message::Missing { files, .. } => is_list(files.as_slice()),
        Message::Put { content, .. } => content.as_slice().len() <= MOST_BYTES,
        Message::Task(_) => false,
        Message::Hello { .. } => true,
        Message::Cancel { .. } => true,
        Message::Unlink { .. } => true,
        Message::Totals { .. } => true,
        Message::Bye => true,
    }
}

// The contents of an outcome are few and small.
fn is_small(outcome: &Outcome) -> bool
    ensures { result ≡ true → IsSmall outcome.now }
{
    match outcome {
        Outcome::Success(contents) => {
            contents.len() <= MOST_CONTENTS && are_together(contents.as_slice())
        }
        Outcome::Failed(_) => true,
        Outcome::NotRun => true,
    }
}

// The contents are together small.
fn are_together(contents: &[Bytes]) -> bool
    ensures { result ≡ nat_le (sum_by (λ c. length c) contents.now) 67108864 }
{
    let mut left = MOST_BYTES;
    for content in contents {
        if content.as_slice().len() > left {
            return false;
        }
        left -= content.as_slice().len();
    }
    true
}

// The files are few, and such as may be told as missing.
fn is_list(files: &[FileNo]) -> bool
    ensures few { result ≡ true → length files.now ≤ 4096 }
    ensures list { result ≡ true → are_ascending files.now ≡ true }
{
    files.len() <= MOST_FILES && are_ascending(files)
}

// Some files, and they ascend.
fn are_ascending(files: &[FileNo]) -> bool
    ensures { result ≡ are_ascending files.now }
{
    let mut low = 0u64;
    for file in files {
        if low > u64::from(file.0) {
            return false;
        }
        low = u64::from(file.0) + 1;
    }
    !files.is_empty()
}
