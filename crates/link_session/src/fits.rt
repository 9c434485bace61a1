//! Whether a message suits the task of its attempt.
ghost use Rattle.std.specs.Prelude.{◌≡◌, length, nat_le, sum_by, slice_get, Some, List, ℕ};
ghost use Rattle.flow_types.specs.declared.job.Outcome.{Outcome};
ghost use Rattle.flow_types.specs.declared.messages.Message.TheVariants as messages;
ghost use Rattle.flow_types.specs.declared.numbers.AttemptNo.{AttemptNo as Number};
ghost use Rattle.flow_types.specs.Plans.{most_bytes};
ghost use Rattle.wq_messages.specs.Heads.{ended_of};
ghost use Rattle.wq_messages.specs.Views.{contents_of};
ghost use Rattle.link_session.specs.Fits.{are_within, contains_file, contents_fit, has_all, names_output, outcome_fits};

use flow_types::{Failure, FileNo};
use wq_messages::{Ended, View};

/// The most bytes that the outputs of a rule have together.
const MOST_BYTES: usize = 67_108_864;

/// The most contents of a message.
const MOST_CONTENTS: u32 = 1024;

/// The attempt of a task with these bounds may end as this message tells. Contents are only looked
/// at; none is copied.
pub(crate) fn may_end(bounds: &[u64], message: &View<'_>, ended: Ended) -> bool
    ensures { (attempt : Number) (outcome : Outcome) → message.now ≡ messages.Done attempt outcome
        → ended_of outcome ≡ ended → result ≡ outcome_fits bounds.now outcome }
{
    match ended {
        Ended::Success => fits(bounds, message),
        Ended::Failed(why) => is_output(why, bounds.len()),
        Ended::NotRun => true,
    }
}

// A success with the contents of this message suits a task with these bounds.
fn fits(bounds: &[u64], message: &View<'_>) -> bool
    ensures { result ≡ contents_fit bounds.now (contents_of message.now) }
{
    let count = count_of(message);
    is_within(bounds, message, count) && is_small(message, count)
}

// How many contents the message has.
fn count_of(message: &View<'_>) -> u32
    ensures { result ≡ length (contents_of message.now) }
{
    for at in 0..MOST_CONTENTS {
        if message.content(at).is_none() {
            return at;
        }
    }
    let _content = message.content(MOST_CONTENTS);
    MOST_CONTENTS
}

// The contents of the message, so many, are one for each bound, and within it.
fn is_within(bounds: &[u64], message: &View<'_>, count: u32) -> bool
    requires { count ≡ length (contents_of message.now) }
    ensures { result ≡ are_within bounds.now (contents_of message.now) }
{
    if bounds.len() != count as usize {
        return false;
    }
    for (at, bound) in bounds.iter().enumerate() {
        if !is_content_within(message, at as u32, *bound) {
            return false;
        }
    }
    true
}

// The content at this place has at most so many bytes.
fn is_content_within(message: &View<'_>, at: u32, bound: u64) -> bool
    ensures { (content : List ℕ) → slice_get (contents_of message.now) at ≡ Some content
        → result ≡ nat_le (length content) bound }
{
    match message.content(at) {
        Some(content) => content.len() as u64 <= bound,
        None => false,
    }
}

// The contents of the message, so many, are together no more than a rule may make.
fn is_small(message: &View<'_>, count: u32) -> bool
    requires { count ≡ length (contents_of message.now) }
    ensures { result ≡ nat_le (sum_by (λ c. length c) (contents_of message.now)) most_bytes }
{
    let mut total = 0;
    for at in 0..count {
        let Some(content) = message.content(at) else {
            return false;
        };
        if content.len() > MOST_BYTES - total {
            return false;
        }
        total += content.len();
    }
    true
}

// The index in the failure, where it has one, is that of one of so many outputs.
fn is_output(why: Failure, outputs: usize) -> bool
    ensures { result ≡ names_output why outputs }
{
    match why {
        Failure::Status(_) => true,
        Failure::MissingOutput(index) => (index as usize) < outputs,
        Failure::TooLong { index, size: _ } => (index as usize) < outputs,
    }
}

/// All of the wanted files are among these.
pub(crate) fn has_files(files: &[FileNo], wanted: &[FileNo]) -> bool
    ensures { result ≡ has_all files.now wanted.now }
{
    wanted.iter().all(|file| has_file(files, *file))
}

fn has_file(files: &[FileNo], file: FileNo) -> bool
    ensures { result ≡ contains_file file files.now }
{
    files.iter().any(|other| other.0 == file.0)
}
