//! Whether an outcome is one that a runner may answer for a job.
ghost use Rattle.std.specs.Prelude.{◌≤◌, ◌<◌, ◌↔◌, IsTrue, length, sum_by};
ghost use Rattle.flow_types.specs.Plans.{most_bytes};
ghost use Rattle.outside.specs.Jobs.{AllFit, NamesOutput, IsShaped};

use flow_types::{Bytes, Failure, Job, Outcome, Want};

const MOST_BYTES: usize = 67_108_864;

// Whether a runner may answer this for the job.
pub(crate) fn fits(job: &Job, outcome: &Outcome) -> bool
    ensures { IsTrue result ↔ IsShaped job.now outcome.now }
{
    match outcome {
        Outcome::Success(contents) => {
            let contents = contents.as_slice();
            all_fit(job.outputs.as_slice(), contents) && is_within(contents)
        }
        Outcome::Failed(why) => names_output(*why, job.outputs.len()),
        Outcome::NotRun => false,
    }
}

// Whether there is a content for each output, within its bound.
fn all_fit(wants: &[Want], contents: &[Bytes]) -> bool
    ensures { IsTrue result ↔ AllFit wants.now contents.now }
{
    match wants {
        [] => contents.is_empty(),
        [want, wants @ ..] => match contents {
            [] => false,
            [content, contents @ ..] => {
                content.as_slice().len() as u64 <= want.bound && all_fit(wants, contents)
            }
        },
    }
}

// Whether the contents together are within the bound of one rule.
fn is_within(contents: &[Bytes]) -> bool
    ensures { IsTrue result ↔ (sum_by (λ content. length content) contents.now ≤ most_bytes) }
{
    let mut left = MOST_BYTES;
    for content in contents {
        let len = content.as_slice().len();
        if left < len {
            return false;
        }
        left -= len;
    }
    true
}

// Whether an index in the failure is that of an output.
fn names_output(why: Failure, outputs: usize) -> bool
    ensures { IsTrue result ↔ NamesOutput why outputs }
{
    match why {
        Failure::Status(_) => true,
        Failure::MissingOutput(index) => (index as usize) < outputs,
        Failure::TooLong { index, size: _ } => (index as usize) < outputs,
    }
}
