//! Whether outputs are such as a runner may answer for a job.
ghost use Rattle.std.specs.Prelude.{◌≤◌, ◌↔◌, IsTrue, length, sum_by};
ghost use Rattle.flow_types.specs.Plans.{most_bytes};
ghost use Rattle.outside.specs.Jobs.{AllFit};
ghost use Rattle.result_archive.specs.Entries.{Suits};

use flow_types::{Bytes, Job, Want};

/// The most bytes of a job's outputs together.
pub(crate) const MOST_BYTES: usize = 67_108_864;

/// Whether there is a content for each output, within its bound, and not too many bytes together.
pub(crate) fn suits(job: &Job, outs: &[Bytes]) -> bool
    ensures { IsTrue result ↔ Suits job.now outs.now }
{
    all_fit(job.outputs.as_slice(), outs) && is_within(outs)
}

/// Whether there is a content for each output, within its bound.
fn all_fit(wants: &[Want], contents: &[Bytes]) -> bool
    ensures { IsTrue result ↔ AllFit wants.now contents.now }
{
    match wants {
        [] => contents.is_empty(),
        [want, wants @ ..] => match contents {
            [] => false,
            [content, contents @ ..] => {
                content.as_slice().len() as u64 <= want.bound && all_fit(wants, contents)
            }
        },
    }
}

/// Whether the contents together are at most the most bytes of a job's outputs.
fn is_within(contents: &[Bytes]) -> bool
    ensures { IsTrue result ↔ (sum_by (λ content. length content) contents.now ≤ most_bytes) }
{
    let mut left = MOST_BYTES;
    for content in contents {
        let len = content.as_slice().len();
        if left < len {
            return false;
        }
        left -= len;
    }
    true
}
