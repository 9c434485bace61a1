//! The list of contents in a record.
ghost use Rattle.std.specs.Prelude.{◌≡◌};
ghost use Rattle.byte_fields.specs.Reading.{GivesInMemory};
ghost use Rattle.log_records.specs.Reading.{content_at, contents_at};

use crate::parts::digest;
use byte_fields::{Row, TakeFault, take_rows, u32_up_to, u64_field};
use flow_types::{Content, Rows};
use std::alloc::Global;

/// The most contents in one record.
pub(crate) const MOST_CONTENTS: u32 = 65536;

/// A size and a digest.
enum ContentRow {}

impl Row for ContentRow {
    type Value = Content;

    ghost read = { content_at };

    fn take(_alloc: Global, bytes: &[u8]) -> Result<(Content, &[u8]), TakeFault> {
        let (size, rest) = u64_field(bytes)?;
        let (digest, rest) = digest(rest)?;
        Ok((Content { size, digest }, rest))
    }
}

/// Contents behind their count.
pub(crate) fn contents(alloc: Global, bytes: &[u8]) -> Result<(Rows<Content>, &[u8]), TakeFault>
    ensures { GivesInMemory (λ x. (x.0, x.1.now)) result (contents_at bytes.now) }
{
    let (count, rest) = u32_up_to(MOST_CONTENTS, bytes)?;
    take_rows::<ContentRow>(alloc, count, rest)
}
