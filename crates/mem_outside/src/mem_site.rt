//! A folder of named files in memory, with what was done to them.
ghost use Rattle.std.specs.Prelude.{◌≡◌};
ghost use Rattle.mem_outside.specs.Entries.{files_in};
ghost use Rattle.mem_outside.specs.Steps.{reads};

mod files;
mod image;
mod site;

use crate::calls::CallList;
use crate::entries::Entries;
use crate::step::Step;
use std::alloc::Global;

/// Files by name. The calls that take the site as `&mut` are numbered from 0, but for `put` and
/// `fail_at`.
///
/// It keeps each step that was done to its files, and so knows what a crash at each moment may
/// leave. A call that fails does nothing.
#[derive(Drop)]
pub struct MemSite {
    alloc: Global,
    // What was on the disk before the first step.
    start: Entries,
    entries: Entries,
    steps: Vec<Step>,
    calls: CallList,
    ghost agrees: { files_in entries ≡ reads (files_in start) steps.items },
}
