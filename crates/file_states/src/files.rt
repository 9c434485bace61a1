//! The state of each file.
ghost use Rattle.std.specs.Prelude.{◌≡◌, ◌<◌, ◌+◌, ◌++◌, ◌∷◌, [], length, replicate, slice_get, slice_set, List, Some, IfOk, is_none, true, false};
ghost use Rattle.flow_types.specs.declared.numbers.Content.{Content as ContentValue};
ghost use Rattle.run_history.specs.declared.states.FileState.TheVariants.{Absent, Present};
ghost use Rattle.flow_types.specs.Plans.{IsValid, sources_of};
ghost use Rattle.file_states.specs.States.{first_state, first_states, size_at};

use flow_types::{Content, FileNo, FileRow, Memory, Plan};
use run_history::FileState;
use std::alloc::Global;
use std::marker::Model;

/// The state of each file of a plan.
#[derive(Drop)]
pub struct FileStates {
    states: Vec<FileState>,
}

impl Model for FileStates {
    ghost use Rattle.std.specs.Prelude.{List};
    ghost use Rattle.run_history.specs.declared.states.FileState.{FileState};

    ghost Value = { List FileState };

    ghost view = { λ s. s.states.items };
}

impl FileStates {
    /// The states when nothing is made yet: each source is present with its row, in the order of their numbers.
    pub fn new(alloc: Global, plan: &Plan, sources: &[Content]) -> Result<FileStates, Memory>
        requires valid { IsValid plan.now }
        requires rows { length sources.now ≡ length (sources_of plan.now) }
        ensures { IfOk result (λ states. states ≡ first_states plan.now sources.now) }
    {
        let mut states = Vec::new(alloc);
        let mut rows = sources;
        for row in plan.files.as_slice() {
            let (state, rest) = first(row, rows);
            if states.push(state).is_err() {
                return Err(Memory);
            }
            rows = rest;
        }
        Ok(FileStates { states })
    }

    /// The states of so many files when there is none of them.
    pub fn absent(alloc: Global, count: usize) -> Result<FileStates, Memory>
        ensures { IfOk result (λ states. states ≡ replicate count Absent) }
    {
        let mut states = Vec::new(alloc);
        if states.resize(count, FileState::Absent).is_err() {
            return Err(Memory);
        }
        Ok(FileStates { states })
    }

    /// The file is in this state from now on.
    pub fn note(&mut self, file: FileNo, state: FileState)
        requires { file.0 < length self.old }
        ensures { self.new ≡ slice_set self.old file.0 state }
    {
        self.states[file.0 as usize] = state;
    }

    /// The state of a file: the one noted last, or the first.
    pub fn state(&self, file: FileNo) -> FileState
        requires { file.0 < length self.now }
        ensures { slice_get self.now file.0 ≡ Some result }
    {
        self.states[file.0 as usize]
    }

    /// The size of a file in bytes, where it is present.
    pub fn size_of(&self, file: FileNo) -> Option<u64>
        requires { file.0 < length self.now }
        ensures { result ≡ size_at self.now file.0 }
    {
        match self.states[file.0 as usize] {
            FileState::Present(content) => Some(content.size),
            FileState::Absent | FileState::Collected => None,
        }
    }
}

// The first state of a file with this row, and the rows that are left for the files behind it.
fn first<'a>(row: &FileRow, rows: &'a [Content]) -> (FileState, &'a [Content])
    ensures made { is_none row.now.maker ≡ false → (result.0 ≡ Absent) × (result.1.now ≡ rows.now) }
    ensures source { is_none row.now.maker ≡ true → (content : ContentValue) (rest : List ContentValue) → rows.now ≡ content ∷ rest
        → (result.0 ≡ Present content) × (result.1.now ≡ rest) }
{
    if row.maker.is_some() {
        return (FileState::Absent, rows);
    }
    match rows {
        [content, rest @ ..] => (FileState::Present(*content), rest),
        [] => (FileState::Absent, rows),
    }
}
