//! Contents of files that are present.
ghost use Rattle.std.specs.Prelude.{◌≡◌, ◌<◌, ◌==◌, ℕ, List, false, if◌then◌else◌, length};
ghost use Rattle.run_history.specs.declared.moves.Move.{Move};
ghost use Rattle.run_history.specs.Links.{records_of};
ghost use Rattle.run_history.specs.Storage.{is_present};
ghost use Rattle.task_core.specs.Stands.{Stands};
ghost use Rattle.world_contents.specs.Holdings.{held_in};
ghost use Rattle.world_laws.specs.Worlds.{present_only};

use crate::contents::take_away;
use flow_types::{Bytes, FileNo};
use run_history::FileState;
use task_core::Table;

/// The file is present.
pub fn is_present(table: &Table, file: FileNo) -> bool
    requires { file.0 < length table.now.plan.files }
    ensures { (moves : List Move) → Stands table.now moves
        → result ≡ is_present table.now.plan (records_of moves) file.0 }
{
    match table.file(file) {
        FileState::Present(_) => true,
        FileState::Absent | FileState::Collected => false,
    }
}

// The content of this file is forgotten, where it isn't present.
fn keep_if_present(table: &Table, contents: &mut Vec<Option<Bytes>>, file: FileNo)
    requires { file.0 < length table.now.plan.files }
    ensures places { length contents.new.items ≡ length contents.old.items }
    ensures held { (moves : List Move) → Stands table.now moves
        → (f : ℕ) → held_in contents.new.items f ≡ (if f == file.0
        then present_only table.now.plan (records_of moves) (held_in contents.old.items) f
        else held_in contents.old.items f) }
{
    if !is_present(table, file) {
        take_away(contents, file);
    }
}

/// Contents that aren't present are forgotten.
pub fn keep_present(table: &Table, contents: &mut Vec<Option<Bytes>>)
    ensures places { length contents.new.items ≡ length contents.old.items }
    ensures held { (moves : List Move) → Stands table.now moves
        → length contents.old.items ≡ length table.now.plan.files
        → (f : ℕ) → held_in contents.new.items f
        ≡ present_only table.now.plan (records_of moves) (held_in contents.old.items) f }
{
    for file in 0..table.plan().files.len() as u32 {
        keep_if_present(table, contents, FileNo(file));
    }
}
