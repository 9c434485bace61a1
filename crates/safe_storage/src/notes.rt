//! What is noted of a table before a walk.
ghost use Rattle.std.specs.Prelude.{◌≡◌, ◌<◌, ◌≤◌, ℕ, List, length, slice_index_or};
ghost use Rattle.flow_types.specs.Plans.{most_bytes};
ghost use Rattle.run_history.specs.declared.moves.Move.{Move};
ghost use Rattle.run_history.specs.Links.{records_of};
ghost use Rattle.task_core.specs.Stands.{Stands};
ghost use Rattle.safe_storage.specs.Counters.{phase_at};
ghost use Rattle.safe_storage.specs.Pacing.{bytes_in, phase_in};

use crate::stand::{Phase, Stand};
use flow_types::{FileNo, RuleNo};
use run_history::{FileState, RuleState};
use task_core::Table;

/// How the rule stands, as the records say.
pub(crate) fn phase(table: &Table, rule: RuleNo) -> Phase
    requires { rule.0 < length table.now.plan.rules }
    ensures { (moves : List Move) → Stands table.now moves
        → result ≡ phase_in (records_of moves) rule.0 }
{
    let state = table.rule_state(rule);
    if matches!(state, RuleState::Complete) {
        return Phase::Complete;
    }
    if table.started(rule) {
        return Phase::Claimed;
    }
    Phase::Open
}

// The bytes of the file, none where it isn't present.
fn bytes(table: &Table, file: FileNo) -> u64
    requires { file.0 < length table.now.plan.files }
    ensures bytes { (moves : List Move) → Stands table.now moves
        → result ≡ bytes_in table.now.plan (records_of moves) file.0 }
    ensures small { result ≤ most_bytes }
{
    match table.file(file) {
        FileState::Present(content) => content.size,
        FileState::Absent | FileState::Collected => 0,
    }
}

impl Stand {
    /// Notes how each rule of the table stands.
    pub(crate) fn note_rules(&mut self, table: &Table)
        requires { length self.old.phases.items ≡ length table.now.plan.rules }
        ensures phases { (moves : List Move) → Stands table.now moves → (r : ℕ)
            → r < length table.now.plan.rules
            → phase_at self.new.phases.items r ≡ phase_in (records_of moves) r }
        ensures rules { length self.new.phases.items ≡ length self.old.phases.items }
        ensures bytes { self.new.bytes ≡ self.old.bytes }
    {
        for rule in 0..table.plan().rules.len() as u32 {
            self.phases[rule as usize] = phase(table, RuleNo(rule));
        }
    }

    /// Notes the bytes of each file of the table.
    pub(crate) fn note_files(&mut self, table: &Table)
        requires { length self.old.bytes.items ≡ length table.now.plan.files }
        ensures bytes { (moves : List Move) → Stands table.now moves → (f : ℕ)
            → f < length table.now.plan.files
            → slice_index_or self.new.bytes.items f 0
            ≡ bytes_in table.now.plan (records_of moves) f }
        ensures small { (f : ℕ) → slice_index_or self.new.bytes.items f 0 ≤ most_bytes }
        ensures files { length self.new.bytes.items ≡ length self.old.bytes.items }
        ensures phases { self.new.phases ≡ self.old.phases }
    {
        for file in 0..table.plan().files.len() as u32 {
            self.bytes[file as usize] = bytes(table, FileNo(file));
        }
    }
}
