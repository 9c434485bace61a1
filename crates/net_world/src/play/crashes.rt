//! Masters that stop, and begin anew.
ghost use Rattle.std.specs.Prelude.{◌≡◌, ◌<◌, ℕ, IfOk, List, OnOk, false, if◌then◌else◌};
ghost use Rattle.std.specs.Prelude.{[], length};
ghost use Rattle.flow_types.specs.declared.plan.Plan.{Plan as PlanValue};
ghost use Rattle.rule_graph.specs.Spelling.{plan_digest};
ghost use Rattle.run_history.specs.declared.moves.Move.{Move};
ghost use Rattle.run_history.specs.declared.options.Options.{Options as OptionsValue};
ghost use Rattle.run_history.specs.History.{is_cleaned};
ghost use Rattle.run_history.specs.Links.{records_of};
ghost use Rattle.task_core.specs.Parts.{IsOver};
ghost use Rattle.task_core.specs.Stands.{Stands};
ghost use Rattle.world_contents.specs.Holdings.{held_in};
ghost use Rattle.net_world.specs.Plays.{IsShown, Turns};
ghost use Rattle.world_laws.specs.Worlds.{World, present_only, records_in, resumes, resumption};
ghost use Rattle.world_laws.specs.Worlds.{stopped};

use crate::play::{Play, note};
use flow_types::{Memory, Record};
use rule_graph::plan_digest;
use task_core::Table;
use world_contents::keep_present;

impl Play {
    // A table over the records.
    fn table_anew(&self) -> Result<Table, Memory>
        ensures { IfOk result (λ table. (P : PlanValue) (O : OptionsValue) (w : World)
            → IsShown P O w self.now → IsOver P O (plan_digest P) (records_in w) table) }
    {
        let plan = self.table.plan().copy(self.alloc)?;
        let options = self.table.options();
        let digest = plan_digest(&plan);
        match Table::new(self.alloc, plan, options, &digest, self.records.as_slice()) {
            Ok(table) => Ok(table),
            Err(_) => Err(Memory),
        }
    }

    // All sessions end, contents that aren't present are forgotten, and this is the table.
    fn begin_anew(&mut self, table: Table)
        ensures table { self.new.table ≡ table }
        ensures held { (P : PlanValue) (O : OptionsValue) (w : World) → IsShown P O w self.old
            → (f : ℕ) → held_in self.new.contents.items f
            ≡ present_only P (records_in w) w.contents f }
        ensures places { length self.new.contents.items ≡ length self.old.contents.items }
        ensures rest { self.new ≡ record self.old {
          table = table;
          contents = self.new.contents;
          lines = self.new.lines;
        } }
        ensures lines { self.new.lines.items ≡ [] }
    {
        keep_present(&self.table, &mut self.contents);
        self.lines.clear();
        self.table = table;
    }

    /// The master is as its log leaves it, and doesn't run.
    pub(crate) fn stop(&mut self) -> Result<(), Memory>
        ensures { OnOk result (Turns (λ P O w. stopped P w) self.old self.new) }
    {
        let table = self.table_anew()?;
        self.begin_anew(table);
        self.up = false;
        Ok(())
    }

    /// The master begins anew with the record of a resume, where that may stand.
    pub(crate) fn resume(&mut self) -> Result<(), Memory>
        ensures { OnOk result (Turns (λ P O w. resumes P O w) self.old self.new) }
    {
        let mut table = self.table_anew()?;
        let entry = resumption(&table);
        let digest = plan_digest(table.plan());
        if !table.note(self.alloc, &digest, &entry)? {
            return Ok(());
        }
        self.begin_anew(table);
        self.up = true;
        note(&mut self.records, entry)
    }
}

// The record of a resume.
fn resumption(table: &Table) -> Record
    ensures entry { (moves : List Move) → Stands table.now moves
        → result ≡ resumption table.now.options (records_of moves) }
    ensures goes_on { is_cleaned result ≡ false }
{
    let options = table.options();
    Record::Resumed {
        moment: 0,
        run: table.runs_so_far(),
        retries: options.retries,
        limit: options.limit,
    }
}
