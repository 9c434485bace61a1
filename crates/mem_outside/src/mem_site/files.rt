//! The files of a site in memory, and how a change of one is kept.
ghost use Rattle.std.specs.Prelude.{◌≡◌, ◌∷◌, ◌++◌, [], Some, OnOk, OnErr, IsErrOf, option_map};
ghost use Rattle.mem_outside.specs.Calls.{no_calls, with_failure};
ghost use Rattle.mem_outside.specs.Entries.{with_file};
ghost use Rattle.mem_outside.specs.MemSite.{files_of, calls_of, start_of, steps_of, leaves_of};
ghost use Rattle.mem_outside.specs.MemSite.{no_files, IsStill, IsKept, TimePasses};
ghost use Rattle.mem_outside.specs.Steps.{value_after};
ghost use Rattle.mem_outside.specs.declared.step.Change.TheVariants.{Put as PutChange};

use super::MemSite;
use crate::calls::CallList;
use crate::entries;
use crate::step::{Change, Step};
use flow_types::{Bytes, Memory, Name};
use outside::Fault;
use std::alloc::Global;
use std::collections::BTreeMap;

impl MemSite {
    /// A site without files, no call of which is to fail.
    pub fn new(alloc: Global) -> MemSite
        ensures files { files_of result ≡ no_files }
        ensures start { start_of result ≡ no_files }
        ensures steps { steps_of result ≡ [] }
        ensures calls { calls_of result ≡ no_calls }
    {
        MemSite {
            alloc,
            start: BTreeMap::new(alloc),
            entries: BTreeMap::new(alloc),
            steps: Vec::new(alloc),
            calls: CallList::new(alloc),
        }
    }

    /// Puts a file in the place of the one that has the name, if there is one. It is on the disk.
    pub fn put(&mut self, name: &Name, content: &[u8]) -> Result<(), Memory>
        ensures ok { OnOk result
            (files_of self.new ≡ with_file name.now (Some content.now) (files_of self.old)) }
        ensures err { OnErr result (files_of self.new ≡ files_of self.old) }
        ensures kept { IsKept result name.now (PutChange content.now) self.old self.new }
        ensures calls { calls_of self.new ≡ calls_of self.old }
    {
        let copy = Bytes::of(self.alloc, content)?;
        let call = self.calls.made();
        match self.keep(call, name, Change::Put(copy)) {
            Ok(()) => Ok(()),
            Err(_) => Err(Memory),
        }
    }

    /// The call of that number is to fail. A call that fails leaves what was there.
    pub fn fail_at(&mut self, call: u64) -> Result<(), Memory>
        ensures ok { OnOk result (calls_of self.new ≡ with_failure call (calls_of self.old)) }
        ensures err { OnErr result (calls_of self.new ≡ calls_of self.old) }
        ensures files { files_of self.new ≡ files_of self.old }
        ensures still { IsStill self.old self.new }
    {
        self.calls.fail_at(call)
    }

    /// What stands under the name.
    pub fn get<'a>(&'a self, name: &[u8]) -> Option<&'a [u8]>
        ensures { option_map (λ bytes. bytes.now) result ≡ files_of self.now name.now }
    {
        entries::file(&self.entries, name)
    }

    // Does a change to a file, and keeps it under the number of a call.
    pub(super) fn keep(&mut self, call: u64, name: &Name, change: Change) -> Result<(), Fault>
        ensures files { OnOk result (files_of self.new ≡ with_file name.now
            (value_after change (files_of self.old name.now)) (files_of self.old)) }
        ensures same { OnErr result (files_of self.new ≡ files_of self.old) }
        ensures steps { OnOk result (steps_of self.new
            ≡ steps_of self.old ++ record { call = call; name = name.now; change = change } ∷ []) }
        ensures undone { OnErr result (steps_of self.new ≡ steps_of self.old) }
        ensures start { start_of self.new ≡ start_of self.old }
        ensures calls { calls_of self.new ≡ calls_of self.old }
        ensures cause { OnErr result (IsErrOf result Fault.Memory) }
        ensures time { TimePasses self.old self.new }
    {
        let own = name.copy(self.alloc)?;
        self.steps.reserve(1)?;
        entries::apply(self.alloc, &mut self.entries, name.as_bytes(), &change)?;
        self.steps.push(Step {
            call,
            name: own,
            change,
        })?;
        Ok(())
    }
}
