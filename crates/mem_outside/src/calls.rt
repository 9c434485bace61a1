//! The calls of an object in memory: which are to fail, and how many did.
ghost use Rattle.std.specs.Prelude.{◌≡◌, ◌+◌, ◌-◌, ◌^◌, OnOk, OnErr};
ghost use Rattle.outside.specs.Causes.{HasCause};
ghost use Rattle.mem_outside.specs.Calls.{calls_in, no_calls, with_failure, IsDue, IsDueCall};

use flow_types::Memory;
use outside::{Fault, failed};
use std::alloc::Global;

// The numbers of the calls that are to fail, how many calls were made, and how many failed.
#[derive(Drop)]
pub(crate) struct CallList {
    to_fail: Vec<u64>,
    made: u64,
    faults: u64,
}

impl CallList {
    pub(crate) fn new(alloc: Global) -> CallList
        ensures { calls_in result ≡ no_calls }
    {
        CallList {
            to_fail: Vec::new(alloc),
            made: 0,
            faults: 0,
        }
    }

    // The call of that number is to fail.
    pub(crate) fn fail_at(&mut self, call: u64) -> Result<(), Memory>
        ensures ok { OnOk result (calls_in self.new ≡ with_failure call (calls_in self.old)) }
        ensures err { OnErr result (calls_in self.new ≡ calls_in self.old) }
    {
        match self.to_fail.push(call) {
            Ok(()) => Ok(()),
            Err(_) => Err(Memory),
        }
    }

    // How many calls were made: the number of the next one.
    pub(crate) fn made(&self) -> u64
        ensures { result ≡ (calls_in self.now).made }
    {
        self.made
    }

    // Counts a call, which fails where it is to.
    pub(crate) fn begin(&mut self) -> Result<(), Fault>
        ensures call { IsDueCall (calls_in self.old) (calls_in self.new) result }
        ensures stopped { OnErr result (IsDue (calls_in self.old)) }
        ensures cause { HasCause (calls_in self.old).faults (calls_in self.new).faults result }
    {
        let is_due = self.to_fail.as_slice().contains(&self.made);
        self.made = self.made.saturating_add(1);
        if is_due {
            return Err(self.fail());
        }
        Ok(())
    }

    // Counts a fault. At the count's last value it is want of memory.
    pub(crate) fn fail(&mut self) -> Fault
        ensures failed { result ≡ Fault.Failed
            → (calls_in self.new).faults ≡ (calls_in self.old).faults + 1 }
        ensures memory { result ≡ Fault.Memory →
            ((calls_in self.old).faults ≡ 2 ^ 64 - 1) × (calls_in self.new ≡ calls_in self.old) }
        ensures others { calls_in self.new
            ≡ record (calls_in self.old) { faults = (calls_in self.new).faults } }
    {
        failed(&mut self.faults)
    }

    pub(crate) fn faults(&self) -> u64
        ensures { result ≡ (calls_in self.now).faults }
    {
        self.faults
    }
}
