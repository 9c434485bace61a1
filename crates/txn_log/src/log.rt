//! The log of a run.
ghost use Rattle.std.specs.Prelude.{◌≡◌, ◌≢◌, ◌≤◌, ◌<◌, ◌↔◌, ◌-◌, ◌^◌, ◌++◌, ◌∷◌, [], List};
ghost use Rattle.std.specs.Prelude.{ℕ, length, Option, Some, None, OnOk, OnErr, IsErrOf, IsTrue};
ghost use Rattle.flow_types.specs.declared.records.Record.{Record};
ghost use Rattle.log_records.specs.Spelling.{spelling, ListsFew};
ghost use Rattle.outside.specs.Disk.{LeavesOnly};
ghost use Rattle.txn_log.specs.Logs.{IsFine, TakesOne, IsLog, IsAppended, HasRoom};
ghost use Rattle.txn_log.specs.Logs.{Appends, told_of, most_records, farthest};

use crate::entry::{AROUND, put_entry, widen};
use crate::fault::LogFault;
use flow_types::{Memory, Name, Record};
use log_records::record_len;
use outside::{Fault, Site};
use std::alloc::Global;
use std::marker::Model;

/// The records that an append may make of a log.
const MOST_RECORDS: u32 = 1_000_000;

/// A log that stands on a site.
///
/// The site isn't its own: each append is given it. A log that had a fault of the site, or no
/// memory, takes no record any more: what its file spells then is known again after it was
/// recovered.
#[derive(Drop)]
pub struct Log {
    alloc: Global,
    name: Name,
    count: u32,
    // The place of the closed gate.
    gate: u64,
    // What an append writes is made here.
    buffer: Vec<u8>,
    trouble: Option<Fault>,
}

impl Model for Log {
    ghost use Rattle.std.specs.Prelude.{◌≤◌, length};
    ghost use Rattle.txn_log.specs.Logs.{LogState, farthest};

    ghost Value = { LogState };

    ghost view = { λ l. record {
      name = l.name;
      count = l.count;
      gate = l.gate;
      room = length l.buffer.items;
      trouble = l.trouble;
    } };

    ghost invariant = { λ l. l.gate ≤ farthest l.count };
}

fn told(fault: Fault) -> LogFault
    ensures { result ≡ told_of fault }
{
    match fault {
        Fault::Failed => LogFault::Site,
        Fault::Memory => LogFault::Memory,
    }
}

impl Log {
    /// The log under this name, which has so many records and its closed gate at this place.
    pub fn at(alloc: Global, name: Name, count: u32, gate: u64) -> Log
        requires { gate ≤ farthest count }
        ensures { result
            ≡ record { name = «name»; count = count; gate = gate; room = 0; trouble = None } }
    {
        Log {
            alloc,
            name,
            count,
            gate,
            buffer: Vec::new(alloc),
            trouble: None,
        }
    }

    /// How many records the log has.
    pub fn count(&self) -> u32
        ensures { result ≡ self.now.count }
    {
        self.count
    }

    /// Whether the log takes records still: it had no fault of the site, and memory wasn't wanting.
    pub fn is_fine(&self) -> bool
        ensures { IsTrue result ↔ IsFine self.now }
    {
        self.trouble.is_none()
    }

    /// The name of the log's file.
    pub fn name(&self) -> &Name
        ensures { result.now ≡ self.now.name }
    {
        &self.name
    }

    /// Makes room for one append of a record whose spelling has at most that many bytes, and for
    /// each after it.
    pub fn reserve(&mut self, bytes: u32) -> Result<(), Memory>
        ensures room { OnOk result (HasRoom self.new bytes) }
        ensures same { self.new ≡ record self.old { room = self.new.room } }
        ensures wide { self.old.room ≤ self.new.room }
        ensures unchanged { OnErr result (self.new ≡ self.old) }
    {
        widen(self.alloc, &mut self.buffer, AROUND + bytes as usize)
    }

    /// Appends a record behind the closed gate.
    ///
    /// At Ok each crash leaves a log that has it. At any moment before, a crash leaves the records
    /// that the log had, or these and the new one.
    pub fn append<S: Site>(&mut self, site: &mut S, entry: &Record) -> Result<(), LogFault>
        requires few { ListsFew entry.now }
        requires stands { S.tells → TakesOne self.old
            → (records : List Record) × IsLog self.old records (S.may_leave site.old) }
        ensures answer { Appends self.old entry.now result self.new }
        ensures full { IsErrOf result LogFault.Full ↔ (IsFine self.old
            × (most_records ≤ self.old.count)) }
        ensures done { OnOk result (S.tells → (records : List Record)
            → IsLog self.old records (S.may_leave site.old)
            → IsLog self.new (records ++ entry.now ∷ []) (S.may_leave site.new)) }
        ensures any_moment { S.tells → (records : List Record)
            → IsLog self.old records (S.may_leave site.old)
            → LeavesOnly S.moment S.images_since site.old site.new
            (IsAppended self.old.name records entry.now (S.may_leave site.old)) }
        ensures others { S.tells → (m : List ℕ) → m ≢ self.old.name
            → S.files site.new m ≡ S.files site.old m }
        ensures crash { S.tells → (m : List ℕ) (file : Option (List ℕ)) → m ≢ self.old.name
            → S.may_leave site.new m file → S.may_leave site.old m file }
        ensures untouched { (TakesOne self.old → ⊥) → site.new ≡ site.old }
        ensures later { S.count site.old ≤ S.count site.new }
        ensures cause { IsFine self.old → IsErrOf result LogFault.Site
            → S.count site.old < S.count site.new }
        ensures never { S.ample site.old → IsFine self.old
            → HasRoom self.old (length (spelling entry.now))
            → IsErrOf result LogFault.Memory → ⊥ }
        ensures stays { S.ample site.old → OnOk result (S.ample site.new) }
        ensures goes_on { S.ample site.old → S.count site.new < 2 ^ 64 - 1 → S.ample site.new }
    {
        if let Some(fault) = self.trouble {
            return Err(told(fault));
        }
        if self.count >= MOST_RECORDS {
            return Err(LogFault::Full);
        }
        match put_entry(
            self.alloc,
            site,
            &self.name,
            self.gate,
            &mut self.buffer,
            entry,
        ) {
            Ok(()) => {
                self.count += 1;
                self.gate += (AROUND + record_len(entry)) as u64;
                Ok(())
            }
            Err(fault) => {
                self.trouble = Some(fault);
                Err(told(fault))
            }
        }
    }
}
