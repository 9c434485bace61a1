//! A record as an entry of the log, and its append to the file.
ghost use Rattle.std.specs.Prelude.{◌≡◌, ◌≢◌, ◌≤◌, ◌<◌, ◌+◌, ◌-◌, ◌^◌, ◌++◌, [], ◌∷◌};
ghost use Rattle.std.specs.Prelude.{List, ℕ, length, Option, OnOk, OnErr, IsErrOf};
ghost use Rattle.byte_fields.specs.Spelling.{counted};
ghost use Rattle.flow_types.specs.declared.records.Record.{Record};
ghost use Rattle.log_records.specs.Spelling.{spelling, ListsFew, HasSpelling};
ghost use Rattle.outside.specs.Causes.{HasCause};
ghost use Rattle.outside.specs.Disk.{LeavesOnly};
ghost use Rattle.txn_log.specs.Gates.{closed_gate};
ghost use Rattle.txn_log.specs.Logs.{around, IsAt, IsAppended};

use crate::gate::append_behind;
use byte_fields::{place_u8, place_u32};
use flow_types::{Memory, Name, Record};
use log_records::{record_len, write_record_at};
use outside::{Fault, Site};
use std::alloc::Global;

/// The byte of a closed gate.
const CLOSED_GATE: u8 = 0;

/// The bytes of an entry beside its spelling.
pub(crate) const AROUND: usize = 5;

/// Makes a buffer at least so long.
pub(crate) fn widen(alloc: Global, buffer: &mut Vec<u8>, len: usize) -> Result<(), Memory>
    ensures long { OnOk result (len ≤ length buffer.new.items) }
    ensures no_shorter { length buffer.old.items ≤ length buffer.new.items }
    ensures enough { len ≤ length buffer.old.items → OnErr result ⊥ }
    ensures unchanged { OnErr result (buffer.new ≡ buffer.old) }
{
    if len <= buffer.len() {
        return Ok(());
    }
    let Ok(wider) = vec![in alloc; 0u8; len] else {
        return Err(Memory);
    };
    *buffer = wider;
    Ok(())
}

/// Writes an entry and a closed gate over these bytes, of which there are as many.
fn stage(entry: &Record, into: &mut [u8])
    requires few { ListsFew entry.now }
    requires room { length into.old ≡ around + length (spelling entry.now) }
    ensures text { into.new ≡ counted (spelling entry.now) ++ closed_gate ∷ [] }
    ensures fits { HasSpelling entry.now }
{
    let len = record_len(entry);
    let at = place_u32(into, 0, len as u32);
    write_record_at(entry, &mut into[4..4 + len]);
    let _end = place_u8(into, 4 + len, CLOSED_GATE);
}

/// Appends a record behind the closed gate of a log's file, from a buffer that grows where it is
/// too short.
pub(crate) fn put_entry<S: Site>(
    alloc: Global,
    site: &mut S,
    name: &Name,
    gate: u64,
    buffer: &mut Vec<u8>,
    entry: &Record,
) -> Result<(), Fault>
    requires few { ListsFew entry.now }
    requires room { gate + 1 < 2 ^ 64 }
    requires stands { S.tells → (records : List Record)
        × IsAt records gate (S.may_leave site.old name.now) }
    ensures done { OnOk result (S.tells → (records : List Record)
        → IsAt records gate (S.may_leave site.old name.now)
        → IsAt (records ++ entry.now ∷ []) (gate + (around + length (spelling entry.now)))
        (S.may_leave site.new name.now)) }
    ensures any_moment { S.tells → (records : List Record)
        → IsAt records gate (S.may_leave site.old name.now)
        → LeavesOnly S.moment S.images_since site.old site.new
        (IsAppended name.now records entry.now (S.may_leave site.old)) }
    ensures others { S.tells → (m : List ℕ) → m ≢ name.now
        → S.files site.new m ≡ S.files site.old m }
    ensures crash { S.tells → (m : List ℕ) (file : Option (List ℕ)) → m ≢ name.now
        → S.may_leave site.new m file → S.may_leave site.old m file }
    ensures wide { length buffer.old.items ≤ length buffer.new.items }
    ensures cause { HasCause (S.count site.old) (S.count site.new) result }
    ensures never { S.ample site.old
        → around + length (spelling entry.now) ≤ length buffer.old.items
        → IsErrOf result Fault.Memory → ⊥ }
    ensures stays { S.ample site.old → OnOk result (S.ample site.new) }
    ensures goes_on { S.ample site.old → S.count site.new < 2 ^ 64 - 1 → S.ample site.new }
{
    let len = AROUND + record_len(entry);
    widen(alloc, buffer, len)?;
    let behind = &mut buffer[..len];
    stage(entry, behind);
    append_behind(site, name, gate, behind)
}
