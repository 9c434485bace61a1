//! Recovery of a log.
ghost use Rattle.std.specs.Prelude.{◌≡◌, ◌≢◌, ◌≤◌, ◌<◌, List, ℕ, length, take};
ghost use Rattle.std.specs.Prelude.{Option, Some, IfOk, OnOk, IsErrOf, IsTrue, true, false};
ghost use Rattle.outside.specs.Causes.{HasCause};
ghost use Rattle.outside.specs.Disk.{LeavesOnly};
ghost use Rattle.outside.specs.Files.{content};
ghost use Rattle.txn_log.specs.Logs.{IsLog};
ghost use Rattle.txn_log.specs.Spells.{header, IsUnbegun, Spells};
ghost use Rattle.flow_types.specs.declared.records.Record.{Record};
ghost use Rattle.log_recover.specs.Quiet.{IsQuiet, KeepsAmple};
ghost use Rattle.log_recover.specs.Recovery.{Resumes, Recovers, IsThese, IsKept};
ghost use Rattle.log_recover.specs.Recovery.{IsDamage, IsNamed, IsRecovering, IsHeader};
ghost use Rattle.log_recover.specs.Recovery.{LeavesAmple};

use crate::begin::begin_anew;
use crate::fault::RecoverFault;
use crate::found::Found;
use crate::scan::{FIRST_GATE, scan};
use crate::settle::settle;
use crate::window::read_at;
use flow_types::{Name, Record, Rows};
use outside::{Fault, Site};
use std::alloc::Global;
use txn_log::Log;

/// The first eight bytes of a log.
const HEADER: [u8; 8] = *b"MFLOG01\n";

/// The most bytes of a file that counts as no log yet.
const MOST_UNBEGUN: u64 = 9;

/// Whether a file that is longer than a log that isn't begun begins as a log. It changes nothing.
fn has_header<S: Site>(site: &mut S, name: &Name) -> Result<bool, Fault>
    requires long { S.tells → 8 ≤ length (content (S.files site.old name.now)) }
    ensures header { IfOk result (λ begins. S.tells
        → IsHeader (content (S.files site.old name.now)) begins) }
    ensures quiet { S.tells
        → IsQuiet S.files S.may_leave S.moment S.images_since site.old site.new }
    ensures cause { HasCause (S.count site.old) (S.count site.new) result }
    ensures ample { KeepsAmple (S.ample site.old) (S.ample site.new) (S.count site.new) result }
{
    let mut head = [0u8; 8];
    let _count = read_at(site, name, 0, &mut head)?;
    Ok(head.as_slice() == HEADER.as_slice())
}

/// The log whose file is so long, which is longer than one that isn't begun. It changes nothing.
fn resume<S: Site>(
    alloc: Global,
    site: &mut S,
    name: Name,
    size: u64,
) -> Result<(Log, Rows<Record>), RecoverFault>
    requires long { 9 < size }
    requires size { S.tells → size ≡ length (content (S.files site.old «name»)) }
    ensures answer { S.tells → Resumes (content (S.files site.old «name»)) result }
    ensures named { IfOk result (λ p. IsNamed «name» p) }
    ensures quiet { S.tells
        → IsQuiet S.files S.may_leave S.moment S.images_since site.old site.new }
    ensures later { S.count site.old ≤ S.count site.new }
    ensures cause { IsErrOf result RecoverFault.Site → S.count site.old < S.count site.new }
    ensures ample { LeavesAmple (S.ample site.old) (S.ample site.new) (S.count site.new) result }
{
    if !has_header(site, &name)? {
        return Err(RecoverFault::BadHeader);
    }
    match scan(alloc, site, &name, size)? {
        Found::Records(records, gate) => {
            let count = records.len() as u32;
            Ok((Log::at(alloc, name, count, gate), records))
        }
        Found::Bad(at) => Err(RecoverFault::BadRecord { at }),
    }
}

/// The log under this name, which is begun anew where it is absent or not begun.
fn open_log<S: Site>(
    alloc: Global,
    site: &mut S,
    name: Name,
) -> Result<(Log, Rows<Record>), RecoverFault>
    ensures answer { S.tells → Recovers (S.files site.old «name») result }
    ensures named { IfOk result (λ p. IsNamed «name» p) }
    ensures stands { IfOk result (λ p. S.tells → IsLog p.0 p.1 (S.may_leave site.new)) }
    ensures unchanged { S.tells → IsDamage result
        → S.files site.new «name» ≡ S.files site.old «name» }
    ensures same { OnOk result (S.tells → (IsUnbegun (S.files site.old «name») → ⊥)
        → (m : List ℕ) → S.files site.new m ≡ S.files site.old m) }
    ensures any_moment { S.tells → LeavesOnly S.moment S.images_since site.old site.new
        (IsRecovering «name» (S.files site.old «name») (S.may_leave site.old)) }
    ensures others { S.tells → (m : List ℕ) → m ≢ «name»
        → S.files site.new m ≡ S.files site.old m }
    ensures crash { S.tells → (m : List ℕ) (file : Option (List ℕ)) → m ≢ «name»
        → S.may_leave site.new m file → S.may_leave site.old m file }
    ensures later { S.count site.old ≤ S.count site.new }
    ensures cause { IsErrOf result RecoverFault.Site → S.count site.old < S.count site.new }
    ensures ample { LeavesAmple (S.ample site.old) (S.ample site.new) (S.count site.new) result }
{
    let size = settle(site, &name)?;
    match size {
        Some(len) if len > MOST_UNBEGUN => resume(alloc, site, name, len),
        _ => {
            begin_anew(site, &name, size)?;
            Ok((Log::at(alloc, name, 0, FIRST_GATE), Rows::new(alloc)))
        }
    }
}

/// The log under this name, and the records that its file spells. A log that is absent or not begun
/// is begun anew.
///
/// What is wrong with the file's bytes is answered and changes nothing. A crash at any moment
/// leaves the file as it was, or a log that isn't begun where it wasn't.
pub fn recover<S: Site>(
    alloc: Global,
    site: &mut S,
    name: Name,
) -> Result<(Log, Rows<Record>), RecoverFault>
    ensures answer { S.tells → Recovers (S.files site.old «name») result }
    ensures exact { S.tells → (records : List Record)
        → Spells records (S.files site.old «name») → IsThese records result }
    ensures named { IfOk result (λ p. IsNamed «name» p) }
    ensures stands { IfOk result (λ p. S.tells → IsLog p.0 p.1 (S.may_leave site.new)) }
    ensures unchanged { S.tells → IsDamage result
        → S.files site.new «name» ≡ S.files site.old «name» }
    ensures same { OnOk result (S.tells → (IsUnbegun (S.files site.old «name») → ⊥)
        → (m : List ℕ) → S.files site.new m ≡ S.files site.old m) }
    ensures any_moment { S.tells → LeavesOnly S.moment S.images_since site.old site.new
        (IsRecovering «name» (S.files site.old «name») (S.may_leave site.old)) }
    ensures kept { S.tells → (records : List Record)
        → ((file : Option (List ℕ)) → S.may_leave site.old «name» file → Spells records file)
        → LeavesOnly S.moment S.images_since site.old site.new (IsKept «name» records
        (S.may_leave site.old)) }
    ensures others { S.tells → (m : List ℕ) → m ≢ «name»
        → S.files site.new m ≡ S.files site.old m }
    ensures crash { S.tells → (m : List ℕ) (file : Option (List ℕ)) → m ≢ «name»
        → S.may_leave site.new m file → S.may_leave site.old m file }
    ensures later { S.count site.old ≤ S.count site.new }
    ensures cause { IsErrOf result RecoverFault.Site → S.count site.old < S.count site.new }
    ensures ample { LeavesAmple (S.ample site.old) (S.ample site.new) (S.count site.new) result }
{
    open_log(alloc, site, name)
}
