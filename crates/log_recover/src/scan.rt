//! The records of a log's file, one after another.
ghost use Rattle.std.specs.Prelude.{◌≡◌, ◌≤◌, ◌<◌, ◌^◌, ◌++◌, ◌∷◌, [], List};
ghost use Rattle.std.specs.Prelude.{ℕ, length, take, IfOk, OnOk, IsErrOf};
ghost use Rattle.outside.specs.Causes.{HasCause};
ghost use Rattle.outside.specs.Files.{content};
ghost use Rattle.txn_log.specs.Spells.{header};
ghost use Rattle.log_recover.specs.Quiet.{IsQuiet, KeepsAmple};
ghost use Rattle.log_recover.specs.Recovery.{IsFound, IsNear};

use crate::found::Found;
use crate::read::entry_at;
use crate::step::Step;
use crate::window::Window;
use flow_types::{Name, Record, Rows};
use outside::{Fault, Site};
use std::alloc::Global;

/// The place of the first gate.
pub(crate) const FIRST_GATE: u64 = 8;

/// Puts a record at the end of a list whose length is to fit 32 bits.
fn keep(records: &mut Rows<Record>, entry: Record) -> Result<(), Fault>
    ensures ok { OnOk result (records.new ≡ records.old ++ entry ∷ []) }
    ensures few { OnOk result (length records.new < 2 ^ 32) }
    ensures cause { IsErrOf result Fault.Failed → ⊥ }
{
    if records.len() >= u32::MAX as usize {
        return Err(Fault::Memory);
    }
    match records.push(entry) {
        Ok(()) => Ok(()),
        Err(_) => Err(Fault::Memory),
    }
}

/// The records of a log's file, which is so long and begins as one. It changes nothing.
pub(crate) fn scan<S: Site>(
    alloc: Global,
    site: &mut S,
    name: &Name,
    size: u64,
) -> Result<Found, Fault>
    requires long { 8 ≤ size }
    requires size { S.tells → size ≡ length (content (S.files site.old name.now)) }
    requires header { S.tells → take 8 (content (S.files site.old name.now)) ≡ header }
    ensures found { IfOk result (λ found. S.tells
        → IsFound (content (S.files site.old name.now)) found) }
    ensures near { IfOk result IsNear }
    ensures quiet { S.tells
        → IsQuiet S.files S.may_leave S.moment S.images_since site.old site.new }
    ensures cause { HasCause (S.count site.old) (S.count site.new) result }
    ensures ample { KeepsAmple (S.ample site.old) (S.ample site.new) (S.count site.new) result }
{
    let mut records = Rows::new(alloc);
    let mut window = Window::new(alloc);
    let mut at = FIRST_GATE;
    loop {
        let step = entry_at(alloc, site, name, &mut window, at, size)?;
        match step {
            Step::Closed => return Ok(Found::Records(records, at)),
            Step::Entry(record, end) => {
                keep(&mut records, record)?;
                at = end;
            }
            Step::Bad => return Ok(Found::Bad(at)),
        }
    }
}
