//! The outputs of a rule.
ghost use Rattle.std.specs.Prelude.{◌≡◌, ◌<◌, ℕ, List, length, OnOk, All};
ghost use Rattle.flow_types.specs.Plans.{files_of};
ghost use Rattle.outside.specs.Causes.{HasCause, IsAmple};
ghost use Rattle.outside.specs.Disk.{LeavesOnly};
ghost use Rattle.file_store.specs.Outputs.{IsBeside};
ghost use Rattle.file_store.specs.Outputs.{DifferByName, AreInside, IsOther, Last, StayBeside};

use crate::put::put_file;
use flow_types::{Bytes, Plan, Port};
use outside::{Fault, Site};

/// Writes one content for each of these ports' files, one file after the other, so that they
/// outlive a crash.
///
/// At Ok each crash leaves all of them. Under every other name a read gives what it gave, and a
/// crash at any moment leaves what it might have left before.
pub fn put_outputs<S: Site>(
    site: &mut S,
    plan: &Plan,
    ports: &[Port],
    outs: &[Bytes],
) -> Result<(), Fault>
    requires inside { AreInside plan.now (files_of ports.now) }
    requires differ { DifferByName plan.now (files_of ports.now) }
    requires count { length outs.now ≡ length ports.now }
    ensures durable { OnOk result (S.tells
        → Last plan.now (files_of ports.now) outs.now (length ports.now) (S.may_leave site.new)) }
    ensures others { S.tells → (m : List ℕ) → IsOther plan.now (files_of ports.now) m
        → S.files site.new m ≡ S.files site.old m }
    ensures crash { S.tells
        → StayBeside plan.now (files_of ports.now) (S.may_leave site.old) (S.may_leave site.new) }
    ensures any_moment { S.tells → LeavesOnly S.moment S.images_since site.old site.new
        (IsBeside plan.now (files_of ports.now) (S.may_leave site.old)) }
    ensures cause { HasCause (S.count site.old) (S.count site.new) result }
    ensures ample { IsAmple (S.ample site.old) (S.ample site.new) (S.count site.new) result }
{
    for (i, port) in ports.iter().enumerate() {
        let row = &plan.files.as_slice()[port.file.0 as usize];
        put_file(site, &row.name, outs[i].as_slice())?;
    }
    Ok(())
}
