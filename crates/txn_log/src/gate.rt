//! Writes that are on the disk, and an entry behind a closed gate.
ghost use Rattle.std.specs.Prelude.{◌≡◌, ◌≢◌, ◌≤◌, ◌<◌, ◌+◌, ◌^◌, ◌++◌, [], ◌∷◌};
ghost use Rattle.std.specs.Prelude.{List, ℕ, length, take, Option, Some, OnOk};
ghost use Rattle.outside.specs.Causes.{HasCause, IsAmple};
ghost use Rattle.outside.specs.Files.{content, written};
ghost use Rattle.outside.specs.Disk.{IsTorn, LeavesOnly, IsStepped};
ghost use Rattle.txn_log.specs.Gates.{Stands, staged, grown, closed_gate, IsGrown};

use flow_types::Name;
use outside::{Fault, Site};

/// The byte of an open gate.
const OPEN_GATE: u8 = 1;

/// Writes over what is there and past the end. At Ok it is on the disk.
pub fn write_synced<S: Site>(site: &mut S, name: &Name, at: u64, bytes: &[u8]) -> Result<(), Fault>
    requires { S.tells → at ≤ length (content (S.files site.old name.now)) }
    ensures done { OnOk result (S.tells → S.files site.new name.now
        ≡ Some (written at bytes.now (content (S.files site.old name.now)))) }
    ensures durable { OnOk result (S.tells → (entry : Option (List ℕ))
        → S.may_leave site.new name.now entry → entry ≡ S.files site.new name.now) }
    ensures others { S.tells → (m : List ℕ) → m ≢ name.now
        → S.files site.new m ≡ S.files site.old m }
    ensures crash { S.tells → (m : List ℕ) (entry : Option (List ℕ)) → m ≢ name.now
        → S.may_leave site.new m entry → S.may_leave site.old m entry }
    ensures any_moment { S.tells → LeavesOnly S.moment S.images_since site.old site.new
        (IsStepped name.now (IsTorn at (length bytes.now)) (S.may_leave site.old)) }
    ensures cause { HasCause (S.count site.old) (S.count site.new) result }
    ensures ample { IsAmple (S.ample site.old) (S.ample site.new) (S.count site.new) result }
{
    site.write(name, at, bytes)?;
    site.sync(name)?;
    Ok(())
}

/// Puts an entry behind the closed gate of a file, then opens the gate. `behind` is the entry and a
/// closed gate.
///
/// At Ok each crash leaves a file with the entry. At any moment before, it leaves the file with the
/// entry or without it.
pub fn append_behind<S: Site>(
    site: &mut S,
    name: &Name,
    gate: u64,
    behind: &[u8],
) -> Result<(), Fault>
    requires room { gate + 1 < 2 ^ 64 }
    requires shut { behind.now ≡ staged behind.now ++ closed_gate ∷ [] }
    requires reads { S.tells
        → Stands (take gate (content (S.files site.old name.now))) (S.files site.old name.now) }
    requires stands { S.tells → (entry : Option (List ℕ)) → S.may_leave site.old name.now entry
        → Stands (take gate (content (S.files site.old name.now))) entry }
    ensures acknowledged { OnOk result (S.tells
        → Stands (grown (take gate (content (S.files site.old name.now))) (staged behind.now))
        (S.files site.new name.now)) }
    ensures durable { OnOk result (S.tells → (entry : Option (List ℕ))
        → S.may_leave site.new name.now entry → entry ≡ S.files site.new name.now) }
    ensures any_moment { S.tells → LeavesOnly S.moment S.images_since site.old site.new
        (IsGrown name.now (take gate (content (S.files site.old name.now))) (staged behind.now)
        (S.may_leave site.old)) }
    ensures others { S.tells → (m : List ℕ) → m ≢ name.now
        → S.files site.new m ≡ S.files site.old m }
    ensures crash { S.tells → (m : List ℕ) (entry : Option (List ℕ)) → m ≢ name.now
        → S.may_leave site.new m entry → S.may_leave site.old m entry }
    ensures cause { HasCause (S.count site.old) (S.count site.new) result }
    ensures ample { IsAmple (S.ample site.old) (S.ample site.new) (S.count site.new) result }
{
    write_synced(site, name, gate + 1, behind)?;
    write_synced(site, name, gate, &[OPEN_GATE])
}
