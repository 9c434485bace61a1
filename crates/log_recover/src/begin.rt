//! A log that is begun anew.
ghost use Rattle.std.specs.Prelude.{◌≡◌, ◌≢◌, [], List, ℕ, length, Option};
ghost use Rattle.std.specs.Prelude.{Some, IsSome, OnOk, option_map};
ghost use Rattle.outside.specs.Causes.{HasCause};
ghost use Rattle.outside.specs.Disk.{LeavesOnly};
ghost use Rattle.outside.specs.Files.{content};
ghost use Rattle.txn_log.specs.Spells.{IsUnbegun, IsLogOf};
ghost use Rattle.log_recover.specs.Quiet.{KeepsAmple};
ghost use Rattle.log_recover.specs.Recovery.{IsUnbegunAt};

use flow_types::Name;
use outside::{Fault, Site};
use txn_log::write_synced;

/// The header of a log, and a closed gate.
const START: [u8; 9] = *b"MFLOG01\n\0";

/// Cuts a log that isn't begun to nothing.
fn clear<S: Site>(site: &mut S, name: &Name) -> Result<(), Fault>
    requires there { S.tells → IsSome (S.files site.old name.now) }
    requires short { S.tells → (file : Option (List ℕ)) → S.may_leave site.old name.now file
        → IsUnbegun file }
    ensures empty { OnOk result (S.tells → content (S.files site.new name.now) ≡ []) }
    ensures short { S.tells → (file : Option (List ℕ)) → S.may_leave site.new name.now file
        → IsUnbegun file }
    ensures others { S.tells → (m : List ℕ) → m ≢ name.now
        → S.files site.new m ≡ S.files site.old m }
    ensures crash { S.tells → (m : List ℕ) (file : Option (List ℕ)) → m ≢ name.now
        → S.may_leave site.new m file → S.may_leave site.old m file }
    ensures any_moment { S.tells → LeavesOnly S.moment S.images_since site.old site.new
        (IsUnbegunAt name.now (S.may_leave site.old)) }
    ensures cause { HasCause (S.count site.old) (S.count site.new) result }
    ensures ample { KeepsAmple (S.ample site.old) (S.ample site.new) (S.count site.new) result }
{
    site.cut(name, 0)
}

/// Begins a log in a file that is empty or absent.
fn begin<S: Site>(site: &mut S, name: &Name) -> Result<(), Fault>
    requires empty { S.tells → content (S.files site.old name.now) ≡ [] }
    requires short { S.tells → (file : Option (List ℕ)) → S.may_leave site.old name.now file
        → IsUnbegun file }
    ensures begun { OnOk result (S.tells → (file : Option (List ℕ))
        → S.may_leave site.new name.now file → IsLogOf [] file) }
    ensures others { S.tells → (m : List ℕ) → m ≢ name.now
        → S.files site.new m ≡ S.files site.old m }
    ensures crash { S.tells → (m : List ℕ) (file : Option (List ℕ)) → m ≢ name.now
        → S.may_leave site.new m file → S.may_leave site.old m file }
    ensures any_moment { S.tells → LeavesOnly S.moment S.images_since site.old site.new
        (IsUnbegunAt name.now (S.may_leave site.old)) }
    ensures cause { HasCause (S.count site.old) (S.count site.new) result }
    ensures ample { KeepsAmple (S.ample site.old) (S.ample site.new) (S.count site.new) result }
{
    write_synced(site, name, 0, &START)
}

/// Begins a log anew that is absent or not begun. `size` is how long its file is, where there is
/// one.
pub(crate) fn begin_anew<S: Site>(site: &mut S, name: &Name, size: Option<u64>) -> Result<(), Fault>
    requires size { S.tells → size ≡ option_map length (S.files site.old name.now) }
    requires short { S.tells → (file : Option (List ℕ)) → S.may_leave site.old name.now file
        → IsUnbegun file }
    ensures begun { OnOk result (S.tells → (file : Option (List ℕ))
        → S.may_leave site.new name.now file → IsLogOf [] file) }
    ensures others { S.tells → (m : List ℕ) → m ≢ name.now
        → S.files site.new m ≡ S.files site.old m }
    ensures crash { S.tells → (m : List ℕ) (file : Option (List ℕ)) → m ≢ name.now
        → S.may_leave site.new m file → S.may_leave site.old m file }
    ensures any_moment { S.tells → LeavesOnly S.moment S.images_since site.old site.new
        (IsUnbegunAt name.now (S.may_leave site.old)) }
    ensures cause { HasCause (S.count site.old) (S.count site.new) result }
    ensures ample { KeepsAmple (S.ample site.old) (S.ample site.new) (S.count site.new) result }
{
    if size.is_none() {
        return begin(site, name);
    }
    clear(site, name)?;
    begin(site, name)
}
