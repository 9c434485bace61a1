//! One whole file.
ghost use Rattle.std.specs.Prelude.{◌≡◌, ◌≢◌, ℕ, List, length, Option, Some, OnOk};
ghost use Rattle.outside.specs.Causes.{HasCause, IsAmple};
ghost use Rattle.outside.specs.Disk.{LeavesOnly};
ghost use Rattle.file_store.specs.Elsewhere.{IsElsewhere};

use flow_types::Name;
use outside::{Fault, Site};

/// Makes these bytes the file's content: it is written over from its beginning, and cut to their
/// length.
fn overwrite<S: Site>(site: &mut S, name: &Name, bytes: &[u8]) -> Result<(), Fault>
    ensures written { OnOk result (S.tells → S.files site.new name.now ≡ Some bytes.now) }
    ensures others { S.tells → (m : List ℕ) → m ≢ name.now
        → S.files site.new m ≡ S.files site.old m }
    ensures crash { S.tells → (m : List ℕ) (file : Option (List ℕ)) → m ≢ name.now
        → S.may_leave site.new m file → S.may_leave site.old m file }
    ensures any_moment { S.tells → LeavesOnly S.moment S.images_since site.old site.new
        (IsElsewhere name.now (S.may_leave site.old)) }
    ensures cause { HasCause (S.count site.old) (S.count site.new) result }
    ensures ample { IsAmple (S.ample site.old) (S.ample site.new) (S.count site.new) result }
{
    site.write(name, 0, bytes)?;
    site.cut(name, bytes.len() as u64)
}

/// Makes these bytes the file's content, and makes it outlive a crash. Three calls of the site.
///
/// At Ok each crash leaves these bytes under the name. At any moment a crash leaves under every
/// other name what it might have left before.
pub fn put_file<S: Site>(site: &mut S, name: &Name, bytes: &[u8]) -> Result<(), Fault>
    ensures written { OnOk result (S.tells → S.files site.new name.now ≡ Some bytes.now) }
    ensures durable { OnOk result (S.tells → (file : Option (List ℕ))
        → S.may_leave site.new name.now file → file ≡ Some bytes.now) }
    ensures others { S.tells → (m : List ℕ) → m ≢ name.now
        → S.files site.new m ≡ S.files site.old m }
    ensures crash { S.tells → (m : List ℕ) (file : Option (List ℕ)) → m ≢ name.now
        → S.may_leave site.new m file → S.may_leave site.old m file }
    ensures any_moment { S.tells → LeavesOnly S.moment S.images_since site.old site.new
        (IsElsewhere name.now (S.may_leave site.old)) }
    ensures cause { HasCause (S.count site.old) (S.count site.new) result }
    ensures ample { IsAmple (S.ample site.old) (S.ample site.new) (S.count site.new) result }
{
    overwrite(site, name, bytes)?;
    site.sync(name)
}
