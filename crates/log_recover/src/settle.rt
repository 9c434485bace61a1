//! A file on the disk, and how long it is.
ghost use Rattle.std.specs.Prelude.{◌≡◌, ◌≢◌, List, ℕ, length, Option, IfOk, OnOk, option_map};
ghost use Rattle.outside.specs.Causes.{HasCause};
ghost use Rattle.outside.specs.Disk.{IsImage, Within, LeavesOnly};
ghost use Rattle.log_recover.specs.Quiet.{KeepsAmple};

use flow_types::Name;
use outside::{Fault, Site};

/// Makes a file outlive a crash as it stands, and answers how long it is.
pub(crate) fn settle<S: Site>(site: &mut S, name: &Name) -> Result<Option<u64>, Fault>
    ensures size { IfOk result (λ size. S.tells
        → size ≡ option_map length (S.files site.old name.now)) }
    ensures same { OnOk result (S.tells → S.files site.new name.now ≡ S.files site.old name.now) }
    ensures durable { OnOk result (S.tells → (file : Option (List ℕ))
        → S.may_leave site.new name.now file → file ≡ S.files site.old name.now) }
    ensures others { S.tells → (m : List ℕ) → m ≢ name.now
        → S.files site.new m ≡ S.files site.old m }
    ensures within { S.tells → Within (S.may_leave site.old) (S.may_leave site.new) }
    ensures any_moment { S.tells
        → LeavesOnly S.moment S.images_since site.old site.new (IsImage (S.may_leave site.old)) }
    ensures cause { HasCause (S.count site.old) (S.count site.new) result }
    ensures ample { KeepsAmple (S.ample site.old) (S.ample site.new) (S.count site.new) result }
{
    site.sync(name)?;
    site.size(name)
}
