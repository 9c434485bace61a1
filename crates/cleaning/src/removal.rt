//! The removal of files.
ghost use Rattle.std.specs.Prelude.{◌≡◌, ◌<◌, ◌∷◌, [], None, OnOk, length};
ghost use Rattle.outside.specs.Causes.{HasCause};
ghost use Rattle.file_store.specs.Outputs.{AreInside, IsOther, file_name};
ghost use Rattle.local_run.specs.Course.{LeavesAlone};
ghost use Rattle.cleaning.specs.Cleanings.{AreGone, numbers_of};

use flow_types::{FileNo, Name, Plan};
use outside::{Fault, Site};

fn name_of(plan: &Plan, file: FileNo) -> &Name
    requires { file.0 < length plan.now.files }
    ensures { result.now ≡ file_name plan.now file.0 }
{
    &plan.files.as_slice()[file.0 as usize].name
}

/// Removes a file of the plan. A crash may bring it back.
fn remove_file<S: Site>(site: &mut S, plan: &Plan, file: FileNo) -> Result<(), Fault>
    requires inside { file.0 < length plan.now.files }
    ensures removed { OnOk result (S.tells → S.files site.new (file_name plan.now file.0) ≡ None) }
    ensures others { S.tells → LeavesAlone S.files S.may_leave S.moment S.images_since
        (IsOther plan.now (file.0 ∷ [])) site.old site.new }
    ensures cause { HasCause (S.count site.old) (S.count site.new) result }
{
    site.remove(name_of(plan, file))
}

/// Removes these files, one call of the site for each. Other files stay.
pub(crate) fn remove_files<S: Site>(
    site: &mut S,
    plan: &Plan,
    files: &[FileNo],
) -> Result<(), Fault>
    requires inside { AreInside plan.now (numbers_of files.now) }
    ensures removed { OnOk result (S.tells
        → AreGone plan.now (numbers_of files.now) (S.files site.new)) }
    ensures others { S.tells → LeavesAlone S.files S.may_leave S.moment S.images_since
        (IsOther plan.now (numbers_of files.now)) site.old site.new }
    ensures cause { HasCause (S.count site.old) (S.count site.new) result }
{
    for file in files {
        remove_file(site, plan, *file)?;
    }
    Ok(())
}
