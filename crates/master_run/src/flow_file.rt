//! The flow file.
ghost use Rattle.std.specs.Prelude.{◌≡◌, length, IfOk};
ghost use Rattle.outside.specs.Causes.{HasCause};
ghost use Rattle.outside.specs.Disk.{IsImage, LeavesOnly, Within};

use flow_types::{Bytes, Memory, Name};
use outside::{Fault, Site};
use std::alloc::Global;

// So many zero bytes.
fn zeros(alloc: Global, size: u64) -> Result<Vec<u8>, Memory>
    ensures { IfOk result (λ bytes. length bytes.items ≡ size) }
{
    match vec![in alloc; 0u8; size as usize] {
        Ok(bytes) => Ok(bytes),
        Err(_) => Err(Memory),
    }
}

/// The content of a file, or None where there is no such file. At most two calls of the site.
pub fn read_file<S: Site>(alloc: Global, site: &mut S, name: &Name) -> Result<Option<Bytes>, Fault>
    ensures content { IfOk result (λ content. S.tells → content ≡ S.files site.old name.now) }
    ensures files { S.tells → S.files site.new ≡ S.files site.old }
    ensures crash { S.tells → Within (S.may_leave site.old) (S.may_leave site.new) }
    ensures any_moment { S.tells → LeavesOnly S.moment S.images_since site.old site.new
        (IsImage (S.may_leave site.old)) }
    ensures cause { HasCause (S.count site.old) (S.count site.new) result }
{
    let Some(size) = site.size(name)? else {
        return Ok(None);
    };
    let Ok(mut bytes) = zeros(alloc, size) else {
        return Err(Fault::Memory);
    };
    let count = site.read(name, 0, bytes.as_mut_slice())?;
    bytes.truncate(count);
    Ok(Some(Bytes::from_vec(bytes)))
}
