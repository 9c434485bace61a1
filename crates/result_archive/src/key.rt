//! The key of a job, and the name of its entry.
ghost use Rattle.std.specs.Prelude.{◌≡◌, ◌≤◌, ◌++◌, ◌∷◌, IfOk, OnOk, IsTrue, length};
ghost use Rattle.flow_types.specs.Names.{is_name};
ghost use Rattle.hex.specs.Hex.{encode_lower};
ghost use Rattle.sha2.specs.Sha256.{sha256};
ghost use Rattle.result_archive.specs.Entries.{key_of};

use crate::digest::digest_of;
use crate::spelling::write_job;
use flow_types::{Digest, Job, Memory, Name};
use std::alloc::{AllocError, Global};

/// The SHA-256 digest of a job's spelling: equal jobs have equal keys. Want of memory is answered
/// too of a job with a text, a content or a list of 4 GiB.
pub fn job_key(alloc: Global, job: &Job) -> Result<Digest, Memory>
    ensures { IfOk result (λ key. key.0 ≡ key_of job.now) }
{
    let spelled = write_job(alloc, job)?;
    Ok(Digest(digest_of(spelled.as_slice())))
}

/// The folder's name, a slash, and the key of this spelling in hexadecimal digits.
fn path_of(alloc: Global, dir: &Name, spelled: &[u8]) -> Result<Vec<u8>, AllocError>
    ensures path { IfOk result (λ path.
        path.items ≡ dir.now ++ (47 ∷ encode_lower (sha256 spelled.now))) }
    ensures name { OnOk result (IsTrue (is_name dir.now)) }
{
    let key = hex::encode(alloc, digest_of(spelled))?;
    let mut path = Vec::from_slice(alloc, dir.as_bytes())?;
    path.push(b'/')?;
    path.extend_from_slice(key.as_bytes())?;
    Ok(path)
}

/// The name of the entry of a job with this spelling.
pub(crate) fn name_of_entry(alloc: Global, dir: &Name, spelled: &[u8]) -> Result<Name, Memory>
    requires { length dir.now ≤ 900 }
    ensures { IfOk result (λ name. name ≡ dir.now ++ (47 ∷ encode_lower (sha256 spelled.now))) }
{
    let Ok(path) = path_of(alloc, dir, spelled) else {
        return Err(Memory);
    };
    match Name::of(alloc, path.as_slice()) {
        Ok(name) => Ok(name),
        Err(_) => Err(Memory),
    }
}
