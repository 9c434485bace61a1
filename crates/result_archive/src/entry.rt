//! The bytes of an entry.
ghost use Rattle.std.specs.Prelude.{◌≡◌, ◌++◌, IfOk, OnOk};
ghost use Rattle.sha2.specs.Sha256.{sha256};
ghost use Rattle.byte_fields.specs.Spelling.{counted, rows};

use crate::digest::digest_of;
use crate::spelling::put_outputs;
use byte_fields::put_bytes;
use flow_types::{Bytes, Memory};

/// The byte of an open gate.
pub(crate) const OPEN_GATE: u8 = 1;

/// Adds the digest of what is there.
fn put_digest(body: &mut Vec<u8>) -> Result<(), Memory>
    ensures { OnOk result (body.new.items ≡ body.old.items ++ sha256 body.old.items) }
{
    let digest = digest_of(body);
    put_bytes(body, &digest)
}

/// What stands behind the gate of an entry with these outputs, from the length of the job's
/// spelling and the spelling on.
pub(crate) fn write_rest(head: Vec<u8>, outs: &[Bytes]) -> Result<Vec<u8>, Memory>
    ensures { IfOk result (λ rest. rest.items ≡ (head.items ++ rows counted outs.now)
        ++ sha256 (head.items ++ rows counted outs.now)) }
{
    let mut rest = head;
    put_outputs(&mut rest, outs)?;
    put_digest(&mut rest)?;
    Ok(rest)
}
