//! Reading what stands at a gate.
ghost use Rattle.std.specs.Prelude.{◌≡◌, ◌≤◌, ◌<◌, ◌+◌, ◌-◌, List, ℕ, length, IfOk, OnOk};
ghost use Rattle.outside.specs.Causes.{HasCause};
ghost use Rattle.outside.specs.Files.{content};
ghost use Rattle.log_records.specs.Spelling.{most_spelled};
ghost use Rattle.log_recover.specs.Quiet.{IsQuiet, KeepsAmple};
ghost use Rattle.log_recover.specs.Steps.{Stands, IsHead, BeginsSo, EndsWithin, IsBody};
ghost use Rattle.log_recover.specs.Windows.{Shows};
ghost use Rattle.log_recover.specs.declared.step.Head.TheVariants.{Length};

use crate::step::{Head, Step};
use crate::window::Window;
use byte_fields::u32_field;
use flow_types::{Name, Record};
use log_records::{RecordFault, read_record};
use outside::{Fault, Site};
use std::alloc::Global;

/// The byte of an open gate.
const OPEN_GATE: u8 = 1;

/// The most bytes of a record's spelling.
const MOST_SPELLED: u32 = 2_621_506;

/// The bytes of an entry beside its spelling: a gate and a length.
const AROUND: u64 = 5;

/// As many are read at a gate.
const HEAD: usize = 5;

/// The record whose spelling is so long and stands at this place.
fn body_at<S: Site>(
    alloc: Global,
    site: &mut S,
    name: &Name,
    window: &mut Window,
    at: u64,
    len: usize,
) -> Result<Option<Record>, Fault>
    requires { S.tells → Shows window.old (content (S.files site.old name.now)) }
    ensures body { IfOk result (λ r. S.tells
        → IsBody (content (S.files site.old name.now)) at len r) }
    ensures shows { OnOk result (S.tells
        → Shows window.new (content (S.files site.old name.now))) }
    ensures quiet { S.tells
        → IsQuiet S.files S.may_leave S.moment S.images_since site.old site.new }
    ensures cause { HasCause (S.count site.old) (S.count site.new) result }
    ensures ample { KeepsAmple (S.ample site.old) (S.ample site.new) (S.count site.new) result }
{
    window.reach(site, name, at, len)?;
    let body = window.view(at, len);
    if body.len() < len {
        return Ok(None);
    }
    match read_record(alloc, body) {
        Ok(record) => Ok(Some(record)),
        Err(RecordFault::Bad { .. }) => Ok(None),
        Err(RecordFault::Memory) => Err(Fault::Memory),
    }
}

/// What the first bytes at a gate tell, of which there are at most five.
#[tactic(auto, using(crate::proofs::Heads::number_whole, crate::proofs::Heads::number_short))]
fn head_of(front: &[u8]) -> Head
    requires { length front.now ≤ 5 }
    ensures { IsHead front.now result }
{
    match front {
        [] => Head::Cut,
        [gate, rest @ ..] => {
            if *gate != OPEN_GATE {
                return Head::Shut;
            }
            match u32_field(rest) {
                Ok((len, _)) => Head::Length(len),
                Err(_) => Head::Cut,
            }
        }
    }
}

/// What stands at the beginning of this place.
fn head_at<S: Site>(site: &mut S, name: &Name, window: &mut Window, at: u64) -> Result<Head, Fault>
    requires { S.tells → Shows window.old (content (S.files site.old name.now)) }
    ensures head { IfOk result (λ head. S.tells
        → BeginsSo (content (S.files site.old name.now)) at head) }
    ensures shows { OnOk result (S.tells
        → Shows window.new (content (S.files site.old name.now))) }
    ensures quiet { S.tells
        → IsQuiet S.files S.may_leave S.moment S.images_since site.old site.new }
    ensures cause { HasCause (S.count site.old) (S.count site.new) result }
    ensures ample { KeepsAmple (S.ample site.old) (S.ample site.new) (S.count site.new) result }
{
    window.reach(site, name, at, HEAD)?;
    Ok(head_of(window.view(at, HEAD)))
}

/// The entry behind an open gate and this length.
fn behind_gate<S: Site>(
    alloc: Global,
    site: &mut S,
    name: &Name,
    window: &mut Window,
    at: u64,
    size: u64,
    len: u32,
) -> Result<Step, Fault>
    requires within { at ≤ size }
    requires shows { S.tells → Shows window.old (content (S.files site.old name.now)) }
    requires length { S.tells → BeginsSo (content (S.files site.old name.now)) at (Length len) }
    requires size { S.tells → size ≡ length (content (S.files site.old name.now)) }
    ensures step { IfOk result (λ step. S.tells
        → Stands (content (S.files site.old name.now)) at step) }
    ensures end { IfOk result (λ step. EndsWithin at size step) }
    ensures shows { OnOk result (S.tells
        → Shows window.new (content (S.files site.old name.now))) }
    ensures quiet { S.tells
        → IsQuiet S.files S.may_leave S.moment S.images_since site.old site.new }
    ensures cause { HasCause (S.count site.old) (S.count site.new) result }
    ensures ample { KeepsAmple (S.ample site.old) (S.ample site.new) (S.count site.new) result }
{
    let whole = AROUND + len as u64;
    if len > MOST_SPELLED || size - at < whole {
        return Ok(Step::Bad);
    }
    match body_at(alloc, site, name, window, at + AROUND, len as usize)? {
        Some(record) => Ok(Step::Entry(record, at + whole)),
        None => Ok(Step::Bad),
    }
}

/// What stands at this place of a log's file, which is so long. It changes nothing.
pub(crate) fn entry_at<S: Site>(
    alloc: Global,
    site: &mut S,
    name: &Name,
    window: &mut Window,
    at: u64,
    size: u64,
) -> Result<Step, Fault>
    requires within { at ≤ size }
    requires shows { S.tells → Shows window.old (content (S.files site.old name.now)) }
    requires size { S.tells → size ≡ length (content (S.files site.old name.now)) }
    ensures step { IfOk result (λ step. S.tells
        → Stands (content (S.files site.old name.now)) at step) }
    ensures end { IfOk result (λ step. EndsWithin at size step) }
    ensures shows { OnOk result (S.tells
        → Shows window.new (content (S.files site.old name.now))) }
    ensures quiet { S.tells
        → IsQuiet S.files S.may_leave S.moment S.images_since site.old site.new }
    ensures cause { HasCause (S.count site.old) (S.count site.new) result }
    ensures ample { KeepsAmple (S.ample site.old) (S.ample site.new) (S.count site.new) result }
{
    match head_at(site, name, window, at)? {
        Head::Shut => Ok(Step::Closed),
        Head::Length(len) => behind_gate(alloc, site, name, window, at, size, len),
        Head::Cut => Ok(Step::Bad),
    }
}
