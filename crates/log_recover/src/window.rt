//! Bytes of a file that were read ahead, so that many short records take few calls of the site.
ghost use Rattle.std.specs.Prelude.{◌≡◌, ◌≤◌, List, ℕ, length, take};
ghost use Rattle.std.specs.Prelude.{drop, IfOk, OnOk, IsErrOf, IsTrue};
ghost use Rattle.outside.specs.Causes.{HasCause};
ghost use Rattle.outside.specs.Files.{content, Reads};
ghost use Rattle.log_recover.specs.Quiet.{IsQuiet, KeepsAmple};
ghost use Rattle.log_recover.specs.Windows.{Shows, Covers, seen};

use flow_types::Name;
use outside::{Fault, Site};
use std::alloc::Global;

/// How many bytes are read at once, unless a longer record wants more.
const BLOCK: usize = 65_536;

/// Fills from the bytes at this place, and changes nothing.
pub(crate) fn read_at<S: Site>(
    site: &mut S,
    name: &Name,
    at: u64,
    into: &mut [u8],
) -> Result<usize, Fault>
    ensures bound { IfOk result (λ count. count ≤ length into.new) }
    ensures bytes { IfOk result (λ count. S.tells
        → Reads (content (S.files site.old name.now)) at into.old into.new count) }
    ensures quiet { S.tells
        → IsQuiet S.files S.may_leave S.moment S.images_since site.old site.new }
    ensures cause { HasCause (S.count site.old) (S.count site.new) result }
    ensures ample { KeepsAmple (S.ample site.old) (S.ample site.new) (S.count site.new) result }
{
    site.read(name, at, into)
}

/// Some bytes of a file, from a place on.
#[derive(Drop)]
pub(crate) struct Window {
    alloc: Global,
    // The bytes that were read stand at its front.
    buffer: Vec<u8>,
    count: usize,
    place: u64,
}

impl Window {
    /// A window through which nothing was read.
    pub(crate) fn new(alloc: Global) -> Window
        ensures { (file : List ℕ) → Shows result file }
    {
        Window {
            alloc,
            buffer: Vec::new(alloc),
            count: 0,
            place: 0,
        }
    }

    /// Whether so many bytes from this place on were read.
    fn covers(&self, at: u64, len: usize) -> bool
        ensures { IsTrue result → Covers self.now at len }
    {
        if at < self.place {
            return false;
        }
        let skipped = at - self.place;
        let count = self.count as u64;
        skipped <= count && len as u64 <= count - skipped
    }

    /// Makes room for so many bytes at once.
    fn widen(&mut self, len: usize) -> Result<(), Fault>
        ensures room { OnOk result (len ≤ length self.new.buffer.items) }
        ensures cause { IsErrOf result Fault.Failed → ⊥ }
    {
        if self.buffer.len() < len {
            let Ok(buffer) = vec![in self.alloc; 0u8; len.max(BLOCK)] else {
                return Err(Fault::Memory);
            };
            self.buffer = buffer;
        }
        Ok(())
    }

    /// Reads ahead from this place on, unless so many bytes from there on were read.
    pub(crate) fn reach<S: Site>(
        &mut self,
        site: &mut S,
        name: &Name,
        at: u64,
        len: usize,
    ) -> Result<(), Fault>
        requires { S.tells → Shows self.old (content (S.files site.old name.now)) }
        ensures shows { OnOk result (S.tells
            → Shows self.new (content (S.files site.old name.now))) }
        ensures seen { OnOk result (S.tells
            → seen self.new at len ≡ take len (drop at (content (S.files site.old name.now)))) }
        ensures quiet { S.tells
            → IsQuiet S.files S.may_leave S.moment S.images_since site.old site.new }
        ensures cause { HasCause (S.count site.old) (S.count site.new) result }
        ensures ample { KeepsAmple (S.ample site.old) (S.ample site.new) (S.count site.new)
            result }
    {
        if self.covers(at, len) {
            return Ok(());
        }
        self.widen(len)?;
        self.count = read_at(site, name, at, &mut self.buffer)?;
        self.place = at;
        Ok(())
    }

    /// Up to so many bytes from this place on, of those that were read.
    pub(crate) fn view(&self, at: u64, len: usize) -> &[u8]
        ensures bytes { result.now ≡ seen self.now at len }
        ensures few { length result.now ≤ len }
    {
        let bytes = &self.buffer[..self.count.min(self.buffer.len())];
        let skipped = at.saturating_sub(self.place) as usize;
        let rest = &bytes[skipped.min(bytes.len())..];
        &rest[..len.min(rest.len())]
    }
}
