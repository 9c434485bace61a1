//! A site in memory as a site, with all that a crash may leave of it.
ghost use Rattle.std.specs.Prelude.{◌≡◌, ◌≤◌, length, take, Some, None};
ghost use Rattle.std.specs.Prelude.{IfOk, OnErr, IsSome, option_map};
ghost use Rattle.outside.specs.Causes.{HasCause};
ghost use Rattle.outside.specs.Disk.{IsTorn, IsShortened, IsRemoved};
ghost use Rattle.outside.specs.Disk.{Within, Follows, Settles};
ghost use Rattle.outside.specs.Files.{content, written, Reads, Sets, Keeps};
ghost use Rattle.mem_outside.specs.Calls.{IsDueCall};
ghost use Rattle.mem_outside.specs.MemSite.{files_of, calls_of, start_of, steps_of};
ghost use Rattle.mem_outside.specs.MemSite.{leaves_of, moment_of, images_of};
ghost use Rattle.mem_outside.specs.MemSite.{IsStill, IsKept, TimePasses};
ghost use Rattle.mem_outside.specs.StepLaws.{reads_image, counts_now, only_now};
ghost use Rattle.mem_outside.specs.declared.step.Change.TheVariants.{Write as WriteChange};
ghost use Rattle.mem_outside.specs.declared.step.Change.TheVariants.{Cut as CutChange};
ghost use Rattle.mem_outside.specs.declared.step.Change.TheVariants.{Remove as RemoveChange};
ghost use Rattle.mem_outside.specs.declared.step.Change.TheVariants.{Sync as SyncChange};

use super::MemSite;
use crate::entries;
use crate::step::Change;
use flow_types::{Bytes, Name};
use outside::{Fault, Site};

impl Site for MemSite {
    ghost tells = { Unit {0} };

    ghost files = { files_of };

    ghost may_leave = { leaves_of };

    ghost moment = { moment_of };

    ghost images_since = { images_of };

    ghost count = { λ site. (calls_of site).faults };

    ghost ample = { λ site. ⊥ };

    ghost reads_image = { λ told site.
        reads_image (start_of site) (steps_of site) (files_of site) site.agrees };

    ghost counts_now = { λ told site t image le is.
        counts_now (start_of site) (steps_of site) t image le is };

    ghost only_now = { λ told site image since.
        only_now (start_of site) (steps_of site) image since };

    ghost ample_below = { λ site never. absurd never };

    fn size(&mut self, name: &Name) -> Result<Option<u64>, Fault>
        ensures size { IfOk result (λ size. size ≡ option_map length (files_of self.old name.now)) }
        ensures files { files_of self.new ≡ files_of self.old }
        ensures still { IsStill self.old self.new }
        ensures crash { Within (leaves_of self.old) (leaves_of self.new) }
        ensures time { TimePasses self.old self.new }
        ensures cause { HasCause (calls_of self.old).faults (calls_of self.new).faults result }
        ensures call { IsDueCall (calls_of self.old) (calls_of self.new) result }
    {
        self.calls.begin()?;
        match entries::file(&self.entries, name.as_bytes()) {
            Some(bytes) => Ok(Some(bytes.len() as u64)),
            None => Ok(None),
        }
    }

    fn read(&mut self, name: &Name, at: u64, into: &mut [u8]) -> Result<usize, Fault>
        ensures bound { IfOk result (λ count. count ≤ length into.new) }
        ensures bytes { IfOk result (λ count.
            Reads (content (files_of self.old name.now)) at into.old into.new count) }
        ensures files { files_of self.new ≡ files_of self.old }
        ensures still { IsStill self.old self.new }
        ensures crash { Within (leaves_of self.old) (leaves_of self.new) }
        ensures time { TimePasses self.old self.new }
        ensures cause { HasCause (calls_of self.old).faults (calls_of self.new).faults result }
        ensures call { IsDueCall (calls_of self.old) (calls_of self.new) result }
    {
        self.calls.begin()?;
        match entries::file(&self.entries, name.as_bytes()) {
            Some(bytes) => Ok(fill(bytes, at as usize, into)),
            None => Ok(0),
        }
    }

    fn write(&mut self, name: &Name, at: u64, bytes: &[u8]) -> Result<(), Fault>
        requires { at ≤ length (content (files_of self.old name.now)) }
        ensures files { Sets result name.now
            (Some (written at bytes.now (content (files_of self.old name.now))))
            (files_of self.old) (files_of self.new) }
        ensures err { OnErr result (files_of self.new ≡ files_of self.old) }
        ensures kept { IsKept result name.now (WriteChange at bytes.now) self.old self.new }
        ensures crash { Follows result name.now (IsTorn at (length bytes.now))
            (leaves_of self.old) (leaves_of self.new) }
        ensures time { TimePasses self.old self.new }
        ensures cause { HasCause (calls_of self.old).faults (calls_of self.new).faults result }
        ensures call { IsDueCall (calls_of self.old) (calls_of self.new) result }
    {
        let call = self.calls.made();
        self.calls.begin()?;
        let copy = Bytes::of(self.alloc, bytes)?;
        self.keep(call, name, Change::Write(at, copy))
    }

    fn cut(&mut self, name: &Name, len: u64) -> Result<(), Fault>
        requires there { IsSome (files_of self.old name.now) }
        requires within { len ≤ length (content (files_of self.old name.now)) }
        ensures files { Sets result name.now
            (Some (take len (content (files_of self.old name.now))))
            (files_of self.old) (files_of self.new) }
        ensures err { OnErr result (files_of self.new ≡ files_of self.old) }
        ensures kept { IsKept result name.now (CutChange len) self.old self.new }
        ensures crash { Follows result name.now (IsShortened len)
            (leaves_of self.old) (leaves_of self.new) }
        ensures time { TimePasses self.old self.new }
        ensures cause { HasCause (calls_of self.old).faults (calls_of self.new).faults result }
        ensures call { IsDueCall (calls_of self.old) (calls_of self.new) result }
    {
        let call = self.calls.made();
        self.calls.begin()?;
        self.keep(call, name, Change::Cut(len))
    }

    fn sync(&mut self, name: &Name) -> Result<(), Fault>
        ensures files { Keeps result name.now (files_of self.old) (files_of self.new) }
        ensures same { files_of self.new ≡ files_of self.old }
        ensures kept { IsKept result name.now SyncChange self.old self.new }
        ensures crash { Settles result name.now (files_of self.new)
            (leaves_of self.old) (leaves_of self.new) }
        ensures time { TimePasses self.old self.new }
        ensures cause { HasCause (calls_of self.old).faults (calls_of self.new).faults result }
        ensures call { IsDueCall (calls_of self.old) (calls_of self.new) result }
    {
        let call = self.calls.made();
        self.calls.begin()?;
        self.keep(call, name, Change::Sync)
    }

    fn remove(&mut self, name: &Name) -> Result<(), Fault>
        ensures files { Sets result name.now None (files_of self.old) (files_of self.new) }
        ensures err { OnErr result (files_of self.new ≡ files_of self.old) }
        ensures kept { IsKept result name.now RemoveChange self.old self.new }
        ensures crash { Follows result name.now IsRemoved
            (leaves_of self.old) (leaves_of self.new) }
        ensures time { TimePasses self.old self.new }
        ensures cause { HasCause (calls_of self.old).faults (calls_of self.new).faults result }
        ensures call { IsDueCall (calls_of self.old) (calls_of self.new) result }
    {
        let call = self.calls.made();
        self.calls.begin()?;
        self.keep(call, name, Change::Remove)
    }

    fn faults(&self) -> u64
        ensures { result ≡ (calls_of self.now).faults }
    {
        self.calls.faults()
    }
}

// Fills from the bytes that begin at `at`, and answers how many it gave.
fn fill(bytes: &[u8], at: usize, into: &mut [u8]) -> usize
    ensures { Reads bytes.now at into.old into.new result }
{
    if at >= bytes.len() {
        return 0;
    }
    let rest = &bytes[at..];
    let count = rest.len().min(into.len());
    into[..count].copy_from_slice(&rest[..count]);
    count
}
