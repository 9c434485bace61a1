//! A site, and what was read from it.
ghost use Rattle.std.specs.Prelude.{◌≡◌, ◌≤◌, length, IfOk, Some};
ghost use Rattle.outside.specs.Causes.{HasCause, IsAmple};
ghost use Rattle.outside.specs.Disk.{IsImage, LeavesOnly, Within};
ghost use Rattle.desk.specs.Inputs.{Finds};
ghost use Rattle.desk.specs.Kept.{logged};

use super::read_logged;
use super::shelf::Shelf;
use flow_types::{Bytes, Content, Name};
use outside::{Fault, Site};
use run_history::Found;
use std::alloc::Global;
use std::marker::Model;

/// A site that keeps contents which were read from it. What is kept of a file is what stands under
/// its name: whatever is written, cut, synced or removed isn't kept any more.
#[derive(Drop)]
pub(crate) struct ShelfSite<S: Site> {
    alloc: Global,
    site: S,
    shelf: Shelf,
}

impl<S: Site> Model for ShelfSite<S> {
    ghost use Rattle.desk.specs.Shelves.{AreThere};

    ghost Value = { S };

    ghost view = { λ s. s.site };

    ghost invariant = { λ s. S.tells → AreThere s.shelf (S.files s.site) };
}

impl<S: Site> ShelfSite<S> {
    /// A site of which nothing is kept yet.
    pub(crate) fn new(alloc: Global, site: S) -> ShelfSite<S>
        ensures { result ≡ site }
    {
        ShelfSite {
            alloc,
            site,
            shelf: Shelf::new(alloc),
        }
    }

    /// The site.
    pub(crate) fn into_site(self) -> S
        ensures { result ≡ self }
    {
        self.site
    }

    /// Keeps what was read of a file, and stands under its name still.
    pub(crate) fn keep(&mut self, name: &Name, content: Content, bytes: Bytes)
        requires there { S.tells → S.files self.old name.now ≡ Some bytes }
        requires whole { content ≡ logged bytes }
        ensures { self.new ≡ self.old }
    {
        self.shelf.keep(self.alloc, name, content, bytes);
    }

    /// The content of a file as it was logged, or what stands in its place. Where it is kept the
    /// site isn't called. The buffer is as long as what was logged.
    pub(crate) fn read_logged(
        &mut self,
        buffer: Vec<u8>,
        name: &Name,
        content: Content,
    ) -> Result<Result<Bytes, Found>, Fault>
        requires { length buffer.items ≡ content.size }
        ensures found { IfOk result (λ found. S.tells
            → Finds content (S.files self.old name.now) found) }
        ensures whole { IfOk result (λ found. IfOk found (λ bytes. content ≡ logged bytes)) }
        ensures files { S.tells → S.files self.new ≡ S.files self.old }
        ensures within { S.tells → Within (S.may_leave self.old) (S.may_leave self.new) }
        ensures any_moment { S.tells
            → LeavesOnly S.moment S.images_since self.old self.new (IsImage (S.may_leave self.old)) }
        ensures cause { HasCause (S.count self.old) (S.count self.new) result }
        ensures ample { IsAmple (S.ample self.old) (S.ample self.new) (S.count self.new) result }
    {
        if let Some(bytes) = self.shelf.find(name, content) {
            return Ok(Ok(copied(buffer, bytes)));
        }
        match read_logged(buffer, &mut self.site, name, content) {
            Ok(Ok(bytes)) => {
                self.shelf
                    .keep_copy(self.alloc, name, content, bytes.as_slice());
                Ok(Ok(bytes))
            }
            Ok(Err(found)) => Ok(Err(found)),
            Err(fault) => Err(fault),
        }
    }
}

/// These bytes, in the room of the buffer.
fn copied(buffer: Vec<u8>, bytes: &[u8]) -> Bytes
    requires { length buffer.items ≡ length bytes.now }
    ensures { result ≡ bytes.now }
{
    let mut buffer = buffer;
    buffer.as_mut_slice().copy_from_slice(bytes);
    Bytes::from_vec(buffer)
}

impl<S: Site> Site for ShelfSite<S> {
    ghost tells = { S.tells };

    ghost files = { λ s. S.files s };

    ghost may_leave = { λ s. S.may_leave s };

    ghost moment = { λ s. S.moment s };

    ghost images_since = { λ s. S.images_since s };

    ghost count = { λ s. S.count s };

    ghost ample = { λ s. S.ample s };

    fn size(&mut self, name: &Name) -> Result<Option<u64>, Fault> {
        self.site.size(name)
    }

    fn read(&mut self, name: &Name, at: u64, into: &mut [u8]) -> Result<usize, Fault> {
        self.site.read(name, at, into)
    }

    fn write(&mut self, name: &Name, at: u64, bytes: &[u8]) -> Result<(), Fault> {
        self.shelf.forget(name);
        self.site.write(name, at, bytes)
    }

    fn cut(&mut self, name: &Name, len: u64) -> Result<(), Fault> {
        self.shelf.forget(name);
        self.site.cut(name, len)
    }

    fn sync(&mut self, name: &Name) -> Result<(), Fault> {
        self.shelf.forget(name);
        self.site.sync(name)
    }

    fn remove(&mut self, name: &Name) -> Result<(), Fault> {
        self.shelf.forget(name);
        self.site.remove(name)
    }

    fn faults(&self) -> u64 {
        self.site.faults()
    }

    ghost reads_image = { λ told s. S.reads_image told s };

    ghost counts_now = { λ told s t image le left. S.counts_now told s t image le left };

    ghost only_now = { λ told s image left. S.only_now told s image left };

    ghost ample_below = { λ s is. S.ample_below s is };
}
