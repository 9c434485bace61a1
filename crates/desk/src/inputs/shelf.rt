//! Contents that were read and are kept, so that they aren't read and hashed again.
ghost use Rattle.std.specs.Prelude.{◌≡◌, ◌≤◌, ◌<◌, ◌+◌, ℕ, [], length, drop, filter, not};
ghost use Rattle.std.specs.Prelude.{Contains, IfSome, true};
ghost use Rattle.std.specs.Str.{bytes_eq};
ghost use Rattle.desk.specs.Kept.{logged};
ghost use Rattle.desk.specs.Shelves.{IsPutOn, bytes_on, least_kept, most_kept, most_together};

use flow_types::{Bytes, Content, Name};
use std::alloc::Global;
use std::marker::Model;

/// A smaller content isn't kept: it is soon read again.
const LEAST_KEPT: u64 = 65_536;

/// A larger content isn't kept: it would leave no room for others.
const MOST_KEPT: u64 = 67_108_864;

/// So many bytes are kept of all contents together.
const MOST_TOGETHER: u64 = 134_217_728;

/// Whether a content of so many bytes is kept.
fn is_kept(size: u64) -> bool
    ensures { result ≡ true → (least_kept ≤ size) × (size ≤ most_kept) }
{
    LEAST_KEPT <= size && size <= MOST_KEPT
}

/// A content that is kept, and the name of its file.
#[derive(Drop)]
pub(crate) struct Shelved {
    name: Name,
    content: Content,
    bytes: Bytes,
}

impl Shelved {
    fn is_named(&self, name: &Name) -> bool
        ensures { result ≡ bytes_eq self.now.name name.now }
    {
        self.name.as_bytes() == name.as_bytes()
    }

    fn is_of(&self, name: &Name, content: Content) -> bool
        ensures { result ≡ true → (self.now.name ≡ name.now) × (self.now.content ≡ content) }
    {
        self.content == content && self.is_named(name)
    }
}

/// Contents that are kept, the oldest first. Each has the size and the digest that stand beside it,
/// and all together have no more bytes than may be kept.
#[derive(Drop)]
pub(crate) struct Shelf {
    items: Vec<Shelved>,
}

impl Model for Shelf {
    ghost use Rattle.std.specs.Prelude.{List};
    ghost use Rattle.desk.specs.declared.inputs.shelf.Shelved.{Shelved};
    ghost use Rattle.desk.specs.Shelves.{IsShelf};

    ghost Value = { List Shelved };

    ghost view = { λ s. s.items.items };

    ghost invariant = { λ s. IsShelf s.items.items };
}

impl Shelf {
    /// Nothing is kept yet. It takes no memory.
    pub(crate) fn new(alloc: Global) -> Shelf
        ensures { result ≡ [] }
    {
        Shelf {
            items: Vec::new(alloc),
        }
    }

    /// The bytes that are kept of a file with this name, where they have this size and digest.
    pub(crate) fn find(&self, name: &Name, content: Content) -> Option<&[u8]>
        ensures kept { IfSome result (λ bytes. Contains self.now
            (record { name = name.now; content = content; bytes = bytes.now })) }
        ensures whole { IfSome result (λ bytes. content ≡ logged bytes.now) }
    {
        if content.size < LEAST_KEPT {
            return None;
        }
        for shelved in &self.items {
            if shelved.is_of(name, content) {
                return Some(shelved.bytes.as_slice());
            }
        }
        None
    }

    /// Nothing is kept of a file with this name any more.
    pub(crate) fn forget(&mut self, name: &Name)
        ensures { self.new ≡ filter (λ shelved. not (bytes_eq shelved.name name.now)) self.old }
    {
        self.items.retain(|shelved| !shelved.is_named(name));
    }

    fn total(&self) -> u64
        ensures total { result ≡ bytes_on self.now }
        ensures most { result ≤ most_together }
    {
        let mut total = 0;
        for shelved in self.items.as_slice() {
            total += shelved.content.size;
        }
        total
    }

    /// Drops the oldest content, and answers its size.
    fn drop_oldest(&mut self) -> u64
        requires { 0 < length self.old }
        ensures rest { self.new ≡ drop 1 self.old }
        ensures size { result + bytes_on self.new ≡ bytes_on self.old }
    {
        let oldest = self.items.remove(0);
        oldest.content.size
    }

    /// Drops the oldest contents, until so many bytes more may be kept.
    fn make_room(&mut self, size: u64)
        requires { size ≤ most_together }
        ensures room { bytes_on self.new + size ≤ most_together }
        ensures rest { (n : ℕ) × (self.new ≡ drop n self.old) }
    {
        let mut total = self.total();
        while total > MOST_TOGETHER - size {
            let freed = self.drop_oldest();
            total -= freed;
        }
    }

    /// Keeps a content, unless it is small, or large, or memory is wanting. The oldest contents
    /// leave for it.
    pub(crate) fn keep(&mut self, alloc: Global, name: &Name, content: Content, bytes: Bytes)
        requires { content ≡ logged bytes }
        ensures { IsPutOn self.old
            (record { name = name.now; content = content; bytes = bytes }) self.new }
    {
        if !is_kept(content.size) {
            return;
        }
        self.make_room(content.size);
        if let Ok(name) = name.copy(alloc) {
            let _kept = self.items.push(Shelved {
                name,
                content,
                bytes,
            });
        }
    }

    /// Keeps a copy of a content, as `keep` does.
    pub(crate) fn keep_copy(&mut self, alloc: Global, name: &Name, content: Content, bytes: &[u8])
        requires { content ≡ logged bytes.now }
        ensures { IsPutOn self.old
            (record { name = name.now; content = content; bytes = bytes.now }) self.new }
    {
        if !is_kept(content.size) {
            return;
        }
        if let Ok(bytes) = Bytes::of(alloc, bytes) {
            self.keep(alloc, name, content, bytes);
        }
    }
}
