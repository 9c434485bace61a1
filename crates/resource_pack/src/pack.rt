//! The links, and what runs on each.
ghost use Rattle.std.specs.Prelude.{◌≡◌, ◌+◌, ◌≤◌, ◌<◌, ◌++◌, ◌∷◌, [], ℕ, length, IfSome, IsSome, Some, None, OnOk, OnErr, true, false};
ghost use Rattle.std.specs.List.{position_or_len};
ghost use Rattle.run_history.specs.Links.{taken_on};
ghost use Rattle.resource_pack.specs.Packing.{PackedLink, empty_link, fits_on, has_load, is_link, link_in, loaded, row_on, stating, unloaded, with_link, without_link};

use crate::held::Held;
use flow_types::{Amounts, LinkNo, Memory, Needs};
use std::alloc::Global;
use std::marker::Model;

/// The links that live, in the order in which they came, and what runs on each.
///
/// Link 0 is the local place: its cache has no bound, and a task that needs the whole of it takes one core.
#[derive(Drop)]
pub struct Pack {
    alloc: Global,
    links: Vec<Held>,
}

impl Model for Pack {
    ghost use Rattle.std.specs.Prelude.{List};
    ghost use Rattle.resource_pack.specs.Packing.{PackedLink};

    ghost Value = { List PackedLink };

    ghost view = { λ p. p.links.items };
}

impl Pack {
    /// No link.
    pub fn new(alloc: Global) -> Pack
        ensures { result ≡ [] }
    {
        Pack {
            alloc,
            links: Vec::new(alloc),
        }
    }

    /// A link comes, and nothing runs on it. The cache is in bytes.
    pub fn add(
        &mut self,
        link: LinkNo,
        total: Amounts,
        largest: Amounts,
        cache: u64,
    ) -> Result<(), Memory>
        requires { link_in link.0 self.old ≡ None }
        ensures ok { OnOk result (self.new ≡ self.old ++ empty_link link.0 total largest cache ∷ []) }
        ensures err { OnErr result (self.new ≡ self.old) }
    {
        let Ok(held) = Held::new(self.alloc, link, total, largest, cache) else {
            return Err(Memory);
        };
        match self.links.push(held) {
            Ok(()) => Ok(()),
            Err(_) => Err(Memory),
        }
    }

    /// The link states these amounts from now on. What runs there goes on, also where it fits no more.
    pub fn change(&mut self, link: LinkNo, total: Amounts, largest: Amounts, cache: u64)
        requires { IsSome (link_in link.0 self.old) }
        ensures { self.new ≡ with_link link.0 (stating (row_on link.0 total largest cache)) self.old }
    {
        let at = place_of(&self.links, link);
        self.links[at].change(total, largest, cache);
    }

    /// Whether a task with these needs and so many bytes of inputs fits the link beside what runs there.
    pub fn fits(&self, link: LinkNo, needs: Needs, bytes: u64) -> bool
        requires { IsSome (link_in link.0 self.now) }
        ensures { result ≡ fits_on self.now link.0 (record { needs = needs; bytes = bytes }) }
    {
        self.links[place_of(&self.links, link)].has_room(needs, bytes)
    }

    /// What runs on the link takes of it together; of the whole of a link that is its present total.
    /// It adds up what runs there.
    pub fn used(&self, link: LinkNo) -> Amounts
        requires { IsSome (link_in link.0 self.now) }
        ensures { IfSome (link_in link.0 self.now)
            (λ packed. result ≡ taken_on link.0 packed.row.total packed.loads) }
    {
        self.links[place_of(&self.links, link)].used()
    }

    /// The task runs on the link from now on.
    pub fn take(&mut self, link: LinkNo, needs: Needs, bytes: u64)
        requires { fits_on self.old link.0 (record { needs = needs; bytes = bytes }) ≡ true }
        ensures { self.new ≡ with_link link.0 (loaded (record { needs = needs; bytes = bytes })) self.old }
    {
        let at = place_of(&self.links, link);
        self.links[at].take(needs, bytes);
    }

    /// The task runs there no more.
    pub fn give(&mut self, link: LinkNo, needs: Needs, bytes: u64)
        requires { has_load self.old link.0 (record { needs = needs; bytes = bytes }) ≡ true }
        ensures { self.new ≡ with_link link.0 (unloaded (record { needs = needs; bytes = bytes })) self.old }
    {
        let at = place_of(&self.links, link);
        self.links[at].give(needs, bytes);
    }

    /// The link leaves.
    pub fn drop_link(&mut self, link: LinkNo)
        requires there { IsSome (link_in link.0 self.old) }
        requires idle { IfSome (link_in link.0 self.old) (λ packed. packed.loads ≡ []) }
        ensures { self.new ≡ without_link link.0 self.old }
    {
        let at = place_of(&self.links, link);
        let _ = self.links.remove(at);
    }
}

// The place of a link among the links, or the number of links.
fn place_of(links: &[Held], link: LinkNo) -> usize
    ensures { result ≡ position_or_len (is_link link.0) links.now }
{
    for (at, held) in links.iter().enumerate() {
        if held.link().0 == link.0 {
            return at;
        }
    }
    links.len()
}
