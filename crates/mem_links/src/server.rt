//! A server behind a link in memory: a worker whose commands leave each output empty.
ghost use Rattle.std.specs.Prelude.{◌≡◌, IfOk};
ghost use Rattle.mem_links.specs.Servers.{new_server, Hears};

use crate::hearing::hear_all;
use crate::mem_link::LinkStep;
use byte_fields::put_bytes;
use flow_types::{Amounts, Key, Memory};
use std::alloc::Global;
use std::collections::VecDeque;
use std::marker::Model;

/// What it offers, the keys that were put, and the bytes behind the last message that came whole.
#[derive(Drop)]
pub(crate) struct Server {
    total: Amounts,
    cache: u64,
    keys: Vec<Key>,
    rest: Vec<u8>,
}

impl Model for Server {
    ghost use Rattle.mem_links.specs.Servers.{ServerState};

    ghost Value = { ServerState };

    ghost view = { λ s. record {
      total = s.total;
      cache = s.cache;
      keys = s.keys.items;
      rest = s.rest.items;
    } };
}

impl Server {
    // A server to which nothing came.
    pub(crate) fn new(alloc: Global, total: Amounts, cache: u64) -> Server
        ensures { result ≡ new_server total cache }
    {
        Server {
            total,
            cache,
            keys: Vec::new(alloc),
            rest: Vec::new(alloc),
        }
    }

    // The server after these bytes, and what it gives for them.
    pub(crate) fn after(
        &self,
        alloc: Global,
        bytes: &[u8],
    ) -> Result<(Server, VecDeque<LinkStep>), Memory>
        ensures { IfOk result (λ x. Hears self.now bytes.now x.0 x.1.items) }
    {
        let mut all = copied(alloc, self.rest.as_slice())?;
        put_bytes(&mut all, bytes)?;
        let mut keys = copied(alloc, self.keys.as_slice())?;
        let mut gives = VecDeque::new(alloc);
        let rest = hear_all(alloc, all.as_slice(), &mut keys, &mut gives)?;
        let server = Server {
            total: self.total,
            cache: self.cache,
            keys,
            rest: copied(alloc, rest)?,
        };
        Ok((server, gives))
    }
}

fn copied<T: Copy>(alloc: Global, items: &[T]) -> Result<Vec<T>, Memory>
    ensures { IfOk result (λ copy. copy.items ≡ items.now) }
{
    match Vec::from_slice(alloc, items) {
        Ok(copy) => Ok(copy),
        Err(_) => Err(Memory),
    }
}
