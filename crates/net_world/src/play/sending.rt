//! Messages that the master sends.
ghost use Rattle.std.specs.Prelude.{◌≡◌, ◌∷◌, ◌++◌, [], ℕ, filter_map, map, OnOk};
ghost use Rattle.world_contents.specs.Holdings.{held_in};
ghost use Rattle.net_world.specs.Plays.{Turns};
ghost use Rattle.world_peers.specs.Peers.{down_to};
ghost use Rattle.world_laws.specs.Worlds.{put_of, puts_and_task, sent_more};

use crate::play::Play;
use flow_types::{Bytes, FileNo, Key, Memory, Message, Task};
use std::alloc::Global;
use world_contents::content_at;
use world_peers::{Party, Sent};

impl Play {
    // The Puts of these files and then the task go to a peer.
    pub(crate) fn send_task(
        &mut self,
        peer: u32,
        files: &[FileNo],
        task: Task,
    ) -> Result<(), Memory>
        ensures { OnOk result (Turns
            (λ P O w. sent_more w (puts_and_task w peer files.now task)) self.old self.new) }
    {
        let contents = self.contents.as_slice();
        put_all(self.alloc, &mut self.bag, contents, peer, task.run, files)?;
        send_down(&mut self.bag, peer, Message::Task(task))
    }
}

// A message goes to a peer.
pub(crate) fn send_down(bag: &mut Vec<Sent>, peer: u32, message: Message) -> Result<(), Memory>
    ensures { OnOk result (bag.new.items ≡ bag.old.items ++ down_to peer message ∷ []) }
{
    let sent = Sent {
        from: Party::Master,
        to: Party::Peer(peer),
        message,
    };
    match bag.push(sent) {
        Ok(()) => Ok(()),
        Err(_) => Err(Memory),
    }
}

// A Put of a file goes to a peer, where its content is held.
fn put(
    alloc: Global,
    bag: &mut Vec<Sent>,
    contents: &[Option<Bytes>],
    peer: u32,
    run: u64,
    file: FileNo,
) -> Result<(), Memory>
    ensures { OnOk result (bag.new.items ≡ bag.old.items
        ++ map (down_to peer) (filter_map (put_of (held_in contents.now) run) (file ∷ []))) }
{
    match content_at(contents, file) {
        Some(held) => {
            let content = Bytes::of(alloc, held.as_slice())?;
            let key = Key { run, file };
            send_down(bag, peer, Message::Put { key, content })
        }
        None => Ok(()),
    }
}

// A Put of each of these files goes to a peer.
fn put_all(
    alloc: Global,
    bag: &mut Vec<Sent>,
    contents: &[Option<Bytes>],
    peer: u32,
    run: u64,
    files: &[FileNo],
) -> Result<(), Memory>
    ensures { OnOk result (bag.new.items ≡ bag.old.items
        ++ map (down_to peer) (filter_map (put_of (held_in contents.now) run) files.now)) }
{
    for file in files {
        put(alloc, bag, contents, peer, run, *file)?;
    }
    Ok(())
}
