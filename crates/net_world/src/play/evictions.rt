//! Peers that are evicted.
ghost use Rattle.std.specs.Prelude.{◌≡◌, find, slice_get, OnOk};
ghost use Rattle.std.specs.Option.{option_map};
ghost use Rattle.net_world.specs.Done.{parted_from};
ghost use Rattle.world_laws.specs.Worlds.{at_peer, evicts, goes, loses_below, parts};
ghost use Rattle.net_world.specs.Plays.{Turns};

use crate::play::{Line, Play};
use flow_types::{LinkNo, Memory};
use world_peers::{Parting, cut_under};

impl Play {
    // The link of a peer is lost, where it has one.
    fn part(&mut self, peer: u32) -> Result<(), Memory>
        ensures { OnOk result (Turns (λ P O w. parts P w (find (at_peer peer) w.connections))
            self.old self.new) }
    {
        match link_of(&self.lines, peer) {
            Some(link) => self.lose_link(link),
            None => Ok(()),
        }
    }

    // A foreman loses a link.
    fn lose_below(&mut self, foreman: u32, link: LinkNo) -> Result<(), Memory>
        ensures { OnOk result (Turns
            (λ P O w. loses_below w foreman link (slice_get w.peers foreman))
            self.old self.new) }
    {
        let Some(member) = self.peers.get_mut(foreman as usize) else {
            return Ok(());
        };
        let doing = member.lose(link)?;
        self.carry_out(foreman, doing)
    }

    // What is to be done where a peer is gone.
    fn part_from(&mut self, peer: u32, parting: Parting) -> Result<(), Memory>
        ensures { OnOk result (Turns (λ P O w. parted_from w peer parting) self.old self.new) }
    {
        match parting {
            Parting::Nothing => Ok(()),
            Parting::Below { foreman, link } => self.lose_below(foreman, link),
            Parting::Lead => {
                cut_under(&mut self.peers, peer);
                Ok(())
            }
        }
    }

    // A peer is gone. A foreman where it had a link loses that link, and with a foreman its workers'
    // links there end.
    fn go(&mut self, peer: u32) -> Result<(), Memory>
        ensures { OnOk result (Turns (λ P O w. goes w peer (slice_get w.peers peer))
            self.old self.new) }
    {
        let Some(member) = self.peers.get_mut(peer as usize) else {
            return Ok(());
        };
        let parting = member.depart();
        self.part_from(peer, parting)
    }

    // A peer's link is lost, and the peer is gone.
    pub(crate) fn evict(&mut self, peer: u32) -> Result<(), Memory>
        ensures { OnOk result (Turns (λ P O w. evicts P w peer) self.old self.new) }
    {
        self.part(peer)?;
        self.go(peer)
    }
}

// The link of a peer, where it has one.
pub(crate) fn link_of(lines: &[Line], peer: u32) -> Option<LinkNo>
    ensures { option_map (λ link. link.0) result
        ≡ option_map (λ c. c.link) (find (at_peer peer) lines.now) }
{
    for line in lines {
        if line.peer == peer {
            return Some(line.link);
        }
    }
    None
}
