//! Links that begin.
ghost use Rattle.std.specs.Prelude.{◌≡◌, ◌∷◌, ◌++◌, [], find, is_none, slice_get};
ghost use Rattle.std.specs.Prelude.{◌||◌, if◌then◌else◌, IfOk, OnOk, Some};
ghost use Rattle.flow_types.specs.declared.plan.Plan.{Plan as PlanValue};
ghost use Rattle.flow_types.specs.declared.messages.Message.TheVariants as messages;
ghost use Rattle.link_session.specs.Sessions.{State};
ghost use Rattle.run_history.specs.Moves.{join_refusal};
ghost use Rattle.run_history.specs.declared.options.Options.{Options as OptionsValue};
ghost use Rattle.worker_core.specs.Workers.{Worker};
ghost use Rattle.world_laws.specs.declared.events.Joiner.TheVariants as joiners;
ghost use Rattle.world_peers.specs.declared.member.Home.{Home as HomeValue};
ghost use Rattle.world_peers.specs.declared.member.Member.TheVariants as members;
ghost use Rattle.world_peers.specs.Doings.{next_number};
ghost use Rattle.world_peers.specs.Peers.{Lead, Machine};
ghost use Rattle.world_laws.specs.Worlds.{World, at_peer, back_to, comes_again};
ghost use Rattle.world_laws.specs.Worlds.{comes_below, greeted, joins, linked, welcomed};
ghost use Rattle.net_world.specs.Plays.{IsShown, Turns};

use crate::play::evictions::link_of;
use crate::play::{Line, Play};
use flow_types::{Amounts, LinkNo, Memory, Message};
use link_session::Session;
use std::alloc::Global;
use world_laws::Joiner;
use world_peers::{
    Home, Leader, Member, NOTHING, Peer, Returning, add_peer, is_below_at, next_link, next_number,
};
use wq_messages::{read_message, write_message};

/// The most links that live, the local place among them, when one more may join.
const MOST_LINKS: usize = 32;

/// The most joins and changes.
const MOST_JOINS: u64 = 1_000_000;

impl Play {
    // One more link may join.
    fn has_join_room(&self) -> bool
        ensures { (P : PlanValue) (O : OptionsValue) (w : World) → IsShown P O w self.now
            → result ≡ is_none (join_refusal O w.moves) }
    {
        if self.table.link_count() > MOST_LINKS {
            return false;
        }
        self.table.join_count() < MOST_JOINS
    }

    // A peer gets a link of the master, and its hello with these amounts is heard at once.
    fn connect(
        &mut self,
        peer: u32,
        total: Amounts,
        largest: Amounts,
        cache: u64,
    ) -> Result<(), Memory>
        ensures { OnOk result (Turns (λ P O w. linked w peer total largest cache)
            self.old self.new) }
    {
        let Ok(link) = self.table.join(total, largest, cache) else {
            return Err(Memory);
        };
        let run = self.table.runs_so_far().saturating_sub(1);
        let session = greeted(self.alloc, run, total, largest, cache)?;
        add_line(
            &mut self.lines,
            Line {
                link,
                peer,
                session,
            },
        )
    }

    // A new worker joins the master, where it gets a number.
    fn come(&mut self, total: Amounts, cache: u64) -> Result<(), Memory>
        ensures { OnOk result (Turns (λ P O w. joins w (joiners.Worker total cache))
            self.old self.new) }
    {
        let Some(peer) = next_number(self.peers.as_slice()) else {
            return Ok(());
        };
        let worker = Peer::new(self.alloc, total, cache);
        let home = Home::AtMaster;
        add_peer(&mut self.peers, Member::Works { home, worker })?;
        self.connect(peer, total, total, cache)
    }

    // A new foreman joins the master, where it gets a number.
    fn come_foreman(&mut self, cache: u64) -> Result<(), Memory>
        ensures { OnOk result (Turns (λ P O w. joins w (joiners.Foreman cache))
            self.old self.new) }
    {
        let Some(peer) = next_number(self.peers.as_slice()) else {
            return Ok(());
        };
        add_peer(
            &mut self.peers,
            Member::Leads(Leader::new(self.alloc, cache)),
        )?;
        self.connect(peer, NOTHING, NOTHING, 0)
    }

    // A worker that has these amounts and this cache comes to a foreman over its next link.
    fn welcome(&mut self, foreman: u32, total: Amounts, cache: u64) -> Result<(), Memory>
        ensures { OnOk result ((P : PlanValue) (O : OptionsValue) (w : World) (lead : Lead)
            (worker : Worker) → slice_get w.peers foreman ≡ Some (members.Leads lead)
            → worker.total ≡ total → worker.cache.cap ≡ cache → IsShown P O w self.old
            → IsShown P O (welcomed w foreman lead worker) self.new) }
    {
        let Some(member) = self.peers.get_mut(foreman as usize) else {
            return Err(Memory);
        };
        let doing = member.welcome(self.alloc, total, cache)?;
        self.carry_out(foreman, doing)
    }

    // A new worker comes to a foreman, where somebody may come to it and the worker gets a number.
    fn come_below(&mut self, foreman: u32, total: Amounts, cache: u64) -> Result<(), Memory>
        ensures { OnOk result (Turns (λ P O w. joins w (joiners.WorkerAt foreman total cache))
            self.old self.new) }
    {
        let Some(link) = next_link(self.peers.as_slice(), foreman) else {
            return Ok(());
        };
        if next_number(self.peers.as_slice()).is_none() {
            return Ok(());
        }
        let worker = Peer::new(self.alloc, total, cache);
        let home = Home::AtForeman {
            foreman,
            link: Some(link),
        };
        add_peer(&mut self.peers, Member::Works { home, worker })?;
        self.welcome(foreman, total, cache)
    }

    // An earlier worker comes to its foreman again, where somebody may come to it.
    fn come_back(&mut self, peer: u32, foreman: u32) -> Result<(), Memory>
        ensures { OnOk result ((P : PlanValue) (O : OptionsValue) (w : World) (home : HomeValue)
            (machine : Machine) → slice_get w.peers peer ≡ Some (members.Works home machine)
            → IsShown P O w self.old
            → IsShown P O (back_to w peer foreman machine (slice_get w.peers foreman)) self.new) }
    {
        let Some(link) = next_link(self.peers.as_slice(), foreman) else {
            return Ok(());
        };
        let Some(member) = self.peers.get_mut(peer as usize) else {
            return Ok(());
        };
        let (total, cache) = member.attach(foreman, link);
        self.welcome(foreman, total, cache)
    }

    // An earlier peer comes again, where it isn't gone and has no link.
    fn come_again(&mut self, peer: u32) -> Result<(), Memory>
        ensures { OnOk result (Turns
            (λ P O w. comes_again w peer (find (at_peer peer) w.connections)
            (slice_get w.peers peer)) self.old self.new) }
    {
        if link_of(&self.lines, peer).is_some() {
            return Ok(());
        }
        let Some(member) = self.peers.get(peer as usize) else {
            return Ok(());
        };
        match member.returning() {
            Returning::Nowhere => Ok(()),
            Returning::ToMaster {
                total,
                largest,
                cache,
            } => self.connect(peer, total, largest, cache),
            Returning::ToForeman(foreman) => self.come_back(peer, foreman),
        }
    }

    // Who joins comes to a foreman.
    fn comes_below(&self, joiner: Joiner) -> bool
        ensures { (P : PlanValue) (O : OptionsValue) (w : World) → IsShown P O w self.now
            → result ≡ comes_below w joiner }
    {
        match joiner {
            Joiner::Worker { .. } | Joiner::Foreman { .. } => false,
            Joiner::WorkerAt { .. } => true,
            Joiner::Again { peer } => is_below_at(self.peers.as_slice(), peer),
        }
    }

    // Who joins comes to a foreman, or one more link of the master may join.
    fn may_join(&self, joiner: Joiner) -> bool
        ensures { (P : PlanValue) (O : OptionsValue) (w : World) → IsShown P O w self.now
            → result ≡ comes_below w joiner || is_none (join_refusal O w.moves) }
    {
        if self.comes_below(joiner) {
            return true;
        }
        self.has_join_room()
    }

    // Who joins comes.
    fn join_now(&mut self, joiner: Joiner) -> Result<(), Memory>
        ensures { OnOk result (Turns (λ P O w. joins w joiner) self.old self.new) }
    {
        match joiner {
            Joiner::Worker { total, cache } => self.come(total, cache),
            Joiner::Foreman { cache } => self.come_foreman(cache),
            Joiner::WorkerAt {
                foreman,
                total,
                cache,
            } => self.come_below(foreman, total, cache),
            Joiner::Again { peer } => self.come_again(peer),
        }
    }

    // Somebody joins: a foreman, or the master where one more link may join.
    pub(crate) fn join(&mut self, joiner: Joiner) -> Result<(), Memory>
        ensures { OnOk result (Turns
            (λ P O w. if comes_below w joiner || is_none (join_refusal O w.moves)
            then joins w joiner else w) self.old self.new) }
    {
        if !self.may_join(joiner) {
            return Ok(());
        }
        self.join_now(joiner)
    }
}

// One more link.
fn add_line(lines: &mut Vec<Line>, line: Line) -> Result<(), Memory>
    ensures { OnOk result (lines.new.items ≡ lines.old.items ++ line ∷ []) }
{
    match lines.push(line) {
        Ok(()) => Ok(()),
        Err(_) => Err(Memory),
    }
}

// A session of a run in which a worker's hello was heard and nothing was sent.
pub(crate) fn greeted(
    alloc: Global,
    run: u64,
    total: Amounts,
    largest: Amounts,
    cache: u64,
) -> Result<Session, Memory>
    ensures { IfOk result (λ session. (fresh : State)
        → session ≡ greeted fresh run (messages.Hello total largest cache)) }
{
    let hello = Message::Hello {
        total,
        largest,
        cache,
    };
    let body = write_message(alloc, &hello)?;
    let mut session = Session::new(alloc, run);
    let Ok(view) = read_message(body.as_slice()) else {
        return Err(Memory);
    };
    match session.on_message(&view) {
        Ok(_) => Ok(session),
        Err(_) => Err(Memory),
    }
}
