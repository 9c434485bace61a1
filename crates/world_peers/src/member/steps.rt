//! Steps of peers.
ghost use Rattle.std.specs.Prelude.{◌≡◌, ◌<◌, ◌≤◌, IfOk, IsErrOf, OnOk, Some};
ghost use Rattle.flow_types.specs.declared.job.Job.{Job as JobValue};
ghost use Rattle.foreman_core.specs.Steps.{hears_down};
ghost use Rattle.world_peers.specs.declared.doing.Doing.TheVariants as doings;
ghost use Rattle.world_peers.specs.Doings.{IsStep, RunsMember, departed, hears_master, hears_peer};
ghost use Rattle.world_peers.specs.Doings.{attached, home_parting, home_returning, loses_at};
ghost use Rattle.world_peers.specs.Doings.{next_at, parting_of, returning_of, welcomes};
ghost use Rattle.world_peers.specs.declared.member.Home.{Home as HomeValue};
ghost use Rattle.world_peers.specs.declared.member.Member.TheVariants as members;
ghost use Rattle.world_peers.specs.Runs.{EndsSo};
ghost use Rattle.world_peers.specs.Peers.{Machine, stepped_lead};
ghost use Rattle.world_peers.specs.Company.{cut_off, is_below, left_home, party_of};

use crate::doing::{Doing, Parting, Returning};
use crate::leader::NOTHING;
use crate::spelling::body_of;
use crate::{Home, Leader, Member, Party, Peer, WorldFault};
use flow_types::{Amounts, LinkNo, Memory, Message};
use outside::{Commands, Runner};
use std::alloc::Global;
use wq_messages::read_message;

impl Member {
    /// A message of the master comes.
    pub fn hear(&mut self, message: Message) -> Result<Doing, Memory>
        ensures { IfOk result (λ doing. IsStep (hears_master self.old message) self.new doing) }
    {
        match self {
            Member::Works { home, worker } => match home {
                Home::AtMaster => {
                    let sent = worker.hear(message)?;
                    Ok(Doing::Tells {
                        to: Party::Master,
                        sent,
                    })
                }
                Home::AtForeman { .. } => Ok(Doing::Nothing),
            },
            Member::Leads(leader) => {
                let acts = leader.hear(message)?;
                Ok(Doing::Carries(acts))
            }
        }
    }

    /// A message of another peer comes, which has this link here, if it is a worker of this peer.
    pub fn hear_peer(
        &mut self,
        alloc: Global,
        from: u32,
        link: Option<LinkNo>,
        message: Message,
    ) -> Result<Doing, Memory>
        ensures { IfOk result (λ doing. IsStep (hears_peer self.old from link message) self.new
            doing) }
    {
        match self {
            Member::Works { home, worker } => match home {
                Home::AtMaster => Ok(Doing::Nothing),
                Home::AtForeman {
                    foreman,
                    link: here,
                } => {
                    let foreman = *foreman;
                    if here.is_none() || foreman != from {
                        return Ok(Doing::Nothing);
                    }
                    let sent = worker.hear(message)?;
                    Ok(Doing::Tells {
                        to: Party::Peer(foreman),
                        sent,
                    })
                }
            },
            Member::Leads(leader) => match link {
                Some(link) => tell(alloc, leader, link, &message),
                None => Ok(Doing::Nothing),
            },
        }
    }

    /// A link of a foreman is lost.
    pub fn lose(&mut self, link: LinkNo) -> Result<Doing, Memory>
        ensures { IfOk result (λ doing. IsStep (loses_at self.old link) self.new doing) }
    {
        match self {
            Member::Works { .. } => Ok(Doing::Nothing),
            Member::Leads(leader) => {
                let acts = leader.lose(link)?;
                Ok(Doing::Carries(acts))
            }
        }
    }

    /// A worker that isn't gone runs its least job.
    pub fn run<F: Commands, R: Runner<F>>(&mut self, runner: &mut R) -> Result<Doing, WorldFault>
        ensures ran { IfOk result (λ doing. ((job : JobValue) → R.tells runner.old job)
            → RunsMember (EndsSo F.gives F.may_fail) self.old self.new doing) }
        ensures cause { IsErrOf result WorldFault.Runner
            → R.count runner.old < R.count runner.new }
        ensures later { R.count runner.old ≤ R.count runner.new }
        ensures still_tells { (job : JobValue) → R.tells runner.old job → R.tells runner.new job }
    {
        match self {
            Member::Works { home, worker } => {
                if worker.is_gone() {
                    return Ok(Doing::Nothing);
                }
                let to = party_of(*home);
                let sent = worker.run(runner)?;
                Ok(Doing::Tells { to, sent })
            }
            Member::Leads(_) => Ok(Doing::Nothing),
        }
    }

    /// The peer is gone, and a worker has no link at a foreman any more.
    pub fn depart(&mut self) -> Parting
        ensures member { self.new ≡ departed self.old }
        ensures parting { result ≡ parting_of self.old }
    {
        match self {
            Member::Works { home, worker } => {
                worker.leave();
                leave_home(home)
            }
            Member::Leads(leader) => {
                leader.leave();
                Parting::Lead
            }
        }
    }

    /// A worker has no link at its foreman any more.
    pub fn cut_off(&mut self)
        ensures { self.new ≡ cut_off self.old }
    {
        if let Member::Works { home, .. } = self {
            leave_home(home);
        }
    }

    /// Where the peer comes to again, where it has no link of the master.
    pub fn returning(&self) -> Returning
        ensures { result ≡ returning_of self.now }
    {
        match self {
            Member::Works { home, worker } => {
                if worker.is_gone() {
                    return Returning::Nowhere;
                }
                returning_home(*home, worker)
            }
            Member::Leads(leader) => {
                if leader.is_gone() {
                    return Returning::Nowhere;
                }
                let (total, largest, cache) = leader.offer();
                Returning::ToMaster {
                    total,
                    largest,
                    cache,
                }
            }
        }
    }

    /// A worker has this link at this foreman from now on; answers what it has, and the bytes that
    /// it may keep.
    pub fn attach(&mut self, foreman: u32, link: LinkNo) -> (Amounts, u64)
        ensures member { self.new ≡ attached foreman link self.old }
        ensures offer { (home : HomeValue) (machine : Machine) → self.old ≡ members.Works home machine
            → (result.0 ≡ machine.worker.total) × (result.1 ≡ machine.worker.cache.cap) }
    {
        match self {
            Member::Works { home, worker } => {
                *home = Home::AtForeman {
                    foreman,
                    link: Some(link),
                };
                worker.offer()
            }
            Member::Leads(_) => (NOTHING, 0),
        }
    }

    /// The number of the next link, where the peer is a foreman to which somebody may come.
    pub fn next_link(&self) -> Option<LinkNo>
        ensures { result ≡ next_at (Some self.now) }
    {
        match self {
            Member::Works { .. } => None,
            Member::Leads(leader) => leader.next_link(),
        }
    }

    /// The peer is a worker of a foreman.
    pub fn is_below(&self) -> bool
        ensures { result ≡ is_below (Some self.now) }
    {
        match self {
            Member::Works { home, .. } => match home {
                Home::AtMaster => false,
                Home::AtForeman { .. } => true,
            },
            Member::Leads(_) => false,
        }
    }

    /// A worker with these amounts and this cache comes to a foreman, over the foreman's next link.
    pub fn welcome(&mut self, alloc: Global, total: Amounts, cache: u64) -> Result<Doing, Memory>
        ensures { IfOk result (λ doing. IsStep (welcomes self.old total cache) self.new doing) }
    {
        match self {
            Member::Works { .. } => Ok(Doing::Nothing),
            Member::Leads(leader) => {
                if !leader.is_open() {
                    return Err(Memory);
                }
                let link = leader.admit();
                let hello = Message::Hello {
                    total,
                    largest: total,
                    cache,
                };
                tell(alloc, leader, link, &hello)
            }
        }
    }
}

// The end of a link at which a worker's home is.
fn party_of(home: Home) -> Party
    ensures { result ≡ party_of home }
{
    match home {
        Home::AtMaster => Party::Master,
        Home::AtForeman { foreman, .. } => Party::Peer(foreman),
    }
}

// A worker has no link at its foreman any more; answers which it had.
fn leave_home(home: &mut Home) -> Parting
    ensures home { home.new ≡ left_home home.old }
    ensures parting { result ≡ home_parting home.old }
{
    match home {
        Home::AtMaster => Parting::Nothing,
        Home::AtForeman { foreman, link } => {
            let foreman = *foreman;
            match link.take() {
                Some(link) => Parting::Below { foreman, link },
                None => Parting::Nothing,
            }
        }
    }
}

// Where a worker with this home comes to again.
fn returning_home(home: Home, worker: &Peer) -> Returning
    ensures { result ≡ home_returning home worker.now }
{
    match home {
        Home::AtMaster => {
            let (total, cache) = worker.offer();
            Returning::ToMaster {
                total,
                largest: total,
                cache,
            }
        }
        Home::AtForeman { foreman, link } => {
            if link.is_some() {
                return Returning::Nowhere;
            }
            Returning::ToForeman(foreman)
        }
    }
}

// A foreman hears a message over a link.
fn tell(
    alloc: Global,
    leader: &mut Leader,
    link: LinkNo,
    message: &Message,
) -> Result<Doing, Memory>
    ensures lead { OnOk result (leader.new
        ≡ stepped_lead leader.old (hears_down leader.old.foreman link message.now)) }
    ensures doing { IfOk result (λ doing. doing
        ≡ doings.Carries (hears_down leader.old.foreman link message.now).acts) }
{
    let body = body_of(alloc, message)?;
    let Ok(view) = read_message(body.as_slice()) else {
        return Err(Memory);
    };
    let acts = leader.told(link, &view)?;
    Ok(Doing::Carries(acts))
}
