//! The list of all peers, and what they send.
ghost use Rattle.std.specs.Prelude.{◌≡◌, ◌∷◌, ◌++◌, [], filter_map, map, position, IfSome, OnOk};
ghost use Rattle.std.specs.Prelude.{◌<◌, length, slice_get, if◌then◌else◌, Some};
ghost use Rattle.world_peers.specs.Doings.{next_at, next_number};
ghost use Rattle.world_peers.specs.Company.{cut_if, cut_where, is_at, is_under, left_by, sent_down};
ghost use Rattle.world_peers.specs.Company.{is_below, link_at};
ghost use Rattle.world_peers.specs.Peers.{told_to};
ghost use Rattle.flow_types.specs.declared.messages.Message.TheVariants as messages;

use crate::{Home, Member, Party, Sent};
use flow_types::{LinkNo, Memory, Message, Rows};
use foreman_core::Down;

/// The most peers that are numbered.
const MOST_PEERS: u64 = 4_294_967_296;

/// A peer sends these messages to this end.
pub fn send_to(
    bag: &mut Vec<Sent>,
    to: Party,
    peer: u32,
    messages: Rows<Message>,
) -> Result<(), Memory>
    ensures { OnOk result (bag.new.items ≡ bag.old.items ++ map (told_to to peer) messages) }
{
    for message in messages.into_vec() {
        let sent = Sent {
            from: Party::Peer(peer),
            to,
            message,
        };
        if bag.push(sent).is_err() {
            return Err(Memory);
        }
    }
    Ok(())
}

/// A foreman sends these messages down.
pub fn send_below(
    bag: &mut Vec<Sent>,
    peers: &[Member],
    foreman: u32,
    down: Rows<Down>,
) -> Result<(), Memory>
    ensures { OnOk result (bag.new.items
        ≡ bag.old.items ++ filter_map (sent_down peers.now foreman) down) }
{
    for sent in down.into_vec() {
        send_one_below(bag, peers, foreman, sent)?;
    }
    Ok(())
}

// A foreman sends a message down, where a worker is at its link. There are fewer than 4,294,967,297
// peers.
fn send_one_below(
    bag: &mut Vec<Sent>,
    peers: &[Member],
    foreman: u32,
    down: Down,
) -> Result<(), Memory>
    ensures { OnOk result (bag.new.items
        ≡ bag.old.items ++ filter_map (sent_down peers.now foreman) (down ∷ [])) }
{
    let Down { link, message } = down;
    let Some(at) = worker_at(peers, foreman, link) else {
        return Ok(());
    };
    let Ok(worker) = u32::try_from(at) else {
        return Err(Memory);
    };
    let sent = Sent {
        from: Party::Peer(foreman),
        to: Party::Peer(worker),
        message,
    };
    match bag.push(sent) {
        Ok(()) => Ok(()),
        Err(_) => Err(Memory),
    }
}

// Where the worker at a foreman's link stands.
fn worker_at(peers: &[Member], foreman: u32, link: LinkNo) -> Option<usize>
    ensures place { result ≡ position (is_at foreman link) peers.now }
    ensures within { IfSome result (λ at. at < length peers.now) }
{
    peers.iter().position(|member| is_at(member, foreman, link))
}

// The member is the worker at a foreman's link.
fn is_at(member: &Member, foreman: u32, link: LinkNo) -> bool
    ensures { result ≡ is_at foreman link member.now }
{
    match member {
        Member::Works { home, .. } => match home {
            Home::AtMaster => false,
            Home::AtForeman {
                foreman: other,
                link: here,
            } => match here {
                Some(here) => *other == foreman && here.0 == link.0,
                None => false,
            },
        },
        Member::Leads(_) => false,
    }
}

// The member is a worker of a foreman.
fn is_under(member: &Member, foreman: u32) -> bool
    ensures { result ≡ is_under foreman member.now }
{
    match member {
        Member::Works { home, .. } => match home {
            Home::AtMaster => false,
            Home::AtForeman { foreman: other, .. } => *other == foreman,
        },
        Member::Leads(_) => false,
    }
}

/// The link ends that a foreman leaves.
pub fn leave_link(peers: &mut Vec<Member>, foreman: u32, link: Option<LinkNo>)
    ensures { peers.new.items ≡ left_by peers.old.items foreman link }
{
    if let Some(link) = link {
        cut_at(peers, foreman, link);
    }
}

// The worker at a foreman's link has none there any more.
fn cut_at(peers: &mut Vec<Member>, foreman: u32, link: LinkNo)
    ensures { peers.new.items ≡ cut_where (is_at foreman link) peers.old.items }
{
    for at in 0..peers.len() {
        cut_one_at(&mut peers[at], foreman, link);
    }
}

// The peer has no link at a foreman any more, if it is the worker at this link.
fn cut_one_at(member: &mut Member, foreman: u32, link: LinkNo)
    ensures { member.new ≡ cut_if (is_at foreman link) member.old }
{
    if is_at(member, foreman, link) {
        member.cut_off();
    }
}

/// With a foreman its workers' links there end.
pub fn cut_under(peers: &mut Vec<Member>, foreman: u32)
    ensures { peers.new.items ≡ cut_where (is_under foreman) peers.old.items }
{
    for at in 0..peers.len() {
        cut_one_under(&mut peers[at], foreman);
    }
}

// The peer has no link at a foreman any more, if it is a worker of this one.
fn cut_one_under(member: &mut Member, foreman: u32)
    ensures { member.new ≡ cut_if (is_under foreman) member.old }
{
    if is_under(member, foreman) {
        member.cut_off();
    }
}

/// One more peer.
pub fn add_peer(peers: &mut Vec<Member>, peer: Member) -> Result<(), Memory>
    ensures { OnOk result (peers.new.items ≡ peers.old.items ++ peer ∷ []) }
{
    match peers.push(peer) {
        Ok(()) => Ok(()),
        Err(_) => Err(Memory),
    }
}

/// The number of one more peer, where one is left.
pub fn next_number(peers: &[Member]) -> Option<u32>
    ensures { result ≡ next_number peers.now }
{
    let count = peers.len() as u64;
    if count < MOST_PEERS {
        Some(count as u32)
    } else {
        None
    }
}

/// The number of the next link of a foreman to which somebody may come.
pub fn next_link(peers: &[Member], foreman: u32) -> Option<LinkNo>
    ensures { result ≡ next_at (slice_get peers.now foreman) }
{
    match peers.get(foreman as usize) {
        Some(member) => member.next_link(),
        None => None,
    }
}

/// The peer is a worker of a foreman.
pub fn is_below_at(peers: &[Member], peer: u32) -> bool
    ensures { result ≡ is_below (slice_get peers.now peer) }
{
    match peers.get(peer as usize) {
        Some(member) => member.is_below(),
        None => false,
    }
}

/// The link of a worker at a foreman, if it has one there.
pub fn link_at(peers: &[Member], foreman: u32, worker: u32) -> Option<LinkNo>
    ensures { result ≡ link_at foreman (slice_get peers.now worker) }
{
    match peers.get(worker as usize) {
        Some(member) => link_of_member(member, foreman),
        None => None,
    }
}

// The link of a peer at a foreman, if it is a worker that has one there.
fn link_of_member(member: &Member, foreman: u32) -> Option<LinkNo>
    ensures { result ≡ link_at foreman (Some member.now) }
{
    match member {
        Member::Works { home, .. } => match home {
            Home::AtMaster => None,
            Home::AtForeman {
                foreman: other,
                link,
            } => { if *other == foreman { *link } else { None } }
        },
        Member::Leads(_) => None,
    }
}
