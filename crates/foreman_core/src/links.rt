//! A foreman's workers, and the attempts from above.
ghost use Rattle.std.specs.Prelude.{◌≡◌, ◌<◌, ◌≤◌, insert, length, nat_lt, position, remove, slice_get, IfOk, IfSome, OnErr, OnOk, Some};
ghost use Rattle.foreman_core.specs.declared.links.Below.{Below as Worker};
ghost use Rattle.foreman_core.specs.Drafts.{resumed};
ghost use Rattle.foreman_core.specs.Foremen.{is_at, joined, joined_at, place_of, place_of_link};
ghost use Rattle.foreman_core.specs.Steps.{closed_by};

use flow_types::{Amounts, AttemptNo, LinkNo, Memory, Task};
use link_session::Session;
use std::mem::replace;

/// Where an attempt is placed, and its number there.
#[derive(Clone, Copy)]
pub struct Spot {
    pub link: LinkNo,
    pub number: AttemptNo,
}

/// An attempt from above, as its task came, and where it is placed.
#[derive(Drop)]
pub struct Upstream {
    pub task: Task,
    pub spot: Option<Spot>,
}

/// A worker by its link, what it stated last, and its session.
#[derive(Drop)]
pub struct Below {
    pub link: LinkNo,
    pub total: Amounts,
    pub largest: Amounts,
    pub cache: u64,
    pub session: Session,
}

/// Where an attempt from above stands.
pub(crate) fn find(attempts: &[Upstream], attempt: AttemptNo) -> Option<usize>
    ensures place { result ≡ place_of attempt attempts.now }
    ensures within { IfSome result (λ at. at < length attempts.now) }
{
    attempts.iter().position(|u| u.task.attempt.0 == attempt.0)
}

// Whether an attempt is placed at a link under a number.
fn is_at(u: &Upstream, link: LinkNo, number: AttemptNo) -> bool
    ensures { result ≡ is_at link number u.now }
{
    match u.spot {
        Some(spot) => spot.link.0 == link.0 && spot.number.0 == number.0,
        None => false,
    }
}

/// Where the attempt stands that is placed at a link under a number.
pub(crate) fn find_at(attempts: &[Upstream], link: LinkNo, number: AttemptNo) -> Option<usize>
    ensures place { result ≡ position (is_at link number) attempts.now }
    ensures within { IfSome result (λ at. at < length attempts.now) }
{
    attempts.iter().position(|u| is_at(u, link, number))
}

/// Where the worker at a link stands.
pub(crate) fn find_link(links: &[Below], link: LinkNo) -> Option<usize>
    ensures place { result ≡ place_of_link link links.now }
    ensures within { IfSome result (λ on. on < length links.now) }
{
    links.iter().position(|b| b.link.0 == link.0)
}

/// Gives the worker at a place this session, and its own comes back.
pub(crate) fn exchange(links: &mut [Below], on: usize, session: Session) -> Session
    requires { on < length links.old }
    ensures links { links.new ≡ resumed links.old on session (slice_get links.old on) }
    ensures own { (b : Worker) → slice_get links.old on ≡ Some b → result ≡ b.session }
{
    replace(&mut links[on].session, session)
}

/// The same in a list of workers.
pub(crate) fn exchange_in(links: &mut Vec<Below>, on: usize, session: Session) -> Session
    requires { on < length links.old.items }
    ensures links { links.new.items
        ≡ resumed links.old.items on session (slice_get links.old.items on) }
    ensures own { (b : Worker) → slice_get links.old.items on ≡ Some b → result ≡ b.session }
{
    exchange(links, on, session)
}

/// The worker at a place has this session.
#[tactic(auto, using(crate::proofs::Undoing::resumed_past))]
pub(crate) fn resume(links: &mut [Below], on: usize, session: Session)
    ensures { links.new ≡ resumed links.old on session (slice_get links.old on) }
{
    if on < links.len() {
        links[on].session = session;
    }
}

/// The same in a list of workers.
pub(crate) fn resume_in(links: &mut Vec<Below>, on: usize, session: Session)
    ensures { links.new.items ≡ resumed links.old.items on session (slice_get links.old.items on) }
{
    resume(links, on, session);
}

fn close_at(links: &mut [Below], on: usize, number: AttemptNo)
    requires { on < length links.old }
    ensures { links.new ≡ closed_by links.old number on (slice_get links.old on) }
{
    let _open = links[on].session.cancel(number);
}

/// Closes an attempt in the session of the worker at a place.
pub(crate) fn close_in(links: &mut Vec<Below>, on: usize, number: AttemptNo)
    requires { on < length links.old.items }
    ensures { links.new.items ≡ closed_by links.old.items number on (slice_get links.old.items on) }
{
    close_at(links, on, number);
}

// Where the first worker stands with a link above this one.
fn find_above(links: &[Below], link: LinkNo) -> Option<usize>
    ensures place { result ≡ position (λ other. nat_lt link.0 other.link.0) links.now }
    ensures within { IfSome result (λ on. on < length links.now) }
{
    links.iter().position(|other| link.0 < other.link.0)
}

// Where a worker at a link is to stand among these, ascending by link.
fn rank(links: &[Below], link: LinkNo) -> usize
    ensures joined { (b : Worker) → insert links.now result b
        ≡ joined_at b links.now (position (λ other. nat_lt link.0 other.link.0) links.now) }
    ensures within { result ≤ length links.now }
{
    match find_above(links, link) {
        Some(on) => on,
        None => links.len(),
    }
}

/// One more worker, ascending by link, and where it stands.
#[tactic(auto, using(crate::proofs::Undoing::remove_inserted))]
pub(crate) fn join(links: &mut Vec<Below>, b: Below) -> Result<usize, Memory>
    ensures joined { OnOk result (links.new.items ≡ joined b links.old.items) }
    ensures place { IfOk result (λ on. on < length links.new.items) }
    ensures without { IfOk result (λ on. remove links.new.items on ≡ links.old.items) }
    ensures err { OnErr result (links.new.items ≡ links.old.items) }
{
    let on = rank(links, b.link);
    if links.insert(on, b).is_err() {
        return Err(Memory);
    }
    Ok(on)
}
