//! Where a foreman's workers come and go.
ghost use Rattle.std.specs.Prelude.{◌≡◌, ◌+◌, [], Bool, ℕ, List, None, Some, false, length, IfErr};
ghost use Rattle.links.specs.Halls.{IsFresh};
ghost use Rattle.peer_run.specs.Works.{EarState, way_of};
ghost use Rattle.foreman_run.specs.Lost.{seen_of};
ghost use Rattle.foreman_run.specs.Ends.{Goes, LeavesHall, LeavesParent, StopsAt};
ghost use Rattle.foreman_run.specs.Hosts.{HostsBy, HostsWhole};
ghost use Rattle.foreman_run.specs.Lowers.{Gains};
ghost use Rattle.foreman_run.specs.Met.{Met};
ghost use Rattle.foreman_run.specs.Tied.{AreTied, Book, HandsBack, LetsGoOne, MayHandBack};
ghost use Rattle.foreman_run.specs.Tied.{with_due, with_got};
ghost use Rattle.foreman_run.specs.Works.{IsAtHall, IsAtWork, Works};

use crate::company::Company;
use crate::lower::Lower;
use crate::parent::perform;
use crate::stop::Stop;
use flow_types::{LinkNo, Message};
use foreman_core::ForemanCore;
use links::{Came, Hall, Link};
use outside::{Commands, Fault};
use peer_run::Halt;
use std::alloc::Global;

/// Hands a link back.
fn hand_back<F: Commands, H: Hall<F>>(
    alloc: Global,
    hall: &mut H,
    link: LinkNo,
    way: H::Way,
) -> Result<(), Stop>
    ensures hosts { HostsBy (H.count hall.old) (H.count hall.new) (H.got hall.old)
        (H.got hall.new) (H.given hall.old) (H.given hall.new) 1 0 result }
    ensures memory { IfErr result (λ stop. stop ≡ Stop.Left Halt.Memory) }
    ensures back { HandsBack link way (H.got hall.old) (H.got hall.new) result }
    ensures given { H.given hall.new ≡ H.given hall.old }
    ensures listens { H.listens hall.old → H.listens hall.new }
    ensures honest { H.honest hall.old → H.honest hall.new }
{
    match hall.back(alloc, Some(link), way) {
        Ok(()) => Ok(()),
        Err(_) => Err(Stop::Left(Halt::Memory)),
    }
}

/// Hands a link back for which there is no memory.
fn refuse<F: Commands, H: Hall<F>>(alloc: Global, hall: &mut H, link: LinkNo, way: H::Way) -> Stop
    ensures memory { result ≡ Stop.Left Halt.Memory }
    ensures hosts { (whole : Bool) × HostsWhole (H.count hall.old) (H.count hall.new)
        (H.got hall.old) (H.got hall.new) (H.given hall.old) (H.given hall.new) 1 0 whole }
    ensures back { MayHandBack link way (H.got hall.old) (H.got hall.new) }
    ensures given { H.given hall.new ≡ H.given hall.old }
    ensures listens { H.listens hall.old → H.listens hall.new }
    ensures honest { H.honest hall.old → H.honest hall.new }
{
    let _handed = hand_back::<F, H>(alloc, hall, link, way);
    Stop::Left(Halt::Memory)
}

/// A worker comes over this link, under this number.
fn let_in<F: Commands, H: Hall<F>>(
    alloc: Global,
    company: &mut Company<F, H::Way>,
    hall: &mut H,
    numbered: &mut u32,
    link: LinkNo,
    way: H::Way,
) -> Result<bool, Stop>
    requires fresh { IsFresh H.Way.history H.Way.count H.Way.idle_count H.Way.is_closed way }
    requires next { link.0 ≡ numbered.old + 1 }
    ensures gains { Gains (seen_of H.Way.history H.Way.is_closed H.Way.count H.Way.idle_count)
        H.Way.honest (H.Way.honest way) numbered.old numbered.new (H.got hall.old) (H.got hall.new)
        company.old company.new result }
    ensures counted { (numbered.new ≡ numbered.old + 1) × (H.given hall.new ≡ H.given hall.old) }
    ensures hosts { HostsBy (H.count hall.old) (H.count hall.new) (H.got hall.old)
        (H.got hall.new) (H.given hall.old) (H.given hall.new) (1 + length company.old)
        (length company.new) result }
    ensures fails { LeavesHall result }
    ensures listens { H.listens hall.old → H.listens hall.new }
    ensures honest { H.honest hall.old → H.honest hall.new }
{
    *numbered = link.0;
    let lower = match Lower::new(alloc, link, way) {
        Ok(lower) => lower,
        Err(way) => return Err(refuse::<F, H>(alloc, hall, link, way)),
    };
    match company.add(lower) {
        Ok(()) => Ok(true),
        Err(lower) => Err(refuse::<F, H>(alloc, hall, link, lower.into_way())),
    }
}

/// Asks for the next worker, which comes under this number, and answers whether one came.
fn wait<F: Commands, H: Hall<F>>(
    alloc: Global,
    company: &mut Company<F, H::Way>,
    hall: &mut H,
    numbered: &mut u32,
    link: LinkNo,
) -> Result<bool, Stop>
    requires listens { H.listens hall.old }
    requires next { link.0 ≡ numbered.old + 1 }
    ensures gains { Gains (seen_of H.Way.history H.Way.is_closed H.Way.count H.Way.idle_count)
        H.Way.honest (H.honest hall.old) numbered.old numbered.new (H.got hall.old) (H.got hall.new)
        company.old company.new result }
    ensures counted { numbered.new + H.given hall.old ≡ numbered.old + H.given hall.new }
    ensures hosts { HostsBy (H.count hall.old) (H.count hall.new) (H.got hall.old)
        (H.got hall.new) (H.given hall.old) (H.given hall.new) (length company.old)
        (length company.new) result }
    ensures fails { LeavesHall result }
    ensures listens { H.listens hall.new }
    ensures honest { H.honest hall.old → H.honest hall.new }
{
    match hall.wait(alloc) {
        Ok(Came::Link(way)) => let_in::<F, H>(alloc, company, hall, numbered, link, way),
        Ok(Came::Idle) => Ok(false),
        Err(Fault::Failed) => Err(Stop::Hall),
        Err(Fault::Memory) => Err(Stop::Left(Halt::Memory)),
    }
}

/// Lets in who has come, and at a turn asks in any case, and answers whether anybody came. So many had
/// a number. While as many are there as may be nobody is asked for.
pub(crate) fn meet<F: Commands, H: Hall<F>>(
    alloc: Global,
    company: &mut Company<F, H::Way>,
    hall: &mut H,
    numbered: &mut u32,
    turn: bool,
) -> Result<bool, Stop>
    requires listens { H.listens hall.old }
    ensures gains { Gains (seen_of H.Way.history H.Way.is_closed H.Way.count H.Way.idle_count)
        H.Way.honest (H.honest hall.old) numbered.old numbered.new (H.got hall.old) (H.got hall.new)
        company.old company.new result }
    ensures counted { numbered.new + H.given hall.old ≡ numbered.old + H.given hall.new }
    ensures hosts { HostsBy (H.count hall.old) (H.count hall.new) (H.got hall.old)
        (H.got hall.new) (H.given hall.old) (H.given hall.new) (length company.old)
        (length company.new) result }
    ensures fails { LeavesHall result }
    ensures listens { H.listens hall.new }
    ensures honest { H.honest hall.old → H.honest hall.new }
{
    let Some(link) = company.next(*numbered) else {
        return Ok(false);
    };
    if !hall.ready() && !turn {
        return Ok(false);
    }
    wait::<F, H>(alloc, company, hall, numbered, link)
}

/// The link of this number was lost.
fn lose<F: Commands, U: Link<F>, L: Link<F>>(
    alloc: Global,
    parent: &mut U,
    core: &mut ForemanCore,
    company: &mut Company<F, L>,
    link: LinkNo,
) -> Result<bool, Stop>
    requires works { (ear : EarState) × IsAtWork F.gives F.may_fail U.tells L.tells
        (seen_of L.history L.is_closed L.count L.idle_count) L.honest (way_of U.history U.is_closed
        U.count parent.old) ear core.old company.old }
    ensures goes { (trusted : Bool) (cap : ℕ) (book : Book L) (ear : EarState) → Works F.gives
        F.may_fail U.tells trusted L.tells (seen_of L.history L.is_closed L.count L.idle_count)
        L.honest cap (with_due book (Some link)) (way_of U.history U.is_closed U.count parent.old)
        ear core.old company.old [] [] false → Goes result (λ _. Works F.gives F.may_fail U.tells
        trusted L.tells (seen_of L.history L.is_closed L.count L.idle_count) L.honest cap (with_due
        book None) (way_of U.history U.is_closed U.count parent.new) ear core.new company.new [] []
        false) (StopsAt F.gives F.may_fail U.tells trusted L.tells
        (seen_of L.history L.is_closed L.count L.idle_count) cap (with_due book None) (way_of
        U.history U.is_closed U.count parent.new) company.new) }
    ensures left { LeavesParent result }
    ensures many { length company.new ≡ length company.old }
{
    let Ok(acts) = core.on_lost(link) else {
        return Err(Stop::Left(Halt::Memory));
    };
    match perform(alloc, parent, company, acts) {
        Ok(()) => Ok(true),
        Err(stop) => Err(stop),
    }
}

/// Hands back a link that is to be left, if there is one, and loses it. It answers whether there was.
/// Where it is to be left for want of memory that is why the foreman stops.
pub(crate) fn lose_next<F: Commands, U: Link<F>, H: Hall<F>>(
    alloc: Global,
    parent: &mut U,
    core: &mut ForemanCore,
    company: &mut Company<F, H::Way>,
    hall: &mut H,
) -> Result<bool, Stop>
    requires works { (ear : EarState) × (upto : ℕ) × IsAtHall F.gives F.may_fail U.tells H.Way.tells
        (seen_of H.Way.history H.Way.is_closed H.Way.count H.Way.idle_count) H.Way.honest (H.got
        hall.old) upto (way_of U.history U.is_closed U.count parent.old) ear core.old company.old }
    ensures goes { (trusted : Bool) (cap : ℕ) (book : Book H.Way) (ear : EarState) → Works F.gives
        F.may_fail U.tells trusted H.Way.tells
        (seen_of H.Way.history H.Way.is_closed H.Way.count H.Way.idle_count) H.Way.honest cap
        (with_got book (H.got hall.old)) (way_of U.history U.is_closed U.count parent.old) ear
        core.old company.old [] [] false → Goes result (λ _. Works F.gives F.may_fail U.tells
        trusted H.Way.tells (seen_of H.Way.history H.Way.is_closed H.Way.count H.Way.idle_count)
        H.Way.honest cap (with_got book (H.got hall.new)) (way_of U.history U.is_closed U.count
        parent.new) ear core.new company.new [] [] false) (StopsAt F.gives F.may_fail U.tells
        trusted H.Way.tells (seen_of H.Way.history H.Way.is_closed H.Way.count H.Way.idle_count) cap
        (with_got book (H.got hall.new)) (way_of U.history U.is_closed U.count parent.new)
        company.new) }
    ensures hosts { HostsBy (H.count hall.old) (H.count hall.new) (H.got hall.old)
        (H.got hall.new) (H.given hall.old) (H.given hall.new) (length company.old)
        (length company.new) result }
    ensures given { H.given hall.new ≡ H.given hall.old }
    ensures listens { H.listens hall.old → H.listens hall.new }
    ensures honest { H.honest hall.old → H.honest hall.new }
{
    let Some(lower) = company.take_gone() else {
        return Ok(false);
    };
    let link = lower.link();
    if lower.is_starved() {
        return Err(refuse::<F, H>(alloc, hall, link, lower.into_way()));
    }
    match hand_back::<F, H>(alloc, hall, link, lower.into_way()) {
        Ok(()) => lose(alloc, parent, core, company, link),
        Err(stop) => Err(stop),
    }
}

/// Tells a worker that the work is over, where it is, and hands its link back. It answers whether
/// that was done.
fn farewell<F: Commands, H: Hall<F>>(
    alloc: Global,
    hall: &mut H,
    lower: Lower<F, H::Way>,
    is_over: bool,
) -> bool
    ensures hosts { HostsWhole (H.count hall.old) (H.count hall.new) (H.got hall.old)
        (H.got hall.new) (H.given hall.old) (H.given hall.new) 1 0 result }
    ensures lets_go { LetsGoOne H.Way.tells
        (seen_of H.Way.history H.Way.is_closed H.Way.count H.Way.idle_count) lower (H.got hall.old)
        (H.got hall.new) }
    ensures given { H.given hall.new ≡ H.given hall.old }
{
    let mut lower = lower;
    if is_over {
        lower.send(alloc, Message::Bye);
    }
    let link = lower.link();
    hand_back::<F, H>(alloc, hall, link, lower.into_way()).is_ok()
}

/// Lets all workers go, and answers whether each link was handed back.
pub(crate) fn dismiss<F: Commands, H: Hall<F>>(
    alloc: Global,
    company: Company<F, H::Way>,
    hall: &mut H,
    is_over: bool,
) -> bool
    ensures hosts { HostsWhole (H.count hall.old) (H.count hall.new) (H.got hall.old)
        (H.got hall.new) (H.given hall.old) (H.given hall.new) (length company) 0 result }
    ensures ties { (cap : ℕ) (past : List Met) (book : Book H.Way) → AreTied H.Way.tells
        (seen_of H.Way.history H.Way.is_closed H.Way.count H.Way.idle_count) cap past company
        (with_got book (H.got hall.old)) → AreTied H.Way.tells
        (seen_of H.Way.history H.Way.is_closed H.Way.count H.Way.idle_count) cap past [] (with_got
        book (H.got hall.new)) }
    ensures given { H.given hall.new ≡ H.given hall.old }
{
    let mut company = company;
    let mut whole = true;
    while let Some(lower) = company.pop() {
        if !farewell::<F, H>(alloc, hall, lower, is_over) {
            whole = false;
        }
    }
    whole
}
