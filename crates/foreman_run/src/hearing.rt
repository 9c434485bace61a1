//! What a foreman hears of its workers.
ghost use Rattle.std.specs.Prelude.{◌≡◌, [], Bool, ℕ, List, false, true, Ok, length, IfOk, OnErr};
ghost use Rattle.foreman_core.specs.declared.acts.Down.{Down as DownValue};
ghost use Rattle.foreman_core.specs.Foremen.{Foreman};
ghost use Rattle.peer_run.specs.Works.{EarState, way_of};
ghost use Rattle.foreman_run.specs.Lost.{seen_of};
ghost use Rattle.foreman_run.specs.Ends.{Goes, LeavesParent, StopsAt};
ghost use Rattle.foreman_run.specs.Heard.{Hears};
ghost use Rattle.foreman_run.specs.Tied.{Book};
ghost use Rattle.foreman_run.specs.Works.{IsAtWork, Works};

use crate::company::Company;
use crate::look::Look;
use crate::lower::Lower;
use crate::parent::perform;
use crate::stop::Stop;
use flow_types::Memory;
use foreman_core::{ForemanActs, ForemanCore};
use links::Link;
use outside::Commands;
use peer_run::Halt;
use peers::honest_links_were_honest;
use std::alloc::Global;

/// What the next message of a worker asks for, if a whole one is there. A worker that can't run what
/// it is asked for is left instead, so that what runs there is placed anew. One is left, too, where
/// the machine says so.
fn hear<F: Commands, L: Link<F>>(
    core: &mut ForemanCore,
    lower: &mut Lower<F, L>,
) -> Result<Option<ForemanActs>, Memory>
    ensures link { lower.new.link ≡ lower.old.link }
    ensures way { lower.new.way ≡ lower.old.way }
    ensures hears { Hears L.tells (seen_of L.history L.is_closed L.count L.idle_count) core.old
        core.new lower.old lower.new result }
{
    if !lower.advance() || lower.tires() {
        return Ok(None);
    }
    let link = lower.link();
    let Ok(acts) = core.on_down(link, &lower.heard()) else {
        return Err(Memory);
    };
    if acts.leave.is_some() {
        lower.leave();
    }
    Ok(Some(acts))
}

/// Does what the next message of the worker at a place asks for, or takes the bytes that are there,
/// if there are some or it is a turn to ask for them.
pub(crate) fn hear_at<F: Commands, U: Link<F>, L: Link<F>>(
    alloc: Global,
    link: &mut U,
    core: &mut ForemanCore,
    company: &mut Company<F, L>,
    at: usize,
    turn: bool,
) -> Result<Look, Stop>
    requires works { (ear : EarState) × IsAtWork F.gives F.may_fail U.tells L.tells
        (seen_of L.history L.is_closed L.count L.idle_count) L.honest (way_of U.history U.is_closed
        U.count link.old) ear core.old company.old }
    ensures goes { (trusted : Bool) (cap : ℕ) (book : Book L) (ear : EarState) → Works F.gives
        F.may_fail U.tells trusted L.tells (seen_of L.history L.is_closed L.count L.idle_count)
        L.honest cap book (way_of U.history U.is_closed U.count link.old) ear core.old company.old
        [] [] false → Goes result (λ _. Works F.gives F.may_fail U.tells trusted L.tells
        (seen_of L.history L.is_closed L.count L.idle_count) L.honest cap book (way_of U.history
        U.is_closed U.count link.new) ear core.new company.new [] [] false) (StopsAt F.gives
        F.may_fail U.tells trusted L.tells (seen_of L.history L.is_closed L.count L.idle_count) cap
        book (way_of U.history U.is_closed U.count link.new) company.new) }
    ensures left { LeavesParent result }
    ensures many { length company.new ≡ length company.old }
{
    honest_links_were_honest::<F, L>();
    let Some(lower) = company.lowers.get_mut(at) else {
        return Ok(Look::Nothing);
    };
    let acts = match hear(core, lower) {
        Ok(Some(acts)) => acts,
        Ok(None) => return Ok(Look::of(lower.listen(alloc, turn))),
        Err(_) => return Err(Stop::Left(Halt::Memory)),
    };
    match perform(alloc, link, company, acts) {
        Ok(()) => Ok(Look::Message),
        Err(stop) => Err(stop),
    }
}
