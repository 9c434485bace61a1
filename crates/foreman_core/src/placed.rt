//! Placements, and how they are taken back.
ghost use Rattle.std.specs.Prelude.{◌≡◌, slice_get};
ghost use Rattle.foreman_core.specs.Drafts.{Places, before, taken_back, unspotted};

use crate::links::{Below, Upstream, resume};
use link_session::Session;

/// The attempt at a place went to the worker at another place, whose session was this one before.
#[derive(Drop)]
pub(crate) struct Placed {
    pub at: usize,
    pub on: usize,
    pub session: Session,
}

// The attempt at a place isn't placed any more.
#[tactic(auto, using(crate::proofs::Undoing::unspotted_past))]
fn unspot(attempts: &mut [Upstream], at: usize)
    ensures { attempts.new ≡ unspotted attempts.old at (slice_get attempts.old at) }
{
    if at < attempts.len() {
        attempts[at].spot = None;
    }
}

fn take_back(placed: Placed, attempts: &mut [Upstream], links: &mut [Below])
    ensures { let old : Places = record { attempts = attempts.old; links = links.old } in
        let new : Places = record { attempts = attempts.new; links = links.new } in
        new ≡ taken_back placed old }
{
    let Placed { at, on, session } = placed;
    unspot(attempts, at);
    resume(links, on, session);
}

/// Takes these placements back, the last one first.
pub(crate) fn take_all_back(placed: Vec<Placed>, attempts: &mut [Upstream], links: &mut [Below])
    ensures { let old : Places = record { attempts = attempts.old; links = links.old } in
        let new : Places = record { attempts = attempts.new; links = links.new } in
        new ≡ before placed.items old }
{
    let mut placed = placed;
    while let Some(last) = placed.pop() {
        take_back(last, attempts, links);
    }
}
