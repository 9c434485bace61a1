//! What a worker tells.
ghost use Rattle.std.specs.Prelude.{◌≡◌, ◌<◌, [], ℕ, IfErr, IfOk, List, None, Option, false, true, OnOk};
ghost use Rattle.flow_types.specs.declared.messages.Message.{Message};
ghost use Rattle.flow_types.specs.declared.messages.Message.TheVariants as messages;
ghost use Rattle.flow_types.specs.declared.numbers.AttemptNo.{AttemptNo as AttemptNoValue};
ghost use Rattle.flow_types.specs.Plans.{IsValid};
ghost use Rattle.run_history.specs.Links.{is_live, records_of};
ghost use Rattle.links.specs.Passings.{received_in, sent_in};
ghost use Rattle.message_forms.specs.Streams.{Carries};
ghost use Rattle.links.specs.Honesty.{OwesNothing};
ghost use Rattle.wq_frames.specs.Frames.{front, part};
ghost use Rattle.peers.specs.Hears.{Hears, IsCalm};
ghost use Rattle.peers.specs.Provides.{Provides};
ghost use Rattle.peers.specs.Serves.{IsSettled, IsStillOwed, Serves};
ghost use Rattle.peers.specs.States.{LeavesAs, MaySend, PassesOn};
ghost use Rattle.local_run.specs.declared.halt.Halt.{Halt as HaltValue};
ghost use Rattle.local_run.specs.Underway.{HeldState, IsSurePool};
ghost use Rattle.wq_run.specs.Calm.{AddsWell, Asked, FaresWell, IsSureOf, IsSureSeat, StaysOr};
ghost use Rattle.wq_run.specs.Dues.{FaresSeat, IsFull, IsIllLink, Shows, HearsOffer, OffersMore, StaysHeard};
ghost use Rattle.wq_run.specs.Seats.{IsAtSeat, SeatAfter, SeatState};
ghost use Rattle.wq_run.specs.Trusted.{IsFair, IsHeard, IsOf, IsTrusted, TellsDue};

use super::Seat;
use crate::reliance::Trust;
use desk::{Desk, Terms};
use flow_types::{Amounts, Outcome};
use links::Link;
use local_run::{Halt, Held, change};
use outside::{Clock, Commands, Site};
use peers::{
    Leave, Listened, Told, honest_links_were_honest, sure_links_are_orderly,
    tasks_come_behind_their_inputs, what_is_due_stays_due,
};
use run_history::JoinRefused;
use std::alloc::Global;
use task_core::Admission;
use worker_pool::Terms as PoolTerms;

/// The most messages that are taken from one worker before the next has its turn. No more than one
/// of them ends an attempt.
const MOST_MESSAGES: u32 = 64;

/// What a look at a link found: bytes, or the link was asked and idle.
struct Look {
    came: bool,
    was_idle: bool,
}

impl<F: Commands, L: Link<F>, T: Terms + Trust> Seat<F, L, T> {
    // Takes the bytes that are there, and tells what the look found. Where the link has its turn to
    // be idle it is asked all the same.
    fn read(&mut self, alloc: Global, is_turn: bool) -> Result<Look, Leave>
        ensures link { self.new.link ≡ self.old.link }
        ensures attempts { self.new.attempts ≡ self.old.attempts }
        ensures session { self.new.peer.session ≡ self.old.peer.session }
        ensures going { self.old.peer.feed.stop ≡ None → self.new.peer.feed.stop ≡ None }
        ensures comes { L.tells
            → PassesOn (L.history self.old.peer.way) (L.history self.new.peer.way) }
        ensures heard { L.tells → IsTrusted T.holds F.gives F.may_fail L.history
            (IsFair T.holds L.tells L.honest) T.plan T.run T.due self.old
            → OnOk result (StaysHeard L.history self.old.peer self.new.peer) }
        ensures leaves { IfErr result (LeavesAs (L.is_closed self.new.peer.way)
            (L.count self.old.peer.way) (L.count self.new.peer.way)) }
        ensures calm { (asked : Option Asked) → L.tells
            → IsSureSeat F.gives F.may_fail L.history (IsSureOf L.sure L.offers asked) self.old
            → StaysOr
            (IsSureSeat F.gives F.may_fail L.history (IsSureOf L.sure L.offers asked) self.new) ⊥
            result }
        ensures owes { L.tells → L.sure self.old.peer.way
            → IfOk result (λ look. look.was_idle ≡ true
            → OwesNothing (sent_in (L.history self.new.peer.way))
            (received_in (L.history self.new.peer.way))) }
    {
        if !self.peer.ready() && !is_turn {
            return Ok(Look {
                came: false,
                was_idle: false,
            });
        }
        match self.peer.listen(alloc) {
            Ok(Listened::Piece) => Ok(Look {
                came: true,
                was_idle: false,
            }),
            Ok(Listened::Idle(_)) => Ok(Look {
                came: false,
                was_idle: true,
            }),
            Err(leave) => {
                self.is_ready = false;
                Err(leave)
            }
        }
    }

    // A second has gone by: sends on what was said, as far as the peer takes it.
    fn flush(&mut self, patience: u64) -> Result<(), Leave>
        ensures link { self.new.link ≡ self.old.link }
        ensures attempts { self.new.attempts ≡ self.old.attempts }
        ensures session { self.new.peer.session ≡ self.old.peer.session }
        ensures feed { self.new.peer.feed ≡ self.old.peer.feed }
        ensures trusted { L.tells → IsTrusted T.holds F.gives F.may_fail L.history
            (IsFair T.holds L.tells L.honest) T.plan T.run T.due self.old → OnOk result
            (IsTrusted T.holds F.gives F.may_fail L.history (IsFair T.holds L.tells L.honest) T.plan
            T.run T.due self.new) }
        ensures comes { L.tells
            → PassesOn (L.history self.old.peer.way) (L.history self.new.peer.way) }
        ensures cause { MaySend (L.count self.old.peer.way) (L.count self.new.peer.way) result }
        ensures surely { L.sure self.old.peer.way → L.sure self.new.peer.way }
        ensures calm { (asked : Option Asked) → L.tells
            → IsSureSeat F.gives F.may_fail L.history (IsSureOf L.sure L.offers asked) self.old
            → StaysOr
            (IsSureSeat F.gives F.may_fail L.history (IsSureOf L.sure L.offers asked) self.new) ⊥
            result }
    {
        match self.peer.flush(patience) {
            Ok(()) => {
                self.pulse.beat();
                Ok(())
            }
            Err(leave) => {
                self.is_ready = false;
                Err(leave)
            }
        }
    }

    // Says a word that the peer passes over.
    fn probe(&mut self, alloc: Global) -> Result<(), Leave>
        ensures link { self.new.link ≡ self.old.link }
        ensures attempts { self.new.attempts ≡ self.old.attempts }
        ensures session { self.new.peer.session ≡ self.old.peer.session }
        ensures feed { self.new.peer.feed ≡ self.old.peer.feed }
        ensures trusted { L.tells → IsTrusted T.holds F.gives F.may_fail L.history
            (IsFair T.holds L.tells L.honest) T.plan T.run T.due self.old → OnOk result
            (IsTrusted T.holds F.gives F.may_fail L.history (IsFair T.holds L.tells L.honest) T.plan
            T.run T.due self.new) }
        ensures comes { L.tells
            → PassesOn (L.history self.old.peer.way) (L.history self.new.peer.way) }
        ensures cause { MaySend (L.count self.old.peer.way) (L.count self.new.peer.way) result }
        ensures surely { L.sure self.old.peer.way → L.sure self.new.peer.way }
        ensures calm { (asked : Option Asked) → L.tells
            → IsSureSeat F.gives F.may_fail L.history (IsSureOf L.sure L.offers asked) self.old
            → StaysOr
            (IsSureSeat F.gives F.may_fail L.history (IsSureOf L.sure L.offers asked) self.new) ⊥
            result }
    {
        what_is_due_stays_due();
        tasks_come_behind_their_inputs();
        match self.peer.probe(alloc) {
            Ok(()) => {
                self.pulse.said();
                Ok(())
            }
            Err(leave) => {
                self.is_ready = false;
                Err(leave)
            }
        }
    }

    // A second has gone by: what was said goes on, and where something runs, nothing was said for a
    // minute and no idle limit was given, a word is said that the peer passes over. It fails where
    // the peer took no byte for so many seconds.
    fn tend(&mut self, alloc: Global, limit: u32) -> Result<(), Leave>
        ensures link { self.new.link ≡ self.old.link }
        ensures attempts { self.new.attempts ≡ self.old.attempts }
        ensures session { self.new.peer.session ≡ self.old.peer.session }
        ensures feed { self.new.peer.feed ≡ self.old.peer.feed }
        ensures trusted { L.tells → IsTrusted T.holds F.gives F.may_fail L.history
            (IsFair T.holds L.tells L.honest) T.plan T.run T.due self.old → OnOk result
            (IsTrusted T.holds F.gives F.may_fail L.history (IsFair T.holds L.tells L.honest) T.plan
            T.run T.due self.new) }
        ensures comes { L.tells
            → PassesOn (L.history self.old.peer.way) (L.history self.new.peer.way) }
        ensures cause { MaySend (L.count self.old.peer.way) (L.count self.new.peer.way) result }
        ensures surely { L.sure self.old.peer.way → L.sure self.new.peer.way }
        ensures calm { (asked : Option Asked) → L.tells
            → IsSureSeat F.gives F.may_fail L.history (IsSureOf L.sure L.offers asked) self.old
            → StaysOr
            (IsSureSeat F.gives F.may_fail L.history (IsSureOf L.sure L.offers asked) self.new) ⊥
            result }
    {
        match self.flush(u64::from(limit)) {
            Ok(()) => {}
            Err(leave) => return Err(leave),
        }
        if self.pulse.wants_word(limit) && !self.attempts.is_empty() {
            return self.probe(alloc);
        }
        Ok(())
    }

    // As `read`; where it has its turn what was said goes on first.
    fn listen(&mut self, alloc: Global, is_turn: bool, limit: u32) -> Result<Look, Leave>
        ensures link { self.new.link ≡ self.old.link }
        ensures attempts { self.new.attempts ≡ self.old.attempts }
        ensures session { self.new.peer.session ≡ self.old.peer.session }
        ensures going { self.old.peer.feed.stop ≡ None → self.new.peer.feed.stop ≡ None }
        ensures comes { L.tells
            → PassesOn (L.history self.old.peer.way) (L.history self.new.peer.way) }
        ensures heard { L.tells → IsTrusted T.holds F.gives F.may_fail L.history
            (IsFair T.holds L.tells L.honest) T.plan T.run T.due self.old
            → OnOk result (StaysHeard L.history self.old.peer self.new.peer) }
        ensures leaves { IfErr result (LeavesAs (L.is_closed self.new.peer.way)
            (L.count self.old.peer.way) (L.count self.new.peer.way)) }
        ensures calm { (asked : Option Asked) → L.tells
            → IsSureSeat F.gives F.may_fail L.history (IsSureOf L.sure L.offers asked) self.old
            → StaysOr
            (IsSureSeat F.gives F.may_fail L.history (IsSureOf L.sure L.offers asked) self.new) ⊥
            result }
        ensures owes { L.tells → L.sure self.old.peer.way
            → IfOk result (λ look. look.was_idle ≡ true
            → OwesNothing (sent_in (L.history self.new.peer.way))
            (received_in (L.history self.new.peer.way))) }
    {
        if !is_turn {
            return self.read(alloc, is_turn);
        }
        match self.tend(alloc, limit) {
            Ok(()) => self.read(alloc, is_turn),
            Err(leave) => Err(leave),
        }
    }

    // Whether an attempt that runs there is open at the peer.
    fn has_open(&self) -> bool
        ensures owed { (said heard : List Message) → L.tells
            → Serves F.gives F.may_fail (L.history self.now.peer.way) self.now.peer.feed
            self.now.peer.session said heard None
            → front self.now.peer.feed.rest ≡ part → result ≡ true
            → (number : AttemptNoValue)
            × IsStillOwed F.gives F.may_fail (L.history self.now.peer.way) number }
        ensures settled { (said heard : List Message) → L.tells
            → Serves F.gives F.may_fail (L.history self.now.peer.way) self.now.peer.feed
            self.now.peer.session said heard None
            → Provides self.now.peer.session.known said None []
            → front self.now.peer.feed.rest ≡ part
            → IsSettled F.gives F.may_fail (L.history self.now.peer.way)
            → result ≡ false }
    {
        for attempt in &self.attempts {
            if self.peer.has(attempt.number()) {
                return true;
            }
        }
        false
    }

    // Whether it was idle, and has been for too long while something runs there.
    fn is_silent(&self, was_idle: bool, limit: u32) -> bool
        ensures ill { result ≡ true → L.tells → front self.now.peer.feed.rest ≡ part
            → IsTrusted T.holds F.gives F.may_fail L.history
            (IsFair T.holds L.tells L.honest) T.plan T.run T.due self.now
            → IsIllLink F.gives F.may_fail L.history L.count L.idle_count L.is_closed limit
            self.now.link self.now.peer.way }
        ensures calm { (asked : Option Asked) → L.tells
            → IsSureSeat F.gives F.may_fail L.history (IsSureOf L.sure L.offers asked) self.now
            → front self.now.peer.feed.rest ≡ part → (was_idle ≡ true
            → OwesNothing (sent_in (L.history self.now.peer.way))
            (received_in (L.history self.now.peer.way))) → result ≡ false }
    {
        honest_links_were_honest::<F, L>();
        sure_links_are_orderly::<F, L>();
        was_idle && self.peer.idles() >= u64::from(limit) && self.has_open()
    }

    // What the next whole message tells, if one is there.
    fn next(&mut self, alloc: Global) -> Result<Told, Leave>
        requires trusted { IsHeard T.holds L.tells
            → IsTrusted T.holds F.gives F.may_fail L.history (IsFair T.holds L.tells L.honest) T.plan T.run T.due self.old }
        ensures link { self.new.link ≡ self.old.link }
        ensures attempts { self.new.attempts ≡ self.old.attempts }
        ensures hears { self.old.peer.feed.stop ≡ None → Hears self.old.peer.feed
            self.old.peer.session result self.new.peer.feed self.new.peer.session }
        ensures due { IfOk result (λ told. IsHeard T.holds L.tells
            → TellsDue T.holds F.gives F.may_fail L.history (IsFair T.holds L.tells L.honest) T.plan T.run T.due self.new told) }
        ensures spoken { IfOk result (λ told. IsHeard T.holds L.tells
            → IsTrusted T.holds F.gives F.may_fail L.history
            (IsFair T.holds L.tells L.honest) T.plan T.run T.due self.new) }
        ensures way { self.new.peer.way ≡ self.old.peer.way }
        ensures shows { L.tells → Shows (L.history self.new.peer.way) result }
        ensures heard { L.tells
            → OnOk result (StaysHeard L.history self.old.peer self.new.peer) }
        ensures offers { L.tells
            → IfOk result (λ told. HearsOffer L.history self.old.peer self.new.peer told) }
        ensures calm { (asked : Option Asked) → L.tells
            → IsSureSeat F.gives F.may_fail L.history (IsSureOf L.sure L.offers asked) self.old
            → IsCalm result × IfOk result (λ told. IsSureSeat F.gives F.may_fail L.history
            (IsSureOf L.sure L.offers asked) self.new) }
    {
        honest_links_were_honest::<F, L>();
        sure_links_are_orderly::<F, L>();
        tasks_come_behind_their_inputs();
        match self.peer.hear(alloc) {
            Ok(told) => {
                self.pulse.heard(&told);
                Ok(told)
            }
            Err(leave) => {
                self.is_ready = false;
                Err(leave)
            }
        }
    }

    // It offers this from now on. It is to be left where it is something else and the desk takes no
    // more changes.
    fn change<B: PoolTerms, S: Site, A: Admission>(
        &mut self,
        desk: &mut Desk<F, S, T, A>,
        total: Amounts,
        largest: Amounts,
        cache: u64,
    ) -> Result<bool, Leave>
        requires lives { is_live desk.old.options desk.old.moves self.old.link.0 ≡ true }
        requires came { L.tells → Carries (received_in (L.history self.old.peer.way))
            (messages.Totals total largest cache) }
        ensures keeps { (held : HeldState) → SeatAfter T.trust F.gives F.may_fail T.sources
            S.tells T.kept (IsSurePool B.fits) S.files S.may_leave S.moment S.images_since
            desk.old desk.new held held self.old self.new result }
        ensures did { IfOk result (λ did. did ≡ true) }
        ensures fares { (limit : ℕ) → (halt : Option HaltValue) → (before : SeatState L)
            → L.tells → OffersMore L.history before self.old → FaresSeat
            (IsIllLink F.gives F.may_fail L.history L.count L.idle_count L.is_closed limit)
            L.history desk.old.moves desk.new.moves halt halt before self.new result }
        ensures calm { (asked : Option Asked)
            → IsSureSeat F.gives F.may_fail L.history (IsSureOf L.sure L.offers asked) self.old
            → AddsWell desk.old.moves desk.new.moves × StaysOr (IsSureSeat F.gives F.may_fail
            L.history (IsSureOf L.sure L.offers asked) self.new
            × (self.new.peer.way ≡ self.old.peer.way)) (IsFull desk.new.moves) result }
    {
        if !self.pulse.has_news() {
            return Ok(true);
        }
        match change::<B, F, S, T, A>(desk, self.link(), total, largest, cache) {
            Ok(()) => Ok(true),
            Err(JoinRefused::Memory) => Err(Leave::Memory),
            Err(_) => Err(Leave::Unexpected),
        }
    }

    // Does what the next whole message tells, and answers whether one was there. Where an
    // attempt still waits to be asked for nothing is heard and the run stops, and so it does where
    // the peer joins again.
    fn hear<B: PoolTerms, S: Site, A: Admission, C: Clock>(
        &mut self,
        alloc: Global,
        desk: &mut Desk<F, S, T, A>,
        held: &mut Held,
        clock: &C,
    ) -> Result<bool, Leave>
        requires valid { IsValid desk.old.plan }
        requires of { IsOf T.trust F.gives T.sources S.tells T.kept T.holds T.plan T.options T.run T.due
            desk.old.plan desk.old.options (records_of desk.old.moves) }
        requires keen { (k : ℕ) → 0 < k → T.keen k → ⊥ }
        requires at { IsAtSeat T.trust F.gives F.may_fail T.sources S.tells T.kept
            (IsSurePool B.fits) S.files S.may_leave S.moment S.images_since desk.old held.old
            self.old }
        ensures keeps { SeatAfter T.trust F.gives F.may_fail T.sources S.tells T.kept
            (IsSurePool B.fits) S.files S.may_leave S.moment S.images_since desk.old desk.new
            held.old held.new self.old self.new
            result }
        ensures fares { (limit : ℕ) → L.tells → FaresSeat
            (IsIllLink F.gives F.may_fail L.history L.count L.idle_count L.is_closed limit)
            L.history desk.old.moves desk.new.moves held.old.halt held.new.halt self.old self.new result }
        ensures calm { (asked : Option Asked) → L.tells
            → IsSureSeat F.gives F.may_fail L.history (IsSureOf L.sure L.offers asked) self.old
            → FaresWell desk.old.moves desk.new.moves held.new.halt result (IsSureSeat F.gives
            F.may_fail L.history (IsSureOf L.sure L.offers asked) self.new
            × (self.new.peer.way ≡ self.old.peer.way)) }
        ensures rests { IfOk result (λ did. did ≡ false → held.new.halt ≡ None
            → (front self.new.peer.feed.rest ≡ part) × (IsHeard T.holds L.tells
            → IsTrusted T.holds F.gives F.may_fail L.history
            (IsFair T.holds L.tells L.honest) T.plan T.run T.due self.new)) }
    {
        if !self.is_ready() {
            held.stop(Halt::Memory);
            return Ok(false);
        }
        match self.next(alloc) {
            Ok(Told::Nothing) => Ok(false),
            Ok(Told::Joined { .. }) => {
                held.stop(Halt::Memory);
                Ok(true)
            }
            Ok(
                Told::Changed {
                    total,
                    largest,
                    cache,
                },
            ) => self.change::<B, S, A>(desk, total, largest, cache),
            Ok(Told::Finish { attempt, outs }) => {
                let outcome = Outcome::Success(outs);
                self.close::<B, S, A, C>(desk, held, attempt, outcome, clock);
                Ok(true)
            }
            Ok(Told::Fail { attempt, why }) => {
                self.close::<B, S, A, C>(desk, held, attempt, Outcome::Failed(why), clock);
                Ok(true)
            }
            Ok(Told::Lose(attempt)) => {
                self.close::<B, S, A, C>(desk, held, attempt, Outcome::NotRun, clock);
                Ok(true)
            }
            Ok(Told::PutAgain { attempt, files }) => {
                match self.put_again::<B, S, A>(alloc, desk, held, attempt, files.as_slice()) {
                    Ok(()) => Ok(true),
                    Err(leave) => Err(leave),
                }
            }
            Ok(Told::Stale(_)) => Ok(true),
            Err(leave) => Err(leave),
        }
    }

    /// Hears what is there, and answers whether anything was. After an error the link is to be left,
    /// as where it was idle for too long while something runs there. Where an attempt still waits to
    /// be asked for the run stops.
    pub fn serve<B: PoolTerms, S: Site, A: Admission, C: Clock>(
        &mut self,
        alloc: Global,
        desk: &mut Desk<F, S, T, A>,
        held: &mut Held,
        is_turn: bool,
        limit: u32,
        clock: &C,
    ) -> Result<bool, Leave>
        requires valid { IsValid desk.old.plan }
        requires of { IsOf T.trust F.gives T.sources S.tells T.kept T.holds T.plan T.options T.run T.due
            desk.old.plan desk.old.options (records_of desk.old.moves) }
        requires keen { (k : ℕ) → 0 < k → T.keen k → ⊥ }
        requires at { IsAtSeat T.trust F.gives F.may_fail T.sources S.tells T.kept
            (IsSurePool B.fits) S.files S.may_leave S.moment S.images_since desk.old held.old
            self.old }
        ensures keeps { SeatAfter T.trust F.gives F.may_fail T.sources S.tells T.kept
            (IsSurePool B.fits) S.files S.may_leave S.moment S.images_since desk.old desk.new
            held.old held.new self.old self.new
            result }
        ensures fares { L.tells → FaresSeat
            (IsIllLink F.gives F.may_fail L.history L.count L.idle_count L.is_closed limit)
            L.history desk.old.moves desk.new.moves held.old.halt held.new.halt self.old self.new result }
        ensures calm { (asked : Option Asked) → L.tells
            → IsSureSeat F.gives F.may_fail L.history (IsSureOf L.sure L.offers asked) self.old
            → FaresWell desk.old.moves desk.new.moves held.new.halt result
            (IsSureSeat F.gives F.may_fail L.history (IsSureOf L.sure L.offers asked) self.new) }
    {
        if !self.is_ready() {
            held.stop(Halt::Memory);
            return Ok(false);
        }
        let Look { came, was_idle } = match self.listen(alloc, is_turn, limit) {
            Ok(look) => look,
            Err(leave) => return Err(leave),
        };
        let mut did = came;
        for _ in 0..MOST_MESSAGES {
            let attempts = self.attempts.len();
            match self.hear::<B, S, A, C>(alloc, desk, held, clock) {
                Ok(true) => {
                    if self.attempts.len() < attempts {
                        return Ok(true);
                    }
                    did = true;
                }
                Ok(false) => {
                    if self.is_silent(was_idle, limit) {
                        return Err(Leave::Closed);
                    }
                    return Ok(did);
                }
                Err(leave) => return Err(leave),
            }
        }
        Ok(did)
    }
}
