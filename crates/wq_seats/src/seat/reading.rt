//! What a peer tells.
ghost use Rattle.std.specs.Prelude.{◌≡◌, ◌<◌, ◌&&◌, ℕ, List, [], Some, IfOk, OnOk, is_some, false, true};
ghost use Rattle.flow_types.specs.declared.numbers.Amounts.{Amounts as AmountsValue};
ghost use Rattle.peers.specs.States.{GoesOn, OnlyMemory};
ghost use Rattle.task_book.specs.declared.task.Stage.TheVariants as stages;
ghost use Rattle.wq_seats.specs.Turns.{IsSureOf, IsReady};
ghost use Rattle.wq_seats.specs.Shown.{EndsRight, ShowsOn};
ghost use Rattle.wq_seats.specs.Works.{GoesOnAs};
ghost use Rattle.wq_seats.specs.Tellings.{IsSilent, StaysRested, StopsWhere, id_of, staged_where, told_again, told_book, told_runs, told_stated};
ghost use Rattle.wq_seats.specs.Seats.{IsAtWork, KeepsRuns, closed_runs};
ghost use Rattle.peer_health.specs.Healths.{IsRested};

use super::{Seat, Turn};
use crate::laws::offers_were_stated;
use crate::run::Again;
use flow_types::{Amounts, AttemptNo, Outcome};
use links::Link;
use outside::Commands;
use peers::{Leave, Told, honest_links_were_honest, sure_links_are_orderly, what_is_said_went_out};
use resource_pack::Stated;
use std::alloc::Global;
use task_book::Book;

/// The most messages that are taken from one peer before the next has its turn.
const MOST_MESSAGES: u32 = 64;

/// A peer that said no hello is left after so many idle answers, each of about a second.
const MOST_IDLES: u64 = 8;

/// What a look at a peer found: something, or that its link was asked and idle.
#[derive(Clone, Copy)]
pub struct Look {
    /// Something came.
    pub came: bool,
    /// The link, the hall, or each of several was asked and idle.
    pub was_idle: bool,
}

impl Look {
    /// What both looks found.
    pub fn with(self, other: Look) -> Look
        ensures { result.was_idle ≡ self.was_idle && other.was_idle }
    {
        Look {
            came: self.came || other.came,
            was_idle: self.was_idle && other.was_idle,
        }
    }
}

// What the next message of a peer was.
#[derive(Clone, Copy)]
enum Heard {
    // Less than a whole message is there.
    Nothing,
    // It was heard, and more may be there.
    More,
    // The peer lacks inputs. It is told before more is heard.
    Lacks,
}

// What is left once a peer was heard.
#[derive(Clone, Copy)]
enum Left {
    // Nothing whole was there to be heard.
    Silence,
    // Something was heard, and nothing whole is left.
    Nothing,
    // More may be left.
    More,
}

// What is left where nothing whole is, behind so many messages that were heard.
fn left_after(heard: u32) -> Left
    ensures { result ≡ Left.Silence → heard ≡ 0 }
{
    if heard == 0 {
        Left::Silence
    } else {
        Left::Nothing
    }
}

impl<F: Commands, L: Link<F>> Seat<F, L> {
    // The peer offers this from now on.
    fn state(&mut self, total: Amounts, largest: Amounts, cache: u64)
        ensures { self.new ≡ record self.old {
          stated = Some (record { total = total; largest = largest; cache = Some cache });
        } }
    {
        self.stated = Some(Stated {
            total,
            largest,
            cache: Some(cache),
        });
    }

    // The attempt came to this end there.
    fn end(&mut self, attempt: AttemptNo, outcome: Outcome, book: &mut Book)
        ensures only { self.new ≡ record self.old {
          runs = closed_runs attempt self.old.runs;
          health = self.new.health;
        } }
        ensures rested { IsRested self.old.health → IsRested self.new.health }
        ensures book { book.new ≡ staged_where (id_of attempt self.old.runs) attempt
            (stages.Ended attempt outcome) book.old }
        ensures stops { StopsWhere (id_of attempt self.old.runs) attempt book.old.held
            book.new.held }
    {
        let id = self.id_of(attempt);
        self.close(attempt);
        let Some(id) = id else {
            return;
        };
        self.note_ended();
        let _ = book.end(id, attempt, outcome);
    }

    // The attempt came to no end there.
    fn lose(&mut self, attempt: AttemptNo, book: &mut Book)
        ensures only { self.new ≡ record self.old {
          runs = closed_runs attempt self.old.runs;
          health = self.new.health;
        } }
        ensures book { book.new ≡ staged_where (id_of attempt self.old.runs) attempt stages.Waits
            book.old }
        ensures stops { StopsWhere (id_of attempt self.old.runs) attempt book.old.held
            book.new.held }
    {
        let id = self.id_of(attempt);
        self.close(attempt);
        let Some(id) = id else {
            return;
        };
        self.note_lost();
        let _ = book.wait_again(id, attempt);
    }

    // Heeds what the peer told.
    fn heed(&mut self, told: Told, book: &mut Book) -> Heard
        ensures peer { self.new.peer ≡ self.old.peer }
        ensures gone { self.new.gone ≡ self.old.gone }
        ensures again { self.new.again ≡ told_again told self.old.again }
        ensures only { self.new ≡ record self.old {
          stated = told_stated told self.old.stated;
          runs = told_runs told self.old.runs;
          again = told_again told self.old.again;
          health = self.new.health;
        } }
        ensures rested { StaysRested told self.old.health self.new.health }
        ensures book { book.new ≡ told_book self.old.runs told book.old }
        ensures keeps { KeepsRuns book.old.held book.new.held self.old self.new }
        ensures silent { result ≡ Heard.Nothing → (told ≡ Told.Nothing)
            × (self.new ≡ self.old) × (book.new ≡ book.old) }
    {
        match told {
            Told::Nothing => Heard::Nothing,
            Told::Joined {
                total,
                largest,
                cache,
            } => {
                self.state(total, largest, cache);
                Heard::More
            }
            Told::Changed {
                total,
                largest,
                cache,
            } => {
                self.state(total, largest, cache);
                Heard::More
            }
            Told::Finish { attempt, outs } => {
                self.end(attempt, Outcome::Success(outs), book);
                Heard::More
            }
            Told::Fail { attempt, why } => {
                self.end(attempt, Outcome::Failed(why), book);
                Heard::More
            }
            Told::Lose(attempt) => {
                self.lose(attempt, book);
                Heard::More
            }
            Told::PutAgain { attempt, files } => {
                self.again = Some(Again { attempt, files });
                Heard::Lacks
            }
            Told::Stale(_) => Heard::More,
        }
    }

    // Hears the next whole message, if there is one. After an error the peer is to be left.
    fn hear(&mut self, alloc: Global, book: &mut Book) -> Result<Heard, Leave>
        ensures way { self.new.peer.way ≡ self.old.peer.way }
        ensures gone { self.new.gone ≡ self.old.gone }
        ensures goes { GoesOnAs book.old book.new }
        ensures works { (files : List (List ℕ)) (next : ℕ) → L.tells
            → IsAtWork F.gives F.may_fail L.history files book.old.held next self.old
            → OnOk result (IsAtWork F.gives F.may_fail L.history files
            book.new.held next self.new) }
        ensures shows { (files : List (List ℕ)) (next : ℕ) → L.tells
            → IsAtWork F.gives F.may_fail L.history files book.old.held next self.old
            → ShowsOn L.history book.old.held book.new.held self.new.peer.way }
        ensures right { (files : List (List ℕ)) (next : ℕ) → L.tells → L.honest self.old.peer.way
            → IsAtWork F.gives F.may_fail L.history files book.old.held next self.old
            → EndsRight F.gives F.may_fail files book.old.held book.new.held }
        ensures keeps { KeepsRuns book.old.held book.new.held self.old self.new }
        ensures calm { (files : List (List ℕ)) (next : ℕ) → L.tells
            → IsAtWork F.gives F.may_fail L.history files book.old.held next self.old
            → L.sure self.old.peer.way → OnlyMemory result }
        ensures silent { (files : List (List ℕ)) (next : ℕ) → L.tells
            → IsAtWork F.gives F.may_fail L.history files book.old.held next self.old
            → IfOk result (λ heard. heard ≡ Heard.Nothing
            → IsSilent book.old book.new self.old self.new) }
    {
        honest_links_were_honest::<F, L>();
        sure_links_are_orderly::<F, L>();
        what_is_said_went_out::<F>();
        match self.peer.hear(alloc) {
            Ok(told) => Ok(self.heed(told, book)),
            Err(leave) => Err(leave),
        }
    }

    // Hears the whole messages that are there, up to so many, and answers what is left.
    fn hear_all(&mut self, alloc: Global, book: &mut Book) -> Result<Left, Leave>
        ensures way { self.new.peer.way ≡ self.old.peer.way }
        ensures gone { self.new.gone ≡ self.old.gone }
        ensures goes { GoesOnAs book.old book.new }
        ensures works { (files : List (List ℕ)) (next : ℕ) → L.tells
            → IsAtWork F.gives F.may_fail L.history files book.old.held next self.old
            → OnOk result (IsAtWork F.gives F.may_fail L.history files
            book.new.held next self.new) }
        ensures shows { (files : List (List ℕ)) (next : ℕ) → L.tells
            → IsAtWork F.gives F.may_fail L.history files book.old.held next self.old
            → ShowsOn L.history book.old.held book.new.held self.old.peer.way }
        ensures right { (files : List (List ℕ)) (next : ℕ) → L.tells → L.honest self.old.peer.way
            → IsAtWork F.gives F.may_fail L.history files book.old.held next self.old
            → EndsRight F.gives F.may_fail files book.old.held book.new.held }
        ensures keeps { KeepsRuns book.old.held book.new.held self.old self.new }
        ensures calm { (files : List (List ℕ)) (next : ℕ) → L.tells
            → IsAtWork F.gives F.may_fail L.history files book.old.held next self.old
            → L.sure self.old.peer.way → OnlyMemory result }
        ensures silent { (files : List (List ℕ)) (next : ℕ) → L.tells
            → IsAtWork F.gives F.may_fail L.history files book.old.held next self.old
            → IfOk result (λ left. left ≡ Left.Silence
            → IsSilent book.old book.new self.old self.new) }
    {
        for at in 0..MOST_MESSAGES {
            match self.hear(alloc, book) {
                Ok(Heard::Nothing) => return Ok(left_after(at)),
                Ok(Heard::More) => {}
                Ok(Heard::Lacks) => return Ok(Left::More),
                Err(leave) => return Err(leave),
            }
        }
        Ok(Left::More)
    }

    // Whether it is to be left, where it was just idle: it said no hello for long, or nothing for so
    // many seconds while a task runs there.
    fn is_lost(&self, limit: u64) -> bool
        ensures { self.now.runs ≡ [] → is_some self.now.stated ≡ true → result ≡ false }
    {
        self.stated.is_none() && self.peer.idles() >= MOST_IDLES
            || !self.runs.is_empty() && self.silent >= limit
    }

    // Nothing whole was there to be heard of it.
    fn settled(&mut self, look: Look, limit: u64) -> Result<Look, Leave>
        ensures same { self.new ≡ self.old }
        ensures look { IfOk result (λ found. found ≡ look) }
        ensures calm { (look.was_idle ≡ true → (self.old.runs ≡ [])
            × (is_some self.old.stated ≡ true)) → OnlyMemory result }
    {
        if look.was_idle && self.is_lost(limit) {
            return Err(Leave::Unexpected);
        }
        Ok(self.rested(look))
    }

    // Nothing whole is left to be heard of it.
    fn rested(&mut self, look: Look) -> Look
        ensures same { self.new ≡ self.old }
        ensures look { result ≡ look }
    {
        self.is_full = false;
        look
    }

    // Something was heard of it, and nothing whole is left.
    fn came(&mut self) -> Look
        ensures same { self.new ≡ self.old }
        ensures came { result.was_idle ≡ false }
    {
        self.is_full = false;
        Look {
            came: true,
            was_idle: false,
        }
    }

    // More may be left.
    fn filled(&mut self) -> Look
        ensures same { self.new ≡ self.old }
        ensures came { result.was_idle ≡ false }
    {
        self.is_full = true;
        Look {
            came: true,
            was_idle: false,
        }
    }

    /// Reads the link once and hears what is there. After an error the peer is to be left.
    pub(crate) fn read(&mut self, alloc: Global, book: &mut Book, turn: Turn) -> Result<Look, Leave>
        ensures gone { self.new.gone ≡ self.old.gone }
        ensures goes { GoesOnAs book.old book.new }
        ensures works { (files : List (List ℕ)) (next : ℕ) → L.tells
            → IsAtWork F.gives F.may_fail L.history files book.old.held next self.old
            → OnOk result (IsAtWork F.gives F.may_fail L.history files
            book.new.held next self.new) }
        ensures shows { (files : List (List ℕ)) (next : ℕ) → L.tells
            → IsAtWork F.gives F.may_fail L.history files book.old.held next self.old
            → ShowsOn L.history book.old.held book.new.held self.new.peer.way }
        ensures right { (files : List (List ℕ)) (next : ℕ) → L.tells → L.honest self.old.peer.way
            → IsAtWork F.gives F.may_fail L.history files book.old.held next self.old
            → EndsRight F.gives F.may_fail files book.old.held book.new.held }
        ensures idle { IfOk result (λ look. look.was_idle ≡ true
            → 0 < L.idle_count self.new.peer.way) }
        ensures on { GoesOn L.honest L.sure L.offers self.old.peer.way self.new.peer.way }
        ensures keeps { KeepsRuns book.old.held book.new.held self.old self.new }
        ensures calm { (files : List (List ℕ)) (next : ℕ) (least : AmountsValue) → L.tells
            → IsAtWork F.gives F.may_fail L.history files book.old.held next self.old
            → IsSureOf L.sure L.offers least self.old.peer.way → OnlyMemory result }
        ensures ready { (files : List (List ℕ)) (next : ℕ) (least : AmountsValue) → L.tells
            → IsAtWork F.gives F.may_fail L.history files book.old.held next self.old
            → IsSureOf L.sure L.offers least self.old.peer.way
            → IfOk result (λ look. look.was_idle ≡ true
            → IsReady least self.old × (book.new ≡ book.old)) }
    {
        honest_links_were_honest::<F, L>();
        sure_links_are_orderly::<F, L>();
        offers_were_stated::<F, L>();
        let look = match self.attend(alloc, turn) {
            Ok(look) => look,
            Err(leave) => return Err(leave),
        };
        match self.hear_all(alloc, book) {
            Ok(Left::Silence) => self.settled(look, turn.limit),
            Ok(Left::Nothing) => Ok(self.came()),
            Ok(Left::More) => Ok(self.filled()),
            Err(leave) => Err(leave),
        }
    }
}
