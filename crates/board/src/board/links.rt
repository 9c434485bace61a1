//! Links that join, change and leave.
ghost use Rattle.std.specs.Prelude.{◌≡◌};
ghost use Rattle.desk.specs.Links.{Joins};
ghost use Rattle.board.specs.Calls.{AreCounts, Called, ChangesHere, LeavesHere};

use super::{Board, Pass};
use crate::shared::Shared;
use desk::Terms;
use flow_types::{Amounts, LinkNo};
use outside::{Commands, Site};
use run_history::JoinRefused;
use std::sync::Wait;
use std::sync::ledger::Ledger;
use task_core::Admission;
use turns::Counted;

impl<F: Commands, S: Site, T: Terms, A: Admission, L: Ledger> Board<F, S, T, A, L> {
    /// A link joins, as the desk's `join` says.
    pub fn join<W: Wait>(
        &self,
        rt: &W,
        pass: &mut Pass<F, S, T, A, L>,
        total: Amounts,
        largest: Amounts,
        cache: u64,
    ) -> Result<LinkNo, JoinRefused>
        requires of { pass.old.of ≡ self.now }
        ensures called { Called S.tells S.files S.may_leave S.moment S.images_since pass.old
            pass.new (λ found after. Joins found total largest cache result after) }
    {
        self.turns.turn(
            rt,
            pass,
            (),
            |shared: &mut Shared<F, S, T, A>, _: ()| -> Counted<Result<LinkNo, JoinRefused>>
                ensures reply { Joins shared.old total largest cache result.reply shared.new }
                ensures counts { AreCounts shared.new result.moves result.done }
            {
                let reply = shared.desk.join(total, largest, cache);
                shared.count(reply)
            },
        )
    }

    /// A link states other amounts, as the desk's `totals` says. Where it doesn't live at the turn,
    /// the answer is want of memory, and nothing changes.
    pub fn totals<W: Wait>(
        &self,
        rt: &W,
        pass: &mut Pass<F, S, T, A, L>,
        link: LinkNo,
        total: Amounts,
        largest: Amounts,
        cache: u64,
    ) -> Result<(), JoinRefused>
        requires of { pass.old.of ≡ self.now }
        ensures called { Called S.tells S.files S.may_leave S.moment S.images_since pass.old
            pass.new (λ found after. ChangesHere found link total largest cache result after) }
    {
        self.turns.turn(
            rt,
            pass,
            (),
            |shared: &mut Shared<F, S, T, A>, _: ()| -> Counted<Result<(), JoinRefused>>
                ensures reply { ChangesHere shared.old link total largest cache result.reply
                    shared.new }
                ensures counts { AreCounts shared.new result.moves result.done }
            {
                let reply = shared.totals(link, total, largest, cache);
                shared.count(reply)
            },
        )
    }

    /// A link leaves, as the desk's `leave` says. Where it is the local place, or doesn't live, or
    /// an attempt runs there at the turn, nothing happens.
    pub fn leave<W: Wait>(&self, rt: &W, pass: &mut Pass<F, S, T, A, L>, link: LinkNo)
        requires of { pass.old.of ≡ self.now }
        ensures called { Called S.tells S.files S.may_leave S.moment S.images_since pass.old
            pass.new (λ found after. LeavesHere found link after) }
    {
        self.turns.turn(
            rt,
            pass,
            (),
            |shared: &mut Shared<F, S, T, A>, _: ()| -> Counted<()>
                ensures left { LeavesHere shared.old link shared.new }
                ensures counts { AreCounts shared.new result.moves result.done }
            {
                shared.leave(link);
                shared.count(())
            },
        )
    }
}
