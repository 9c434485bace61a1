//! Links that join, change and leave.
ghost use Rattle.std.specs.Prelude.{◌≡◌, ◌<◌, true, not};
ghost use Rattle.flow_types.specs.Plans.{is_empty};
ghost use Rattle.run_history.specs.Links.{is_live, records_of, running_on};
ghost use Rattle.desk.specs.Links.{Changes, Joins, Leaves};

use super::Desk;
use crate::Terms;
use crate::room::room_for_step;
use crate::step::{Step, add_step};
use flow_types::{Amounts, LinkNo, Memory};
use outside::{Commands, Site};
use run_history::JoinRefused;
use task_core::Admission;

impl<F: Commands, S: Site, T: Terms, A: Admission> Desk<F, S, T, A> {
    /// A link joins with these amounts, the largest of one of its places, and a cache of so many
    /// bytes. Its number is the next, from 1 upward. TooManyLinks comes where 32 links live beside
    /// the local place, else TooManyJoins where 1,000,000 joins and changes were made; after a
    /// refusal nothing has changed. A desk that doesn't work answers too. No site is touched.
    pub fn join(
        &mut self,
        total: Amounts,
        largest: Amounts,
        cache: u64,
    ) -> Result<LinkNo, JoinRefused>
        ensures { Joins self.old total largest cache result self.new }
    {
        if room_for_step(&mut self.steps, &self.table).is_err() {
            return Err(JoinRefused::Memory);
        }
        match self.table.join(total, largest, cache) {
            Ok(link) => {
                let step = Step::Joined {
                    link,
                    total,
                    largest,
                    cache,
                };
                add_step(&mut self.steps, step);
                Ok(link)
            }
            Err(why) => Err(why),
        }
    }

    /// A link states other amounts and another cache, in bytes. TooManyJoins comes where 1,000,000
    /// joins and changes were made; after a refusal nothing has changed. A desk that doesn't work
    /// answers too. No site is touched. Condition: the link lives.
    pub fn totals(
        &mut self,
        link: LinkNo,
        total: Amounts,
        largest: Amounts,
        cache: u64,
    ) -> Result<(), JoinRefused>
        requires { is_live self.old.options self.old.moves link.0 ≡ true }
        ensures { Changes self.old link total largest cache result self.new }
    {
        if room_for_step(&mut self.steps, &self.table).is_err() {
            return Err(JoinRefused::Memory);
        }
        match self.table.totals(link, total, largest, cache) {
            Ok(()) => {
                let step = Step::Changed {
                    link,
                    total,
                    largest,
                    cache,
                };
                add_step(&mut self.steps, step);
                Ok(())
            }
            Err(why) => Err(why),
        }
    }

    /// A link lives no more. It takes no memory. A desk that doesn't work takes it in too. No site
    /// is touched. Conditions: it isn't the local place, it lives, and no attempt runs there.
    pub fn leave(&mut self, link: LinkNo)
        requires apart { 0 < link.0 }
        requires lives { is_live self.old.options self.old.moves link.0 ≡ true }
        requires idle { is_empty (running_on self.old.plan (records_of self.old.moves) link.0)
            ≡ true }
        ensures { Leaves self.old link self.new }
    {
        self.table.leave(link);
        add_step(&mut self.steps, Step::Left { link });
    }

    /// Whether a link lives; the local place, link 0, always does.
    pub fn lives(&self, link: LinkNo) -> bool
        ensures { result ≡ is_live self.now.options self.now.moves link.0 }
    {
        self.table.lives(link)
    }

    /// Whether an attempt runs on the link. It looks at each rule.
    pub fn busy(&self, link: LinkNo) -> bool
        ensures { result ≡ not
            (is_empty (running_on self.now.plan (records_of self.now.moves) link.0)) }
    {
        self.table.busy(link)
    }
}
