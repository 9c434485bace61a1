//! The beginning of a desk.
ghost use Rattle.std.specs.Prelude.{◌≡◌, ◌≢◌, ◌≤◌, ◌<◌, ◌++◌, ◌∷◌, [], length, false, map, None};
ghost use Rattle.run_history.specs.declared.moves.Move.TheVariants as moves;
ghost use Rattle.log_records.specs.Spelling.{ListsFew};
ghost use Rattle.outside.specs.Disk.{LeavesOnly};
ghost use Rattle.txn_log.specs.Logs.{HasRoom, IsAt, most_records};
ghost use Rattle.desk.specs.Begins.{Begins, MayBegin, site_in};
ghost use Rattle.task_core.specs.Stands.{Stands};
ghost use Rattle.desk.specs.Kept.{Fits, ReadsStay, StaysBeside, KeepsEither};
ghost use Rattle.desk.specs.Room.{KeepsAmple, longest_closing};
ghost use Rattle.desk.specs.State.{Takes};

use super::Desk;
use crate::entry::log_entry;
use crate::inputs::ShelfSite;
use crate::room::{LONGEST_CLOSING, open_ends};
use crate::{StartFault, StartRefused, Terms, Trouble};
use flow_types::{Memory, Record, Rows};
use outside::{Commands, Fault, Site};
use std::alloc::Global;
use std::marker::PhantomData;
use task_core::{Admission, Table};
use txn_log::Log;

impl<F: Commands, S: Site, T: Terms, A: Admission> Desk<F, S, T, A> {
    /// Begins a desk with a record that may stand behind the history, over a site that has the
    /// files of both, and a log that takes each record that closes an attempt.
    fn begin_in_room(
        alloc: Global,
        table: Table,
        site: ShelfSite<S>,
        log: Log,
        history: Rows<Record>,
        faults: u64,
        entry: Record,
    ) -> Result<Desk<F, S, T, A>, StartRefused<S>>
        requires few { ListsFew entry }
        requires takes { Takes log history }
        requires place { length history < most_records }
        requires gate { S.tells → IsAt history log.gate (S.may_leave site log.name) }
        requires room { HasRoom log longest_closing }
        requires faults { faults ≤ S.count site }
        requires stands { Stands table (map moves.Logged history ++ moves.Logged entry ∷ []) }
        requires no_stop { table.stop ≡ None }
        requires runs { table.ended ≡ false }
        requires may { MayBegin (Fits T.trust F.gives T.sources) S.tells T.kept S.may_leave S.moment
            S.images_since T.born T.before table.plan log.name history entry site }
        ensures reply { Begins S.count table.plan table.options log.name faults history entry
            result }
        ensures any_moment { S.tells → T.kept
            → LeavesOnly S.moment S.images_since site (site_in result)
            (KeepsEither (Fits T.trust F.gives T.sources) table.plan log.name history entry) }
        ensures others { S.tells → StaysBeside S.may_leave S.moment S.images_since
            (λ m. m ≢ log.name) site (site_in result) }
        ensures reads { S.tells → ReadsStay S.files (λ m. m ≢ log.name) site (site_in result) }
        ensures ample { KeepsAmple (S.ample site) (S.ample (site_in result))
            (S.count (site_in result)) result }
    {
        let mut site = site;
        let mut log = log;
        let mut records = history.into_vec();
        let base = records.len();
        let mut steps = Vec::new(alloc);
        let more = open_ends(&table);
        match log_entry(&mut site, &mut log, &mut records, &mut steps, entry, more) {
            Ok(()) => Ok(Desk {
                alloc,
                table,
                log,
                base,
                faults,
                records,
                steps,
                trouble: Trouble::Fine,
                site,
                of: PhantomData,
            }),
            Err(Fault::Failed) => {
                let after = site.faults();
                Err(StartRefused {
                    why: StartFault::Site {
                        before: faults,
                        after,
                    },
                    site: site.into_site(),
                    history: Rows::of(records),
                })
            }
            Err(Fault::Memory) => Err(StartRefused {
                why: StartFault::Memory,
                site: site.into_site(),
                history: Rows::of(records),
            }),
        }
    }

    /// Begins a desk with a record that may stand behind the history, over a site that has the
    /// files of both.
    pub(crate) fn begin(
        alloc: Global,
        table: Table,
        site: ShelfSite<S>,
        log: Log,
        history: Rows<Record>,
        faults: u64,
        entry: Record,
    ) -> Result<Desk<F, S, T, A>, StartRefused<S>>
        requires few { ListsFew entry }
        requires takes { Takes log history }
        requires place { length history < most_records }
        requires gate { S.tells → IsAt history log.gate (S.may_leave site log.name) }
        requires faults { faults ≤ S.count site }
        requires stands { Stands table (map moves.Logged history ++ moves.Logged entry ∷ []) }
        requires no_stop { table.stop ≡ None }
        requires runs { table.ended ≡ false }
        requires may { MayBegin (Fits T.trust F.gives T.sources) S.tells T.kept S.may_leave S.moment
            S.images_since T.born T.before table.plan log.name history entry site }
        ensures reply { Begins S.count table.plan table.options log.name faults history entry
            result }
        ensures any_moment { S.tells → T.kept
            → LeavesOnly S.moment S.images_since site (site_in result)
            (KeepsEither (Fits T.trust F.gives T.sources) table.plan log.name history entry) }
        ensures others { S.tells → StaysBeside S.may_leave S.moment S.images_since
            (λ m. m ≢ log.name) site (site_in result) }
        ensures reads { S.tells → ReadsStay S.files (λ m. m ≢ log.name) site (site_in result) }
        ensures ample { KeepsAmple (S.ample site) (S.ample (site_in result))
            (S.count (site_in result)) result }
    {
        let mut log = log;
        match log.reserve(LONGEST_CLOSING) {
            Ok(()) => Self::begin_in_room(alloc, table, site, log, history, faults, entry),
            Err(_) => Err(StartRefused {
                why: StartFault::Memory,
                site: site.into_site(),
                history,
            }),
        }
    }
}
