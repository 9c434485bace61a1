//! A run that may begin, before its first record is in the log.
ghost use Rattle.std.specs.Prelude.{◌≡◌, ◌≢◌};
ghost use Rattle.outside.specs.Disk.{LeavesOnly};
ghost use Rattle.desk.specs.Begins.{Begins, site_in};
ghost use Rattle.desk.specs.Kept.{Fits, KeepsEither, ReadsStay, StaysBeside};
ghost use Rattle.desk.specs.Room.{KeepsAmple};

use crate::inputs::ShelfSite;
use crate::{Desk, StartRefused, Terms};
use flow_types::{Record, Rows};
use outside::{Commands, Site};
use std::alloc::Global;
use std::marker::{Model, PhantomData};
use task_core::{Admission, Table};
use txn_log::Log;

/// A run that may begin. Neither the log nor the records have anything of it yet: where it is let
/// go, the log is what it was.
///
/// To a contract it is its `ReadyState`.
#[derive(Drop)]
pub struct Ready<F: Commands, S: Site, T: Terms, A: Admission> {
    pub(crate) alloc: Global,
    // It has taken the first record in already.
    pub(crate) table: Table,
    pub(crate) site: ShelfSite<S>,
    pub(crate) log: Log,
    pub(crate) history: Rows<Record>,
    // How often the site had failed.
    pub(crate) faults: u64,
    // The record with which the run begins.
    pub(crate) entry: Record,
    pub(crate) of: PhantomData<(F, T, A)>,
}

impl<F: Commands, S: Site, T: Terms, A: Admission> Model for Ready<F, S, T, A> {
    ghost use Rattle.desk.specs.Kept.{Fits};
    ghost use Rattle.desk.specs.Readiness.{IsReady, ReadyState};

    ghost Value = { ReadyState S };

    ghost view = { λ r. record {
      plan = r.table.plan;
      options = r.table.options;
      log = r.log.name;
      faults = r.faults;
      history = r.history;
      entry = r.entry;
      site = r.site;
    } };

    ghost invariant = { λ r. IsReady (Fits T.trust F.gives T.sources) S.tells T.kept S.may_leave
        S.moment S.images_since S.count T.born T.before r.table r.log
        (record {
          plan = r.table.plan;
          options = r.table.options;
          log = r.log.name;
          faults = r.faults;
          history = r.history;
          entry = r.entry;
          site = r.site;
        }) };
}

impl<F: Commands, S: Site, T: Terms, A: Admission> Ready<F, S, T, A> {
    /// Logs the record with which the run begins.
    ///
    /// At most four calls of the site. Site and Memory are the only refusals; where memory was
    /// wanting before the log was touched the site is as it was.
    pub fn open(self) -> Result<Desk<F, S, T, A>, StartRefused<S>>
        ensures reply { Begins S.count self.plan self.options self.log self.faults self.history
            self.entry result }
        ensures any_moment { S.tells → T.kept
            → LeavesOnly S.moment S.images_since self.site (site_in result)
            (KeepsEither (Fits T.trust F.gives T.sources) self.plan self.log self.history
            self.entry) }
        ensures others { S.tells → StaysBeside S.may_leave S.moment S.images_since
            (λ m. m ≢ self.log) self.site (site_in result) }
        ensures reads { S.tells → ReadsStay S.files (λ m. m ≢ self.log) self.site
            (site_in result) }
        ensures ample { KeepsAmple (S.ample self.site) (S.ample (site_in result))
            (S.count (site_in result)) result }
    {
        let Ready {
            alloc,
            table,
            site,
            log,
            history,
            faults,
            entry,
            of: _,
        } = self;
        Desk::<F, S, T, A>::begin(alloc, table, site, log, history, faults, entry)
    }

    /// The site and the records, where the run isn't opened.
    pub fn into_parts(self) -> (S, Rows<Record>)
        ensures site { result.0 ≡ self.site }
        ensures records { result.1 ≡ self.history }
    {
        let Ready {
            alloc: _,
            table: _,
            site,
            log: _,
            history,
            faults: _,
            entry: _,
            of: _,
        } = self;
        (site.into_site(), history)
    }
}
