//! What a caller of a desk has, where each fact that it states is true.
ghost use Rattle.std.specs.Prelude.{◌≡◌, ◌≢◌, ◌≤◌, ◌⊎◌, ℕ, length, IfSome, true};
ghost use Rattle.flow_types.specs.Plans.{IsValid, is_empty, is_source};
ghost use Rattle.run_history.specs.History.{part};
ghost use Rattle.run_history.specs.Links.{records_of};
ghost use Rattle.outside.specs.Disk.{IsImage};
ghost use Rattle.outside.specs.Files.{Files};
ghost use Rattle.txn_log.specs.Logs.{IsAt};
ghost use Rattle.file_store.specs.Outputs.{file_name};
ghost use Rattle.desk.specs.Examples.{IsSerial, IsStanding, KeepsMore, sources_read};
ghost use Rattle.desk.specs.Kept.{Fits, Keeps, WasKept};
ghost use Rattle.desk.specs.State.{IsCut, Takes};

use crate::{Desk, Terms};
use flow_types::{Plan, Record, Rows};
use outside::{Commands, Site};
use run_history::Options;
use std::alloc::Global;
use std::marker::Brand;
use task_core::AdmitAll;
use txn_log::Log;

/// The site of a desk on which nothing runs.
fn site_of<F: Commands, S: Site, T: Terms>(desk: Desk<F, S, T, AdmitAll>) -> Option<S>
    ensures { IfSome result (λ left. S.tells → T.kept → (image : Files)
        → S.images_since left T.born image
        → T.before image ⊎ WasKept (Fits T.trust F.gives T.sources) desk.plan desk.log desk.base
        (records_of desk.moves) (IsCut desk.trouble) image) }
{
    let _works = desk.works();
    if !desk.is_idle() {
        return None;
    }
    let (site, _records) = desk.into_parts();
    Some(site)
}

/// Begins a run by what the caller states, and answers the site.
fn begin_by<F: Commands, S: Site, T: Terms>(
    alloc: Global,
    plan: Plan,
    site: S,
    log: Log,
    history: Rows<Record>,
    options: Options,
) -> Option<S>
    requires valid { IsValid plan }
    requires takes { Takes log history }
    requires gate { S.tells → IsAt history log.gate (S.may_leave site log.name) }
    requires apart { (f : ℕ) → file_name plan f ≢ log.name }
    requires later { S.tells → T.kept → T.born ≤ S.moment site }
    requires before { S.tells → T.kept → (image : Files) → S.images_since site T.born image
        → T.before image }
    requires kept { S.tells → T.kept → (image : Files) → IsImage (S.may_leave site) image
        → Keeps (Fits T.trust F.gives T.sources) plan log.name history image }
    requires sources { S.tells → T.kept → T.trust → is_empty (part history) ≡ true
        → (f : ℕ) → is_source plan f ≡ true → S.files site (file_name plan f) ≡ T.sources f }
    ensures { IfSome result (λ left. S.tells → T.kept → (image : Files)
        → S.images_since left T.born image
        → T.before image ⊎ KeepsMore (Fits T.trust F.gives T.sources) plan log.name
        (length history) image) }
{
    match Desk::<F, S, T, AdmitAll>::start(alloc, plan, site, log, history, options, 0) {
        Ok(desk) => site_of(desk),
        Err(refused) => Some(refused.site),
    }
}

/// Begins a run over a site on which a crash leaves the records and the files of the serial run,
/// and answers the site. A crash at any moment of the call leaves the records, or these and more,
/// and the files of the serial run. It is here to show that a caller's facts can be true.
pub fn example_run_begins<F: Commands, S: Site>(
    alloc: Global,
    plan: Plan,
    site: S,
    log: Log,
    history: Rows<Record>,
    options: Options,
) -> Option<S>
    requires valid { IsValid plan }
    requires takes { Takes log history }
    requires gate { S.tells → IsAt history log.gate (S.may_leave site log.name) }
    requires apart { (f : ℕ) → file_name plan f ≢ log.name }
    ensures { IfSome result (λ left. S.tells
        → IsStanding F.gives (sources_read plan (S.files site)) plan log.name history
        (S.may_leave site)
        → (image : Files) → S.images_since left (S.moment site) image
        → KeepsMore (IsSerial F.gives (sources_read plan (S.files site))) plan log.name
        (length history) image) }
{
    begin_by::<F, S, Brand>(alloc, plan, site, log, history, options)
}
