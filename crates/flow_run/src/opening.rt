//! The opening of a run, once the place where peers come listens.
ghost use Rattle.std.specs.Prelude.{◌≡◌, ◌≢◌, ◌≤◌, ◌<◌, ℕ, IfErr, IfOk, OnErr, OnOk, false, true};
ghost use Rattle.flow_types.specs.declared.numbers.Amounts.{Amounts as AmountsValue};
ghost use Rattle.flow_types.specs.Plans.{IsValid, is_empty, is_source};
ghost use Rattle.run_history.specs.History.{part};
ghost use Rattle.outside.specs.declared.fault.Fault.TheVariants.{Failed};
ghost use Rattle.outside.specs.Causes.{HasCause};
ghost use Rattle.outside.specs.Disk.{IsImage, LeavesOnly};
ghost use Rattle.outside.specs.Files.{Files};
ghost use Rattle.txn_log.specs.Logs.{IsAt};
ghost use Rattle.file_store.specs.Outputs.{file_name};
ghost use Rattle.desk.specs.Begins.{IsFault, KeepsOpening};
ghost use Rattle.desk.specs.Kept.{Fits, Keeps, ReadsStay, StaysBeside};
ghost use Rattle.desk.specs.State.{Takes};
ghost use Rattle.local_run.specs.Runs.{IsUnmetRun};
ghost use Rattle.flow_run.specs.Openings.{Declines, IsSparedAt, LeavesAsWas, OpensDesk, how_of};
ghost use Rattle.flow_run.specs.Openings.{site_at};

use desk::{Desk, StartFault, StartRefused, Terms};
use flow_types::{Plan, Record, Rows};
use links::Hall;
use local_run::Stopped;
use outside::{Commands, Fault, Site};
use run_history::Options;
use std::alloc::Global;
use task_core::Admission;
use txn_log::Log;

/// Why a run wasn't opened.
#[derive(Drop)]
pub(crate) struct Unopened<S: Site> {
    /// The files, as the looks at them and the log left them.
    pub site: S,
    /// What the log has.
    pub records: Rows<Record>,
    pub why: Stopped,
}

/// Listens where workers are asked for.
fn listen<F: Commands, H: Hall<F>>(wq: bool, hall: &mut H, port: u16) -> Result<(), Fault>
    ensures listens { OnOk result (wq ≡ true → H.listens hall.new) }
    ensures asked { OnErr result (wq ≡ true) }
    ensures alone { wq ≡ false → hall.new ≡ hall.old }
    ensures given { H.given hall.new ≡ H.given hall.old }
    ensures got { H.got hall.new ≡ H.got hall.old }
    ensures idles { H.idle_count hall.new ≡ H.idle_count hall.old }
    ensures honest { H.honest hall.old → H.honest hall.new }
    ensures sure { H.sure hall.old → H.sure hall.new }
    ensures manned { (amounts : AmountsValue)
        → H.manned hall.old amounts → H.manned hall.new amounts }
    ensures cause { HasCause (H.count hall.old) (H.count hall.new) result }
{
    if wq { hall.listen(port) } else { Ok(()) }
}

/// What was wanting where a run can't be opened.
fn opening_fault(why: StartFault) -> Fault
    ensures { (first now : ℕ) → IsFault first now why → result ≡ Failed → first < now }
{
    match why {
        StartFault::Site { .. } => Fault::Failed,
        _ => Fault::Memory,
    }
}

/// The desk of a run over the records of a log, which is opened once the hall listens, where workers
/// are asked for. Where the hall can't, nothing is logged.
pub(crate) fn open<F: Commands, S: Site, H: Hall<F>, T: Terms, A: Admission>(
    alloc: Global,
    plan: Plan,
    site: S,
    log: Log,
    history: Rows<Record>,
    options: Options,
    moment: u64,
    hall: &mut H,
    port: u16,
) -> Result<Desk<F, S, T, A>, Unopened<S>>
    requires valid { IsValid plan }
    requires takes { Takes log history }
    requires gate { S.tells → IsAt history log.gate (S.may_leave site log.name) }
    requires apart { (f : ℕ) → file_name plan f ≢ log.name }
    requires later { S.tells → T.kept → T.born ≤ S.moment site }
    requires before { S.tells → T.kept → (image : Files) → S.images_since site T.born image
        → T.before image }
    requires kept { S.tells → T.kept → (image : Files) → IsImage (S.may_leave site) image
        → Keeps (Fits T.trust F.gives T.sources) plan log.name history image }
    requires sources { S.tells → T.kept → T.trust → is_empty (part history) ≡ true
        → (f : ℕ) → is_source plan f ≡ true → S.files site (file_name plan f) ≡ T.sources f }
    ensures reply { IfOk result (OpensDesk S.count plan options log.name history moment S.tells
        (S.files site) site) }
    ensures declined { IfErr result (Declines S.count plan options history S.tells
        (S.files site) site (H.count hall.old) (H.count hall.new)) }
    ensures unmet { IfErr result (λ left. IsUnmetRun (how_of left) → hall.new ≡ hall.old) }
    ensures any_moment { S.tells → T.kept
        → LeavesOnly S.moment S.images_since site (site_at result)
        (KeepsOpening (Fits T.trust F.gives T.sources) plan options log.name history moment
        S.tells (S.files site)) }
    ensures quiet { IfErr result (λ left. S.tells
        → LeavesAsWas S.may_leave S.moment S.images_since site left) }
    ensures others { S.tells → StaysBeside S.may_leave S.moment S.images_since
        (λ m. m ≢ log.name) site (site_at result) }
    ensures reads { S.tells
        → ReadsStay S.files (IsSparedAt plan log.name result) site (site_at result) }
    ensures listens { OnOk result (options.wq ≡ true → H.listens hall.new) }
    ensures alone { options.wq ≡ false → hall.new ≡ hall.old }
    ensures given { H.given hall.new ≡ H.given hall.old }
    ensures got { H.got hall.new ≡ H.got hall.old }
    ensures idles { H.idle_count hall.new ≡ H.idle_count hall.old }
    ensures honest { H.honest hall.old → H.honest hall.new }
    ensures sure { H.sure hall.old → H.sure hall.new }
    ensures manned { (amounts : AmountsValue)
        → H.manned hall.old amounts → H.manned hall.new amounts }
    ensures met { H.count hall.old ≤ H.count hall.new }
{
    let ready = match Desk::<F, S, T, A>::ready(alloc, plan, site, log, history, options, moment) {
        Ok(ready) => ready,
        Err(StartRefused { why, site, history }) => {
            return Err(Unopened {
                site,
                records: history,
                why: Stopped::Refused(why),
            });
        }
    };
    match listen::<F, H>(options.wq, hall, port) {
        Ok(()) => {}
        Err(fault) => {
            let (site, records) = ready.into_parts();
            return Err(Unopened {
                site,
                records,
                why: Stopped::Unheard(fault),
            });
        }
    }
    match ready.open() {
        Ok(desk) => Ok(desk),
        Err(StartRefused { why, site, history }) => Err(Unopened {
            site,
            records: history,
            why: Stopped::Unopened(opening_fault(why)),
        }),
    }
}
