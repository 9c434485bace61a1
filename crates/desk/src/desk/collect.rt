//! The collection of files that no rule needs any more.
ghost use Rattle.std.specs.Prelude.{◌≡◌, ◌<◌, ◌∷◌, [], length, OnOk, IfOk, IfSome, IsErrOf, None};
ghost use Rattle.flow_types.specs.declared.records.Record.TheVariants as entries;
ghost use Rattle.run_history.specs.Links.{records_of};
ghost use Rattle.outside.specs.Disk.{LeavesOnly};
ghost use Rattle.file_store.specs.Outputs.{file_name, IsOther};
ghost use Rattle.desk.specs.Kept.{Fits, IsElse, Keeps, ReadsStay, StaysBeside, FilesHold};
ghost use Rattle.desk.specs.Kept.{KeepsEither};
ghost use Rattle.desk.specs.Room.{KeepsAmple};
ghost use Rattle.desk.specs.declared.answers.CollectRefused.TheVariants as unmade;
ghost use Rattle.task_core.specs.Collections.{collected_number, collection_of};
ghost use Rattle.desk.specs.Collections.{Collected, Collects, Drops, IsUncollected};
ghost use Rattle.desk.specs.Collections.{KeepsCollection, Removes};
ghost use Rattle.desk.specs.State.{CanWrite, IsFine};

use super::Desk;
use crate::removal::remove_row;
use crate::{ClaimRefused, CloseRefused, CollectRefused, Terms, Trouble};
use flow_types::{FileNo, Memory, Record};
use outside::{Commands, Fault, Site};
use run_history::Nothing;
use task_core::Admission;

impl<F: Commands, S: Site, T: Terms, A: Admission> Desk<F, S, T, A> {
    /// The file that a collection drops, or why it drops none.
    fn collection(&self) -> Result<Option<FileNo>, Nothing>
        ensures answer { collected_number result ≡ collection_of self.now.plan self.now.options
            self.now.moves }
        ensures files { S.tells → T.kept → IsFine self.now.trouble
            → FilesHold (Fits T.trust F.gives T.sources) self.now.plan (records_of self.now.moves)
            (S.may_leave self.now.site) }
        ensures still { S.tells → T.kept → IsFine self.now.trouble
            → LeavesOnly S.moment S.images_since self.now.site self.now.site
            (Keeps (Fits T.trust F.gives T.sources) self.now.plan self.now.log
            (records_of self.now.moves)) }
    {
        self.table.collection()
    }

    /// Removes a file that isn't present.
    fn remove_file(&mut self, file: FileNo) -> Result<(), CollectRefused>
        requires inside { file.0 < length self.old.plan.files }
        requires fine { IsFine self.old.trouble }
        requires can { CanWrite self.old (file.0 ∷ []) }
        ensures reply { Removes S.count self.old result self.new }
        ensures removed { OnOk result (S.tells
            → S.files self.new.site (file_name self.old.plan file.0) ≡ None) }
        ensures any_moment { S.tells → T.kept
            → LeavesOnly S.moment S.images_since self.old.site self.new.site
            (Keeps (Fits T.trust F.gives T.sources) self.old.plan self.old.log
            (records_of self.old.moves)) }
        ensures others { S.tells → StaysBeside S.may_leave S.moment S.images_since
            (IsOther self.old.plan (file.0 ∷ [])) self.old.site self.new.site }
        ensures reads { S.tells → ReadsStay S.files
            (IsOther self.old.plan (file.0 ∷ [])) self.old.site self.new.site }
        ensures never { S.ample self.old.site → IsErrOf result unmade.Memory → ⊥ }
        ensures ample { KeepsAmple (S.ample self.old.site) (S.ample self.new.site)
            (S.count self.new.site) result }
    {
        match remove_row(&mut self.site, self.table.plan(), file) {
            Ok(()) => Ok(()),
            Err(Fault::Failed) => {
                let before = self.faults;
                let after = self.site.faults();
                self.trouble = Trouble::Broken { before, after };
                Err(CollectRefused::Broken { before, after })
            }
            Err(Fault::Memory) => {
                self.trouble = Trouble::Wants;
                Err(CollectRefused::Memory)
            }
        }
    }

    /// Logs the drop of the file that a collection drops, and then removes it.
    fn drop_file(&mut self, file: FileNo, moment: u64) -> Result<(), CollectRefused>
        requires fine { IsFine self.old.trouble }
        requires chosen { Collected self.old file }
        requires files { S.tells → T.kept → FilesHold (Fits T.trust F.gives T.sources) self.old.plan
            (records_of self.old.moves) (S.may_leave self.old.site) }
        ensures reply { Drops S.count self.old moment file result self.new }
        ensures removed { OnOk result (S.tells
            → S.files self.new.site (file_name self.old.plan file.0) ≡ None) }
        ensures any_moment { S.tells → T.kept
            → LeavesOnly S.moment S.images_since self.old.site self.new.site
            (KeepsEither (Fits T.trust F.gives T.sources) self.old.plan self.old.log
            (records_of self.old.moves) (entries.Dropped moment file)) }
        ensures others { S.tells → StaysBeside S.may_leave S.moment S.images_since
            (IsElse self.old.plan self.old.log (file.0 ∷ [])) self.old.site self.new.site }
        ensures reads { S.tells → ReadsStay S.files
            (IsElse self.old.plan self.old.log (file.0 ∷ [])) self.old.site self.new.site }
        ensures never { S.ample self.old.site → IsErrOf result unmade.Memory → ⊥ }
        ensures ample { KeepsAmple (S.ample self.old.site) (S.ample self.new.site)
            (S.count self.new.site) result }
    {
        match self.record(Record::Dropped { moment, file }) {
            Ok(()) => self.remove_file(file),
            Err(CloseRefused::Stale { .. }) => unreachable!(),
            Err(CloseRefused::Broken { before, after }) => {
                Err(CollectRefused::Broken { before, after })
            }
            Err(CloseRefused::Memory) => Err(CollectRefused::Memory),
        }
    }

    /// The collection of a desk that works.
    fn collect_now(&mut self, moment: u64) -> Result<Option<FileNo>, CollectRefused>
        requires fine { IsFine self.old.trouble }
        ensures reply { Collects S.count self.old moment result self.new }
        ensures removed { IfOk result (λ dropped. IfSome dropped (λ file. S.tells
            → S.files self.new.site (file_name self.old.plan file.0) ≡ None)) }
        ensures any_moment { S.tells → T.kept
            → LeavesOnly S.moment S.images_since self.old.site self.new.site
            (KeepsCollection (Fits T.trust F.gives T.sources) self.old moment) }
        ensures others { S.tells → StaysBeside S.may_leave S.moment S.images_since
            (IsUncollected self.old) self.old.site self.new.site }
        ensures reads { S.tells → ReadsStay S.files
            (IsUncollected self.old) self.old.site self.new.site }
        ensures never { S.ample self.old.site → IsErrOf result unmade.Memory → ⊥ }
        ensures ample { KeepsAmple (S.ample self.old.site) (S.ample self.new.site)
            (S.count self.new.site) result }
    {
        match self.collection() {
            Ok(Some(file)) => match self.drop_file(file, moment) {
                Ok(()) => Ok(Some(file)),
                Err(why) => Err(why),
            },
            Ok(None) => Ok(None),
            Err(_) => Err(CollectRefused::LogPlaces),
        }
    }

    /// Drops the file that is wanted for collection, and answers it: its drop is logged before it
    /// is removed. None comes where no file is wanted, LogPlaces where one is and the log has no
    /// place left; then nothing changes.
    pub fn collect(&mut self, moment: u64) -> Result<Option<FileNo>, CollectRefused>
        ensures reply { Collects S.count self.old moment result self.new }
        ensures removed { IfOk result (λ dropped. IfSome dropped (λ file. S.tells
            → S.files self.new.site (file_name self.old.plan file.0) ≡ None)) }
        ensures any_moment { S.tells → T.kept → IsFine self.old.trouble
            → LeavesOnly S.moment S.images_since self.old.site self.new.site
            (KeepsCollection (Fits T.trust F.gives T.sources) self.old moment) }
        ensures others { S.tells → StaysBeside S.may_leave S.moment S.images_since
            (IsUncollected self.old) self.old.site self.new.site }
        ensures reads { S.tells → ReadsStay S.files
            (IsUncollected self.old) self.old.site self.new.site }
        ensures never { S.ample self.old.site → IsFine self.old.trouble
            → IsErrOf result unmade.Memory → ⊥ }
        ensures ample { KeepsAmple (S.ample self.old.site) (S.ample self.new.site)
            (S.count self.new.site) result }
    {
        match self.working() {
            Ok(()) => self.collect_now(moment),
            Err(ClaimRefused::Broken { before, after }) => {
                Err(CollectRefused::Broken { before, after })
            }
            Err(ClaimRefused::Memory) => Err(CollectRefused::Memory),
        }
    }
}
