//! Which files are present, and what is in them.
ghost use Rattle.std.specs.Prelude.{◌≡◌, ◌<◌, length, Some, IfOk, IsErrOf, true};
ghost use Rattle.flow_types.specs.Serial.{serial};
ghost use Rattle.run_history.specs.States.{file_state};
ghost use Rattle.run_history.specs.Laws.{IsPresent};
ghost use Rattle.run_history.specs.Links.{records_of};
ghost use Rattle.run_history.specs.Storage.{is_present};
ghost use Rattle.outside.specs.Disk.{LeavesOnly};
ghost use Rattle.file_store.specs.Outputs.{file_name};
ghost use Rattle.desk.specs.declared.answers.InputRefused.TheVariants as refused;
ghost use Rattle.desk.specs.Inputs.{IsWhole, Looks, Tells, content_in};
ghost use Rattle.desk.specs.Kept.{Fits, Keeps, ReadsStay, StaysBeside, logged};
ghost use Rattle.desk.specs.Room.{KeepsAmple};
ghost use Rattle.desk.specs.State.{IsFine};

use super::Desk;
use crate::inputs::{buffer_of, content_in};
use crate::{InputRefused, Terms, Trouble};
use flow_types::{Bytes, Content, FileNo, Memory};
use outside::{Commands, Fault, Site};
use std::alloc::Global;
use task_core::Admission;

impl<F: Commands, S: Site, T: Terms, A: Admission> Desk<F, S, T, A> {
    /// What was logged of a file that is present.
    fn logged(&self, file: FileNo) -> Option<Content>
        ensures { result ≡ content_in (file_state self.now.plan (records_of self.now.moves)
            file.0) }
    {
        if file.0 as usize >= self.table.plan().files.len() {
            return None;
        }
        content_in(self.table.file(file))
    }

    /// Whether a file is present, as the records say: a source, or made and not removed since.
    pub fn present(&self, file: FileNo) -> bool
        ensures { result ≡ is_present self.now.plan (records_of self.now.moves) file.0 }
    {
        self.logged(file).is_some()
    }

    /// The content of a file that is present, as it was logged, or what stands in its place.
    pub(crate) fn read_present(
        &mut self,
        alloc: Global,
        file: FileNo,
        logged: Content,
    ) -> Result<Bytes, InputRefused>
        requires inside { file.0 < length self.old.plan.files }
        requires present { IsPresent self.old.plan (records_of self.old.moves) file.0 logged }
        ensures reply { Looks S.count self.old file logged result self.new }
        ensures told { S.tells → IsFine self.old.trouble
            → Tells logged (S.files self.old.site (file_name self.old.plan file.0)) result }
        ensures whole { S.tells → T.kept → IsWhole result }
        ensures honest { IfOk result (λ bytes. S.tells → T.kept → T.trust
            → serial self.old.plan F.gives T.sources file.0 ≡ Some bytes) }
        ensures any_moment { S.tells → T.kept → IsFine self.old.trouble
            → LeavesOnly S.moment S.images_since self.old.site self.new.site
            (Keeps (Fits T.trust F.gives T.sources) self.old.plan self.old.log
            (records_of self.old.moves)) }
        ensures others { S.tells → StaysBeside S.may_leave S.moment S.images_since
            (λ _. Unit {0}) self.old.site self.new.site }
        ensures reads { S.tells → ReadsStay S.files (λ _. Unit {0}) self.old.site self.new.site }
        ensures spares { S.ample self.old.site → IsFine self.old.trouble
            → IsErrOf result refused.Memory → self.new ≡ self.old }
        ensures ample { KeepsAmple (S.ample self.old.site) (S.ample self.new.site)
            (S.count self.new.site) result }
    {
        match self.trouble {
            Trouble::Fine => {}
            Trouble::Broken { before, after } => return Err(InputRefused::Broken { before, after }),
            Trouble::Wants => return Err(InputRefused::Memory),
        }
        let Ok(buffer) = buffer_of(alloc, logged.size) else {
            return Err(InputRefused::Memory);
        };
        let row = &self.table.plan().files.as_slice()[file.0 as usize];
        match self.site.read_logged(buffer, &row.name, logged) {
            Ok(Ok(bytes)) => Ok(bytes),
            Ok(Err(found)) => Err(InputRefused::Damaged {
                file,
                logged,
                found,
            }),
            Err(Fault::Failed) => {
                let before = self.faults;
                let after = self.site.faults();
                self.trouble = Trouble::Broken { before, after };
                Err(InputRefused::Broken { before, after })
            }
            Err(Fault::Memory) => {
                self.trouble = Trouble::Wants;
                Err(InputRefused::Memory)
            }
        }
    }

    /// The content of a file, as it was logged, or what stands in its place. Memory that is wanting
    /// for it alone doesn't end the desk's work, and nothing has changed. A content of 64 KiB to 64
    /// MiB is copied once as it is read, and that copy is kept, 128 MiB of them together, as is what
    /// was read of a source before the run was opened; while it is kept, a call makes a copy of it,
    /// and neither reads nor hashes. Condition: the file is present.
    pub fn read_input(&mut self, alloc: Global, file: FileNo) -> Result<Bytes, InputRefused>
        requires present { is_present self.old.plan (records_of self.old.moves) file.0 ≡ true }
        ensures reply { (logged : Content)
            → IsPresent self.old.plan (records_of self.old.moves) file.0 logged
            → Looks S.count self.old file logged result self.new }
        ensures told { (logged : Content)
            → IsPresent self.old.plan (records_of self.old.moves) file.0 logged
            → S.tells → IsFine self.old.trouble
            → Tells logged (S.files self.old.site (file_name self.old.plan file.0)) result }
        ensures whole { S.tells → T.kept → IsWhole result }
        ensures honest { IfOk result (λ bytes. S.tells → T.kept → T.trust
            → serial self.old.plan F.gives T.sources file.0 ≡ Some bytes) }
        ensures any_moment { S.tells → T.kept → IsFine self.old.trouble
            → LeavesOnly S.moment S.images_since self.old.site self.new.site
            (Keeps (Fits T.trust F.gives T.sources) self.old.plan self.old.log
            (records_of self.old.moves)) }
        ensures others { S.tells → StaysBeside S.may_leave S.moment S.images_since
            (λ _. Unit {0}) self.old.site self.new.site }
        ensures reads { S.tells → ReadsStay S.files (λ _. Unit {0}) self.old.site self.new.site }
        ensures spares { S.ample self.old.site → IsFine self.old.trouble
            → IsErrOf result refused.Memory → self.new ≡ self.old }
        ensures ample { KeepsAmple (S.ample self.old.site) (S.ample self.new.site)
            (S.count self.new.site) result }
    {
        match self.logged(file) {
            Some(logged) => self.read_present(alloc, file, logged),
            None => unreachable!(),
        }
    }
}
