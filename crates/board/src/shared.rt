//! A desk, as what threads share.
ghost use Rattle.std.specs.Prelude.{◌≡◌, Some, IfOk};
ghost use Rattle.flow_types.specs.Serial.{serial};
ghost use Rattle.desk.specs.Inputs.{IsWhole};
ghost use Rattle.flow_types.specs.declared.plan.Plan.{Plan as PlanValue};
ghost use Rattle.board.specs.Calls.{AreCounts, ChangesHere, ClaimsByHere, ClaimsHere, LeavesHere};
ghost use Rattle.board.specs.Calls.{ReadsHere};
ghost use Rattle.board.specs.Goes.{OthersStay};

use desk::{Claim, ClaimRefused, Desk, InputRefused, Terms};
use flow_types::{Amounts, Bytes, FileNo, LinkNo};
use outside::{Commands, Site};
use run_history::JoinRefused;
use std::alloc::Global;
use std::marker::Model;
use task_core::{Admission, AdmitAll};
use turns::{Counted, Growing};

/// A desk that is shared. To a contract it is the desk.
#[derive(Drop)]
pub struct Shared<F: Commands, S: Site, T: Terms, A: Admission> {
    pub(crate) desk: Desk<F, S, T, A>,
}

impl<F: Commands, S: Site, T: Terms, A: Admission> Model for Shared<F, S, T, A> {
    ghost use Rattle.desk.specs.State.{DeskState};

    ghost Value = { DeskState S };

    ghost view = { λ s. s.desk };
}

impl<F: Commands, S: Site, T: Terms, A: Admission> Growing for Shared<F, S, T, A> {
    ghost use Rattle.std.specs.Prelude.{length};
    ghost use Rattle.run_history.specs.Links.{records_of};
    ghost use Rattle.run_history.specs.Storage.{complete_count};
    ghost use Rattle.board.specs.Goes.{GoesOn};
    ghost use Rattle.board.specs.Growth.{goes_on};

    ghost grows = { GoesOn S.tells S.files S.may_leave S.moment S.images_since };

    ghost moves = { λ d. length d.moves };

    ghost done = { λ d. complete_count d.plan (records_of d.moves) };

    ghost growth = { goes_on S.tells S.files S.may_leave S.moment S.images_since };
}

impl<F: Commands, S: Site, T: Terms, A: Admission> Shared<F, S, T, A> {
    /// Starts an admitted rule, where the link lives.
    pub(crate) fn claim_by(
        &mut self,
        link: LinkNo,
        admission: &mut A,
        moment: u64,
    ) -> Result<Claim, ClaimRefused>
        requires stands { A.stands_for admission.old self.old.plan }
        ensures reply { ClaimsByHere A.admitted S.count self.old link moment result self.new }
        ensures others { OthersStay S.tells S.files S.may_leave S.moment S.images_since self.old
            self.new }
        ensures stays { (P : PlanValue) → A.stands_for admission.old P
            → A.stands_for admission.new P }
    {
        if self.desk.lives(link) {
            self.desk.claim_by(link, admission, moment)
        } else {
            Err(ClaimRefused::Memory)
        }
    }

    /// A link states other amounts, where it lives.
    pub(crate) fn totals(
        &mut self,
        link: LinkNo,
        total: Amounts,
        largest: Amounts,
        cache: u64,
    ) -> Result<(), JoinRefused>
        ensures { ChangesHere self.old link total largest cache result self.new }
    {
        if self.desk.lives(link) {
            self.desk.totals(link, total, largest, cache)
        } else {
            Err(JoinRefused::Memory)
        }
    }

    /// The content of a file, where it is present.
    pub(crate) fn read_input(&mut self, alloc: Global, file: FileNo) -> Result<Bytes, InputRefused>
        ensures reply { ReadsHere S.tells S.files S.count self.old file result self.new }
        ensures whole { S.tells → T.kept → IsWhole result }
        ensures honest { IfOk result (λ bytes. S.tells → T.kept → T.trust
            → serial self.old.plan F.gives T.sources file.0 ≡ Some bytes) }
        ensures others { OthersStay S.tells S.files S.may_leave S.moment S.images_since self.old
            self.new }
    {
        if self.desk.present(file) {
            self.desk.read_input(alloc, file)
        } else {
            Err(InputRefused::Memory)
        }
    }

    /// A link leaves, where it may.
    pub(crate) fn leave(&mut self, link: LinkNo)
        ensures { LeavesHere self.old link self.new }
    {
        if link.0 != 0 && self.desk.lives(link) && !self.desk.busy(link) {
            self.desk.leave(link);
        }
    }

    /// The reply, with the counts of the desk.
    pub(crate) fn count<R>(&self, reply: R) -> Counted<R>
        ensures reply { result.reply ≡ reply }
        ensures counts { AreCounts self.now result.moves result.done }
    {
        Counted {
            reply,
            moves: self.desk.moves_made(),
            done: self.desk.complete(),
        }
    }
}

impl<F: Commands, S: Site, T: Terms> Shared<F, S, T, AdmitAll> {
    /// Starts a rule, where the link lives.
    pub(crate) fn claim(&mut self, link: LinkNo, moment: u64) -> Result<Claim, ClaimRefused>
        ensures reply { ClaimsHere S.count self.old link moment result self.new }
        ensures others { OthersStay S.tells S.files S.may_leave S.moment S.images_since self.old
            self.new }
    {
        if self.desk.lives(link) {
            self.desk.claim(link, moment)
        } else {
            Err(ClaimRefused::Memory)
        }
    }
}
