//! A desk over a folder in memory.
ghost use Rattle.std.specs.Prelude.{◌≤◌, length, IfOk};
ghost use Rattle.flow_types.specs.Plans.{IsValid};
ghost use Rattle.desk_bench.specs.Benches.{HasOutputs};

use crate::drain::Drain;
use crate::held::{Held, MOST_RULES};
use crate::one_by_one::OneByOne;
use crate::plans::{LOG, is_apart, outputs};
use desk::{
    Claim, ClaimRefused, CloseRefused, CollectRefused, Desk, EndRefused, InputRefused, StartFault,
};
use flow_types::{Amounts, Bytes, Failure, FileNo, LinkNo, Memory, Name, Plan, Record, Rows, Task};
use log_recover::{RecoverFault, recover};
use mem_outside::{Blank, MemSite};
use run_history::{Check, JoinRefused, Next, Nothing, Options, Stop};
use std::alloc::Global;
use std::marker::{Brand, Model};
use task_core::{Admission, AdmitAll};

/// A desk, with what each rule of its plan makes.
#[derive(Drop)]
pub struct BenchOf<A: Admission> {
    desk: Desk<Blank, MemSite, Brand, A>,
    outs: Vec<Rows<Bytes>>,
}

/// A bench whose desk admits every rule.
pub type Bench = BenchOf<AdmitAll>;

impl<A: Admission> Model for BenchOf<A> {
    ghost Value = { Unit {0} };

    ghost view = { λ b. tt };

    ghost invariant = { λ b. HasOutputs b.desk.plan b.outs.items };
}

/// What a claim answers.
pub enum Claimed {
    Taken(Held),
    Nothing(Nothing),
    Refused(ClaimRefused),
    /// No such link lives.
    NoLink,
}

/// Why a bench isn't begun.
#[derive(Clone, Copy, Debug, PartialEq, Eq)]
pub enum Unready {
    Log(RecoverFault),
    Desk(StartFault),
    /// The plan has more than `MOST_RULES` rules, a file of it has the log's name, or memory was
    /// wanting.
    Setting,
}

// What each rule makes.
fn all_outputs(alloc: Global, plan: &Plan) -> Result<Vec<Rows<Bytes>>, Memory>
    requires { length plan.now.rules ≤ 64 }
    ensures { IfOk result (λ outs. HasOutputs plan.now outs.items) }
{
    let mut outs = Vec::new(alloc);
    for rule in 0..plan.rules.len() {
        match outs.push(outputs(alloc, plan, rule)?) {
            Ok(()) => {}
            Err(_) => return Err(Memory),
        }
    }
    Ok(outs)
}

/// Opens the log of the folder and starts a desk over it, or says why not and gives the folder back.
pub fn begin<A: Admission>(
    alloc: Global,
    plan: Plan,
    site: MemSite,
    options: Options,
) -> Result<BenchOf<A>, (Unready, MemSite)>
    requires { IsValid plan }
{
    let Ok(name) = Name::of(alloc, LOG) else {
        return Err((Unready::Setting, site));
    };
    if plan.rules.len() > MOST_RULES {
        return Err((Unready::Setting, site));
    }
    if !is_apart(&plan, &name) {
        return Err((Unready::Setting, site));
    }
    let Ok(outs) = all_outputs(alloc, &plan) else {
        return Err((Unready::Setting, site));
    };
    let mut site = site;
    match recover(alloc, &mut site, name) {
        Ok((log, history)) => match Desk::start(alloc, plan, site, log, history, options, 7) {
            Ok(desk) => Ok(BenchOf { desk, outs }),
            Err(refused) => Err((Unready::Desk(refused.why), refused.site)),
        },
        Err(why) => Err((Unready::Log(why), site)),
    }
}

impl<A: Admission> BenchOf<A> {
    /// A link joins that is one place of these amounts, with a cache of so many bytes.
    pub fn join(&mut self, total: Amounts, cache: u64) -> Result<LinkNo, JoinRefused> {
        self.desk.join(total, total, cache)
    }

    /// A link states other amounts, those of one place, and another cache. None comes where no such
    /// link lives.
    pub fn totals(
        &mut self,
        link: LinkNo,
        total: Amounts,
        cache: u64,
    ) -> Option<Result<(), JoinRefused>> {
        if !self.desk.lives(link) {
            return None;
        }
        Some(self.desk.totals(link, total, total, cache))
    }

    /// A link leaves, and whether it may: it isn't the local place, it lives, and nothing runs
    /// there.
    pub fn leave(&mut self, link: LinkNo) -> bool {
        if link.0 == 0 || !self.desk.lives(link) || self.desk.busy(link) {
            return false;
        }
        self.desk.leave(link);
        true
    }

    /// Whether a link lives.
    pub fn lives(&self, link: LinkNo) -> bool {
        self.desk.lives(link)
    }

    /// Whether an attempt runs on a link.
    pub fn busy(&self, link: LinkNo) -> bool {
        self.desk.busy(link)
    }

    /// What an attempt is to do. None comes where the plan has no such rule.
    pub fn task(&self, alloc: Global, held: &Held) -> Option<Result<Task, Memory>> {
        if held.rule().0 as usize >= self.outs.len() {
            return None;
        }
        Some(self.desk.task(alloc, held.attempt()))
    }

    /// Finishes an attempt with what its rule makes, or gives it back where the plan has no such
    /// rule.
    pub fn finish(&mut self, held: Held, moment: u64) -> Result<Result<(), CloseRefused>, Held> {
        let rule = held.rule().0 as usize;
        if rule >= self.outs.len() {
            return Err(held);
        }
        let outs = &self.outs[rule];
        Ok(self.desk.finish(held.into_attempt(), outs, moment))
    }

    /// Closes an attempt whose command failed with this status, or gives it back where the plan has
    /// no such rule.
    pub fn fail(
        &mut self,
        held: Held,
        status: i32,
        moment: u64,
    ) -> Result<Result<Next, CloseRefused>, Held> {
        if held.rule().0 as usize >= self.outs.len() {
            return Err(held);
        }
        let why = Failure::Status(status);
        Ok(self.desk.fail(held.into_attempt(), why, moment))
    }

    /// Gives an attempt up, or gives it back where the plan has no such rule.
    pub fn lose(&mut self, held: Held, moment: u64) -> Result<Result<(), CloseRefused>, Held> {
        if held.rule().0 as usize >= self.outs.len() {
            return Err(held);
        }
        Ok(self.desk.lose(held.into_attempt(), moment))
    }

    /// Whether the desk works.
    pub fn works(&self) -> bool {
        self.desk.works()
    }

    /// Drops the file that is wanted for collection.
    pub fn collect(&mut self, moment: u64) -> Result<Option<FileNo>, CollectRefused> {
        self.desk.collect(moment)
    }

    /// How the run ends, or why it goes on.
    pub fn end(&mut self, moment: u64) -> Result<Check, EndRefused> {
        self.desk.end(moment)
    }

    /// The content of a file. None comes where it isn't present.
    pub fn read(&mut self, alloc: Global, file: FileNo) -> Option<Result<Bytes, InputRefused>> {
        if self.desk.present(file) {
            Some(self.desk.read_input(alloc, file))
        } else {
            None
        }
    }

    /// The folder and the records, where no attempt runs or the desk doesn't work any more. Else
    /// the bench is given back.
    pub fn parts(self) -> Result<(MemSite, Rows<Record>), BenchOf<A>> {
        if self.desk.works() && !self.desk.is_idle() {
            return Err(self);
        }
        let BenchOf { desk, outs: _ } = self;
        Ok(desk.into_parts())
    }
}

impl BenchOf<AdmitAll> {
    /// Claims a rule for a link.
    pub fn claim(&mut self, link: LinkNo, moment: u64) -> Claimed {
        if !self.desk.lives(link) {
            return Claimed::NoLink;
        }
        match self.desk.claim(link, moment) {
            Ok(Claim::Taken(attempt)) => Claimed::Taken(Held::of(attempt)),
            Ok(Claim::Nothing(why)) => Claimed::Nothing(why),
            Err(why) => Claimed::Refused(why),
        }
    }

    /// Asks for a stop, and answers whether one stands.
    pub fn stop(&mut self, why: Stop) -> bool {
        self.desk.stop(why)
    }

    /// A drain for attempts, where the plan has `MOST_RULES` rules.
    pub fn into_drain(self) -> Option<Drain> {
        let BenchOf { desk, outs } = self;
        if outs.len() < MOST_RULES {
            return None;
        }
        Some(Drain::over(desk))
    }
}

impl BenchOf<OneByOne> {
    /// Claims an admitted rule for a link.
    pub fn claim_by(&mut self, link: LinkNo, moment: u64) -> Claimed {
        if !self.desk.lives(link) {
            return Claimed::NoLink;
        }
        match self.desk.claim_by(link, &mut OneByOne, moment) {
            Ok(Claim::Taken(attempt)) => Claimed::Taken(Held::of(attempt)),
            Ok(Claim::Nothing(why)) => Claimed::Nothing(why),
            Err(why) => Claimed::Refused(why),
        }
    }

    /// Asks for a stop by what is admitted, and answers whether one stands.
    pub fn stop_by(&mut self, why: Stop) -> bool {
        self.desk.stop_by(&mut OneByOne, why)
    }
}
