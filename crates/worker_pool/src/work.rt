//! What a thread of the pool does.
ghost use Rattle.std.specs.Prelude.{◌≡◌, ◌<◌, IfOk, IfErr};
ghost use Rattle.crossbeam_queue.specs.Passes.{view, IsPassOf, IsSamePass};
ghost use Rattle.flow_types.specs.declared.job.Job.{Job};
ghost use Rattle.flow_types.specs.declared.job.Outcome.{Outcome};
ghost use Rattle.worker_pool.specs.Courses.{Answers, StaysTrue};
ghost use Rattle.worker_pool.specs.Tallies.{none, tally_of, AllFailuresCount, GrowsWith};

use crate::gate::Gate;
use crate::handed::Handed;
use crate::line::{Line, Token};
use crate::ran::Ran;
use crate::terms::Terms;
use flow_types::{Job, Memory, Outcome};
use outside::{Commands, Fault, Runner};
use std::alloc::Global;
use std::sync::Wait;

/// Runs a job behind the gate. A runner's fault is `NotRun`.
#[tactic(auto, using(crate::proofs::Runners::counts_failure, crate::proofs::Runners::stands))]
pub fn outcome_of<F: Commands, R: Runner<F>, G: Gate>(
    alloc: Global,
    runner: &mut R,
    gate: &G,
    job: &Job,
) -> Result<Outcome, Memory>
    ensures answers { IfOk result (λ outcome.
        Answers F.gives F.may_fail R.tells R.sure runner.old job.now outcome) }
    ensures counted { IfOk result (λ outcome. AllFailuresCount (tally_of outcome)
        (R.count runner.old) (R.count runner.new)
        (R.failures runner.old) (R.failures runner.new)) }
    ensures no_less { IfErr result (λ memory. AllFailuresCount none
        (R.count runner.old) (R.count runner.new)
        (R.failures runner.old) (R.failures runner.new)) }
    ensures stays { StaysTrue R.tells R.sure runner.old runner.new }
{
    gate.pass(job);
    match runner.run(alloc, job) {
        Ok(outcome) => Ok(outcome),
        Err(Fault::Failed) => Ok(Outcome::NotRun),
        Err(Fault::Memory) => Err(Memory),
    }
}

/// Runs a start and puts its report.
pub fn work_one<B: Terms, F: Commands, W: Wait, R: Runner<F>, G: Gate>(
    rt: &W,
    line: &Line<B>,
    token: &mut Token,
    runner: &mut R,
    gate: &G,
    handed: Handed<B>,
) -> Result<(), Memory>
    requires fits { (job : Job) (outcome : Outcome)
        → Answers F.gives F.may_fail R.tells R.sure runner.old job outcome
        → B.fits job outcome }
    requires token { IsPassOf line.now.reports token.old × (0 < (view token.old).parts) }
    ensures same { IsSamePass token.old token.new }
    ensures hand { ((view token.new).parts ≡ (view token.old).parts)
        × ((view token.new).taken ≡ (view token.old).taken) }
    ensures counted { GrowsWith (view token.old).put (view token.new).put
        (R.count runner.old) (R.count runner.new)
        (R.failures runner.old) (R.failures runner.new) }
    ensures stays { StaysTrue R.tells R.sure runner.old runner.new }
{
    let (start, ticket) = handed.into_parts();
    let outcome = outcome_of::<F, R, G>(line.alloc, runner, gate, &start.job)?;
    line.put(
        rt,
        token,
        Ran {
            start,
            outcome,
            ticket,
        },
    );
    gate.reported();
    Ok(())
}

/// Runs starts until the line is closed. Where memory is wanting it closes the line.
pub fn work<B: Terms, F: Commands, W: Wait, R: Runner<F>, G: Gate>(
    rt: &W,
    line: &Line<B>,
    token: &mut Token,
    runner: &mut R,
    gate: &G,
)
    requires fits { (job : Job) (outcome : Outcome)
        → Answers F.gives F.may_fail R.tells R.sure runner.old job outcome
        → B.fits job outcome }
    requires token { IsPassOf line.now.reports token.old × (0 < (view token.old).parts) }
    ensures same { IsSamePass token.old token.new }
    ensures hand { ((view token.new).parts ≡ (view token.old).parts)
        × ((view token.new).taken ≡ (view token.old).taken) }
    ensures counted { GrowsWith (view token.old).put (view token.new).put
        (R.count runner.old) (R.count runner.new)
        (R.failures runner.old) (R.failures runner.new) }
    ensures stays { StaysTrue R.tells R.sure runner.old runner.new }
{
    for _ in rt.forever() {
        let Some(seen) = line.given.seen() else {
            break;
        };
        let Some(handed) = line.starts.pop(rt) else {
            line.given.wait_past(rt, seen);
            continue;
        };
        if work_one::<B, F, W, R, G>(rt, line, token, runner, gate, handed).is_err() {
            line.close();
            break;
        }
    }
}
