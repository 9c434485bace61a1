//! Jobs, tasks and outputs of rules.
ghost use Rattle.std.specs.Prelude.{◌≡◌, IfOk, map, ◌<◌};
ghost use Rattle.flow_types.specs.Plans.{bound_of};
ghost use Rattle.flow_types.specs.Serial.{job_of};
ghost use Rattle.world_contents.specs.Holdings.{content_or_none, given_at, held_in};
ghost use Rattle.world_laws.specs.Worlds.{want_at, task_with};

use crate::contents::content_at;
use flow_types::{
    AttemptNo, Bytes, FileNo, Given, Job, Memory, Plan, Port, Rows, Rule, Task, Want,
};
use std::alloc::Global;

// The most bytes that a file may have.
pub(crate) fn bound_of(plan: &Plan, file: FileNo) -> u64
    ensures { result ≡ bound_of plan.now file.0 }
{
    match plan.files.get(file.0 as usize) {
        Some(row) => row.bound,
        None => 0,
    }
}

// What is wanted at these ports.
pub(crate) fn wants(alloc: Global, plan: &Plan, ports: Rows<Port>) -> Result<Rows<Want>, Memory>
    ensures { IfOk result (λ wants. wants ≡ map (want_at plan.now) ports) }
{
    let mut wants = Vec::new(alloc);
    for Port { file, remote } in ports.into_vec() {
        let bound = bound_of(plan, file);
        if wants.push(Want { remote, bound }).is_err() {
            return Err(Memory);
        }
    }
    Ok(Rows::of(wants))
}

// The content of a file; without one it counts as empty.
fn copy_at(alloc: Global, contents: &[Option<Bytes>], file: FileNo) -> Result<Bytes, Memory>
    ensures { IfOk result (λ content. content ≡ content_or_none (held_in contents.now) file.0) }
{
    match content_at(contents, file) {
        Some(content) => Bytes::of(alloc, content.as_slice()),
        None => Bytes::of(alloc, &[]),
    }
}

// The contents at these ports.
fn givens(
    alloc: Global,
    contents: &[Option<Bytes>],
    ports: Rows<Port>,
) -> Result<Rows<Given>, Memory>
    ensures { IfOk result (λ givens. givens ≡ map (given_at (held_in contents.now)) ports) }
{
    let mut givens = Vec::new(alloc);
    for Port { file, remote } in ports.into_vec() {
        let content = copy_at(alloc, contents, file)?;
        if givens.push(Given { remote, content }).is_err() {
            return Err(Memory);
        }
    }
    Ok(Rows::of(givens))
}

/// The job of a rule over these contents.
pub fn job_of(
    alloc: Global,
    plan: &Plan,
    rule: &Rule,
    contents: &[Option<Bytes>],
) -> Result<Job, Memory>
    ensures { IfOk result (λ job. job ≡ job_of plan.now rule.now (held_in contents.now)) }
{
    let Rule {
        inputs,
        outputs,
        command,
        local: _,
        needs: _,
        env,
        bound: _,
    } = rule.copy(alloc)?;
    let inputs = givens(alloc, contents, inputs)?;
    let outputs = wants(alloc, plan, outputs)?;
    Ok(Job {
        command,
        env,
        inputs,
        outputs,
    })
}

/// The task of an attempt at a rule, in a run.
pub fn task_with(
    alloc: Global,
    plan: &Plan,
    rule: &Rule,
    attempt: AttemptNo,
    run: u64,
) -> Result<Task, Memory>
    ensures { IfOk result (λ task. task ≡ task_with plan.now rule.now attempt run) }
{
    let Rule {
        inputs,
        outputs,
        command,
        local: _,
        needs,
        env,
        bound: _,
    } = rule.copy(alloc)?;
    let outputs = wants(alloc, plan, outputs)?;
    Ok(Task {
        attempt,
        run,
        command,
        needs,
        env,
        inputs,
        outputs,
    })
}
