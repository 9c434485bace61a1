//! The task that is sent of a submission.
ghost use Rattle.std.specs.Prelude.{◌≡◌, ◌≤◌, IfOk, length};
ghost use Rattle.flow_types.specs.declared.messages.Message.TheVariants as messages;
ghost use Rattle.task_book.specs.Submissions.{IsShort};
ghost use Rattle.wq_messages.specs.Spelling.{HasCounts, most_body, spelling};
ghost use Rattle.wq_seats.specs.Seats.{task_of};

use flow_types::{AttemptNo, Memory, Pair, Port, Rows, Task, Want};
use std::alloc::Global;
use task_book::Submission;

/// The run of all tasks of a queue.
pub(crate) const OWN_RUN: u64 = 0;

fn pairs_of(alloc: Global, pairs: &[Pair]) -> Result<Rows<Pair>, Memory>
    ensures { IfOk result (λ copies. copies ≡ pairs.now) }
{
    let mut copies = Rows::new(alloc);
    for pair in pairs {
        let name = pair.name.copy(alloc)?;
        let value = pair.value.copy(alloc)?;
        if copies.push(Pair { name, value }).is_err() {
            return Err(Memory);
        }
    }
    Ok(copies)
}

fn ports_of(alloc: Global, ports: &[Port]) -> Result<Rows<Port>, Memory>
    ensures { IfOk result (λ copies. copies ≡ ports.now) }
{
    let mut copies = Rows::new(alloc);
    for port in ports {
        let file = port.file;
        let remote = port.remote.copy(alloc)?;
        if copies.push(Port { file, remote }).is_err() {
            return Err(Memory);
        }
    }
    Ok(copies)
}

fn wants_of(alloc: Global, wants: &[Want]) -> Result<Rows<Want>, Memory>
    ensures { IfOk result (λ copies. copies ≡ wants.now) }
{
    let mut copies = Rows::new(alloc);
    for want in wants {
        let remote = want.remote.copy(alloc)?;
        let bound = want.bound;
        if copies.push(Want { remote, bound }).is_err() {
            return Err(Memory);
        }
    }
    Ok(copies)
}

fn made_of(alloc: Global, task: &Submission, attempt: AttemptNo) -> Result<Task, Memory>
    ensures of { IfOk result (λ sent. sent ≡ task_of attempt task.now) }
{
    let command = task.command.copy(alloc)?;
    let env = pairs_of(alloc, task.env.as_slice())?;
    let inputs = ports_of(alloc, task.inputs.as_slice())?;
    let outputs = wants_of(alloc, task.outputs.as_slice())?;
    Ok(Task {
        attempt,
        run: OWN_RUN,
        command,
        needs: task.needs,
        env,
        inputs,
        outputs,
    })
}

/// What is sent of a task for an attempt. It fits a frame.
pub(crate) fn task_of(alloc: Global, task: &Submission, attempt: AttemptNo) -> Result<Task, Memory>
    requires { IsShort task.now }
    ensures of { IfOk result (λ sent. sent ≡ task_of attempt task.now) }
    ensures counts { IfOk result (λ sent. HasCounts (messages.Task sent)) }
    ensures short { IfOk result (λ sent. length (spelling (messages.Task sent)) ≤ most_body) }
{
    let sent = made_of(alloc, task, attempt)?;
    Ok(sent)
}
