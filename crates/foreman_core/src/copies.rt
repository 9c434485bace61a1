//! Equal copies of tasks.
ghost use Rattle.std.specs.Prelude.{◌≡◌, IfOk};
ghost use Rattle.foreman_core.specs.Steps.{renumbered};

use flow_types::{AttemptNo, Memory, Pair, Port, Rows, Task, Want};
use std::alloc::Global;

fn pairs_of(alloc: Global, pairs: &[Pair]) -> Result<Rows<Pair>, Memory>
    ensures { IfOk result (λ copies. copies ≡ pairs.now) }
{
    let mut copies = Rows::new(alloc);
    for pair in pairs {
        let name = pair.name.copy(alloc)?;
        let value = pair.value.copy(alloc)?;
        if copies.push(Pair { name, value }).is_err() {
            return Err(Memory);
        }
    }
    Ok(copies)
}

fn ports_of(alloc: Global, ports: &[Port]) -> Result<Rows<Port>, Memory>
    ensures { IfOk result (λ copies. copies ≡ ports.now) }
{
    let mut copies = Rows::new(alloc);
    for port in ports {
        let file = port.file;
        let remote = port.remote.copy(alloc)?;
        if copies.push(Port { file, remote }).is_err() {
            return Err(Memory);
        }
    }
    Ok(copies)
}

fn wants_of(alloc: Global, wants: &[Want]) -> Result<Rows<Want>, Memory>
    ensures { IfOk result (λ copies. copies ≡ wants.now) }
{
    let mut copies = Rows::new(alloc);
    for want in wants {
        let remote = want.remote.copy(alloc)?;
        let bound = want.bound;
        if copies.push(Want { remote, bound }).is_err() {
            return Err(Memory);
        }
    }
    Ok(copies)
}

/// The task under another number.
pub(crate) fn renumber(alloc: Global, task: &Task, number: AttemptNo) -> Result<Task, Memory>
    ensures { IfOk result (λ copy. copy ≡ renumbered task.now number) }
{
    let command = task.command.copy(alloc)?;
    let env = pairs_of(alloc, task.env.as_slice())?;
    let inputs = ports_of(alloc, task.inputs.as_slice())?;
    let outputs = wants_of(alloc, task.outputs.as_slice())?;
    Ok(Task {
        attempt: number,
        run: task.run,
        command,
        needs: task.needs,
        env,
        inputs,
        outputs,
    })
}
