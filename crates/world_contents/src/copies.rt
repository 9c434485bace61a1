//! Equal copies of messages.
ghost use Rattle.std.specs.Prelude.{◌≡◌, IfOk};

use flow_types::{Bytes, FileNo, Memory, Message, Outcome, Pair, Port, Rows, Task, Want};
use std::alloc::Global;

// A value of which an equal one can be made.
trait Duplicate: Drop {
    fn duplicate(&self, alloc: Global) -> Result<Self, Memory>
        ensures { IfOk result (λ copy. copy ≡ self.now) };
}

impl Duplicate for Bytes {
    fn duplicate(&self, alloc: Global) -> Result<Self, Memory> {
        Bytes::of(alloc, self.as_slice())
    }
}

impl Duplicate for FileNo {
    fn duplicate(&self, _: Global) -> Result<Self, Memory> {
        Ok(*self)
    }
}

impl Duplicate for Pair {
    fn duplicate(&self, alloc: Global) -> Result<Self, Memory> {
        let name = self.name.copy(alloc)?;
        let value = self.value.copy(alloc)?;
        Ok(Pair { name, value })
    }
}

impl Duplicate for Port {
    fn duplicate(&self, alloc: Global) -> Result<Self, Memory> {
        let remote = self.remote.copy(alloc)?;
        Ok(Port {
            file: self.file,
            remote,
        })
    }
}

impl Duplicate for Want {
    fn duplicate(&self, alloc: Global) -> Result<Self, Memory> {
        let remote = self.remote.copy(alloc)?;
        Ok(Want {
            remote,
            bound: self.bound,
        })
    }
}

fn rows_of<T: Duplicate>(alloc: Global, rows: &Rows<T>) -> Result<Rows<T>, Memory>
    ensures { IfOk result (λ copy. copy ≡ rows.now) }
{
    let mut copies = Rows::new(alloc);
    for row in rows.as_slice() {
        let copy = row.duplicate(alloc)?;
        if copies.push(copy).is_err() {
            return Err(Memory);
        }
    }
    Ok(copies)
}

impl Duplicate for Task {
    fn duplicate(&self, alloc: Global) -> Result<Self, Memory> {
        let command = self.command.copy(alloc)?;
        let env = rows_of(alloc, &self.env)?;
        let inputs = rows_of(alloc, &self.inputs)?;
        let outputs = rows_of(alloc, &self.outputs)?;
        Ok(Task {
            attempt: self.attempt,
            run: self.run,
            command,
            needs: self.needs,
            env,
            inputs,
            outputs,
        })
    }
}

// An equal outcome.
fn copy_outcome(alloc: Global, outcome: &Outcome) -> Result<Outcome, Memory>
    ensures { IfOk result (λ copy. copy ≡ outcome.now) }
{
    match outcome {
        Outcome::Success(contents) => match rows_of(alloc, contents) {
            Ok(contents) => Ok(Outcome::Success(contents)),
            Err(_) => Err(Memory),
        },
        Outcome::Failed(why) => Ok(Outcome::Failed(*why)),
        Outcome::NotRun => Ok(Outcome::NotRun),
    }
}

/// An equal message.
pub fn copy_message(alloc: Global, message: &Message) -> Result<Message, Memory>
    ensures { IfOk result (λ copy. copy ≡ message.now) }
{
    Ok(match message {
        Message::Hello {
            total,
            largest,
            cache,
        } => Message::Hello {
            total: *total,
            largest: *largest,
            cache: *cache,
        },
        Message::Put { key, content } => Message::Put {
            key: *key,
            content: content.duplicate(alloc)?,
        },
        Message::Task(task) => Message::Task(task.duplicate(alloc)?),
        Message::Done { attempt, outcome } => Message::Done {
            attempt: *attempt,
            outcome: copy_outcome(alloc, outcome)?,
        },
        Message::Missing { attempt, files } => Message::Missing {
            attempt: *attempt,
            files: rows_of(alloc, files)?,
        },
        Message::Cancel { attempt } => Message::Cancel { attempt: *attempt },
        Message::Unlink { key } => Message::Unlink { key: *key },
        Message::Totals {
            total,
            largest,
            cache,
        } => Message::Totals {
            total: *total,
            largest: *largest,
            cache: *cache,
        },
        Message::Bye => Message::Bye,
    })
}
