//! Messages that are to be sent.
ghost use Rattle.std.specs.Prelude.{◌≡◌, ◌∷◌, [], ◌++◌, map, OnOk};
ghost use Rattle.foreman_core.specs.Steps.{down_to, not_run, put_list, put_of, puts_and_task};

use crate::acts::Down;
use crate::links::Upstream;
use flow_types::{Bytes, FileNo, Key, LinkNo, Memory, Message, Outcome, Rows, Task};
use std::alloc::Global;
use worker_cache::Cache;

/// One more message to the worker at a link.
pub(crate) fn send(down: &mut Rows<Down>, link: LinkNo, message: Message) -> Result<(), Memory>
    ensures { OnOk result (down.new ≡ down.old ++ down_to link (message ∷ [])) }
{
    match down.push(Down { link, message }) {
        Ok(()) => Ok(()),
        Err(_) => Err(Memory),
    }
}

// The Put of a file, where its content is held.
fn send_put(
    down: &mut Rows<Down>,
    alloc: Global,
    cache: &Cache,
    link: LinkNo,
    key: Key,
) -> Result<(), Memory>
    ensures { OnOk result (down.new ≡ down.old
        ++ down_to link (put_list (put_of cache.now.rows key.run key.file))) }
{
    match cache.get(key) {
        Some(content) => {
            let content = Bytes::of(alloc, content)?;
            send(down, link, Message::Put { key, content })
        }
        None => Ok(()),
    }
}

/// The Puts of these files, and the task behind them.
pub(crate) fn send_all(
    down: &mut Rows<Down>,
    alloc: Global,
    cache: &Cache,
    link: LinkNo,
    files: &[FileNo],
    task: Task,
) -> Result<(), Memory>
    ensures { OnOk result (down.new ≡ down.old
        ++ down_to link (puts_and_task cache.now.rows files.now task)) }
{
    let run = task.run;
    for file in files {
        let file = *file;
        send_put(down, alloc, cache, link, Key { run, file })?;
    }
    send(down, link, Message::Task(task))
}

/// One more message to the parent.
pub(crate) fn tell(up: &mut Rows<Message>, message: Message) -> Result<(), Memory>
    ensures { OnOk result (up.new ≡ up.old ++ message ∷ []) }
{
    match up.push(message) {
        Ok(()) => Ok(()),
        Err(_) => Err(Memory),
    }
}

/// Tells of an attempt that it came to no end.
pub(crate) fn tell_not_run(up: &mut Rows<Message>, u: &Upstream) -> Result<(), Memory>
    ensures { OnOk result (up.new ≡ up.old ++ not_run u.now ∷ []) }
{
    let attempt = u.task.attempt;
    let outcome = Outcome::NotRun;
    tell(up, Message::Done { attempt, outcome })
}

/// The same of each of these.
pub(crate) fn tell_all(up: &mut Rows<Message>, gone: &[Upstream]) -> Result<(), Memory>
    ensures { OnOk result (up.new ≡ up.old ++ map not_run gone.now) }
{
    for u in gone {
        tell_not_run(up, u)?;
    }
    Ok(())
}
