//! Attempts: `claim LINK SLOT` puts the attempt that is started into a slot, `a` to `d`; `finish
//! SLOT` closes it with what its rule makes, each file holding its name, `fail SLOT STATUS` and
//! `lose SLOT` close it else, and `task SLOT` says what it is to do.
use crate::answers::shown_task;
use crate::slots::Slots;
use crate::words::{first, said, small, told};
use desk::CloseRefused;
use desk_bench::{Bench, Claimed, Held};
use flow_types::{LinkNo, Memory};
use run_history::Next;
use std::alloc::{AllocError, Global};

// When each attempt is started or closed.
const MOMENT: u64 = 8;

fn shown_held(alloc: Global, held: &Held) -> Result<String, AllocError> {
    let (rule, number, link) = (held.rule().0, held.number().0, held.link().0);
    format!(in alloc; "rule {rule}, attempt {number}, link {link}")
}

fn claim(
    alloc: Global,
    bench: &mut Bench,
    slots: &mut Slots,
    line: &str,
) -> Result<String, AllocError> {
    let (link, slot) = first(line);
    let Some(link) = small(link) else {
        return said(alloc, "no number");
    };
    match bench.claim(LinkNo(link), MOMENT) {
        Claimed::Taken(held) => {
            let text = shown_held(alloc, &held);
            slots.hold(slot, held);
            text
        }
        Claimed::Nothing(why) => told(alloc, &why),
        Claimed::Refused(why) => told(alloc, &why),
        Claimed::NoLink => said(alloc, "no such link"),
    }
}

fn shown_closing(
    alloc: Global,
    word: &str,
    reply: Result<(), CloseRefused>,
) -> Result<String, AllocError> {
    match reply {
        Ok(()) => said(alloc, word),
        Err(why) => told(alloc, &why),
    }
}

fn shown_failing(alloc: Global, reply: Result<Next, CloseRefused>) -> Result<String, AllocError> {
    match reply {
        Ok(next) => told(alloc, &next),
        Err(why) => told(alloc, &why),
    }
}

// The plan of the desk has no such rule.
fn give_back(
    alloc: Global,
    slots: &mut Slots,
    slot: &str,
    held: Held,
) -> Result<String, AllocError> {
    slots.hold(slot, held);
    said(alloc, "no such rule")
}

fn finish(
    alloc: Global,
    bench: &mut Bench,
    slots: &mut Slots,
    slot: &str,
    held: Held,
) -> Result<String, AllocError> {
    match bench.finish(held, MOMENT) {
        Ok(reply) => shown_closing(alloc, "done", reply),
        Err(held) => give_back(alloc, slots, slot, held),
    }
}

fn fail(
    alloc: Global,
    bench: &mut Bench,
    slots: &mut Slots,
    line: &str,
    held: Held,
) -> Result<String, AllocError> {
    let (slot, status) = first(line);
    let status = status.parse::<i32>().unwrap_or(1);
    match bench.fail(held, status, MOMENT) {
        Ok(reply) => shown_failing(alloc, reply),
        Err(held) => give_back(alloc, slots, slot, held),
    }
}

fn lose(
    alloc: Global,
    bench: &mut Bench,
    slots: &mut Slots,
    slot: &str,
    held: Held,
) -> Result<String, AllocError> {
    match bench.lose(held, MOMENT) {
        Ok(reply) => shown_closing(alloc, "lost", reply),
        Err(held) => give_back(alloc, slots, slot, held),
    }
}

fn task(
    alloc: Global,
    bench: &Bench,
    slots: &mut Slots,
    slot: &str,
    held: Held,
) -> Result<String, AllocError> {
    let task = bench.task(alloc, &held);
    slots.hold(slot, held);
    match task {
        Some(Ok(task)) => shown_task(alloc, &task),
        Some(Err(Memory)) => Err(AllocError),
        None => said(alloc, "no such rule"),
    }
}

/// Does what a line of this kind says with an attempt.
pub fn of_attempt(
    alloc: Global,
    bench: &mut Bench,
    slots: &mut Slots,
    kind: &str,
    line: &str,
) -> Result<String, AllocError> {
    if kind == "claim" {
        return claim(alloc, bench, slots, line);
    }
    let (slot, _) = first(line);
    let Some(held) = slots.take(slot) else {
        return said(alloc, "nothing held");
    };
    match kind {
        "finish" => finish(alloc, bench, slots, slot, held),
        "fail" => fail(alloc, bench, slots, line, held),
        "lose" => lose(alloc, bench, slots, slot, held),
        _ => task(alloc, bench, slots, slot, held),
    }
}
