//! The run of a batch.
ghost use Rattle.std.specs.Prelude.{◌≡◌, ◌≤◌, ◌<◌, ◌+◌, ℕ, [], List, IfErr, IfNone, IfOk, IfSome, Ok, OnErr, OnOk, false, is_ok, length, replicate, string_bytes, true};
ghost use Rattle.task_book.specs.declared.task.Submission.{Submission as SubmissionValue};
ghost use Rattle.task_book.specs.Kept.{nothing_kept, submitted_to};
ghost use Rattle.task_book.specs.Stages.{EndsOn};
ghost use Rattle.flow_types.specs.declared.numbers.Amounts.{Amounts as AmountsValue};
ghost use Rattle.wq_submit.specs.declared.cause.QueueCame.TheVariants as came;
ghost use Rattle.wq_submit.specs.Queues.{IsHallFault, IsStaffed, IsTrusted, IsWithin};
ghost use Rattle.batch_run.specs.declared.ends.End.{End as EndValue};
ghost use Rattle.batch_run.specs.Batch.{printed};
ghost use Rattle.batch_run.specs.Ends.{AreFit, AreOf, AreShown, CountsIdle, EndSo, IsBrought, IsNotIdle, MayEndSo, Notes, RunFails, WasIdle, most_idles, noted};

use crate::cause::BatchCause;
use crate::ends::{End, are_over, note, open_ends, text_of};
use links::{Hall, Link};
use outside::{Commands, Fault};
use std::alloc::Global;
use std::sync::Wait;
use wq_submit::{Queue, QueueCame, Submission, WaitFault};

/// How often `wait` may answer that it was idle.
const MOST_IDLES: u32 = 1_000_000;

// Submits a task.
fn submit_one<F: Commands, H: Hall<F>>(
    queue: &mut Queue<F, H>,
    task: Submission,
) -> Result<(), BatchCause>
    ensures ok { OnOk result (queue.new.kept ≡ submitted_to queue.old.kept task) }
    ensures err { OnErr result (queue.new.kept ≡ queue.old.kept) }
    ensures files { queue.new.files ≡ queue.old.files }
    ensures trusted { IsTrusted H.Way.tells F.gives F.may_fail H.Way.honest queue.old
        → IsTrusted H.Way.tells F.gives F.may_fail H.Way.honest queue.new }
    ensures staffed { (least : AmountsValue) (hall : H) → IsWithin least task.needs
        → IsStaffed H.Way.sure H.Way.offers H.manned H.staffed least hall queue.old
        → IsStaffed H.Way.sure H.Way.offers H.manned H.staffed least hall queue.new }
    ensures cause { IfErr result (λ why. why ≡ BatchCause.Memory) }
{
    match queue.submit(task) {
        Ok(_id) => Ok(()),
        Err(_why) => Err(BatchCause::Memory),
    }
}

// Submits the tasks, in order.
fn submit_all<F: Commands, H: Hall<F>>(
    queue: &mut Queue<F, H>,
    tasks: Vec<Submission>,
) -> Result<(), BatchCause>
    requires none { queue.old.kept ≡ nothing_kept }
    ensures of { OnOk result (AreOf tasks.items queue.new.kept) }
    ensures ends { EndsOn queue.old.kept.held queue.new.kept.held }
    ensures files { queue.new.files ≡ queue.old.files }
    ensures trusted { IsTrusted H.Way.tells F.gives F.may_fail H.Way.honest queue.old
        → IsTrusted H.Way.tells F.gives F.may_fail H.Way.honest queue.new }
    ensures staffed { (least : AmountsValue) (hall : H) → AreFit least tasks.items
        → IsStaffed H.Way.sure H.Way.offers H.manned H.staffed least hall queue.old
        → IsStaffed H.Way.sure H.Way.offers H.manned H.staffed least hall queue.new }
    ensures cause { IfErr result (λ why. why ≡ BatchCause.Memory) }
{
    for task in tasks {
        match submit_one(queue, task) {
            Ok(()) => {}
            Err(cause) => return Err(cause),
        }
    }
    Ok(())
}

// Begins to listen.
fn listen<F: Commands, H: Hall<F>>(hall: &mut H, port: u16) -> Result<(), BatchCause>
    ensures listens { OnOk result (H.listens hall.new) }
    ensures honest { H.honest hall.old → H.honest hall.new }
    ensures manned { (least : AmountsValue) → H.manned hall.old least → H.manned hall.new least }
    ensures idles { H.idle_count hall.new ≡ H.idle_count hall.old }
    ensures rises { H.count hall.old ≤ H.count hall.new }
    ensures cause { IfErr result (RunFails ⊥ (H.count hall.old) (H.count hall.new)) }
{
    let before = hall.faults();
    match hall.listen(port) {
        Ok(()) => Ok(()),
        Err(Fault::Failed) => Err(BatchCause::HallFault {
            before,
            after: hall.faults(),
        }),
        Err(Fault::Memory) => Err(BatchCause::Memory),
    }
}

// Counts an answer that all were idle. It tells whether there were as many as may be.
fn count_idle(idles: &mut u32) -> bool
    requires few { idles.old < 1000000 }
    ensures more { idles.new ≡ idles.old + 1 }
    ensures all { result ≡ true → idles.new ≡ 1000000 }
    ensures few { result ≡ false → idles.new < 1000000 }
{
    *idles += 1;
    *idles >= MOST_IDLES
}

// Notes what an answer of `wait` gives. None where the batch goes on.
fn heed(
    answer: Result<QueueCame, WaitFault>,
    ends: &mut Vec<End>,
    idles: &mut u32,
) -> Option<Result<(), BatchCause>>
    requires few { idles.old < 1000000 }
    ensures notes { ends.new.items ≡ noted answer ends.old.items }
    ensures idles { CountsIdle answer idles.old idles.new }
    ensures few { IfNone result (idles.new < 1000000) }
    ensures cause { (before now : ℕ) → IsHallFault before now answer
        → IfSome result (λ end. IfErr end (RunFails (idles.new ≡ 1000000) before now)) }
    ensures on { IfNone result (is_ok answer ≡ true) }
    ensures late { (answer ≡ Ok came.Idle → ⊥) → IfSome result IsNotIdle }
{
    match answer {
        Ok(QueueCame::Got(ready)) => {
            note(ends, ready.id.0, End::of(&ready.outcome));
            None
        }
        Ok(QueueCame::Empty) => Some(Ok(())),
        Ok(QueueCame::Idle) => {
            if count_idle(idles) {
                Some(Err(BatchCause::Idle))
            } else {
                None
            }
        }
        Err(WaitFault::Hall { before, after }) => {
            Some(Err(BatchCause::HallFault { before, after }))
        }
        Err(WaitFault::Memory) => Some(Err(BatchCause::Memory)),
    }
}

// Waits once, and notes what was given. None where the batch goes on.
fn step<F: Commands, W: Wait, H: Hall<F>>(
    rt: &W,
    queue: &mut Queue<F, H>,
    hall: &mut H,
    ends: &mut Vec<End>,
    idles: &mut u32,
) -> Option<Result<(), BatchCause>>
    requires listens { H.listens hall.old }
    requires files { queue.old.files ≡ [] }
    requires few { idles.old < 1000000 }
    ensures listens { H.listens hall.new }
    ensures files { queue.new.files ≡ [] }
    ensures of { (tasks : List SubmissionValue) → AreOf tasks queue.old.kept
        → AreOf tasks queue.new.kept }
    ensures shown { H.Way.tells → AreShown H.Way.history queue.old.kept.held
        → AreShown H.Way.history queue.new.kept.held }
    ensures notes { (tasks : List SubmissionValue) → AreOf tasks queue.old.kept
        → (H.Way.tells → AreShown H.Way.history queue.old.kept.held)
        → Notes (IsBrought H.Way.tells (H.honest hall.old
        × IsTrusted H.Way.tells F.gives F.may_fail H.Way.honest queue.old) F.gives F.may_fail
        H.Way.history) tasks ends.old.items ends.new.items }
    ensures trusted { H.honest hall.old
        → IsTrusted H.Way.tells F.gives F.may_fail H.Way.honest queue.old
        → IsTrusted H.Way.tells F.gives F.may_fail H.Way.honest queue.new × H.honest hall.new }
    ensures rises { H.count hall.old ≤ H.count hall.new }
    ensures idles { (before : ℕ) → WasIdle H.Way.idle_count before (H.idle_count hall.old) idles.old
        → WasIdle H.Way.idle_count before (H.idle_count hall.new) idles.new }
    ensures few { IfNone result (idles.new < 1000000) }
    ensures cause { IfSome result (λ end. IfErr end
        (RunFails (idles.new ≡ 1000000) (H.count hall.old) (H.count hall.new))) }
    ensures staffed { (least : AmountsValue)
        → IsStaffed H.Way.sure H.Way.offers H.manned H.staffed least hall.old queue.old
        → IfNone result
        (IsStaffed H.Way.sure H.Way.offers H.manned H.staffed least hall.new queue.new) }
    ensures manned { (least : AmountsValue)
        → IsStaffed H.Way.sure H.Way.offers H.manned H.staffed least hall.old queue.old
        → IfSome result IsNotIdle }
{
    let answer = queue.wait(rt, hall);
    heed(answer, ends, idles)
}

// Waits until each task was given.
fn wait_all<F: Commands, W: Wait, H: Hall<F>>(
    rt: &W,
    queue: &mut Queue<F, H>,
    hall: &mut H,
    ends: &mut Vec<End>,
) -> Result<(), BatchCause>
    requires listens { H.listens hall.old }
    requires files { queue.old.files ≡ [] }
    ensures ends { (tasks : List SubmissionValue) → AreOf tasks queue.old.kept
        → (H.Way.tells → AreShown H.Way.history queue.old.kept.held)
        → MayEndSo (IsBrought H.Way.tells (H.honest hall.old
        × IsTrusted H.Way.tells F.gives F.may_fail H.Way.honest queue.old) F.gives F.may_fail
        H.Way.history) tasks ends.old.items
        → MayEndSo (IsBrought H.Way.tells (H.honest hall.old
        × IsTrusted H.Way.tells F.gives F.may_fail H.Way.honest queue.old) F.gives F.may_fail
        H.Way.history) tasks ends.new.items }
    ensures rises { H.count hall.old ≤ H.count hall.new }
    ensures cause { IfErr result (RunFails (WasIdle H.Way.idle_count (H.idle_count hall.old)
        (H.idle_count hall.new) most_idles) (H.count hall.old) (H.count hall.new)) }
    ensures manned { (least : AmountsValue)
        → IsStaffed H.Way.sure H.Way.offers H.manned H.staffed least hall.old queue.old
        → IsNotIdle result }
{
    let mut idles = 0;
    for _ in rt.forever() {
        match step(rt, queue, hall, ends, &mut idles) {
            Some(end) => return end,
            None => {}
        }
    }
    unreachable!()
}

// Submits the tasks to a queue, and waits until each was given.
fn run_queue<F: Commands, W: Wait, H: Hall<F>>(
    rt: &W,
    queue: &mut Queue<F, H>,
    hall: &mut H,
    tasks: Vec<Submission>,
    ends: &mut Vec<End>,
) -> Result<(), BatchCause>
    requires listens { H.listens hall.old }
    requires files { queue.old.files ≡ [] }
    requires none { queue.old.kept ≡ nothing_kept }
    requires ends { ends.old.items ≡ replicate (length tasks.items) End.Open }
    ensures ends { MayEndSo (IsBrought H.Way.tells (H.honest hall.old
        × IsTrusted H.Way.tells F.gives F.may_fail H.Way.honest queue.old) F.gives F.may_fail
        H.Way.history) tasks.items ends.new.items }
    ensures rises { H.count hall.old ≤ H.count hall.new }
    ensures cause { IfErr result (RunFails (WasIdle H.Way.idle_count (H.idle_count hall.old)
        (H.idle_count hall.new) most_idles) (H.count hall.old) (H.count hall.new)) }
    ensures manned { (least : AmountsValue) → AreFit least tasks.items
        → IsStaffed H.Way.sure H.Way.offers H.manned H.staffed least hall.old queue.old
        → IsNotIdle result }
{
    match submit_all(queue, tasks) {
        Ok(()) => wait_all(rt, queue, hall, ends),
        Err(cause) => Err(cause),
    }
}

// Has workers do the tasks by a queue, which then ends.
fn done_of<F: Commands, W: Wait, H: Hall<F>>(
    rt: &W,
    alloc: Global,
    hall: &mut H,
    tasks: Vec<Submission>,
    ends: &mut Vec<End>,
) -> Result<(), BatchCause>
    requires listens { H.listens hall.old }
    requires ends { ends.old.items ≡ replicate (length tasks.items) End.Open }
    ensures ends { MayEndSo (IsBrought H.Way.tells (H.Way.tells × H.honest hall.old)
        F.gives F.may_fail H.Way.history) tasks.items ends.new.items }
    ensures rises { H.count hall.old ≤ H.count hall.new }
    ensures cause { IfErr result (RunFails (WasIdle H.Way.idle_count (H.idle_count hall.old)
        (H.idle_count hall.new) most_idles) (H.count hall.old) (H.count hall.new)) }
    ensures manned { (least : AmountsValue) → AreFit least tasks.items
        → H.manned hall.old least → IsNotIdle result }
{
    let mut queue = Queue::<F, H>::new(alloc);
    let done = run_queue(rt, &mut queue, hall, tasks, ends);
    let _ = queue.dismiss(hall);
    done
}

// Has workers do the tasks, and answers how each ended.
fn ends_of<F: Commands, W: Wait, H: Hall<F>>(
    rt: &W,
    alloc: Global,
    hall: &mut H,
    tasks: Vec<Submission>,
) -> Result<Vec<End>, BatchCause>
    requires listens { H.listens hall.old }
    ensures ends { IfOk result (λ ends. MayEndSo (IsBrought H.Way.tells
        (H.Way.tells × H.honest hall.old) F.gives F.may_fail H.Way.history)
        tasks.items ends.items) }
    ensures rises { H.count hall.old ≤ H.count hall.new }
    ensures cause { IfErr result (RunFails (WasIdle H.Way.idle_count (H.idle_count hall.old)
        (H.idle_count hall.new) most_idles) (H.count hall.old) (H.count hall.new)) }
    ensures manned { (least : AmountsValue) → AreFit least tasks.items
        → H.manned hall.old least → IsNotIdle result }
{
    let Ok(mut ends) = open_ends(alloc, tasks.len()) else {
        return Err(BatchCause::Memory);
    };
    match done_of::<F, W, H>(rt, alloc, hall, tasks, &mut ends) {
        Ok(()) => Ok(ends),
        Err(cause) => Err(cause),
    }
}

// What is to be printed of tasks that ended so.
fn told(alloc: Global, ends: &[End]) -> Result<String, BatchCause>
    ensures text { IfOk result (λ text. string_bytes text ≡ printed ends.now) }
    ensures cause { IfErr result (λ why. why ≡ BatchCause.Memory) }
{
    match text_of(alloc, ends) {
        Ok(text) => Ok(text),
        Err(_) => Err(BatchCause::Memory),
    }
}

// Has workers do the tasks, and answers what is to be printed of them.
fn run_tasks<F: Commands, W: Wait, H: Hall<F>>(
    rt: &W,
    alloc: Global,
    hall: &mut H,
    tasks: Vec<Submission>,
) -> Result<String, BatchCause>
    requires listens { H.listens hall.old }
    ensures ends { IfOk result (λ text. (ends : List EndValue)
        × EndSo (IsBrought H.Way.tells (H.Way.tells × H.honest hall.old) F.gives F.may_fail
        H.Way.history) tasks.items ends × (string_bytes text ≡ printed ends)) }
    ensures rises { H.count hall.old ≤ H.count hall.new }
    ensures cause { IfErr result (RunFails (WasIdle H.Way.idle_count (H.idle_count hall.old)
        (H.idle_count hall.new) most_idles) (H.count hall.old) (H.count hall.new)) }
    ensures manned { (least : AmountsValue) → AreFit least tasks.items
        → H.manned hall.old least → IsNotIdle result }
{
    let ends = match ends_of::<F, W, H>(rt, alloc, hall, tasks) {
        Ok(ends) => ends,
        Err(cause) => return Err(cause),
    };
    if are_over(ends.as_slice()) {
        told(alloc, ends.as_slice())
    } else {
        Err(BatchCause::Memory)
    }
}

/// Has the workers that come to a port do the tasks, and answers what is to be printed of them.
pub(crate) fn listen_and_run<F: Commands, W: Wait, H: Hall<F>>(
    rt: &W,
    alloc: Global,
    hall: &mut H,
    port: u16,
    tasks: Vec<Submission>,
) -> Result<String, BatchCause>
    ensures ends { IfOk result (λ text. (ends : List EndValue)
        × EndSo (IsBrought H.Way.tells (H.Way.tells × H.honest hall.old) F.gives F.may_fail
        H.Way.history) tasks.items ends × (string_bytes text ≡ printed ends)) }
    ensures cause { IfErr result (RunFails (WasIdle H.Way.idle_count (H.idle_count hall.old)
        (H.idle_count hall.new) most_idles) (H.count hall.old) (H.count hall.new)) }
    ensures manned { (least : AmountsValue) → AreFit least tasks.items
        → H.manned hall.old least → IsNotIdle result }
{
    match listen::<F, H>(hall, port) {
        Ok(()) => run_tasks::<F, W, H>(rt, alloc, hall, tasks),
        Err(cause) => Err(cause),
    }
}
