//! A queue of tasks.
ghost use Rattle.std.specs.Prelude.{◌≡◌, ◌⊎◌, ◌+◌, ◌++◌, ◌∷◌, [], None, Some, IfErr, IfOk, OnErr, OnOk, is_some, length, true};
ghost use Rattle.task_book.specs.declared.refused.FileRefused.TheVariants as file_refusals;
ghost use Rattle.task_book.specs.declared.refused.SubmitRefused.TheVariants as submit_refusals;
ghost use Rattle.task_book.specs.Kept.{AreKept, cancelled_at, next_id, nothing_kept, place_of, submitted_to};
ghost use Rattle.task_book.specs.Submissions.{file_refusal, submit_refusal};
ghost use Rattle.flow_types.specs.declared.numbers.Amounts.{Amounts as AmountsValue};
ghost use Rattle.wq_submit.specs.Queues.{IsStaffed, IsTrusted};
ghost use Rattle.wq_seats.specs.Works.{IsWithin};

use flow_types::{Bytes, FileNo, Needs};
use links::{Hall, Link};
use outside::Commands;
use std::alloc::Global;
use std::marker::{Model, PhantomData};
use task_book::{Book, FileRefused, Files, Submission, SubmitRefused, TaskId};
use wq_company::{Company, dismiss, least_of};

/// For how many seconds a worker may be silent where nothing else was said: for ever, in effect.
const MOST_SILENCE: u64 = 1_000_000_000;

/// A queue to which a program submits tasks, and which workers and foremen that come to a hall do.
/// It keeps the links that the hall gave.
#[derive(Drop)]
pub struct Queue<F: Commands, H: Hall<F>> {
    pub(crate) alloc: Global,
    pub(crate) files: Files,
    pub(crate) book: Book,
    pub(crate) company: Company<F, H::Way>,
    // For how many seconds a worker may be silent while a task runs there, or take nothing.
    pub(crate) limit: u64,
    // No task that is held needs less.
    pub(crate) least: Needs,
    // How many milliseconds ago each link was asked, as a call begins.
    pub(crate) millis: u64,
    pub(crate) of: PhantomData<H>,
}

impl<F: Commands, H: Hall<F>> Model for Queue<F, H> {
    ghost use Rattle.std.specs.Prelude.{map};
    ghost use Rattle.wq_company.specs.Companies.{AreKnown, RunBefore};
    ghost use Rattle.wq_submit.specs.Queues.{QueueState};
    ghost use Rattle.wq_seats.specs.Works.{work_of};
    ghost use Rattle.wq_company.specs.Companies.{AreRun, AreServed, live_of, ways_of};

    ghost Value = { QueueState H.Way };

    ghost view = { λ q. record {
      files = q.files;
      kept = q.book;
      ways = ways_of q.company.seats;
      live = live_of q.company.seats;
      next = q.company.next;
    } };

    ghost invariant = { λ q. RunBefore q.company.next q.book.held
        × AreKnown q.files (map work_of q.book.held) × (H.Way.tells
        → AreServed F.gives F.may_fail H.Way.history q.files q.book.held q.company.next
        q.company.seats) × AreRun q.book.held q.company.seats };
}

impl<F: Commands, H: Hall<F>> Queue<F, H> {
    /// A queue without files, tasks and links. It takes no memory.
    pub fn new(alloc: Global) -> Queue<F, H>
        ensures new { result ≡ record {
          files = [];
          kept = nothing_kept;
          ways = [];
          live = [];
          next = 0;
        } }
        ensures staffed { (least : AmountsValue) (hall : H) → H.manned hall least
            → IsStaffed H.Way.sure H.Way.offers H.manned H.staffed least hall result }
    {
        Queue {
            alloc,
            files: Files::new(alloc),
            book: Book::new(alloc),
            company: Company::new(alloc),
            limit: MOST_SILENCE,
            least: Needs::Whole,
            millis: 0,
            of: PhantomData,
        }
    }

    /// How many tasks are held. The given, the cancelled and the held ids are together the
    /// submitted ones, each once, after any calls.
    pub fn count(&self) -> usize
        ensures count { result ≡ length self.now.kept.held }
        ensures kept { AreKept self.now.kept }
    {
        self.book.count()
    }

    /// A worker is left that is silent for so many seconds while a task runs there, or that takes
    /// nothing of what it was sent for as many. A worker says nothing while a command runs, so that
    /// fewer seconds than the longest command takes have it begun anew again and again.
    pub fn limit_silence(&mut self, seconds: u64)
        ensures { self.new ≡ self.old }
    {
        self.limit = seconds;
    }

    /// Keeps a file that tasks may take in, and answers its number.
    pub fn file(&mut self, content: Bytes) -> Result<FileNo, FileRefused>
        ensures ok { IfOk result (λ file. (file.0 ≡ length self.old.files)
            × (self.new ≡ record self.old { files = self.old.files ++ content ∷ [] })) }
        ensures taken { OnOk result (file_refusal self.old.files (length content) ≡ None) }
        ensures err { OnErr result (self.new ≡ self.old) }
        ensures refused { IfErr result (λ why. (why ≡ file_refusals.Memory)
            ⊎ (file_refusal self.old.files (length content) ≡ Some why)) }
        ensures trusted { IsTrusted H.Way.tells F.gives F.may_fail H.Way.honest self.old
            → IsTrusted H.Way.tells F.gives F.may_fail H.Way.honest self.new }
        ensures staffed { (least : AmountsValue) (hall : H)
            → IsStaffed H.Way.sure H.Way.offers H.manned H.staffed least hall self.old
            → IsStaffed H.Way.sure H.Way.offers H.manned H.staffed least hall self.new }
    {
        self.files.add(content)
    }

    // What the tasks that are held and one of these needs need at the least.
    fn least_with(&self, needs: Needs) -> Needs {
        if self.book.count() == 0 {
            needs
        } else {
            least_of(self.least, needs)
        }
    }

    /// Takes a task, and answers its id.
    pub fn submit(&mut self, task: Submission) -> Result<TaskId, SubmitRefused>
        ensures ok { IfOk result (λ id. (id ≡ next_id self.old.kept)
            × (self.new ≡ record self.old { kept = submitted_to self.old.kept task })) }
        ensures taken { OnOk result
            (submit_refusal self.old.files (length self.old.kept.held) task ≡ None) }
        ensures err { OnErr result (self.new ≡ self.old) }
        ensures refused { IfErr result (λ why. (why ≡ submit_refusals.Memory)
            ⊎ (submit_refusal self.old.files (length self.old.kept.held) task ≡ Some why)) }
        ensures trusted { IsTrusted H.Way.tells F.gives F.may_fail H.Way.honest self.old
            → IsTrusted H.Way.tells F.gives F.may_fail H.Way.honest self.new }
        ensures staffed { (least : AmountsValue) (hall : H) → IsWithin least task.needs
            → IsStaffed H.Way.sure H.Way.offers H.manned H.staffed least hall self.old
            → IsStaffed H.Way.sure H.Way.offers H.manned H.staffed least hall self.new }
    {
        self.least = self.least_with(task.needs);
        self.book.submit(&self.files, task)
    }

    /// Lets a task go, and answers whether it was held. It takes no memory. What runs of it is
    /// cancelled in the next round of `wait`.
    pub fn cancel(&mut self, id: TaskId) -> bool
        ensures was { result ≡ is_some (place_of id self.old.kept.held) }
        ensures gone { self.new ≡ record self.old {
          kept = cancelled_at self.old.kept id (place_of id self.old.kept.held);
        } }
        ensures trusted { IsTrusted H.Way.tells F.gives F.may_fail H.Way.honest self.old
            → IsTrusted H.Way.tells F.gives F.may_fail H.Way.honest self.new }
        ensures staffed { (least : AmountsValue) (hall : H)
            → IsStaffed H.Way.sure H.Way.offers H.manned H.staffed least hall self.old
            → IsStaffed H.Way.sure H.Way.offers H.manned H.staffed least hall self.new }
    {
        self.book.cancel(id)
    }

    /// Ends the queue: each worker that is there is told that the work is over, and the links are
    /// handed back to the hall. It answers whether all were; else there was no memory for it. What
    /// is held is let go.
    pub fn dismiss(self, hall: &mut H) -> bool
        ensures listens { H.listens hall.old → H.listens hall.new }
        ensures faults { H.count hall.new ≡ H.count hall.old }
        ensures idles { H.idle_count hall.new ≡ H.idle_count hall.old }
        ensures back { result ≡ true
            → length (H.got hall.new) ≡ length (H.got hall.old) + length self.ways }
    {
        let Queue {
            alloc,
            files: _,
            book: _,
            mut company,
            limit: _,
            least: _,
            millis: _,
            of: _,
        } = self;
        dismiss::<F, H>(&mut company, alloc, hall)
    }
}
