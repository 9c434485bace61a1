//! Who says which jobs are run, and hears how they ended.
ghost use Rattle.std.specs.Prelude.{◌≡◌, ◌≢◌};
ghost use Rattle.flow_types.specs.declared.job.Job.{Job};
ghost use Rattle.flow_types.specs.declared.job.Report.{Report};
ghost use Rattle.flow_types.specs.declared.job.Start.{Start};
ghost use Rattle.worker_pool.specs.Courses.{Fits, Gives, IsDone};
ghost use Rattle.worker_pool.specs.declared.step.Step.{Step};

use crate::step::Step;
use flow_types::Report;
use outside::Commands;

/// What is driven: it is asked for starts and told of reports, on one thread.
pub trait Course<F: Commands> {
    /// Which starts it waits for.
    ghost due: { Self → Start → Type 0 };

    /// Of which jobs it needs that they end as the commands say.
    ghost trust: { Job → Type 0 };

    /// It asks for nothing more.
    ghost over: { Self → Type 0 };

    /// What a call of `next` does.
    ghost asked: { Self → Step → Self → Type 0 };

    /// What a call of `heard` does.
    ghost told: { Self → Report → Self → Type 0 };

    /// What it wants next. A start that it gives is due then, and no start that was due has its
    /// attempt.
    fn next(&mut self) -> Step
        ensures asked { asked self.old result self.new }
        ensures kept { (start : Start) → due self.old start → due self.new start }
        ensures gives { Gives due self.old result self.new }
        ensures over { IsDone result → over self.new };

    /// Takes the report of a start that is due. What is due of other attempts stays so.
    fn heard(&mut self, report: Report)
        requires { (start : Start) × due self.old start × (start.attempt ≡ report.attempt)
            × Fits F.gives F.may_fail trust start.job report.outcome }
        ensures told { told self.old report self.new }
        ensures kept { (start : Start) → start.attempt ≢ report.attempt
            → due self.old start → due self.new start }
        ensures over { over self.old → over self.new };
}
