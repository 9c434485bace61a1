//! A list of jobs, each of which is run once.
ghost use Rattle.std.specs.Prelude.{◌≡◌, [], length, IfOk};
ghost use Rattle.worker_pool.specs.Lists.{AreApart};

use crate::course::Course;
use crate::step::Step;
use flow_types::{Memory, Report, Rows, Start};
use outside::Commands;
use std::alloc::Global;
use std::collections::VecDeque;
use std::marker::{Brand, Model, PhantomData};

/// Of which jobs the caller of a list needs that they end as the commands say.
pub trait Trusting {
    ghost use Rattle.flow_types.specs.declared.job.Job.{Job};

    ghost trust: { Job → Type 0 };
}

impl Trusting for Brand {
    ghost trust = { λ job. ⊥ };
}

/// The jobs that are left, and the reports so far, for which there is room. To a contract it is
/// both lists and the room.
#[derive(Drop)]
pub struct Jobs<B: Trusting> {
    left: VecDeque<Start>,
    reports: Vec<Report>,
    room: usize,
    of: PhantomData<B>,
}

impl<B: Trusting> Model for Jobs<B> {
    ghost use Rattle.std.specs.Prelude.{◌≤◌};
    ghost use Rattle.std.specs.Vec.{vec_capacity};
    ghost use Rattle.worker_pool.specs.Lists.{AreApart, JobsState};

    ghost Value = { JobsState };

    ghost view = { λ j. record {
      left = j.left.items;
      reports = j.reports.items;
      room = j.room;
    } };

    ghost invariant = { λ j. AreApart j.left.items × (j.room ≤ vec_capacity j.reports) };
}

impl<B: Trusting> Jobs<B> {
    /// The jobs, none of which was run. Their attempts differ.
    pub fn new(alloc: Global, jobs: Rows<Start>) -> Result<Jobs<B>, Memory>
        requires { AreApart jobs }
        ensures { IfOk result (λ made. made ≡ record {
          left = jobs;
          reports = [];
          room = length jobs;
        }) }
    {
        let room = jobs.len();
        let mut reports = Vec::new(alloc);
        if reports.reserve(room).is_err() {
            return Err(Memory);
        }
        Ok(Jobs {
            left: VecDeque::from(jobs.into_vec()),
            reports,
            room,
            of: PhantomData,
        })
    }

    /// The reports, in the order in which they were heard.
    pub fn into_reports(self) -> Rows<Report>
        ensures { result ≡ self.reports }
    {
        let Jobs {
            left: _,
            reports,
            room: _,
            of: _,
        } = self;
        Rows::of(reports)
    }
}

impl<F: Commands, B: Trusting> Course<F> for Jobs<B> {
    ghost use Rattle.worker_pool.specs.Courses.{NoneHas};
    ghost use Rattle.worker_pool.specs.Lists.{IsAsked, IsTold};
    ghost use Rattle.std.specs.Prelude.{◌≡◌, []};

    ghost due = { λ jobs start. NoneHas start.attempt jobs.left };

    ghost trust = { B.trust };

    ghost over = { λ jobs. jobs.left ≡ [] };

    ghost asked = { IsAsked };

    ghost told = { IsTold };

    fn next(&mut self) -> Step {
        match self.left.pop_front() {
            Some(start) => Step::Give(start),
            None => Step::Done,
        }
    }

    fn heard(&mut self, report: Report) {
        if self.reports.len() < self.room {
            match self.reports.push(report) {
                Ok(()) => {}
                Err(_) => unreachable!(),
            }
        }
    }
}
