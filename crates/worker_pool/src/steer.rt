//! What the caller's thread does.
ghost use Rattle.std.specs.Prelude.{◌≡◌, ◌<◌, Bool, true, false, [], length};
ghost use Rattle.std.specs.Prelude.{IsTrue, OnOk};
ghost use Rattle.crossbeam_queue.specs.Passes.{view, IsPassOf, IsSamePass};
ghost use Rattle.flow_types.specs.declared.job.Job.{Job};
ghost use Rattle.flow_types.specs.declared.job.Outcome.{Outcome};
ghost use Rattle.worker_pool.specs.Courses.{Fits};
ghost use Rattle.worker_pool.specs.Steers.{Steered, is_last};
ghost use Rattle.worker_pool.specs.Tallies.{none};
ghost use Rattle.worker_pool.specs.declared.hand.Tally.{Tally};

use crate::chief::Chief;
use crate::course::Course;
use crate::line::{Line, Token};
use crate::step::Step;
use crate::terms::Terms;
use flow_types::Memory;
use outside::Commands;
use std::sync::Wait;

/// What the course wished.
pub enum Wish {
    Given,
    Nothing,
    Last,
}

/// Asks the course once, and sends what it gives.
pub fn ask<B: Terms, F: Commands, W: Wait, C: Course<F>>(
    rt: &W,
    line: &Line<B>,
    chief: &mut Chief<B>,
    course: &mut C,
) -> Wish
    requires { length chief.old < 64 }
    ensures steered { (first : C) (heard : Tally)
        → Steered C.asked C.told C.due B.fits first course.old false chief.old heard
        → Steered C.asked C.told C.due B.fits
        first course.new (is_last result) chief.new heard }
    ensures over { is_last result ≡ true → C.over course.new }
{
    match course.next() {
        Step::Give(start) => {
            let handed = chief.give(start);
            line.send(rt, handed);
            Wish::Given
        }
        Step::Look => Wish::Nothing,
        Step::Done => Wish::Last,
    }
}

/// Hands over one report, where one is ready, and says whether one was.
pub fn hear<B: Terms, F: Commands, C: Course<F>>(
    line: &Line<B>,
    chief: &mut Chief<B>,
    token: &mut Token,
    course: &mut C,
) -> bool
    requires fits { (job : Job) (outcome : Outcome)
        → B.fits job outcome → Fits F.gives F.may_fail C.trust job outcome }
    requires token { IsPassOf line.now.reports token.old × (0 < (view token.old).parts) }
    requires steered { (first : C) × (done : Bool) × (heard : Tally)
        × Steered C.asked C.told C.due B.fits first course.old done chief.old heard }
    ensures same { IsSamePass token.old token.new }
    ensures hand { ((view token.new).parts ≡ (view token.old).parts)
        × ((view token.new).put ≡ (view token.old).put) }
    ensures steered { (first : C) (done : Bool)
        → Steered C.asked C.told C.due B.fits
        first course.old done chief.old (view token.old).taken
        → Steered C.asked C.told C.due B.fits
        first course.new done chief.new (view token.new).taken }
    ensures over { C.over course.old → C.over course.new }
{
    let Some(ran) = line.take(token) else {
        return false;
    };
    let report = chief.take_back(ran);
    course.heard(report);
    true
}

/// Asks and tells the course until it is over and all that it gave was heard. Memory comes where
/// the line was closed.
pub fn steer<B: Terms, F: Commands, W: Wait, C: Course<F>>(
    rt: &W,
    line: &Line<B>,
    chief: &mut Chief<B>,
    token: &mut Token,
    course: &mut C,
) -> Result<(), Memory>
    requires fits { (job : Job) (outcome : Outcome)
        → B.fits job outcome → Fits F.gives F.may_fail C.trust job outcome }
    requires token { IsPassOf line.now.reports token.old × (0 < (view token.old).parts) }
    requires fresh { (chief.old ≡ []) × ((view token.old).taken ≡ none) }
    ensures same { IsSamePass token.old token.new }
    ensures hand { ((view token.new).parts ≡ (view token.old).parts)
        × ((view token.new).put ≡ (view token.old).put) }
    ensures steered { (done : Bool)
        × Steered C.asked C.told C.due B.fits
        course.old course.new done chief.new (view token.new).taken
        × OnOk result ((done ≡ true) × (chief.new ≡ []) × C.over course.new) }
{
    let mut done = false;
    for _ in rt.forever() {
        let Some(seen) = line.ended.seen() else {
            break;
        };
        if done || chief.out() >= 64 {
            if done && chief.out() == 0 {
                return Ok(());
            }
            if !hear::<B, F, C>(line, chief, token, course) {
                line.ended.wait_past(rt, seen);
            }
            continue;
        }
        match ask::<B, F, W, C>(rt, line, chief, course) {
            Wish::Given => {
                hear::<B, F, C>(line, chief, token, course);
            }
            Wish::Nothing => {
                if !hear::<B, F, C>(line, chief, token, course) {
                    line.ended.wait_briefly(rt, seen);
                }
            }
            Wish::Last => done = true,
        }
    }
    Err(Memory)
}
