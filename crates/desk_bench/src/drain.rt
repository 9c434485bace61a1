//! What closes attempts that nobody wants.
ghost use Rattle.std.specs.Prelude.{◌≤◌, length};

use crate::held::Held;
use desk::Desk;
use mem_outside::{Blank, MemSite};
use std::marker::{Brand, Model};
use task_core::AdmitAll;

/// A desk that has as many rules as a bench may have, so that it closes any attempt that is held.
/// It answers that the attempt is stale.
#[derive(Drop)]
pub struct Drain {
    desk: Desk<Blank, MemSite, Brand, AdmitAll>,
}

impl Model for Drain {
    ghost use Rattle.std.specs.Prelude.{◌≤◌, length};

    ghost Value = { Unit {0} };

    ghost view = { λ drain. tt };

    ghost invariant = { λ drain. 64 ≤ length drain.desk.plan.rules };
}

impl Drain {
    /// A drain over a desk of that many rules.
    pub(crate) fn over(desk: Desk<Blank, MemSite, Brand, AdmitAll>) -> Drain
        requires { 64 ≤ length desk.plan.rules }
    {
        Drain { desk }
    }

    /// Closes an attempt.
    pub fn take(&mut self, held: Held) {
        let _reply = self.desk.lose(held.into_attempt(), 0);
    }
}
