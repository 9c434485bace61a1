//! The rule of the reports' queue, and the moves of its tokens.
use crate::hand::Hand;
use crate::ran::Ran;
use crate::terms::Terms;
use crossbeam_queue::protocol::{Join, Lesson, Outcome, Protocol, Split};
use std::marker::PhantomData;

/// As many jobs that weren't run or that failed were put as were taken and are there, and what is
/// there fits its start.
pub struct Counted<B> {
    of: PhantomData<B>,
}

impl<B: Terms> Protocol<Ran, Hand> for Counted<B> {
    ghost use Rattle.std.specs.Prelude.{◌^◌};
    ghost use Rattle.worker_pool.specs.Backs.{IsBack};
    ghost use Rattle.worker_pool.specs.Hands.{hand, Balanced};
    ghost use Rattle.worker_pool.specs.Tallies.{none, tally_of};

    ghost holds = { Balanced (λ r. tally_of r.outcome) (IsBack B.tickets B.fits) };

    ghost first = { hand (2 ^ 65) none none };
}

/// A report is put.
pub struct Puts;

impl Outcome<Ran, Hand> for Puts {
    ghost use Rattle.std.specs.Prelude.{◌≡◌};
    ghost use Rattle.worker_pool.specs.Hands.{hand};
    ghost use Rattle.worker_pool.specs.Tallies.{plus, tally_of};

    ghost then = { λ v r w. w ≡ hand v.parts (plus v.put (tally_of r.outcome)) v.taken };
}

/// A report is taken, and fits its start.
pub struct Takes<B> {
    of: PhantomData<B>,
}

impl<B: Terms> Outcome<Ran, Hand> for Takes<B> {
    ghost use Rattle.std.specs.Prelude.{◌≡◌};
    ghost use Rattle.worker_pool.specs.Backs.{IsBack};
    ghost use Rattle.worker_pool.specs.Hands.{hand};
    ghost use Rattle.worker_pool.specs.Tallies.{plus, tally_of};

    ghost then = { λ v r w. (w ≡ hand v.parts v.put (plus v.taken (tally_of r.outcome)))
        × IsBack B.tickets B.fits r };
}

/// A report is taken that fits its start. Where there is none, as much was taken as was put.
pub struct TakesLast<B> {
    of: PhantomData<B>,
}

impl<B: Terms> Outcome<Ran, Hand> for TakesLast<B> {
    ghost use Rattle.worker_pool.specs.Backs.{IsBack};

    ghost then = { λ v r w. IsBack B.tickets B.fits r };
}

impl<B: Terms> Lesson<Ran, Hand> for TakesLast<B> {
    ghost use Rattle.std.specs.Prelude.{◌≡◌, length};

    ghost fact = { λ v items. length items ≡ 0 → v.taken ≡ v.put };
}

/// A token gives half of its parts away, and takes all of another's.
pub struct Halves;

impl Split<Hand> for Halves {
    ghost use Rattle.std.specs.Prelude.{◌-◌, ◌/◌};
    ghost use Rattle.worker_pool.specs.Hands.{hand};
    ghost use Rattle.worker_pool.specs.Tallies.{none};

    ghost left = { λ v. hand (v.parts - v.parts / 2) v.put v.taken };

    ghost right = { λ v. hand (v.parts / 2) none none };
}

impl Join<Hand> for Halves {
    ghost use Rattle.std.specs.Prelude.{◌+◌};
    ghost use Rattle.worker_pool.specs.Hands.{hand};
    ghost use Rattle.worker_pool.specs.Tallies.{none, plus};

    ghost both = { λ v w. hand (v.parts + w.parts) (plus v.put w.put) (plus v.taken w.taken) };

    ghost spent = { hand 0 none none };
}

/// No more was taken than was put.
pub struct Whole;

impl Lesson<Ran, Hand> for Whole {
    ghost use Rattle.worker_pool.specs.Tallies.{IsWithin};

    ghost fact = { λ v items. IsWithin v.taken v.put };
}
