//! Attempts that a script holds.
use desk_bench::{Drain, Held};
use std::mem;

/// Attempts in the slots `a` to `d`, and a drain for those that no slot holds any more.
pub struct Slots {
    a: Option<Held>,
    b: Option<Held>,
    c: Option<Held>,
    d: Option<Held>,
    drain: Drain,
}

impl Slots {
    /// Empty slots.
    pub fn new(drain: Drain) -> Slots {
        Slots {
            a: None,
            b: None,
            c: None,
            d: None,
            drain,
        }
    }

    // Puts an attempt or none into a slot, and gives what was there; without such a slot it gives
    // the attempt back.
    fn swap(&mut self, name: &str, held: Option<Held>) -> Option<Held> {
        match name {
            "a" => mem::replace(&mut self.a, held),
            "b" => mem::replace(&mut self.b, held),
            "c" => mem::replace(&mut self.c, held),
            "d" => mem::replace(&mut self.d, held),
            _ => held,
        }
    }

    /// The attempt in a slot, which is empty from now on.
    pub fn take(&mut self, name: &str) -> Option<Held> {
        self.swap(name, None)
    }

    /// Puts an attempt into a slot. What was there no desk hears of any more.
    pub fn hold(&mut self, name: &str, held: Held) {
        let before = self.swap(name, Some(held));
        spend(&mut self.drain, before);
    }

    /// Empties the slots. No desk hears of their attempts any more.
    pub fn clear(&mut self) {
        for name in ["a", "b", "c", "d"] {
            let held = self.take(name);
            spend(&mut self.drain, held);
        }
    }

    /// Lets the slots go.
    pub fn close(self) {
        let Slots {
            a,
            b,
            c,
            d,
            mut drain,
        } = self;
        spend(&mut drain, a);
        spend(&mut drain, b);
        spend(&mut drain, c);
        spend(&mut drain, d);
    }
}

fn spend(drain: &mut Drain, held: Option<Held>) {
    match held {
        Some(held) => drain.take(held),
        None => {}
    }
}
