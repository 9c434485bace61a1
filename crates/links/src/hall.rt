//! A hall, which hands out a link for each peer that comes, and a dial, which makes one.
ghost use Rattle.std.specs.Prelude.{◌≡◌, ◌≤◌, ◌+◌, [], ◌∷◌, ◌++◌, List, ℕ, Option};
ghost use Rattle.std.specs.Prelude.{IfOk, OnOk, OnErr, IsErrOf};
ghost use Rattle.flow_types.specs.declared.numbers.Amounts.{Amounts};
ghost use Rattle.flow_types.specs.declared.numbers.LinkNo.{LinkNo as LinkNoValue};
ghost use Rattle.outside.specs.Causes.{HasCause};
ghost use Rattle.links.specs.Halls.{IsFresh, Gives, IfLink, IsIdle};

use crate::{Came, Link, Ring};
use flow_types::{LinkNo, Memory};
use outside::{Commands, Fault};
use std::alloc::Global;

/// Where peers come.
pub trait Hall<F: Commands>: Send + Drop {
    /// The links that it hands out.
    type Way: Link<F>;

    /// Peers can come.
    ghost listens: { Self → Type 0 };

    /// How many links it has given.
    ghost given: { Self → ℕ };

    /// The links that were handed back, each with its number where it had one.
    ghost got: { Self → List (Option LinkNoValue × Self.Way) };

    /// Each link that it still gives is honest.
    ghost honest: { Self → Type 0 };

    /// Each link that it still gives is sure.
    ghost sure: { Self → Type 0 };

    /// It has given no link yet and gives one first, at most 32 in all, each sure and offering at
    /// least these amounts.
    ghost manned: { Self → Amounts → Type 0 };

    /// The links that it still gives are sure and offer at least these amounts, and with those
    /// given are at most 32.
    ghost staffed: { Self → Amounts → Type 0 };

    /// A count that rises at each failure.
    ghost count: { Self → ℕ };

    /// How often nobody came.
    ghost idle_count: { Self → ℕ };

    /// Begins to listen on a port.
    fn listen(&mut self, port: u16) -> Result<(), Fault>
        ensures listens { OnOk result (listens self.new) }
        ensures given { given self.new ≡ given self.old }
        ensures got { got self.new ≡ got self.old }
        ensures idles { idle_count self.new ≡ idle_count self.old }
        ensures honest { honest self.old → honest self.new }
        ensures sure { sure self.old → sure self.new }
        ensures manned { (amounts : Amounts) → manned self.old amounts → manned self.new amounts }
        ensures staffed { (amounts : Amounts)
            → staffed self.old amounts → staffed self.new amounts }
        ensures cause { HasCause (count self.old) (count self.new) result };

    /// The next peer, or that nobody came.
    fn wait(&mut self, alloc: Global) -> Result<Came<Self::Way>, Fault>
        requires { listens self.old }
        ensures listens { listens self.new }
        ensures given { Gives result (given self.old) (given self.new) }
        ensures fresh { IfLink result
            (IsFresh Self.Way.history Self.Way.count Self.Way.idle_count Self.Way.is_closed) }
        ensures got { got self.new ≡ got self.old }
        ensures idle { IsIdle result → idle_count self.old + 1 ≤ idle_count self.new }
        ensures later { idle_count self.old ≤ idle_count self.new }
        ensures honest { honest self.old → honest self.new × IfLink result Self.Way.honest }
        ensures sure { sure self.old → sure self.new × IfLink result Self.Way.sure }
        ensures manned { (amounts : Amounts) → manned self.old amounts
            → (IsIdle result → ⊥) × (IsErrOf result Fault.Failed → ⊥)
            × (IsErrOf result Fault.Memory → manned self.new amounts) }
        ensures staffed { (amounts : Amounts) → staffed self.old amounts → staffed self.new amounts
            × IfLink result (λ way. Self.Way.sure way × Self.Way.offers way amounts
            × (given self.new ≤ 32)) }
        ensures cause { HasCause (count self.old) (count self.new) result };

    /// Whether a call of `wait` would answer at once with more than that nobody came.
    fn ready(&mut self) -> bool
        ensures { self.new ≡ self.old };

    /// Waits until a peer comes, one of its links has news or takes bytes again, or whatever else
    /// ends its waits, as a ringer that was made of it, but no longer than so many milliseconds. It
    /// may return at any time. It answers how many milliseconds went by since it last answered, or
    /// else since it was made.
    fn rest(&mut self, millis: u64) -> u64
        ensures { self.new ≡ self.old };

    /// Ends the link's connection, once what it took has gone out or some seconds have passed, and
    /// keeps the link, with its number if it has one. Where there is no memory it is lost. It waits
    /// for nobody.
    fn back(&mut self, alloc: Global, link: Option<LinkNo>, way: Self::Way) -> Result<(), Memory>
        ensures ok { OnOk result (got self.new ≡ got self.old ++ (link, way) ∷ []) }
        ensures err { OnErr result (got self.new ≡ got self.old) }
        ensures listens { listens self.old → listens self.new }
        ensures given { given self.new ≡ given self.old }
        ensures faults { count self.new ≡ count self.old }
        ensures idles { idle_count self.new ≡ idle_count self.old }
        ensures honest { honest self.old → honest self.new }
        ensures sure { sure self.old → sure self.new }
        ensures manned { (amounts : Amounts) → manned self.old amounts → manned self.new amounts }
        ensures staffed { (amounts : Amounts)
            → staffed self.old amounts → staffed self.new amounts };

    /// The count of failures.
    fn faults(&self) -> u64
        ensures { result ≡ count self.now };

    /// How often nobody came.
    fn idles(&self) -> u64
        ensures { result ≡ idle_count self.now };

    /// What it means that a hall is manned.
    ghost manned_is: { (hall : Self) (amounts : Amounts) → manned hall amounts
        → staffed hall amounts × (given hall ≡ 0) };
}

/// Makes a link to a host.
pub trait Dial<F: Commands>: Send + Drop {
    /// The links that it makes.
    type Way: Link<F>;

    /// What ends a wait of it from another thread.
    type Ringer: Ring;

    /// A count that rises at each failure.
    ghost count: { Self → ℕ };

    /// Connects to a port of a host, which is a name or an address.
    fn dial(&mut self, alloc: Global, host: &str, port: u16) -> Result<Self::Way, Fault>
        ensures fresh { IfOk result
            (IsFresh Self.Way.history Self.Way.count Self.Way.idle_count Self.Way.is_closed) }
        ensures cause { HasCause (count self.old) (count self.new) result };

    /// Waits until one of its links has news or takes bytes again, or one of its ringers rings, but
    /// no longer than so many milliseconds. It may return at any time. It answers how many
    /// milliseconds went by since it last answered, or else since it was made.
    fn rest(&mut self, millis: u64) -> u64
        ensures { self.new ≡ self.old };

    /// A ringer that ends its waits. None where the system has none, or no memory.
    fn ringer(&mut self) -> Option<Self::Ringer>
        ensures { self.new ≡ self.old };

    /// The count of failures.
    fn faults(&self) -> u64
        ensures { result ≡ count self.now };
}
