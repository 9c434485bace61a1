//! A clock that stands.
ghost use Rattle.std.specs.Prelude.{◌≡◌};

use outside::Clock;

/// Always shows this moment.
#[derive(Drop)]
pub struct FixedClock(pub u64);

impl Clock for FixedClock {
    fn now(&self) -> u64
        ensures { result ≡ self.now.0 }
    {
        self.0
    }
}
