//! Since when the moments of a run are told.
use std::marker::Brand;

/// A disk time of the site, of the moment when a run begins or an earlier one. A caller picks it,
/// and it never changes.
pub trait Born: Send + Sync {
    ghost use Rattle.std.specs.Prelude.{ℕ};

    ghost born: { ℕ };
}

impl Born for Brand {
    ghost born = { 0 };
}
