//! Values that are only added to.

/// A value that counts its moves. A turn may make of it only what it may grow to.
pub trait Growing: Drop {
    ghost use Rattle.std.specs.Prelude.{ℕ};
    ghost use Rattle.turns.specs.Growth.{IsGrowth};

    /// What a turn may make of it.
    ghost grows: { Self → Self → Type 0 };

    /// How many moves it has made.
    ghost moves: { Self → ℕ };

    /// How much of its work is done.
    ghost done: { Self → ℕ };

    /// It may stay as it is and grow further, and neither count falls.
    ghost growth: { IsGrowth grows moves done };
}
