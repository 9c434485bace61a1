//! The commands of this machine.
ghost use Rattle.std.specs.Prelude.{[], map};
ghost use Rattle.std.proofs.lemmas.List.{length-map};

use outside::Commands;

/// What the machine's own programs do. No runner tells anything of them, so any meaning serves.
#[derive(Drop)]
pub struct System;

impl Commands for System {
    ghost gives = { λ command env inputs outputs. map (λ name. []) outputs };

    ghost may_fail = { λ job why. Unit {0} };

    ghost one_each = { λ command env inputs outputs. length-map outputs (λ name. []) };
}
