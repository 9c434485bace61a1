//! Commands whose outputs are made of their inputs.
ghost use Rattle.mem_commands.specs.Joins.{FailsWith, length-outputs, outputs_of};

use outside::Commands;

/// The commands that write into each output all inputs, one after the other, and then their own
/// text. The command `false` fails with status 1, and another where what it writes is too long for
/// an output.
#[derive(Drop)]
pub struct Joined;

impl Commands for Joined {
    ghost gives = { λ command env inputs outputs. outputs_of command inputs outputs };

    ghost may_fail = { λ job why. FailsWith job why };

    ghost one_each = { λ command env inputs outputs. length-outputs command inputs outputs };
}
