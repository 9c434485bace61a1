//! What a run relies on of its workers.
use std::marker::Brand;

/// Facts of a run that no code can test, beside the terms of its desk. They are picked where the run
/// begins, and never change.
pub trait Trust {
    ghost use Rattle.std.specs.Prelude.{ℕ, Option, List};
    ghost use Rattle.flow_types.specs.declared.plan.Plan.{Plan};
    ghost use Rattle.run_history.specs.declared.options.Options.{Options};

    /// Links are honest, and the files are those of the serial run.
    ghost holds: { Type 0 };

    /// The plan of the run.
    ghost plan: { Plan };

    /// What the run goes by.
    ghost options: { Options };

    /// The number of the run.
    ghost run: { ℕ };

    /// The contents of the serial run.
    ghost due: { ℕ → Option (List ℕ) };
}

impl Trust for Brand {
    ghost use Rattle.std.specs.Prelude.{[], None, false};
    ghost use Rattle.run_history.specs.declared.options.Mode.TheVariants.{Never};

    ghost holds = { ⊥ };

    ghost plan = { record { rules = []; files = [] } };

    ghost options = { record {
      mode = Never;
      limit = None;
      retries = 0;
      wq = false;
      local = record { cores = 0; memory = 0; disk = 0 };
    } };

    ghost run = { 0 };

    ghost due = { λ _. None };
}
