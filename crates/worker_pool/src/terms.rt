//! What the caller of a pool picks, and no code can test.
ghost use Rattle.atomic_table.specs.Seated.{TableId};
ghost use Rattle.flow_types.specs.declared.job.Job.{Job};
ghost use Rattle.flow_types.specs.declared.job.Outcome.{Outcome};

use std::marker::Brand;

/// Whose tickets they are, and which outcomes fit a job.
pub trait Terms {
    ghost tickets: { TableId };

    ghost fits: { Job → Outcome → Type 0 };
}

impl Terms for Brand {
    ghost use Rattle.worker_pool.specs.Tickets.{no_table};

    ghost tickets = { no_table };

    ghost fits = { λ job outcome. Unit {0} };
}
