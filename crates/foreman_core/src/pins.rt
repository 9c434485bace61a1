//! Pins of attempts.
ghost use Rattle.std.specs.Prelude.{◌≡◌, fold};
ghost use Rattle.foreman_core.specs.Steps.{released};

use crate::links::Upstream;
use worker_cache::Cache;
use worker_core::unpin_all;

/// Gives an attempt's pins back.
pub(crate) fn release(cache: &mut Cache, u: &Upstream)
    ensures rows { cache.new.rows ≡ released cache.old.rows u.now }
    ensures cap { cache.new.cap ≡ cache.old.cap }
{
    unpin_all(cache, u.task.run, u.task.inputs.as_slice());
}

/// Gives the pins of these attempts back.
pub(crate) fn release_all(cache: &mut Cache, gone: &[Upstream])
    ensures rows { cache.new.rows ≡ fold released cache.old.rows gone.now }
    ensures cap { cache.new.cap ≡ cache.old.cap }
{
    for u in gone {
        release(cache, u);
    }
}
