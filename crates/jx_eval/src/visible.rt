//! The names that an expression sees within its loops.
ghost use Rattle.std.specs.Prelude.{◌≡◌, option_map, option_copied};
ghost use Rattle.jx_meaning.specs.Values.{plain, find};
ghost use Rattle.jx_meaning.specs.Scopes.{names_of};
ghost use Rattle.jx_eval.specs.Machine.{bound_on};

use crate::frame::Bound;
use crate::state::last_of;
use jx_functions::Names;
use jx_meaning::JxScope;
use jx_syntax::JxValue;

/// The names that loops bind, the outermost first, and those of the scope.
#[derive(Drop)]
pub(crate) struct Visible<'b, 'a> {
    pub(crate) local: &'b [Bound<'a>],
    pub(crate) scope: &'a JxScope,
}

impl<'b, 'a> Names for Visible<'b, 'a> {
    ghost names = { λ v. bound_on v.local.now (names_of v.scope.now) };

    fn value(&self, name: &str) -> Option<&JxValue> {
        match last_of(self.local, name) {
            Some(seen) => Some(seen.value()),
            None => self.scope.get(name),
        }
    }
}
