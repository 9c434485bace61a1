//! The size of a value, as far as the limits need it.
ghost use Rattle.std.specs.Prelude.{◌≡◌, map, ◌≤◌, ◌+◌, min, max};
ghost use Rattle.jx_meaning.specs.Values.{plain, values, pairs};
ghost use Rattle.jx_values.specs.Kinds.{plain_pair};
ghost use Rattle.jx_values.specs.Sizes.{sized, size_of, items_size, pairs_size};

use jx_syntax::{JxPair, JxValue};

/// How deep a value is, and how many values it holds. Each stops one above its limit.
#[derive(Clone, Copy, Debug, PartialEq, Eq)]
pub struct Size {
    /// How many lists and objects are open at the deepest place.
    pub depth: u32,
    /// How many values there are.
    pub count: u32,
}

/// One more than the deepest value.
const TOO_DEEP: u32 = 129;

/// One more than the most values.
const TOO_MANY: u32 = 10_000_001;

impl Size {
    /// The size of nothing.
    pub fn nothing() -> Size
        ensures { result ≡ sized 0 0 }
    {
        Size { depth: 0, count: 0 }
    }

    /// The size of what has this size, and a value of the other size beside it.
    pub fn beside(self, other: Size) -> Size
        requires { other.count ≤ 10000001 }
        ensures { result ≡ record {
          depth = max self.depth other.depth;
          count = min (self.count + other.count) 10000001;
        } }
    {
        let depth = self.depth.max(other.depth);
        let count = self.count.saturating_add(other.count).min(TOO_MANY);
        Size { depth, count }
    }

    /// The size of a list or an object round what has this size.
    pub fn around(self) -> Size
        ensures { result ≡ record {
          depth = min (self.depth + 1) 129;
          count = min (self.count + 1) 10000001;
        } }
    {
        let depth = self.depth.saturating_add(1).min(TOO_DEEP);
        let count = self.count.saturating_add(1).min(TOO_MANY);
        Size { depth, count }
    }
}

/// The size of these values beside one another.
pub fn items_size(items: &[JxValue]) -> Size
    ensures { result ≡ items_size (values (map plain items.now)) }
{
    let mut inside = Size::nothing();
    for item in items {
        inside = inside.beside(size_of(item));
    }
    inside
}

/// The size of the values of these pairs beside one another.
pub fn pairs_size(fields: &[JxPair]) -> Size
    ensures { result ≡ pairs_size (pairs (map plain_pair fields.now)) }
{
    let mut inside = Size::nothing();
    for pair in fields {
        inside = inside.beside(size_of(&pair.value));
    }
    inside
}

/// The size of a value.
pub fn size_of(value: &JxValue) -> Size
    ensures { result ≡ size_of (plain value.now) }
{
    match value {
        JxValue::List(items) => {
            let mut inside = Size::nothing();
            for item in items.as_slice() {
                inside = inside.beside(size_of(item));
            }
            inside.around()
        }
        JxValue::Object(pairs) => {
            let mut inside = Size::nothing();
            for pair in pairs.as_slice() {
                inside = inside.beside(size_of(&pair.value));
            }
            inside.around()
        }
        _ => Size { depth: 0, count: 1 },
    }
}
