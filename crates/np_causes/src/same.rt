//! Whether two things are the same.

ghost use Rattle.std.specs.Prelude.{◌≡◌, true};

use crate::fact::Thing;

/// Whether both are the same thing. No clause says that it finds each two that are.
pub fn is_same(one: Thing, other: Thing) -> bool
    ensures { result ≡ true → one ≡ other }
{
    one == other
}
