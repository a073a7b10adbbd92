//! A table that grows at its end.

ghost use Rattle.std.specs.Prelude.{◌≡◌, ◌++◌, ◌∷◌, [], true, OnOk};
ghost use Rattle.std.specs.List.{AllByRecursion};

use np_lists::{Order, RoomyTable};
use std::alloc::AllocError;

/// Adds a row at the end of a table: all rows there come before it. It costs a binary search.
pub(crate) fn push<O: Order>(table: &mut RoomyTable<O>, row: O::Row) -> Result<(), AllocError>
    requires { AllByRecursion (λ other. O.before (O.key other) (O.key row) ≡ true) table.old.rows }
    ensures { OnOk result (table.new.rows ≡ table.old.rows ++ row ∷ []) }
{
    table.reserve()?;
    table.insert(row);
    Ok(())
}
