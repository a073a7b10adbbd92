//! Rows in the order of their keys, as a vector has them.
//!
//! A row is found by binary search. A change of a row costs that search; inserting or removing a row
//! also moves the rows behind it.

ghost use Rattle.std.specs.Prelude.{◌≡◌, ◌<◌, ◌≤◌, Bool, true, false, length, OnOk, OnErr, IfSome, option_copied, find, map, vec_len, vec_capacity};
ghost use Rattle.std.specs.List.{list_any};
ghost use Rattle.std.specs.List.Sorted.{IsPartitionPoint};
ghost use Rattle.np_lists.specs.Change.{remove_first, insert_before};
ghost use Rattle.np_lists.specs.Rising.{Rises, IsFirstPlace, NonePass};

use crate::order::{Order, RowChange, always};
use std::alloc::AllocError;
use std::convert::Infallible;

/// The place of the first row that is not before the key.
fn split_of<O: Order>(rows: &[O::Row], key: O::Key) -> usize
    requires { Rises (λ a b. O.before (O.key a) (O.key b)) rows.now }
    ensures within { result ≤ length rows.now }
    ensures point { IsPartitionPoint (λ row. O.before (O.key row) key ≡ true) (λ row. O.before (O.key row) key ≡ false) rows.now result }
{
    rows.partition_point(|row| O::is_before(O::key(row), key))
}

/// The place of the row with this key.
pub(crate) fn place_of<O: Order>(rows: &[O::Row], key: O::Key) -> Option<usize>
    requires { Rises (λ a b. O.before (O.key a) (O.key b)) rows.now }
    ensures place { IsFirstPlace (λ row. O.same (O.key row) key) rows.now result }
    ensures within { IfSome result (λ at. at < length rows.now) }
{
    let at = split_of::<O>(rows, key);
    if at < rows.len() && O::is_same(O::key(&rows[at]), key) {
        return Some(at);
    }
    None
}

/// The row with this key.
pub(crate) fn find_row<O: Order>(rows: &[O::Row], key: O::Key) -> Option<&O::Row>
    requires { Rises (λ a b. O.before (O.key a) (O.key b)) rows.now }
    ensures { option_copied result ≡ find (λ row. O.same (O.key row) key) rows.now }
{
    match place_of::<O>(rows, key) {
        Some(at) => Some(&rows[at]),
        None => None,
    }
}

/// Whether there is a row with this key.
pub(crate) fn has_row<O: Order>(rows: &[O::Row], key: O::Key) -> bool
    requires { Rises (λ a b. O.before (O.key a) (O.key b)) rows.now }
    ensures { result ≡ list_any (λ row. O.same (O.key row) key) rows.now }
{
    match place_of::<O>(rows, key) {
        Some(_) => true,
        None => false,
    }
}

/// Changes every row.
pub(crate) fn change_rows<T: Drop, C: RowChange<T, Error = Infallible>>(
    rows: &mut Vec<T>,
    change: &C,
)
    ensures { rows.new.items ≡ map (C.after change.now) rows.old.items }
{
    for row in rows.iter_mut() {
        always(change.make(row));
    }
}

/// Removes the row with this key, if there is one.
pub(crate) fn remove_row<O: Order>(rows: &mut Vec<O::Row>, key: O::Key)
    requires { Rises (λ a b. O.before (O.key a) (O.key b)) rows.old.items }
    ensures rows { rows.new.items ≡ remove_first (λ row. O.same (O.key row) key) rows.old.items }
    ensures rises { Rises (λ a b. O.before (O.key a) (O.key b)) rows.new.items }
{
    let Some(at) = place_of::<O>(rows.as_slice(), key) else {
        return;
    };
    let _row = rows.remove(at);
}

/// Inserts a row whose key no other row has. It fails only where the vector is full.
pub(crate) fn insert_row<O: Order>(rows: &mut Vec<O::Row>, row: O::Row) -> Result<(), AllocError>
    requires rises { Rises (λ a b. O.before (O.key a) (O.key b)) rows.old.items }
    requires none { NonePass (λ other. O.same (O.key other) (O.key row)) rows.old.items }
    ensures ok { OnOk result (rows.new.items ≡
        insert_before (λ other. O.before (O.key row) (O.key other)) row rows.old.items) }
    ensures err { OnErr result (rows.new.items ≡ rows.old.items) }
    ensures rises { Rises (λ a b. O.before (O.key a) (O.key b)) rows.new.items }
    ensures full { OnErr result (vec_capacity rows.old ≤ vec_len rows.old) }
{
    let at = split_of::<O>(rows.as_slice(), O::key(&row));
    rows.insert(at, row)?;
    Ok(())
}
