//! Lists of ids by place: at each place a table.

ghost use Rattle.std.specs.Prelude.{◌≡◌, ◌++◌, ◌∷◌, [], true, IfOk, OnErr, OnOk};
ghost use Rattle.np_lookups.specs.Lower.{AllByRecursion, change_at};
ghost use Rattle.np_lookups.specs.Lookups.{list_at, taken_back, with_id, without_id};

use np_lists::{KeyTable, Order};
use std::alloc::{AllocError, Global};

/// The rows of the table at the place, or none past the end.
pub(crate) fn list_of<O: Order>(lists: &Vec<KeyTable<O>>, at: usize) -> &[O::Row]
    ensures { result.now ≡ list_at at lists.now.items }
{
    match lists.get(at) {
        None => &[],
        Some(table) => table.rows(),
    }
}

/// Adds the row to a table, unless it is there; true if it was added.
fn add<O: Order>(table: &mut KeyTable<O>, row: O::Row) -> Result<bool, AllocError>
    ensures ok { OnOk result (table.new ≡ with_id (λ a b. O.before (O.key a) (O.key b))
        (λ a b. O.same (O.key a) (O.key b)) row table.old) }
    ensures undo { IfOk result (λ added.
        taken_back (λ a b. O.same (O.key a) (O.key b)) added row table.new ≡ table.old) }
    ensures err { OnErr result (table.new ≡ table.old) }
{
    if table.has(O::key(&row)) {
        return Ok(false);
    }
    table.insert(row)?;
    Ok(true)
}

/// Adds the row at the end of a table.
fn push<O: Order>(table: &mut KeyTable<O>, row: O::Row) -> Result<(), AllocError>
    requires { AllByRecursion (λ other. O.before (O.key other) (O.key row) ≡ true) table.old }
    ensures { OnOk result (table.new ≡ table.old ++ row ∷ []) }
{
    table.insert(row)?;
    Ok(())
}

/// Takes the row out of a table again, if it was added.
fn take_back<O: Order>(table: &mut KeyTable<O>, row: &O::Row, added: bool)
    ensures { table.new ≡ taken_back (λ a b. O.same (O.key a) (O.key b)) added row.now table.old }
{
    if added {
        table.remove(O::key(row));
    }
}

/// Adds the row to the table at the place, unless it is there; true if it was added.
pub(crate) fn add_at<O: Order>(
    lists: &mut Vec<KeyTable<O>>,
    at: usize,
    row: O::Row,
) -> Result<bool, AllocError>
    ensures ok { OnOk result (lists.new.items ≡ change_at at
        (with_id (λ a b. O.before (O.key a) (O.key b)) (λ a b. O.same (O.key a) (O.key b)) row)
        lists.old.items) }
    ensures undo { IfOk result (λ added. change_at at
        (taken_back (λ a b. O.same (O.key a) (O.key b)) added row) lists.new.items
        ≡ lists.old.items) }
    ensures err { OnErr result (lists.new.items ≡ lists.old.items) }
{
    if at >= lists.len() {
        return Ok(false);
    }
    let table = &mut lists[at];
    let added = add(table, row)?;
    Ok(added)
}

/// Takes the row out of the table at the place again, if it was added.
pub(crate) fn take_back_at<O: Order>(
    lists: &mut Vec<KeyTable<O>>,
    at: usize,
    row: &O::Row,
    added: bool,
)
    ensures { lists.new.items ≡ change_at at
        (taken_back (λ a b. O.same (O.key a) (O.key b)) added row.now) lists.old.items }
{
    if at >= lists.len() {
        return;
    }
    let table = &mut lists[at];
    take_back(table, row, added);
}

/// Adds the row at the end of the table at the place, if there is one.
pub(crate) fn push_at<O: Order>(
    lists: &mut Vec<KeyTable<O>>,
    at: usize,
    row: O::Row,
) -> Result<(), AllocError>
    requires { AllByRecursion (λ other. O.before (O.key other) (O.key row) ≡ true)
        (list_at at lists.old.items) }
    ensures { OnOk result (lists.new.items ≡
        change_at at (λ rows. rows ++ row ∷ []) lists.old.items) }
{
    if at >= lists.len() {
        return Ok(());
    }
    let table = &mut lists[at];
    push(table, row)?;
    Ok(())
}

/// Removes the row from the table at the place, if it is there.
pub(crate) fn remove_at<O: Order>(lists: &mut Vec<KeyTable<O>>, at: usize, row: &O::Row)
    ensures { lists.new.items ≡ change_at at
        (without_id (λ a b. O.same (O.key a) (O.key b)) row.now) lists.old.items }
{
    if at >= lists.len() {
        return;
    }
    let table = &mut lists[at];
    table.remove(O::key(row));
}

/// Empties the table at the place. It keeps no memory.
pub(crate) fn clear_at<O: Order>(alloc: Global, lists: &mut Vec<KeyTable<O>>, at: usize)
    ensures { lists.new.items ≡ change_at at (λ _. []) lists.old.items }
{
    if at >= lists.len() {
        return;
    }
    lists[at] = KeyTable::new(alloc);
}
