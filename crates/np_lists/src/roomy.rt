//! A table of rows that knows how many more it can take.

ghost use Rattle.std.specs.Prelude.{◌≡◌, ◌<◌, ◌≤◌, [], OnOk, option_copied, find, map};
ghost use Rattle.std.specs.List.{list_any};
ghost use Rattle.np_lists.specs.Change.{change_first, remove_first, insert_before};
ghost use Rattle.np_lists.specs.Rising.{NonePass};

use crate::order::{Order, RowChange, RowEdit};
use crate::rows::{change_rows, find_row, has_row, insert_row, place_of, remove_row};
use std::alloc::{AllocError, Global};
use std::convert::Infallible;
use std::marker::Model;

/// Rows in the order of their keys, each key once. `reserve` takes the memory for one more row, and
/// `insert` then can't fail.
#[derive(Drop)]
pub struct RoomyTable<O: Order> {
    rows: Vec<O::Row>,
}

impl<O: Order> Model for RoomyTable<O> {
    ghost use Rattle.std.specs.Prelude.{◌-◌, vec_capacity, vec_len};
    ghost use Rattle.np_lists.specs.Rising.{Rises};
    ghost use Rattle.np_lists.specs.Roomy.{Roomy};

    ghost Value = { Roomy O.Row };

    ghost view = { λ table. record {
      rows = table.rows.items;
      room = vec_capacity table.rows - vec_len table.rows;
    } };

    ghost invariant = { λ table. Rises (λ a b. O.before (O.key a) (O.key b)) table.rows.items };
}

impl<O: Order> RoomyTable<O> {
    /// No rows. It takes no memory.
    pub fn new(alloc: Global) -> RoomyTable<O>
        ensures { result.rows ≡ [] }
    {
        RoomyTable {
            rows: Vec::new(alloc),
        }
    }

    /// All rows, in order.
    pub fn rows(&self) -> &[O::Row]
        ensures { result.now ≡ self.now.rows }
    {
        self.rows.as_slice()
    }

    /// The row with this key.
    pub fn find(&self, key: O::Key) -> Option<&O::Row>
        ensures { option_copied result ≡ find (λ row. O.same (O.key row) key) self.now.rows }
    {
        find_row::<O>(self.rows.as_slice(), key)
    }

    /// Whether there is a row with this key.
    pub fn has(&self, key: O::Key) -> bool
        ensures { result ≡ list_any (λ row. O.same (O.key row) key) self.now.rows }
    {
        has_row::<O>(self.rows.as_slice(), key)
    }

    /// Takes the memory for one more row, if there is no room for it.
    pub fn reserve(&mut self) -> Result<(), AllocError>
        ensures rows { self.new.rows ≡ self.old.rows }
        ensures room { self.old.room ≤ self.new.room }
        ensures ok { OnOk result (0 < self.new.room) }
    {
        self.rows.reserve(1)
    }

    /// Inserts a row whose key no other row has. There is room for it.
    pub fn insert(&mut self, row: O::Row)
        requires room { 0 < self.old.room }
        requires none { NonePass (λ other. O.same (O.key other) (O.key row)) self.old.rows }
        ensures { self.new.rows ≡
            insert_before (λ other. O.before (O.key row) (O.key other)) row self.old.rows }
    {
        let _done = insert_row::<O>(&mut self.rows, row);
    }

    /// Edits the row with this key, if there is one.
    pub fn edit<E: RowEdit<O::Row>>(&mut self, key: O::Key, edit: E)
        requires { (row : O.Row) → O.key (E.after edit row) ≡ O.key row }
        ensures { self.new.rows ≡
            change_first (λ row. O.same (O.key row) key) (E.after edit) self.old.rows }
    {
        let Some(at) = place_of::<O>(self.rows.as_slice(), key) else {
            return;
        };
        let row = &mut self.rows[at];
        edit.make(row);
    }

    /// Changes every row.
    pub fn change_all<C: RowChange<O::Row, Error = Infallible>>(&mut self, change: &C)
        requires { (row : O.Row) → O.key (C.after change.now row) ≡ O.key row }
        ensures { self.new.rows ≡ map (C.after change.now) self.old.rows }
    {
        change_rows(&mut self.rows, change);
    }

    /// Removes the row with this key, if there is one.
    pub fn remove(&mut self, key: O::Key)
        ensures { self.new.rows ≡ remove_first (λ row. O.same (O.key row) key) self.old.rows }
    {
        remove_row::<O>(&mut self.rows, key);
    }
}
