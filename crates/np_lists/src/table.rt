//! A table of rows, seen as their list.

ghost use Rattle.std.specs.Prelude.{◌≡◌, ◌<◌, [], length, OnOk, OnErr, IfSome, option_copied, find, map};
ghost use Rattle.std.specs.List.{list_any};
ghost use Rattle.np_lists.specs.Change.{change_first, remove_first, insert_before};
ghost use Rattle.np_lists.specs.Rising.{IsFirstPlace, NonePass};

use crate::order::{Order, RowChange};
use crate::rows::{change_rows, find_row, has_row, insert_row, place_of, remove_row};
use std::alloc::{AllocError, Global};
use std::convert::Infallible;
use std::marker::Model;

/// Rows in the order of their keys, each key once.
#[derive(Drop)]
pub struct KeyTable<O: Order> {
    rows: Vec<O::Row>,
}

impl<O: Order> Model for KeyTable<O> {
    ghost use Rattle.std.specs.Prelude.{List};
    ghost use Rattle.np_lists.specs.Rising.{Rises};

    ghost Value = { List O.Row };

    ghost view = { λ table. table.rows.items };

    ghost invariant = { λ table. Rises (λ a b. O.before (O.key a) (O.key b)) table.rows.items };
}

impl<O: Order> KeyTable<O> {
    /// No rows. It takes no memory.
    pub fn new(alloc: Global) -> KeyTable<O>
        ensures { result ≡ [] }
    {
        KeyTable {
            rows: Vec::new(alloc),
        }
    }

    /// All rows, in order.
    pub fn rows(&self) -> &[O::Row]
        ensures { result.now ≡ self.now }
    {
        self.rows.as_slice()
    }

    /// How many rows there are.
    pub fn count(&self) -> usize
        ensures { result ≡ length self.now }
    {
        self.rows.len()
    }

    fn place(&self, key: O::Key) -> Option<usize>
        ensures place { IsFirstPlace (λ row. O.same (O.key row) key) self.now result }
        ensures within { IfSome result (λ at. at < length self.now) }
    {
        place_of::<O>(self.rows.as_slice(), key)
    }

    /// The row with this key.
    pub fn find(&self, key: O::Key) -> Option<&O::Row>
        ensures { option_copied result ≡ find (λ row. O.same (O.key row) key) self.now }
    {
        find_row::<O>(self.rows.as_slice(), key)
    }

    /// Whether there is a row with this key.
    pub fn has(&self, key: O::Key) -> bool
        ensures { result ≡ list_any (λ row. O.same (O.key row) key) self.now }
    {
        has_row::<O>(self.rows.as_slice(), key)
    }

    /// Changes the row with this key, if there is one.
    pub fn change<C: RowChange<O::Row>>(&mut self, key: O::Key, change: &C) -> Result<(), C::Error>
        requires { (row : O.Row) → O.key (C.after change.now row) ≡ O.key row }
        ensures ok { OnOk result (self.new ≡ change_first (λ row. O.same (O.key row) key) (C.after change.now) self.old) }
        ensures err { OnErr result (self.new ≡ self.old) }
    {
        let Some(at) = self.place(key) else {
            return Ok(());
        };
        let row = &mut self.rows[at];
        change.make(row)?;
        Ok(())
    }

    /// Changes every row.
    pub fn change_all<C: RowChange<O::Row, Error = Infallible>>(&mut self, change: &C)
        requires { (row : O.Row) → O.key (C.after change.now row) ≡ O.key row }
        ensures { self.new ≡ map (C.after change.now) self.old }
    {
        change_rows(&mut self.rows, change);
    }

    /// Removes the row with this key, if there is one.
    pub fn remove(&mut self, key: O::Key)
        ensures { self.new ≡ remove_first (λ row. O.same (O.key row) key) self.old }
    {
        remove_row::<O>(&mut self.rows, key);
    }

    /// Inserts a row whose key no other row has.
    pub fn insert(&mut self, row: O::Row) -> Result<(), AllocError>
        requires { NonePass (λ other. O.same (O.key other) (O.key row)) self.old }
        ensures ok { OnOk result (self.new ≡ insert_before (λ other. O.before (O.key row) (O.key other)) row self.old) }
        ensures err { OnErr result (self.new ≡ self.old) }
    {
        insert_row::<O>(&mut self.rows, row)?;
        Ok(())
    }
}
