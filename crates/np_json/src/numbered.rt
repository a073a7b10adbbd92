//! Rows that refer to something by its number, each to a different one.

ghost use Rattle.std.specs.Prelude.{◌≡◌, ◌==◌, List, ℕ, ◌++◌, ◌∷◌, [], false, OnOk, OnErr};
ghost use Rattle.std.specs.List.{list_any};

use indexmap::IndexSet;
use np_config::Numbered;
use std::alloc::{AllocError, Global};
use std::marker::Model;

/// Rows in order, no two of which have the same number.
#[derive(Drop)]
pub struct Marked<T: Numbered> {
    rows: Vec<T>,
    numbers: IndexSet<u16>,
}

impl<T: Numbered> Model for Marked<T> {
    ghost use Rattle.std.specs.Prelude.{List, map, ◌≡◌};

    ghost Value = { List T };

    ghost view = { λ m. m.rows.items };

    ghost invariant = { λ m. m.numbers.keys ≡ map T.number m.rows.items };
}

impl<T: Numbered> Marked<T> {
    /// No rows.
    pub fn new(alloc: Global) -> Marked<T>
        ensures { result ≡ [] }
    {
        Marked {
            rows: Vec::new(alloc),
            numbers: IndexSet::new(alloc),
        }
    }

    /// The rows themselves. It takes no memory.
    pub fn into_rows(self) -> Vec<T>
        ensures { result.items ≡ self }
    {
        let Marked { rows, numbers: _ } = self;
        rows
    }

    /// Whether a row has this number. The cost does not grow with the rows.
    pub fn has(&self, number: u16) -> bool
        ensures { result ≡ list_any (λ row. number == T.number row) self.now }
    {
        self.numbers.contains(&number)
    }

    /// Adds a row at the end.
    pub fn push(&mut self, row: T) -> Result<(), AllocError>
        requires { list_any (λ other. T.number row == T.number other) self.old ≡ false }
        ensures ok { OnOk result (self.new ≡ self.old ++ row ∷ []) }
        ensures err { OnErr result (self.new ≡ self.old) }
    {
        self.rows.reserve(1)?;
        self.numbers.insert(row.number())?;
        self.rows.push(row)?;
        Ok(())
    }
}
