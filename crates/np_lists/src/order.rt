//! What a table needs to know of its rows, and what changes one of them.

ghost use Rattle.std.specs.Prelude.{◌≡◌, Bool, true, false, Ok, OnOk, OnErr};

use std::convert::Infallible;

/// An order of rows by a key.
pub trait Order {
    /// What a row is found by.
    type Key: Copy;

    type Row: Drop;

    /// The key of a row.
    ghost key: { Self.Row → Self.Key };
    /// Whether the first key is before the second.
    ghost before: { Self.Key → Self.Key → Bool };
    /// Whether both keys are the same.
    ghost same: { Self.Key → Self.Key → Bool };

    fn key(row: &Self::Row) -> Self::Key
        ensures { result ≡ key row.now };

    fn is_before(first: Self::Key, second: Self::Key) -> bool
        ensures { result ≡ before first second };

    fn is_same(first: Self::Key, second: Self::Key) -> bool
        ensures { result ≡ same first second };

    ghost transitive: { (a b k : Self.Key) → before a b ≡ true → before b k ≡ true → before a k ≡ true };

    ghost one_way: { (a b : Self.Key) → before a b ≡ true → before b a ≡ false };

    ghost some_way: { (a b : Self.Key) → before a b ≡ false → same a b ≡ false → before b a ≡ true };

    ghost equal: { (a b : Self.Key) → same a b ≡ true → a ≡ b };
}

/// A change of one row.
pub trait RowChange<T> {
    /// Why it may fail: `Infallible` if it always succeeds.
    type Error;

    /// What the row becomes.
    ghost after: { Self → T → T };

    /// Changes the row. If the change fails, the row stays as it was.
    fn make(&self, row: &mut T) -> Result<(), Self::Error>
        ensures ok { OnOk result (row.new ≡ after self.now row.old) }
        ensures err { OnErr result (row.new ≡ row.old) };
}

/// An edit of one row, which can't fail. What it has may move into the row.
pub trait RowEdit<T>: Drop + Sized {
    /// What the row becomes.
    ghost after: { Self → T → T };

    /// Edits the row.
    fn make(self, row: &mut T)
        ensures { row.new ≡ after self row.old };
}

/// The value of a result that can't be a failure.
pub fn always<T>(done: Result<T, Infallible>) -> T
    ensures { done ≡ Ok result }
{
    match done {
        Ok(value) => value,
        Err(never) => match never {},
    }
}
