//! Lists of fixed room, held in place.

ghost use Rattle.std.specs.Prelude.{◌≡◌, ◌<◌, ◌≤◌, ◌^◌, [], ◌∷◌, ◌++◌, length, slice_get, IsTrue, ◌↔◌};
ghost use Rattle.std.specs.Bool.{OnTrue, OnFalse};

use std::alloc::AllocError;
use std::marker::Model;

/// What a row may hold: plain data with one value that fills the room that is left.
pub trait Item: Copy {
    /// The value that fills the room that is left.
    ghost blank: { Self };

    /// That value.
    fn blank() -> Self
        ensures { result ≡ Self.blank };
}

/// At most `N` items, in order. It is copied whole, so pass it by reference if it is only read.
pub struct Row<T: Item, const N: usize> {
    items: [T; N],
    len: usize,
}

impl<T: Item, const N: usize> Model for Row<T, N> {
    ghost use Rattle.std.specs.Prelude.{◌≡◌, ◌<◌, ◌≤◌, ◌^◌, List, take, length};

    ghost Value = { List T };

    ghost use Rattle.np_record.specs.Rows.{padded};

    ghost view = { λ r. take r.len r.items };

    ghost invariant = { λ r. (r.len ≤ N) × (N < 2 ^ 32) × (length r.items ≡ N)
        × (padded T.blank N (take r.len r.items) ≡ r.items) };

    ghost inverse = { λ items. record { items = padded T.blank N items; len = length items } };
}

// A copy is the same row, and takes no memory.
impl<T: Item, const N: usize> Clone for Row<T, N> {
    ghost is_clone = { λ row copy. copy ≡ row };

    ghost is_infallible = { λ row. Unit {0} };

    fn clone(&self) -> Result<Row<T, N>, AllocError> {
        Ok(*self)
    }
}

impl<T: Item, const N: usize> Copy for Row<T, N> {}

impl<T: Item, const N: usize> Row<T, N> {
    /// An empty row. The condition holds at each row of this crate.
    pub fn new() -> Row<T, N>
        requires { N < 2 ^ 32 }
        ensures { result ≡ [] }
    {
        Row {
            items: [T::blank(); N],
            len: 0,
        }
    }

    /// How many items there are.
    pub fn len(&self) -> u32
        ensures len { result ≡ length self.now }
        ensures few { result ≤ N }
    {
        self.len as u32
    }

    /// Whether there are none.
    pub fn is_empty(&self) -> bool
        ensures { IsTrue result ↔ (self.now ≡ []) }
    {
        self.len == 0
    }

    /// The item at a place, or `None` if the place is past the end.
    pub fn at(&self, at: u32) -> Option<T>
        ensures { result ≡ slice_get self.now at }
    {
        if (at as usize) < self.len {
            Some(self.items[at as usize])
        } else {
            None
        }
    }

    /// The items, in order.
    pub fn items(&self) -> &[T]
        ensures { result.now ≡ self.now }
    {
        self.items.split_at(self.len).0
    }

    /// Adds an item at the end. If and only if the row is full, returns false and changes nothing.
    pub fn push(&mut self, item: T) -> bool
        ensures room { IsTrue result ↔ (length self.old < N) }
        ensures pushed { OnTrue result (self.new ≡ self.old ++ item ∷ []) }
        ensures full { OnFalse result (self.new ≡ self.old) }
    {
        if self.len == N {
            return false;
        }
        self.items[self.len] = item;
        self.len += 1;
        true
    }
}
