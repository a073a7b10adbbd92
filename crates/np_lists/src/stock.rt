//! A list by place, with room for more items.

ghost use Rattle.std.specs.Prelude.{◌≡◌, ◌+◌, ◌<◌, ◌≤◌, [], Some, OnOk, insert, length, max, remove, slice_get};
ghost use Rattle.std.specs.List.{prefix_len};
ghost use Rattle.np_lists.specs.Rising.{IsSplit};
ghost use Rattle.np_lists.specs.Rows.{row_is_before};

use crate::{Change, Piece, Probe, Shelf};
use std::alloc::{AllocError, Global};
use std::marker::Model;

/// A list by place, and pieces for more items. An item is in a row, since a piece that is made
/// beforehand has none yet.
#[derive(Drop)]
pub(crate) struct Stock<T> {
    alloc: Global,
    rows: Shelf<Option<T>>,
    // What is in these rows does not matter.
    spare: Shelf<Option<T>>,
}

impl<T> Model for Stock<T> {
    ghost use Rattle.std.specs.Prelude.{length};
    ghost use Rattle.np_lists.specs.Rows.{StockOf, IsStock, items_of};

    ghost Value = { StockOf T };

    ghost view = { λ s. record { items = items_of s.rows; room = length s.spare } };

    ghost invariant = { λ s. IsStock s.rows s.spare };
}

/// An item for a row.
#[derive(Drop)]
struct Fill<T> {
    item: T,
}

impl<T: Copy> Change<Option<T>> for Fill<T> {
    ghost after = { λ fill row. Some fill.item };

    ghost kept = { λ fill row. fill };

    fn make(&mut self, item: &mut Option<T>) {
        *item = Some(self.item);
    }
}

/// The rows whose items come before what is searched for.
#[derive(Clone, Copy)]
struct InRows<'a, P> {
    probe: &'a P,
}

impl<T: Copy, P: Probe<T>> Probe<Option<T>> for InRows<'_, P> {
    ghost before = { λ rows row. row_is_before (P.before rows.probe.now) row };

    fn is_before(&self, item: &Option<T>) -> bool {
        match item {
            Some(item) => self.probe.is_before(item),
            None => false,
        }
    }
}

/// Makes pieces until there are so many.
fn make_pieces<T: Copy>(
    alloc: Global,
    spare: &mut Shelf<Option<T>>,
    count: usize,
) -> Result<(), AllocError>
    ensures least { length spare.old ≤ length spare.new }
    ensures most { length spare.new ≤ max count (length spare.old) }
    ensures ok { OnOk result (count ≤ length spare.new) }
{
    while spare.len() < count {
        spare.insert(0, Piece::new(alloc, None)?);
    }
    Ok(())
}

impl<T: Copy> Stock<T> {
    /// No item, and no room. It takes no memory.
    pub(crate) fn new(alloc: Global) -> Stock<T>
        ensures { result.items ≡ [] }
    {
        Stock {
            alloc,
            rows: Shelf::new(),
            spare: Shelf::new(),
        }
    }

    /// Makes pieces for so many more items.
    pub(crate) fn reserve(&mut self, count: usize) -> Result<(), AllocError>
        ensures same { self.new.items ≡ self.old.items }
        ensures ok { OnOk result (count ≤ self.new.room) }
        ensures room { self.old.room ≤ self.new.room }
    {
        if count > usize::MAX - self.rows.len() {
            return Err(AllocError);
        }
        make_pieces(self.alloc, &mut self.spare, count)
    }

    /// How many items there are.
    pub(crate) fn len(&self) -> usize
        ensures { result ≡ length self.now.items }
    {
        self.rows.len()
    }

    /// The item at a place, and none past the end.
    pub(crate) fn at(&self, place: usize) -> Option<T>
        ensures { result ≡ slice_get self.now.items place }
    {
        *self.rows.at(place)?
    }

    /// How many items come before what is searched for.
    pub(crate) fn place<P: Probe<T>>(&self, probe: &P) -> usize
        requires split { IsSplit (P.before probe.now) self.now.items }
        ensures { result ≡ prefix_len (P.before probe.now) self.now.items }
    {
        self.rows.place(&InRows { probe })
    }

    /// Inserts an item at the place, with a piece that is there.
    pub(crate) fn insert(&mut self, place: usize, item: T)
        requires within { place ≤ length self.old.items }
        requires room { 0 < self.old.room }
        ensures items { self.new.items ≡ insert self.old.items place item }
        ensures room { self.old.room ≡ self.new.room + 1 }
    {
        let piece = self.spare.remove(0);
        self.rows.insert(place, piece);
        let mut fill = Fill { item };
        self.rows.change(place, &mut fill);
    }

    /// Removes the item at the place, and keeps the piece.
    pub(crate) fn remove(&mut self, place: usize)
        requires { place < length self.old.items }
        ensures items { self.new.items ≡ remove self.old.items place }
        ensures room { self.new.room ≡ self.old.room + 1 }
    {
        let piece = self.rows.remove(place);
        self.spare.insert(0, piece);
    }
}
