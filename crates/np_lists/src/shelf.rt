//! The list.

ghost use Rattle.std.specs.Prelude.{◌≡◌, ◌<◌, ◌≤◌, ◌↔◌, [], IsTrue, Some, insert, length, option_map, remove, slice_get};
ghost use Rattle.std.specs.List.{prefix_len};
ghost use Rattle.std.specs.Option.{option_copied};
ghost use Rattle.np_lists.specs.Change.{change_at};
ghost use Rattle.np_lists.specs.Rising.{IsSplit};
ghost use Rattle.np_lists.specs.Items.{IsCounted, items_of};

mod balance;

use crate::change::Change;
use crate::piece::Piece;
use crate::probe::Probe;
use std::marker::Model;
use std::mem;

/// A list in a tree: each of its two sides is again a list.
#[cycle(shelf)]
#[derive(Drop)]
pub struct Shelf<T> {
    top: Link<T>,
}

#[cycle(shelf)]
#[derive(Drop)]
enum Link<T> {
    Empty,
    Top(Box<Knot<T>>),
}

#[cycle(shelf)]
#[derive(Drop)]
pub(crate) struct Knot<T> {
    pub(crate) left: Shelf<T>,
    pub(crate) item: T,
    pub(crate) right: Shelf<T>,
    // How many items there are: both sides and the one between.
    pub(crate) len: usize,
}

impl<T> Model for Shelf<T> {
    ghost use Rattle.std.specs.Prelude.{List, ℕ, length};

    ghost Value = { List T };

    ghost use Rattle.np_lists.specs.Items.{items_of, IsCounted};

    ghost view = { λ s. items_of s.top };

    ghost invariant = { λ s. IsCounted s.top };

    ghost size = { length };

    ghost use Rattle.np_lists.specs.Falls.{falls};

    ghost size_decreases = { λ a h. falls a.top };
}

impl<T: Drop> Shelf<T> {
    /// A list with no item. It takes no memory.
    pub fn new() -> Shelf<T>
        ensures { result ≡ [] }
    {
        Shelf { top: Link::Empty }
    }

    /// How many items there are. The time doesn't grow with the list.
    pub fn len(&self) -> usize
        ensures { result ≡ length self.now }
    {
        match &self.top {
            Link::Empty => 0,
            Link::Top(knot) => knot.len,
        }
    }

    /// Whether there is no item.
    pub fn is_empty(&self) -> bool
        ensures { IsTrue result ↔ (self.now ≡ []) }
    {
        self.len() == 0
    }

    /// The item at a place, and none past the end. The time is logarithmic in the length.
    pub fn at(&self, place: usize) -> Option<&T>
        ensures { option_copied result ≡ slice_get self.now place }
    {
        match &self.top {
            Link::Empty => None,
            Link::Top(knot) => {
                let left = knot.left.len();
                if place < left {
                    knot.left.at(place)
                } else if place == left {
                    Some(&knot.item)
                } else {
                    knot.right.at(place - left - 1)
                }
            }
        }
    }

    /// How many items come before what is searched for: the place where it is, or would be. The
    /// number of items that the probe sees is logarithmic in the length.
    pub fn place<P: Probe<T>>(&self, probe: &P) -> usize
        requires split { IsSplit (P.before probe.now) self.now }
        ensures { result ≡ prefix_len (P.before probe.now) self.now }
    {
        match &self.top {
            Link::Empty => 0,
            Link::Top(knot) => {
                if probe.is_before(&knot.item) {
                    knot.len - knot.right.len() + knot.right.place(probe)
                } else {
                    knot.left.place(probe)
                }
            }
        }
    }

    /// Inserts an item at the place. It takes no memory, and the time is logarithmic in the length.
    pub fn insert(&mut self, place: usize, piece: Piece<T>)
        requires within { place ≤ length self.old }
        requires room { length self.old < 18_446_744_073_709_551_615 }
        ensures { self.new ≡ insert self.old place piece }
    {
        let Link::Top(knot) = &mut self.top else {
            let Piece { knot } = piece;
            self.top = Link::Top(knot);
            return;
        };
        let left = knot.left.len();
        if place <= left {
            knot.left.insert(place, piece);
        } else {
            knot.right.insert(place - left - 1, piece);
        }
        knot.len += 1;
        self.balance();
    }

    /// Removes the item at the place, with the memory that it took. It takes none, and the time is
    /// logarithmic in the length.
    pub fn remove(&mut self, place: usize) -> Piece<T>
        requires { place < length self.old }
        ensures piece { slice_get self.old place ≡ Some result }
        ensures rest { self.new ≡ remove self.old place }
    {
        let Link::Top(mut knot) = self.take() else {
            unreachable!()
        };
        let left = knot.left.len();
        let piece = if place < left {
            knot.left.remove(place)
        } else if place > left {
            knot.right.remove(place - left - 1)
        } else if knot.right.is_empty() {
            self.top = knot.left.take();
            knot.len = 1;
            return Piece { knot };
        } else {
            let mut first = knot.right.remove(0);
            first.exchange(&mut knot.item);
            first
        };
        knot.len -= 1;
        self.top = Link::Top(knot);
        self.balance();
        piece
    }

    /// Changes the item at the place. Takes no memory, and the time is logarithmic in the length.
    pub fn change<C: Change<T>>(&mut self, place: usize, change: &mut C)
        requires { place < length self.old }
        ensures items { self.new ≡ change_at place (C.after change.old) self.old }
        ensures kept { option_map (C.kept change.old) (slice_get self.old place) ≡ Some change.new }
    {
        let Link::Top(knot) = &mut self.top else {
            unreachable!()
        };
        let left = knot.left.len();
        if place < left {
            knot.left.change(place, change);
        } else if place == left {
            change.make(&mut knot.item);
        } else {
            knot.right.change(place - left - 1, change);
        }
    }

    /// Takes the link to the items, and leaves none.
    fn take(&mut self) -> Link<T>
        ensures items { items_of result ≡ self.old }
        ensures counted { IsCounted result }
        ensures rest { self.new ≡ [] }
    {
        mem::replace(&mut self.top, Link::Empty)
    }
}
