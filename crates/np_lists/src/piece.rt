//! An item with its memory.

ghost use Rattle.std.specs.Prelude.{◌≡◌, IfOk};

use crate::shelf::{Knot, Shelf};
use std::alloc::{AllocError, Global};
use std::marker::Model;
use std::mem;

/// An item with the memory that it takes in a shelf.
#[derive(Drop)]
pub struct Piece<T> {
    // The knot has nothing beside the item.
    pub(crate) knot: Box<Knot<T>>,
}

impl<T> Model for Piece<T> {
    ghost use Rattle.np_lists.specs.Items.{IsLoose};

    ghost Value = { T };

    ghost view = { λ p. p.knot.value.item };

    ghost invariant = { λ p. IsLoose p.knot.value };
}

impl<T: Drop> Piece<T> {
    /// Takes the memory for an item. If memory runs out, the item is dropped.
    pub fn new(alloc: Global, item: T) -> Result<Piece<T>, AllocError>
        ensures { IfOk result (λ piece. piece ≡ item) }
    {
        let knot = Box::new(
            alloc,
            Knot {
                left: Shelf::new(),
                item,
                right: Shelf::new(),
                len: 1,
            },
        )?;
        Ok(Piece { knot })
    }

    /// The item.
    pub fn item(&self) -> &T
        ensures { result.now ≡ self.now }
    {
        &self.knot.item
    }

    /// The item alone: its memory is freed.
    pub fn into_item(self) -> T
        ensures { result ≡ self }
    {
        let Piece { knot } = self;
        let Knot {
            left: _,
            item,
            right: _,
            len: _,
        } = Box::into_inner(knot);
        item
    }

    /// Exchanges the item with another.
    pub(crate) fn exchange(&mut self, item: &mut T)
        ensures piece { self.new ≡ item.old }
        ensures item { item.new ≡ self.old }
    {
        mem::swap(&mut self.knot.item, item);
    }
}
