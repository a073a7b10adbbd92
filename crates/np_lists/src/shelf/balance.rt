//! What keeps the tree low: if one side of a knot weighs more than three times as much as the
//! other, it is raised. A side weighs one more than it has items.
//!
//! It is proved that no rotation changes the list, and not that the tree stays low: with these weights
//! a path down has at most 2.41 times as many knots as the logarithm of the length (Hirai and Yamamoto,
//! Balancing weight-balanced trees), and a test puts 200,000 items in at one end.

ghost use Rattle.std.specs.Prelude.{◌≡◌};
ghost use Rattle.np_lists.specs.Items.{side_lengths};

use super::{Link, Shelf};
use std::mem;

impl<T: Drop> Link<T> {
    /// How many items are on each side of the top.
    fn sides(&self) -> (usize, usize)
        ensures { result ≡ side_lengths self.now }
    {
        match self {
            Link::Empty => (0, 0),
            Link::Top(knot) => (knot.left.len(), knot.right.len()),
        }
    }
}

impl<T: Drop> Shelf<T> {
    /// Raises the side that weighs more than three times as much as the other, if one does.
    pub(super) fn balance(&mut self)
        ensures { self.new ≡ self.old }
    {
        let (left, right) = self.top.sides();
        if right / 3 > left {
            self.raise_right();
        } else if left / 3 > right {
            self.raise_left();
        }
    }

    /// Raises the right side: by two rotations if the inner of its own sides has more than twice
    /// as many items as the outer, and otherwise by one.
    fn raise_right(&mut self)
        ensures { self.new ≡ self.old }
    {
        if let Link::Top(knot) = &mut self.top {
            let (inner, outer) = knot.right.top.sides();
            if inner.div_ceil(2) > outer {
                knot.right.rotate_right();
            }
        }
        self.rotate_left();
    }

    /// Raises the left side, as `raise_right` does the right side.
    fn raise_left(&mut self)
        ensures { self.new ≡ self.old }
    {
        if let Link::Top(knot) = &mut self.top {
            let (outer, inner) = knot.left.top.sides();
            if inner.div_ceil(2) > outer {
                knot.left.rotate_left();
            }
        }
        self.rotate_right();
    }

    /// The top of the right side becomes the top.
    fn rotate_left(&mut self)
        ensures { self.new ≡ self.old }
    {
        let Link::Top(mut down) = self.take() else {
            return;
        };
        match down.right.take() {
            Link::Empty => self.top = Link::Top(down),
            Link::Top(mut up) => {
                up.len = down.len;
                down.right = mem::replace(&mut up.left, Shelf::new());
                down.len = down.left.len() + 1 + down.right.len();
                up.left = Shelf {
                    top: Link::Top(down),
                };
                self.top = Link::Top(up);
            }
        }
    }

    /// The top of the left side becomes the top.
    fn rotate_right(&mut self)
        ensures { self.new ≡ self.old }
    {
        let Link::Top(mut down) = self.take() else {
            return;
        };
        match down.left.take() {
            Link::Empty => self.top = Link::Top(down),
            Link::Top(mut up) => {
                up.len = down.len;
                down.left = mem::replace(&mut up.right, Shelf::new());
                down.len = down.left.len() + 1 + down.right.len();
                up.right = Shelf {
                    top: Link::Top(down),
                };
                self.top = Link::Top(up);
            }
        }
    }
}
