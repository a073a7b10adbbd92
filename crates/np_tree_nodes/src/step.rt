//! One item more or fewer in a list.

ghost use Rattle.std.specs.Prelude.{◌≡◌};
ghost use Rattle.np_tree_nodes.specs.Steps.{CanStep, after_step};

use np_lists::{Piece, Shelf};

/// One item more or fewer in a list.
#[derive(Drop)]
pub(crate) enum Step<T> {
    Nothing,
    Take(usize),
    Put(usize, Piece<T>),
}

impl<T: Drop> Step<T> {
    /// Makes the step, and answers the one that undoes it. Takes no memory.
    pub(crate) fn make(self, items: &mut Shelf<T>) -> Step<T>
        requires { CanStep self items.old }
        ensures items { items.new ≡ after_step self items.old }
        ensures back { after_step result items.new ≡ items.old }
        ensures can { CanStep result items.new }
    {
        match self {
            Step::Nothing => Step::Nothing,
            Step::Take(place) => {
                // The length is a `usize`, so the piece has room again.
                let _ = items.len();
                Step::Put(place, items.remove(place))
            }
            Step::Put(place, piece) => {
                items.insert(place, piece);
                Step::Take(place)
            }
        }
    }
}
