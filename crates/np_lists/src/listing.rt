//! Lists of ids, read by place.

ghost use Rattle.std.specs.Prelude.{◌≡◌, List, length, slice_get};
ghost use Rattle.np_lists.specs.Groups.{ids_in};

use crate::{Group, Groups, Order};

/// A list of ids that is read by place.
pub trait Ids<K: Copy> {
    /// The ids, in order.
    ghost ids: { Self → List K };

    /// How many ids there are.
    fn count(&self) -> usize
        ensures { result ≡ length (ids self.now) };

    /// The id at a place, and none past the end.
    fn at(&self, place: usize) -> Option<K>
        ensures { result ≡ slice_get (ids self.now) place };
}

/// The ids of a group.
#[derive(Drop)]
pub(crate) struct InGroup<'a, O: Order> {
    pub(crate) groups: &'a Groups<O>,
    pub(crate) group: Group,
}

impl<O: Order> Ids<O::Key> for InGroup<'_, O> {
    ghost ids = { λ list. ids_in list.group list.groups.now.members };

    fn count(&self) -> usize {
        self.groups.count(self.group)
    }

    fn at(&self, place: usize) -> Option<O::Key> {
        self.groups.at(self.group, place)
    }
}

/// The ids of a slice.
#[derive(Drop)]
pub(crate) struct InSlice<'a, K> {
    pub(crate) ids: &'a [K],
}

impl<K: Copy> Ids<K> for InSlice<'_, K> {
    ghost ids = { λ list. list.ids.now };

    fn count(&self) -> usize {
        self.ids.len()
    }

    fn at(&self, place: usize) -> Option<K> {
        self.ids.get(place).copied()
    }
}
