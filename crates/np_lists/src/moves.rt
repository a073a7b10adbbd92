//! Ids moved from the groups that they were in to those that they are in now. A member that stays
//! is left where it is.

ghost use Rattle.std.specs.Prelude.{◌≡◌, ◌+◌, ◌<◌, ◌≤◌, length};
ghost use Rattle.np_lists.specs.Moves.{is_among, is_place, with_group, with_groups, with_moved, without_group, without_groups};

use crate::groups::is_same_group;
use crate::{Group, Groups, Order};

fn is_place(group: Group, place: &Option<Group>) -> bool
    ensures { result ≡ is_place group place.now }
{
    matches!(place, Some(other) if is_same_group(*other, group))
}

/// Whether the group is among these.
fn is_among(group: Group, places: &[Option<Group>]) -> bool
    ensures { result ≡ is_among group places.now }
{
    places.iter().any(|place| is_place(group, place))
}

/// Takes the id out of the group, if there is one and it is not among those that stay.
fn take_one<O: Order>(
    groups: &mut Groups<O>,
    id: O::Key,
    staying: &[Option<Group>],
    group: Option<Group>,
)
    ensures members { groups.new.members
        ≡ without_group O.same id staying.now group groups.old.members }
    ensures room { groups.old.room ≤ groups.new.room }
{
    if let Some(group) = group
        && !is_among(group, staying)
    {
        groups.remove(group, id);
    }
}

/// Takes the id out of these groups but for those that stay.
fn take_all<O: Order>(
    groups: &mut Groups<O>,
    id: O::Key,
    staying: &[Option<Group>],
    places: &[Option<Group>],
)
    ensures members { groups.new.members
        ≡ without_groups O.same id staying.now places.now groups.old.members }
    ensures room { groups.old.room ≤ groups.new.room }
{
    for group in places {
        take_one(groups, id, staying, *group);
    }
}

/// Puts the id in the group, if there is one and it is not among those that it is in already.
fn put_one<O: Order>(
    groups: &mut Groups<O>,
    id: O::Key,
    there: &[Option<Group>],
    group: Option<Group>,
)
    requires { 0 < groups.old.room }
    ensures members { groups.new.members
        ≡ with_group O.before O.same id there.now group groups.old.members }
    ensures room { groups.old.room ≤ groups.new.room + 1 }
{
    if let Some(group) = group
        && !is_among(group, there)
    {
        groups.put(group, id);
    }
}

/// Puts the id in each of these groups but for those that it is in already.
fn put_all<O: Order>(
    groups: &mut Groups<O>,
    id: O::Key,
    there: &[Option<Group>],
    places: &[Option<Group>],
)
    requires { length places.now ≤ groups.old.room }
    ensures members { groups.new.members
        ≡ with_groups O.before O.same id there.now places.now groups.old.members }
    ensures room { groups.old.room ≤ groups.new.room + length places.now }
{
    for group in places {
        put_one(groups, id, there, *group);
    }
}

/// Moves the id from the groups that it was in to those that it is in now. It can't fail, since
/// there is room. Each group before is compared with those now; only one that is left or joined
/// costs a search, of time logarithmic in the number of members and of pieces.
pub fn move_id<O: Order>(
    groups: &mut Groups<O>,
    id: O::Key,
    was: &[Option<Group>],
    now: &[Option<Group>],
)
    requires { length now.now ≤ groups.old.room }
    ensures members { groups.new.members
        ≡ with_moved O.before O.same id was.now now.now groups.old.members }
    ensures room { groups.old.room ≤ groups.new.room + length now.now }
{
    take_all(groups, id, now, was);
    put_all(groups, id, was, now);
}
