//! The search for the id at a place among those outside a group.
//!
//! The rank at a place of a list is the number of ids before that place that are not in the group.

ghost use Rattle.std.specs.Prelude.{◌≡◌, ◌+◌, ◌-◌, ◌<◌, ◌≤◌, true, length, nat_le, slice_get, take};
ghost use Rattle.std.specs.List.{list_any, prefix_len};
ghost use Rattle.np_lists.specs.Rising.{Rises};
ghost use Rattle.np_lists.specs.Groups.{has_member, ids_in, is_member_before};
ghost use Rattle.np_lists.specs.Ranks.{AreRanked, outside};

use crate::listing::{Ids, InGroup, InSlice};
use crate::{Group, Groups, Order};

/// The rank at a place, from the id at that place.
fn rank_at<O: Order>(groups: &Groups<O>, inner: Group, id: O::Key, place: usize) -> usize
    ensures { result
        ≡ place - prefix_len (λ k. O.before k id) (ids_in inner groups.now.members) }
{
    place.saturating_sub(groups.before(inner, id))
}

/// Whether the rank at a place is at most `at`.
fn is_rank_at_most<O: Order, I: Ids<O::Key>>(
    ids: &I,
    groups: &Groups<O>,
    inner: Group,
    place: usize,
    at: usize,
) -> bool
    ensures { AreRanked O.before O.same inner groups.now.members (I.ids ids.now)
        → place < length (I.ids ids.now)
        → result ≡ nat_le
        (length (outside O.same inner groups.now.members (take place (I.ids ids.now)))) at }
{
    match ids.at(place) {
        Some(id) => rank_at(groups, inner, id, place) <= at,
        None => false,
    }
}

/// The last place with a rank of at most `at`. If there are no ids, it is 0.
fn last_place<O: Order, I: Ids<O::Key>>(
    ids: &I,
    groups: &Groups<O>,
    inner: Group,
    at: usize,
) -> usize
    ensures most { AreRanked O.before O.same inner groups.now.members (I.ids ids.now)
        → length (outside O.same inner groups.now.members (take result (I.ids ids.now))) ≤ at }
    ensures last { AreRanked O.before O.same inner groups.now.members (I.ids ids.now)
        → result + 1 < length (I.ids ids.now)
        → at < length
        (outside O.same inner groups.now.members (take (result + 1) (I.ids ids.now))) }
{
    let mut low = 0;
    let mut high = ids.count();
    while high - low > 1 {
        let middle = low + (high - low) / 2;
        if is_rank_at_most(ids, groups, inner, middle, at) {
            low = middle;
        } else {
            high = middle;
        }
    }
    low
}

/// The id at this place, counted from 0, among the ids that are not in the inner group, or none past
/// their end. It takes no memory. The time is logarithmic in the number of ids times logarithmic in
/// the number of members.
pub fn id_outside<O: Order, I: Ids<O::Key>>(
    ids: &I,
    groups: &Groups<O>,
    inner: Group,
    at: usize,
) -> Option<O::Key>
    ensures { AreRanked O.before O.same inner groups.now.members (I.ids ids.now)
        → result ≡ slice_get (outside O.same inner groups.now.members (I.ids ids.now)) at }
{
    let place = last_place(ids, groups, inner, at);
    let id = ids.at(place)?;
    if rank_at(groups, inner, id, place) != at || groups.has(inner, id) {
        return None;
    }
    Some(id)
}

/// The id at this place, counted from 0, among the ids of the group that are not in the inner one,
/// or none past their end. Every id of the inner group has to be in the group as well. It takes no
/// memory. The time is logarithmic in the number of the group's ids times logarithmic in the number
/// of members.
pub fn outside_at<O: Order>(
    groups: &Groups<O>,
    group: Group,
    inner: Group,
    at: usize,
) -> Option<O::Key>
    ensures { Rises (is_member_before O.before) groups.now.members
        → ((i : O.Key) → has_member O.same inner i groups.now.members ≡ true
        → has_member O.same group i groups.now.members ≡ true)
        → result ≡ slice_get
        (outside O.same inner groups.now.members (ids_in group groups.now.members)) at }
{
    id_outside(&InGroup { groups, group }, groups, inner, at)
}

/// The id at this place, counted from 0, among the ids of the list that are not in the group, or
/// none past their end. The list has to be in order, and every id of the group has to be in it. It
/// takes no memory. The time is logarithmic in the length of the list times logarithmic in the
/// number of members.
pub fn outside_list_at<O: Order>(
    groups: &Groups<O>,
    ids: &[O::Key],
    inner: Group,
    at: usize,
) -> Option<O::Key>
    ensures { Rises (is_member_before O.before) groups.now.members
        → Rises O.before ids.now
        → ((i : O.Key) → has_member O.same inner i groups.now.members ≡ true
        → list_any (λ x. O.same x i) ids.now ≡ true)
        → result ≡ slice_get (outside O.same inner groups.now.members ids.now) at }
{
    id_outside(&InSlice { ids }, groups, inner, at)
}
