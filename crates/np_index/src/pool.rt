//! What a pool uses, its spare nodes, whether a request is under way by it, and whether it waits
//! for room.

ghost use Rattle.std.specs.Prelude.{◌≡◌, ◌<◌, ◌^◌};
ghost use Rattle.np_index.specs.Lower.{AreClasses, Configuration, Fits, State, count_of, free_ready_of, has_request_under_way, is_paused, is_spare, list_any};
ghost use Rattle.np_index.specs.Waiting.{is_stuck_as, is_stuck_label, is_under_way_as, label_group, label_if};

use np_amount::Amount;
use np_classes::{Classes, kind_group, next_label_group, pinned_label_group, spare_group};
use np_lists::Group;
use np_look::{NOTHING, Rows, lacks_room, offers};
use np_text::{LabelId, NodeId, PoolId};

/// What the pool uses: for each of its offers, the number of its nodes of that label times the
/// amount. One binary search for each offer.
pub fn used<R: Rows>(classes: &Classes, rows: &R, pool: PoolId) -> Amount
    requires fits { Fits (R.site rows.now) (R.state rows.now) }
    requires classes { AreClasses (R.site rows.now) (R.state rows.now) classes.now }
    ensures used { result ≡ count_of (R.site rows.now) (R.state rows.now) pool }
    ensures instances { result.instances < 2 ^ 63 }
    ensures cores { result.cores < 2 ^ 63 }
    ensures ram { result.ram < 2 ^ 63 }
{
    let mut sum = NOTHING;
    for offer in offers(rows.config(), pool) {
        let number = classes.nodes_in(kind_group(pool, offer.label));
        sum = sum.plus(offer.amount.times(number as u64));
    }
    sum
}

/// Whether a ready, free and unlocked node of the pool has the label. One group is counted, by
/// binary search.
pub fn has_spare(classes: &Classes, pool: PoolId, label: LabelId) -> bool
    ensures { (c : Configuration) (s : State) → AreClasses c s classes.now →
        result ≡ list_any (is_spare pool label) s.nodes }
{
    classes.nodes_in(spare_group(pool, label)) > 0
}

/// The node at a place among the ready, free and unlocked nodes of the pool with the label, in
/// order of their numbers, counted from 0; `None` if there are no more. One binary search.
pub fn free_ready(classes: &Classes, pool: PoolId, label: LabelId, at: u32) -> Option<NodeId>
    ensures { (c : Configuration) (s : State) → AreClasses c s classes.now →
        result ≡ free_ready_of pool label at s }
{
    classes.node_at(spare_group(pool, label), at as usize)
}

/// The requests that are pending by the pool and whose next label is this one: those that are
/// pinned, or the others.
fn label_group(is_pinned: bool, pool: PoolId, label: LabelId) -> Group
    ensures { result ≡ label_group is_pinned pool label }
{
    if is_pinned {
        pinned_label_group(pool, label)
    } else {
        next_label_group(pool, label)
    }
}

/// The label of a group that was found, if its class and its pool are those of the other.
fn label_if(other: Group, found: Option<Group>) -> Option<LabelId>
    ensures { result ≡ label_if other found }
{
    let found = found?;
    if found.class != other.class || found.first != other.first {
        return None;
    }
    Some(LabelId(found.second))
}

/// Whether a request that is pinned is under way by the pool, or one that is not. One binary
/// search.
fn has_under_way(classes: &Classes, pool: PoolId, is_pinned: bool) -> bool
    ensures { (c : Configuration) (s : State) → AreClasses c s classes.now →
        result ≡ list_any (is_under_way_as pool is_pinned) s.requests }
{
    let first = label_group(is_pinned, pool, LabelId(0));
    label_if(first, classes.request_group_from(first)).is_some()
}

/// Whether a request is pending by the pool that lacks a node for one of its labels. Two binary
/// searches, however many requests there are.
pub fn has_request_under_way(classes: &Classes, pool: PoolId) -> bool
    ensures { (c : Configuration) (s : State) → AreClasses c s classes.now →
        result ≡ has_request_under_way pool s }
{
    has_under_way(classes, pool, false) || has_under_way(classes, pool, true)
}

/// Whether a request that waits for the label is stuck, where the pool uses `used`: the pool has no
/// room for a node of it, and one that is not pinned finds no spare node. At most one group is
/// counted, by binary search.
fn is_stuck_label<R: Rows>(
    classes: &Classes,
    rows: &R,
    pool: PoolId,
    used: Amount,
    is_pinned: bool,
    label: LabelId,
) -> bool
    requires fits { Fits (R.site rows.now) (R.state rows.now) }
    requires classes { AreClasses (R.site rows.now) (R.state rows.now) classes.now }
    requires used { used ≡ count_of (R.site rows.now) (R.state rows.now) pool }
    requires instances { used.instances < 2 ^ 63 }
    requires cores { used.cores < 2 ^ 63 }
    requires ram { used.ram < 2 ^ 63 }
    ensures { result ≡ is_stuck_label (R.site rows.now) (R.state rows.now) pool is_pinned label }
{
    if !lacks_room(rows.config(), pool, label, used) {
        return false;
    }
    is_pinned || !has_spare(classes, pool, label)
}

/// Whether a request that is pinned is stuck, or one that is not, where the pool uses `used`. Each
/// label that such requests of the pool wait for is found by one binary search, and looked up once
/// among the pool's offers.
fn has_stuck_request<R: Rows>(
    classes: &Classes,
    rows: &R,
    pool: PoolId,
    used: Amount,
    is_pinned: bool,
) -> bool
    requires fits { Fits (R.site rows.now) (R.state rows.now) }
    requires classes { AreClasses (R.site rows.now) (R.state rows.now) classes.now }
    requires used { used ≡ count_of (R.site rows.now) (R.state rows.now) pool }
    requires instances { used.instances < 2 ^ 63 }
    requires cores { used.cores < 2 ^ 63 }
    requires ram { used.ram < 2 ^ 63 }
    ensures { result ≡ list_any (is_stuck_as (R.site rows.now) (R.state rows.now) pool is_pinned)
        (R.state rows.now).requests }
{
    let first = label_group(is_pinned, pool, LabelId(0));
    let mut next = label_if(first, classes.request_group_from(first));
    while let Some(label) = next {
        if is_stuck_label(classes, rows, pool, used, is_pinned, label) {
            return true;
        }
        let group = label_group(is_pinned, pool, label);
        next = label_if(first, classes.request_group_after(group));
    }
    false
}

/// Whether a request that is pending by the pool waits for room. What the pool uses is counted
/// once. For each label that such requests wait for, however many they are, it costs a few binary
/// searches and a lookup among the pool's offers.
pub fn is_paused<R: Rows>(classes: &Classes, rows: &R, pool: PoolId) -> bool
    requires fits { Fits (R.site rows.now) (R.state rows.now) }
    requires classes { AreClasses (R.site rows.now) (R.state rows.now) classes.now }
    ensures { result ≡ is_paused (R.site rows.now) (R.state rows.now) pool }
{
    let used = used(classes, rows, pool);
    has_stuck_request(classes, rows, pool, used, false)
        || has_stuck_request(classes, rows, pool, used, true)
}
