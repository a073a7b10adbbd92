//! Which groups nodes and requests are in, by their records.

ghost use Rattle.std.specs.Prelude.{◌≡◌, ◌≤◌, ◌&&◌, None, if◌then◌else◌};
ghost use Rattle.np_classes.specs.Lower.{is_declined_by, is_pending, option_map};
ghost use Rattle.np_classes.specs.Classes.{coming_group, coming_group_of, decline_set, declined_group, declined_group_of, free_group, group_if, kind_group, next_label_group, next_label_group_of, node_groups, pending_group, pending_group_of, pinned_label_group, pinned_label_group_of, request_groups, spare_group, spent_group, spent_group_of, tenant_group, unheld_class, unheld_group, unheld_group_of, unheld_pending_group};

use np_config::Config;
use np_lists::Group;
use np_look::{UnheldKind, due_of, is_declined_by, unheld_kind};
use np_record::{Declined, NodeRecord, RequestRecord};
use np_text::{LabelId, NodeState, POOLS, PoolId, RequestState, TenantId};

/// The group of this class with these numbers.
fn group_of(class: u8, first: u16, second: u16, third: u64) -> Group
    ensures { result ≡ record { class = class; first = first; second = second; third = third } }
{
    Group {
        class,
        first,
        second,
        third,
    }
}

/// All nodes of the pool with the label.
pub fn kind_group(pool: PoolId, label: LabelId) -> Group
    ensures { result ≡ kind_group pool label }
{
    group_of(0, pool.0, label.0, 0)
}

/// Those of them that are ready, allocated to no request and unlocked.
pub fn spare_group(pool: PoolId, label: LabelId) -> Group
    ensures { result ≡ spare_group pool label }
{
    group_of(1, pool.0, label.0, 0)
}

/// The ready nodes of the label in all pools that are allocated to no request.
pub fn free_group(label: LabelId) -> Group
    ensures { result ≡ free_group label }
{
    group_of(2, 0, label.0, 0)
}

/// The tenant's nodes of the pool with the label.
pub fn tenant_group(tenant: TenantId, pool: PoolId, label: LabelId) -> Group
    ensures { result ≡ tenant_group tenant pool label }
{
    group_of(3, tenant.0, pool.0, label.0 as u64)
}

fn unheld_class(kind: UnheldKind) -> u8
    ensures { result ≡ unheld_class kind }
{
    match kind {
        UnheldKind::Free => 4,
        UnheldKind::LeftOver => 5,
        UnheldKind::Hold => 6,
        UnheldKind::Abandoned => 7,
    }
}

/// The nodes of the pool that nobody holds, of this kind, that are due at this tick.
pub fn unheld_group(pool: PoolId, kind: UnheldKind, due: u64) -> Group
    ensures { result ≡ unheld_group pool kind due }
{
    group_of(unheld_class(kind), pool.0, 0, due)
}

/// The requests that are pending by the pool.
pub fn pending_group(pool: PoolId) -> Group
    ensures { result ≡ pending_group pool }
{
    group_of(0, pool.0, 0, 0)
}

/// Those of them that nobody holds.
pub fn unheld_pending_group(pool: PoolId) -> Group
    ensures { result ≡ unheld_pending_group pool }
{
    group_of(1, pool.0, 0, 0)
}

/// The min-ready requests for the label that are requested or pending.
pub fn coming_group(label: LabelId) -> Group
    ensures { result ≡ coming_group label }
{
    group_of(2, 0, label.0, 0)
}

/// The failed min-ready requests of the pool for the label.
pub fn spent_group(pool: PoolId, label: LabelId) -> Group
    ensures { result ≡ spent_group pool label }
{
    group_of(3, pool.0, label.0, 0)
}

/// The requests that are requested, and that the pools of this set declined and no others. The set
/// is a number with a binary digit for each pool, the first pool's the last digit.
pub fn declined_group(set: u64) -> Group
    ensures { result ≡ declined_group set }
{
    group_of(4, 0, 0, set)
}

/// The requests that are pending by the pool and not pinned, and whose next label is this one.
pub fn next_label_group(pool: PoolId, label: LabelId) -> Group
    ensures { result ≡ next_label_group pool label }
{
    group_of(5, pool.0, label.0, 0)
}

/// The same of those that are pinned.
pub fn pinned_label_group(pool: PoolId, label: LabelId) -> Group
    ensures { result ≡ pinned_label_group pool label }
{
    group_of(6, pool.0, label.0, 0)
}

/// The group, if the test is passed.
fn group_if(is_in: bool, group: Group) -> Option<Group>
    ensures { result ≡ group_if is_in group }
{
    if is_in { Some(group) } else { None }
}

/// The group of the node among those of its tenant, if it has one.
fn group_of_tenant(kept: &NodeRecord) -> Option<Group>
    ensures { result ≡ option_map (λ t. tenant_group t kept.now.pool kept.now.label) kept.now.tenant }
{
    Some(tenant_group(kept.tenant?, kept.pool, kept.label))
}

/// Its group among the nodes that nobody holds, if it is unlocked and of a kind.
fn unheld_group_of(
    config: &Config,
    kept: &NodeRecord,
    is_unlocked: bool,
    is_unclaimed: bool,
) -> Option<Group>
    ensures { result ≡ unheld_group_of config.now kept.now is_unlocked is_unclaimed }
{
    if !is_unlocked {
        return None;
    }
    let kind = unheld_kind(is_unclaimed, kept)?;
    Some(unheld_group(kept.pool, kind, due_of(config, kind, kept)))
}

/// The groups of a node with this record, by whether it is unlocked and whether it is unclaimed:
/// allocated to no request, or to one that is gone.
pub(crate) fn node_groups(
    config: &Config,
    kept: &NodeRecord,
    is_unlocked: bool,
    is_unclaimed: bool,
) -> [Option<Group>; 5]
    ensures { result ≡ node_groups config.now kept.now is_unlocked is_unclaimed }
{
    let is_free = kept.state == NodeState::Ready && kept.allocated_to.is_none();
    [
        Some(kind_group(kept.pool, kept.label)),
        group_if(is_free, free_group(kept.label)),
        group_if(is_free && is_unlocked, spare_group(kept.pool, kept.label)),
        group_of_tenant(kept),
        unheld_group_of(config, kept, is_unlocked, is_unclaimed),
    ]
}

fn pending_group_of(kept: &RequestRecord) -> Option<Group>
    ensures { result ≡ pending_group_of kept.now }
{
    if kept.state != RequestState::Pending {
        return None;
    }
    Some(pending_group(kept.pool?))
}

/// The group of a request in this state among those that nobody holds, if it is pending and
/// unlocked.
pub(crate) fn unheld_pending_group_of(
    state: RequestState,
    pool: Option<PoolId>,
    is_unlocked: bool,
) -> Option<Group>
    ensures { result ≡ (if is_pending state && is_unlocked
        then option_map unheld_pending_group pool else None) }
{
    if state != RequestState::Pending || !is_unlocked {
        return None;
    }
    Some(unheld_pending_group(pool?))
}

fn coming_group_of(kept: &RequestRecord) -> Option<Group>
    ensures { result ≡ coming_group_of kept.now }
{
    let is_coming = kept.state == RequestState::Requested || kept.state == RequestState::Pending;
    if !is_coming || kept.pinned.is_none() {
        return None;
    }
    Some(coming_group(kept.labels.at(0)?))
}

fn spent_group_of(kept: &RequestRecord) -> Option<Group>
    ensures { result ≡ spent_group_of kept.now }
{
    if kept.state != RequestState::Failed {
        return None;
    }
    let pool = kept.pinned?;
    Some(spent_group(pool, kept.labels.at(0)?))
}

/// 1 if the pool is among the declines.
fn decline_digit(pool: PoolId, declined: &[Declined]) -> u64
    ensures digit { result ≡ (if is_declined_by pool declined.now then 1 else 0) }
    ensures few { result ≤ 1 }
{
    if is_declined_by(pool, declined) { 1 } else { 0 }
}

/// The pools among the declines as a number: a binary digit for each pool, the first pool's the
/// last digit. It scans the declines once for each of the 64 pools that there can be.
fn decline_set(declined: &[Declined]) -> u64
    ensures { result ≡ decline_set declined.now }
{
    let mut set = 0;
    let mut left = POOLS as u16;
    while left > 0 {
        left -= 1;
        set = set * 2 + decline_digit(PoolId(left), declined);
    }
    set
}

fn declined_group_of(kept: &RequestRecord) -> Option<Group>
    ensures { result ≡ declined_group_of kept.now }
{
    if kept.state != RequestState::Requested || kept.declined.len() == 0 {
        return None;
    }
    Some(declined_group(decline_set(kept.declined.items())))
}

fn next_label_group_of(kept: &RequestRecord) -> Option<Group>
    ensures { result ≡ next_label_group_of kept.now }
{
    if kept.state != RequestState::Pending || kept.pinned.is_some() {
        return None;
    }
    let pool = kept.pool?;
    Some(next_label_group(pool, kept.labels.at(kept.nodes.len())?))
}

fn pinned_label_group_of(kept: &RequestRecord) -> Option<Group>
    ensures { result ≡ pinned_label_group_of kept.now }
{
    if kept.state != RequestState::Pending || kept.pinned.is_none() {
        return None;
    }
    let pool = kept.pool?;
    Some(pinned_label_group(pool, kept.labels.at(kept.nodes.len())?))
}

/// The groups of a request with this record, by whether it is unlocked.
pub(crate) fn request_groups(kept: &RequestRecord, is_unlocked: bool) -> [Option<Group>; 7]
    ensures { result ≡ request_groups kept.now is_unlocked }
{
    [
        pending_group_of(kept),
        unheld_pending_group_of(kept.state, kept.pool, is_unlocked),
        coming_group_of(kept),
        spent_group_of(kept),
        declined_group_of(kept),
        next_label_group_of(kept),
        pinned_label_group_of(kept),
    ]
}
