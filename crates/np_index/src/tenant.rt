//! What a tenant uses.

ghost use Rattle.std.specs.Prelude.{◌≡◌, ◌<◌, ◌^◌, filter, map};
ghost use Rattle.np_index.specs.Lower.{AreClasses, Fits, IsFew, amount_of_node, count_of_tenant, is_pending_of, is_tenant, rest_of_request, total};
ghost use Rattle.np_index.specs.Waiting.{AreAwaited, beside_if, is_in_tenant_group, tenant_class};

use crate::Awaited;
use crate::amounts::taken_by;
use np_amount::Amount;
use np_classes::{Classes, tenant_group};
use np_lists::Group;
use np_look::{NOTHING, Rows};
use np_text::{LabelId, PoolId, TenantId};

/// The group that was found, if its class and its first number are those of the other.
fn beside_if(other: Group, found: Option<Group>) -> Option<Group>
    ensures { result ≡ beside_if other found }
{
    let found = found?;
    if found.class != other.class || found.first != other.first {
        return None;
    }
    Some(found)
}

/// What the nodes in this group of a tenant's nodes take together. All of them are of one pool and
/// have one label, so one is looked up and they are counted: a few binary searches, however many
/// they are.
fn taken_in<R: Rows>(classes: &Classes, rows: &R, group: Group) -> Amount
    requires fits { Fits (R.site rows.now) (R.state rows.now) }
    requires classes { AreClasses (R.site rows.now) (R.state rows.now) classes.now }
    requires tenants { group.class ≡ tenant_class }
    ensures taken { result ≡ total (map (amount_of_node (R.site rows.now))
        (filter (is_in_tenant_group group) (R.state rows.now).nodes)) }
    ensures few { IsFew result 262144 }
{
    let Some(node) = classes.node_at(group, 0) else {
        return NOTHING;
    };
    let number = classes.nodes_in(group);
    taken_by(rows, node).times(number as u64)
}

/// What the tenant's nodes take. It walks the pools and the labels of which the tenant has nodes.
fn taken<R: Rows>(classes: &Classes, rows: &R, tenant: TenantId) -> Amount
    requires fits { Fits (R.site rows.now) (R.state rows.now) }
    requires classes { AreClasses (R.site rows.now) (R.state rows.now) classes.now }
    ensures taken { result ≡ total (map (amount_of_node (R.site rows.now))
        (filter (λ e. is_tenant tenant e.kept.tenant) (R.state rows.now).nodes)) }
    ensures few { IsFew result 262144 }
{
    let first = tenant_group(tenant, PoolId(0), LabelId(0));
    let mut sum = NOTHING;
    let mut next = beside_if(first, classes.node_group_from(first));
    while let Some(group) = next {
        sum = sum.plus(taken_in(classes, rows, group));
        next = beside_if(first, classes.node_group_after(group));
    }
    sum
}

/// What the tenant's pending requests still wait for. One lookup by the tenant's number. Nothing is
/// read of `rows`, which says what the amounts are of.
fn awaited_by<R: Rows>(awaited: &Awaited, rows: &R, tenant: TenantId) -> Amount
    requires fits { Fits (R.site rows.now) (R.state rows.now) }
    requires awaited { AreAwaited (R.site rows.now) (R.state rows.now) awaited.now }
    ensures awaited { result ≡ total (map (rest_of_request (R.site rows.now))
        (filter (is_pending_of (R.site rows.now) tenant) (R.state rows.now).requests)) }
    ensures few { IsFew result 8388608 }
{
    awaited.of(tenant)
}

/// What the tenant uses: its nodes, and what its pending requests still wait for. It costs a few
/// binary searches and one lookup of a node for each pool and label of which the tenant has nodes,
/// and one lookup for what its pending requests wait for, however many they are. What a node takes
/// is looked up among its pool's offers.
pub fn used_by<R: Rows>(classes: &Classes, awaited: &Awaited, rows: &R, tenant: TenantId) -> Amount
    requires fits { Fits (R.site rows.now) (R.state rows.now) }
    requires classes { AreClasses (R.site rows.now) (R.state rows.now) classes.now }
    requires awaited { AreAwaited (R.site rows.now) (R.state rows.now) awaited.now }
    ensures used { result ≡ count_of_tenant (R.site rows.now) (R.state rows.now) tenant }
    ensures instances { result.instances < 2 ^ 63 }
    ensures cores { result.cores < 2 ^ 63 }
    ensures ram { result.ram < 2 ^ 63 }
{
    taken(classes, rows, tenant).plus(awaited_by(awaited, rows, tenant))
}
