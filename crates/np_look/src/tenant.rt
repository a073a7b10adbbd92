//! What tenants may use, and what each node and request takes of it.

ghost use Rattle.std.specs.Prelude.{◌≡◌, ◌<◌, ◌≤◌, ◌^◌, length, drop, not, false};
ghost use Rattle.np_look.specs.Lower.{AmountFits, IsFew, LabelId, PoolId, amount_of, amount_of_all, fits, is_pending_of, is_tenant, limit_of_tenant, may_fit, new_record, option_map_or, passes_tenant, plus, tenant_never_fits};
ghost use Rattle.np_look.specs.Jobs.{request_seen, node_seen};
ghost use Rattle.np_look.specs.Readers.{tenant_of_job, has_limit, limited_tenant, amount_for, rest_of, rest_for};

use crate::asked::{NodeView, RequestView};
use crate::count::{NO_LIMIT, NOTHING, amount, amount_of_all, first_unoffered, is_too_much};
use np_amount::{Amount, Limit};
use np_changes::Asked;
use np_config::Config;
use np_record::RequestRecord;
use np_text::{JobId, LabelId, PoolId, RequestState, TenantId};

/// The tenant of the job, if there is one.
pub fn tenant_of_job(config: &Config, job: Option<JobId>) -> Option<TenantId>
    ensures { result ≡ tenant_of_job config.now job }
{
    let job = job?;
    match config.job(job) {
        None => None,
        Some(row) => Some(row.tenant),
    }
}

/// What the tenant may use at most.
fn limit_of_tenant(config: &Config, tenant: TenantId) -> Limit
    ensures { result ≡ limit_of_tenant config.now tenant }
{
    match config.tenant(tenant) {
        None => NO_LIMIT,
        Some(row) => row.limit,
    }
}

/// Whether at least one part of it is limited.
fn has_limit(limit: &Limit) -> bool
    ensures { result ≡ has_limit limit.now }
{
    limit.instances.is_some() || limit.cores.is_some() || limit.ram.is_some()
}

/// Whether the labels together exceed a limit of the tenant, however little it uses.
fn passes_tenant(config: &Config, pool: PoolId, asked: &Asked, tenant: TenantId) -> bool
    requires small { (l : LabelId) → AmountFits (amount_of config.now pool l) }
    ensures { result ≡ passes_tenant config.now pool (new_record asked.now) tenant }
{
    let _few = asked.labels.len();
    let all = amount_of_all(config, pool, asked.labels.items());
    !all.fits(&limit_of_tenant(config, tenant))
}

/// Whether the labels together exceed a limit of the job's tenant, if there is one.
fn passes_its_tenant(config: &Config, pool: PoolId, asked: &Asked) -> bool
    requires small { (l : LabelId) → AmountFits (amount_of config.now pool l) }
    ensures { result ≡
        option_map_or (passes_tenant config.now pool (new_record asked.now))
        (tenant_of_job config.now asked.now.job) false }
{
    matches!(tenant_of_job(config, asked.job), Some(tenant)
        if passes_tenant(config, pool, asked, tenant))
}

/// Whether a request that is not pinned exceeds a limit of its job's tenant, however little the
/// tenant uses.
pub fn tenant_never_fits(config: &Config, pool: PoolId, asked: &Asked) -> bool
    requires small { (l : LabelId) → AmountFits (amount_of config.now pool l) }
    ensures { result ≡ tenant_never_fits config.now pool (new_record asked.now) }
{
    asked.pinned.is_none() && passes_its_tenant(config, pool, asked)
}

/// Whether the pool may serve the request, as far as its offers and the limits go.
fn may_fit(config: &Config, pool: PoolId, asked: &Asked) -> bool
    requires small { (l : LabelId) → AmountFits (amount_of config.now pool l) }
    ensures { result ≡ may_fit config.now pool (new_record asked.now) }
{
    let _few = asked.labels.len();
    first_unoffered(config, pool, asked.labels.items()).is_none()
        && !is_too_much(config, pool, asked.labels.items())
        && !tenant_never_fits(config, pool, asked)
}

/// The tenant of a request that is not pinned, if it has a limit and the pool may serve the
/// request.
pub fn limited_tenant(config: &Config, pool: PoolId, asked: &Asked) -> Option<TenantId>
    requires small { (l : LabelId) → AmountFits (amount_of config.now pool l) }
    ensures { result ≡ limited_tenant config.now pool (new_record asked.now) }
{
    let tenant = tenant_of_job(config, asked.job)?;
    if asked.pinned.is_none()
        && has_limit(&limit_of_tenant(config, tenant))
        && may_fit(config, pool, asked)
    {
        Some(tenant)
    } else {
        None
    }
}

/// Whether what the tenant uses and the labels together exceed a limit of the tenant.
pub fn is_short_of(
    config: &Config,
    pool: PoolId,
    asked: &Asked,
    tenant: TenantId,
    used: Amount,
) -> bool
    requires instances { used.instances < 2 ^ 63 }
    requires cores { used.cores < 2 ^ 63 }
    requires ram { used.ram < 2 ^ 63 }
    requires small { (l : LabelId) → AmountFits (amount_of config.now pool l) }
    ensures { result ≡
        not (fits (plus used (amount_of_all config.now pool asked.now.labels))
        (limit_of_tenant config.now tenant)) }
{
    let _few = asked.labels.len();
    let all = amount_of_all(config, pool, asked.labels.items());
    !used.plus(all).fits(&limit_of_tenant(config, tenant))
}

/// Whether the option names this tenant.
fn is_tenant(tenant: TenantId, found: Option<TenantId>) -> bool
    ensures { result ≡ is_tenant tenant found }
{
    matches!(found, Some(other) if other.0 == tenant.0)
}

/// What the node takes of its pool, if it is the tenant's.
pub fn amount_for(config: &Config, tenant: TenantId, view: &NodeView) -> Amount
    requires small { (p : PoolId) (l : LabelId) → AmountFits (amount_of config.now p l) }
    ensures amount { result ≡ amount_for config.now tenant (node_seen view.now) }
    ensures few { IsFew result 1 }
{
    if is_tenant(tenant, view.kept.tenant) {
        amount(config, view.kept.pool, view.kept.label)
    } else {
        NOTHING
    }
}

/// The labels from a place on.
fn labels_from(labels: &[LabelId], from: usize) -> &[LabelId]
    ensures { result.now ≡ drop from labels.now }
{
    if from < labels.len() {
        labels.split_at(from).1
    } else {
        &[]
    }
}

/// What the labels after the last node of a request with this record take of the pool that serves
/// it.
pub fn rest_of(config: &Config, kept: &RequestRecord) -> Amount
    requires small { (p : PoolId) (l : LabelId) → AmountFits (amount_of config.now p l) }
    ensures rest { result ≡ rest_of config.now kept.now }
    ensures few { IsFew result 32 }
{
    let Some(pool) = kept.pool else {
        return NOTHING;
    };
    let _few = kept.labels.len();
    let labels = labels_from(kept.labels.items(), kept.nodes.len() as usize);
    amount_of_all(config, pool, labels)
}

/// Whether the request is pending, and its job is of the tenant.
fn is_pending_of(config: &Config, tenant: TenantId, view: &RequestView) -> bool
    ensures { result ≡ is_pending_of config.now tenant (request_seen view.now) }
{
    view.kept.state == RequestState::Pending
        && is_tenant(tenant, tenant_of_job(config, view.kept.job))
}

/// What the request still waits for, if it is pending and the tenant's.
pub fn rest_for(config: &Config, tenant: TenantId, view: &RequestView) -> Amount
    requires small { (p : PoolId) (l : LabelId) → AmountFits (amount_of config.now p l) }
    ensures rest { result ≡ rest_for config.now tenant (request_seen view.now) }
    ensures few { IsFew result 32 }
{
    if is_pending_of(config, tenant, view) {
        rest_of(config, &view.kept)
    } else {
        NOTHING
    }
}
