//! Which pools could serve a job, as the configuration alone says.

ghost use Rattle.std.specs.Prelude.{◌≡◌, ◌≤◌, Some, length, slice_get};
ghost use Rattle.np_check.specs.Lower.{limit_of, limit_of_tenant, may_fit, never_fits, tenant_never_fits};
ghost use Rattle.np_check.specs.Demand.{request_of, offers_all, has_room, is_unoffered, is_too_large, is_above_tenant, some_pool};

use np_amount::Limit;
use np_config::{Config, Job};
use np_look::{amount_of_all, first_unoffered, is_too_much, tenant_of_job};
use np_text::{JobId, PoolId, TenantId};

/// How many pools there are.
pub(crate) fn count_pools(config: &Config) -> u16
    ensures count { result ≡ length config.now.pools }
    ensures few { result ≤ 64 }
{
    config.know_soundness();
    config.pools().len() as u16
}

/// What the pool may use at most.
pub(crate) fn limit(config: &Config, pool: PoolId) -> Limit
    ensures { result ≡ limit_of config.now pool }
{
    match config.pool(pool) {
        None => Limit::NO_LIMIT,
        Some(row) => row.limit,
    }
}

/// What the tenant may use at most.
fn limit_of_tenant(config: &Config, tenant: TenantId) -> Limit
    ensures { result ≡ limit_of_tenant config.now tenant }
{
    match config.tenant(tenant) {
        None => Limit::NO_LIMIT,
        Some(row) => row.limit,
    }
}

/// Whether the pool offers each label of the job.
fn offers_all(config: &Config, job: JobId, row: &Job, pool: PoolId) -> bool
    ensures { result ≡ offers_all config.now (request_of job row.now) pool }
{
    first_unoffered(config, pool, row.labels.items()).is_none()
}

/// Whether the labels of the job together exceed a limit of the pool.
fn never_fits(config: &Config, job: JobId, row: &Job, pool: PoolId) -> bool
    requires { slice_get config.now.jobs job.0 ≡ Some row.now }
    ensures { result ≡ never_fits config.now pool (request_of job row.now) }
{
    config.know_soundness();
    is_too_much(config, pool, row.labels.items())
}

/// Whether the labels of the job together exceed a limit of its tenant in the pool.
fn tenant_never_fits(config: &Config, job: JobId, row: &Job, pool: PoolId) -> bool
    requires { slice_get config.now.jobs job.0 ≡ Some row.now }
    ensures { result ≡ tenant_never_fits config.now pool (request_of job row.now) }
{
    config.know_soundness();
    match tenant_of_job(config, Some(job)) {
        None => false,
        Some(tenant) => {
            let all = amount_of_all(config, pool, row.labels.items());
            !all.fits(&limit_of_tenant(config, tenant))
        }
    }
}

/// Whether the pool offers each label of the job, and its limits allow all of them at once.
fn has_room(config: &Config, job: JobId, row: &Job, pool: PoolId) -> bool
    requires { slice_get config.now.jobs job.0 ≡ Some row.now }
    ensures { result ≡ has_room config.now (request_of job row.now) pool }
{
    offers_all(config, job, row, pool) && !never_fits(config, job, row, pool)
}

/// Whether the pool may serve the job, as far as its offers and the limits go.
fn may_fit(config: &Config, job: JobId, row: &Job, pool: PoolId) -> bool
    requires { slice_get config.now.jobs job.0 ≡ Some row.now }
    ensures { result ≡ may_fit config.now pool (request_of job row.now) }
{
    has_room(config, job, row, pool) && !tenant_never_fits(config, job, row, pool)
}

/// Whether a pool offers each label of the job.
fn some_offers_all(config: &Config, job: JobId, row: &Job) -> bool
    ensures { result ≡ some_pool config.now (offers_all config.now (request_of job row.now)) }
{
    let mut found = false;
    for at in 0..count_pools(config) {
        found = found || offers_all(config, job, row, PoolId(at));
    }
    found
}

/// Whether a pool offers each label of the job, and its limits allow all of them at once.
fn some_has_room(config: &Config, job: JobId, row: &Job) -> bool
    requires { slice_get config.now.jobs job.0 ≡ Some row.now }
    ensures { result ≡ some_pool config.now (has_room config.now (request_of job row.now)) }
{
    let mut found = false;
    for at in 0..count_pools(config) {
        found = found || has_room(config, job, row, PoolId(at));
    }
    found
}

/// Whether a pool may serve the job, as far as its offers and the limits go.
fn some_may_fit(config: &Config, job: JobId, row: &Job) -> bool
    requires { slice_get config.now.jobs job.0 ≡ Some row.now }
    ensures { result ≡
        some_pool config.now (λ p. may_fit config.now p (request_of job row.now)) }
{
    let mut found = false;
    for at in 0..count_pools(config) {
        found = found || may_fit(config, job, row, PoolId(at));
    }
    found
}

/// Whether no pool offers each label of the job.
pub(crate) fn is_unoffered(config: &Config, job: JobId, row: &Job) -> bool
    ensures { result ≡ is_unoffered config.now (request_of job row.now) }
{
    !some_offers_all(config, job, row)
}

/// Whether some pool offers each label of the job, and none of these allows all of them at once.
pub(crate) fn is_too_large(config: &Config, job: JobId, row: &Job) -> bool
    requires { slice_get config.now.jobs job.0 ≡ Some row.now }
    ensures { result ≡ is_too_large config.now (request_of job row.now) }
{
    !some_has_room(config, job, row) && some_offers_all(config, job, row)
}

/// Whether some pool allows all labels of the job at once, and its tenant allows that at none of
/// these.
pub(crate) fn is_above_tenant(config: &Config, job: JobId, row: &Job) -> bool
    requires { slice_get config.now.jobs job.0 ≡ Some row.now }
    ensures { result ≡ is_above_tenant config.now (request_of job row.now) }
{
    !some_may_fit(config, job, row) && some_has_room(config, job, row)
}
