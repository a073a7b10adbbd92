//! When a finding is true.

ghost use Rattle.std.specs.Prelude.{◌≡◌, ◌==◌, not};
ghost use Rattle.std.specs.List.{list_any};
ghost use Rattle.np_check.specs.Demand.{asks, is_above_tenant, is_too_large, is_unoffered};
ghost use Rattle.np_check.specs.Report.{allows, is_true, is_usable, takes};

use crate::demand::{is_above_tenant, is_too_large, is_unoffered, limit};
use crate::finding::Finding;
use crate::ready::{is_restless, some_offers};
use np_config::{Config, Job};
use np_look::{amount, offers};
use np_text::{JobId, LabelId, PoolId, SemId, TenantId};

/// Whether a node of the label is within the limits of the pool.
fn allows(config: &Config, pool: PoolId, label: LabelId) -> bool
    ensures { result ≡ allows config.now pool label }
{
    amount(config, pool, label).fits(&limit(config, pool))
}

/// Whether the pool can have a node of some label that it offers.
fn is_usable(config: &Config, pool: PoolId) -> bool
    ensures { result ≡ is_usable config.now pool }
{
    offers(config, pool)
        .iter()
        .any(|o| allows(config, pool, o.label))
}

/// Whether the job takes the semaphore.
fn takes(semaphore: SemId, job: &Job) -> bool
    ensures { result ≡ takes semaphore job.now }
{
    job.semaphores.items().iter().any(|x| x.0 == semaphore.0)
}

/// Whether a job takes the semaphore.
fn some_takes(config: &Config, semaphore: SemId) -> bool
    ensures { result ≡ list_any (takes semaphore) config.now.jobs }
{
    config.jobs().iter().any(|job| takes(semaphore, job))
}

/// Whether a job is of the tenant.
fn some_is_of(config: &Config, tenant: TenantId) -> bool
    ensures { result ≡ list_any (λ job. job.tenant.0 == tenant.0) config.now.jobs }
{
    config.jobs().iter().any(|job| job.tenant.0 == tenant.0)
}

fn asks_unoffered(config: &Config, job: JobId) -> bool
    ensures { result ≡ asks config.now job (is_unoffered config.now) }
{
    matches!(config.job(job), Some(row) if is_unoffered(config, job, row))
}

fn asks_too_much(config: &Config, job: JobId) -> bool
    ensures { result ≡ asks config.now job (is_too_large config.now) }
{
    matches!(config.job(job), Some(row) if is_too_large(config, job, row))
}

fn asks_above_tenant(config: &Config, job: JobId) -> bool
    ensures { result ≡ asks config.now job (is_above_tenant config.now) }
{
    matches!(config.job(job), Some(row) if is_above_tenant(config, job, row))
}

/// Whether the finding is true of the configuration. It asks each pool about a label or a job, and
/// each job about a semaphore or a tenant.
pub fn is_true(config: &Config, finding: Finding) -> bool
    ensures { result ≡ is_true config.now finding }
{
    match finding {
        Finding::LabelUnoffered(label) => !some_offers(config, label),
        Finding::ReadyNodesAge(label) => is_restless(config, label),
        Finding::PoolUnusable(pool) => !is_usable(config, pool),
        Finding::OfferTooLarge(pool, label) => {
            is_usable(config, pool) && !allows(config, pool, label)
        }
        Finding::SemaphoreUnnamed(semaphore) => !some_takes(config, semaphore),
        Finding::TenantUnnamed(tenant) => !some_is_of(config, tenant),
        Finding::JobUnoffered(job) => asks_unoffered(config, job),
        Finding::JobTooLarge(job) => asks_too_much(config, job),
        Finding::JobAboveTenant(job) => asks_above_tenant(config, job),
    }
}
