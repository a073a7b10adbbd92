//! The rows of what is counted.

ghost use Rattle.std.specs.Prelude.{◌≡◌, ◌+◌, [], map, length, IfOk};
ghost use Rattle.std.specs.List.{range_with_len};
ghost use Rattle.np_listing.specs.Tally.{kind_count, pool_row, semaphore_row, tenant_row};

use np_amount::Amount;
use np_config::Config;
use np_text::{NoMemory, PoolId, SemId, TenantId};
use std::alloc::Global;

/// How many events of a kind were accepted.
#[derive(Clone, Copy)]
pub(crate) struct KindCount {
    pub(crate) kind: u8,
    pub(crate) count: u32,
}

/// What a pool used at most.
#[derive(Clone, Copy)]
pub(crate) struct PoolPeak {
    pub(crate) pool: PoolId,
    pub(crate) most: Amount,
}

/// What a tenant used at most.
#[derive(Clone, Copy)]
pub(crate) struct TenantPeak {
    pub(crate) tenant: TenantId,
    pub(crate) most: Amount,
}

/// Since which tick a semaphore has been full, and for how many ticks it was full at most.
#[derive(Clone, Copy)]
pub(crate) struct FullTime {
    pub(crate) semaphore: SemId,
    pub(crate) since: Option<u32>,
    pub(crate) longest: u32,
}

/// A row for each kind of events.
pub(crate) fn no_events(alloc: Global) -> Result<Vec<KindCount>, NoMemory>
    ensures { IfOk result (λ rows. rows.items ≡ map (kind_count []) (range_with_len 0 31)) }
{
    let mut rows = Vec::new(alloc);
    for kind in 0..31u8 {
        rows.push(KindCount { kind, count: 0 })?;
    }
    Ok(rows)
}

fn pools(config: &Config) -> u16
    ensures { result ≡ length config.now.pools }
{
    config.know_soundness();
    config.pools().len() as u16
}

/// A row for each pool.
pub(crate) fn no_pools(alloc: Global, config: &Config) -> Result<Vec<PoolPeak>, NoMemory>
    ensures { IfOk result (λ rows. rows.items
        ≡ map (pool_row config.now []) (range_with_len 0 (length config.now.pools))) }
{
    let mut rows = Vec::new(alloc);
    for at in 0..pools(config) {
        let (pool, most) = (PoolId(at), Amount::NOTHING);
        rows.push(PoolPeak { pool, most })?;
    }
    Ok(rows)
}

fn tenants(config: &Config) -> u16
    ensures { result ≡ length config.now.tenants + 1 }
{
    config.know_soundness();
    config.tenants().len() as u16 + 1
}

/// A row for each tenant, the tenant `default` first.
pub(crate) fn no_tenants(alloc: Global, config: &Config) -> Result<Vec<TenantPeak>, NoMemory>
    ensures { IfOk result (λ rows. rows.items
        ≡ map (tenant_row config.now []) (range_with_len 0 (length config.now.tenants + 1))) }
{
    let mut rows = Vec::new(alloc);
    for at in 0..tenants(config) {
        let (tenant, most) = (TenantId(at), Amount::NOTHING);
        rows.push(TenantPeak { tenant, most })?;
    }
    Ok(rows)
}

pub(crate) fn semaphores(config: &Config) -> u16
    ensures { result ≡ length config.now.semaphores }
{
    config.know_soundness();
    config.semaphores().len() as u16
}

/// A row for each semaphore.
pub(crate) fn no_times(alloc: Global, config: &Config) -> Result<Vec<FullTime>, NoMemory>
    ensures { IfOk result (λ rows. rows.items
        ≡ map (semaphore_row config.now []) (range_with_len 0 (length config.now.semaphores))) }
{
    let mut rows = Vec::new(alloc);
    for at in 0..semaphores(config) {
        rows.push(FullTime {
            semaphore: SemId(at),
            since: None,
            longest: 0,
        })?;
    }
    Ok(rows)
}
