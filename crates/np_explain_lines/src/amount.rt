//! What is used, and how much may be.

ghost use Rattle.std.specs.Prelude.{◌≡◌, ◌++◌, codes, OnOk};
ghost use Rattle.np_explain_lines.specs.Lower.{limit_of, limit_of_tenant};
ghost use Rattle.np_explain_lines.specs.Line.{amount_words, most_handles, of_limit, part_words, said};
ghost use Rattle.np_causes.specs.declared.fact.Fact.TheVariants as fact;

use crate::words::put;
use np_amount::{Amount, Limit};
use np_config::Config;
use np_text::{Ample, PoolId, SemId, TenantId, put_number};

/// Appends a number, and the most that it may be.
pub(crate) fn put_of_limit(out: &mut Vec<u8>, n: u64, limit: Option<u64>) -> Ample
    ensures { OnOk result (out.new.items ≡ out.old.items ++ of_limit n limit) }
{
    put_number(out, n)?;
    if let Some(most) = limit {
        put(out, b" of ")?;
        put_number(out, most)?;
    }
    Ok(())
}

/// Appends a number, the most that it may be, and what there are so many of.
fn put_part(out: &mut Vec<u8>, n: u64, limit: Option<u64>, word: &[u8]) -> Ample
    ensures { OnOk result (out.new.items ≡ out.old.items ++ part_words n limit word.now) }
{
    put_of_limit(out, n, limit)?;
    put(out, word)?;
    Ok(())
}

/// Appends what is used, each part beside its limit.
pub fn put_amount(out: &mut Vec<u8>, used: Amount, limit: Limit) -> Ample
    ensures { OnOk result (out.new.items ≡ out.old.items ++ amount_words used limit) }
{
    put_part(out, used.instances, limit.instances, b" servers, ")?;
    put_part(out, used.cores, limit.cores, b" cores, ")?;
    put_part(out, used.ram, limit.ram, b" MiB of ram")?;
    Ok(())
}

/// The pool's limit: none, if there is no such pool.
pub fn limit_of_pool(config: &Config, pool: PoolId) -> Limit
    ensures { result ≡ limit_of config.now pool }
{
    config.pool(pool).map_or(Limit::NO_LIMIT, |row| row.limit)
}

/// The tenant's limit: none, if there is no such tenant.
pub fn limit_of_tenant(config: &Config, tenant: TenantId) -> Limit
    ensures { result ≡ limit_of_tenant config.now tenant }
{
    config
        .tenant(tenant)
        .map_or(Limit::NO_LIMIT, |row| row.limit)
}

/// How many jobs may have a handle of the semaphore.
fn most_handles(config: &Config, semaphore: SemId) -> Option<u64>
    ensures { result ≡ most_handles config.now semaphore }
{
    config.semaphore(semaphore).map(|row| u64::from(row.max))
}

/// Appends how many handles of a semaphore are taken.
pub(crate) fn put_handles(out: &mut Vec<u8>, config: &Config, semaphore: SemId, count: u32) -> Ample
    ensures { OnOk result (out.new.items
        ≡ out.old.items ++ said config.now (fact.Handles semaphore count)) }
{
    let most = most_handles(config, semaphore);
    put_part(out, u64::from(count), most, b" handles are taken")
}
