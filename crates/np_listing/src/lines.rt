//! The lines of what was counted.

ghost use Rattle.std.specs.Prelude.{◌≡◌, ◌++◌, OnOk};
ghost use Rattle.np_listing.specs.Summary.{events_line, kind_text, launches_line, pool_line, semaphore_line, tenant_line, ticks_line};

use crate::fates::put_count;
use crate::kinds::kind_word;
use crate::row::{Told, put_each};
use crate::rows::{FullTime, KindCount, PoolPeak, TenantPeak};
use np_config::Config;
use np_explain_lines::{
    limit_of_pool, limit_of_tenant, put, put_amount, put_pool, put_semaphore, put_tenant,
};
use np_text::{Ample, put_number};

/// Appends how many ticks have passed.
pub(crate) fn put_ticks(out: &mut Vec<u8>, tick: u32) -> Ample
    ensures { OnOk result (out.new.items ≡ out.old.items ++ ticks_line tick) }
{
    put(out, b"ticks: ")?;
    put_number(out, u64::from(tick))?;
    put(out, b"\n")
}

impl Told for KindCount {
    ghost words = { λ _ row. kind_text row };

    fn tell(&self, out: &mut Vec<u8>, _config: &Config) -> Ample {
        if self.count == 0 {
            return Ok(());
        }
        put(out, kind_word(self.kind).as_bytes())?;
        put(out, b" ")?;
        put_number(out, u64::from(self.count))?;
        put(out, b", ")
    }
}

/// Appends how many events there were of each kind.
pub(crate) fn put_events(
    out: &mut Vec<u8>,
    config: &Config,
    kinds: &[KindCount],
    refused: u32,
) -> Ample
    ensures { OnOk result (out.new.items ≡ out.old.items ++ events_line kinds.now refused) }
{
    put(out, b"events: ")?;
    put_each(out, config, b"", kinds)?;
    put_count(out, refused, b"refused\n")
}

/// Appends how many launches were reported.
pub(crate) fn put_launches(out: &mut Vec<u8>, launched: u32, failed: u32) -> Ample
    ensures { OnOk result (out.new.items ≡ out.old.items ++ launches_line launched failed) }
{
    put(out, b"launches: ")?;
    put_count(out, launched, b"succeeded, ")?;
    put_count(out, failed, b"failed\n")
}

impl Told for PoolPeak {
    ghost words = { pool_line };

    fn tell(&self, out: &mut Vec<u8>, config: &Config) -> Ample {
        put(out, b"pool ")?;
        put_pool(out, config, self.pool)?;
        put(out, b": at most ")?;
        put_amount(out, self.most, limit_of_pool(config, self.pool))?;
        put(out, b"\n")
    }
}

impl Told for TenantPeak {
    ghost words = { tenant_line };

    fn tell(&self, out: &mut Vec<u8>, config: &Config) -> Ample {
        put(out, b"tenant ")?;
        put_tenant(out, config, self.tenant)?;
        put(out, b": at most ")?;
        put_amount(out, self.most, limit_of_tenant(config, self.tenant))?;
        put(out, b"\n")
    }
}

impl Told for FullTime {
    ghost words = { semaphore_line };

    fn tell(&self, out: &mut Vec<u8>, config: &Config) -> Ample {
        put(out, b"semaphore ")?;
        put_semaphore(out, config, self.semaphore)?;
        put(out, b": full for at most ")?;
        put_count(out, self.longest, b"ticks\n")
    }
}
