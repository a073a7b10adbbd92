//! One entry more.

ghost use Rattle.std.specs.Prelude.{◌≡◌, ◌-◌, map, max};
ghost use Rattle.np_listing.specs.Lower.{Configuration, Entry, Fits, State, option_map_or};
ghost use Rattle.np_listing.specs.Summary.{more_of_kind, one_more, raised_pool, raised_tenant, since_now, watched};
ghost use Rattle.np_listing.specs.Tally.{larger};

use crate::kinds::is_of_kind;
use crate::rows::{FullTime, KindCount, PoolPeak, TenantPeak};
use np_amount::Amount;
use np_event::Entry;
use np_look::{Look, Rows, is_full};

/// One more, if it is counted and there is room for one more.
pub(crate) fn one_more(count: u32, is_counted: bool) -> u32
    ensures { result ≡ one_more count is_counted }
{
    if is_counted {
        count.saturating_add(1)
    } else {
        count
    }
}

/// A row of what is counted.
pub(crate) trait Noted: Copy {
    /// The row after one entry more, in the state after it.
    ghost noted: { Configuration → State → Entry → Self → Self };

    fn noted<L: Look>(self, look: &L, entry: &Entry) -> Self
        requires { Fits (L.site look.now) (L.state look.now) }
        ensures { result ≡ noted (L.site look.now) (L.state look.now) entry.now self };
}

/// Takes an entry into each row.
pub(crate) fn note_all<T: Noted, L: Look>(rows: &mut Vec<T>, look: &L, entry: &Entry)
    requires { Fits (L.site look.now) (L.state look.now) }
    ensures { rows.new.items
        ≡ map (T.noted (L.site look.now) (L.state look.now) entry.now) rows.old.items }
{
    for row in rows.iter_mut() {
        *row = row.noted(look, entry);
    }
}

impl Noted for KindCount {
    ghost noted = { λ _ _ entry row. more_of_kind entry row };

    fn noted<L: Look>(self, _look: &L, entry: &Entry) -> KindCount {
        let count = one_more(self.count, is_of_kind(self.kind, entry));
        KindCount { count, ..self }
    }
}

/// Of each part the larger.
fn larger(one: Amount, other: Amount) -> Amount
    ensures { result ≡ larger one other }
{
    Amount {
        instances: one.instances.max(other.instances),
        cores: one.cores.max(other.cores),
        ram: one.ram.max(other.ram),
    }
}

impl Noted for PoolPeak {
    ghost noted = { λ c s _ row. raised_pool c s row };

    fn noted<L: Look>(self, look: &L, _entry: &Entry) -> PoolPeak {
        let most = larger(self.most, look.used(self.pool));
        PoolPeak { most, ..self }
    }
}

impl Noted for TenantPeak {
    ghost noted = { λ c s _ row. raised_tenant c s row };

    fn noted<L: Look>(self, look: &L, _entry: &Entry) -> TenantPeak {
        let most = larger(self.most, look.used_by(self.tenant));
        TenantPeak { most, ..self }
    }
}

/// Since which tick it has been full, if it is full now.
fn since_now(full: bool, tick: u32, before: Option<u32>) -> Option<u32>
    ensures { result ≡ since_now full tick before }
{
    match before {
        None => { if full { Some(tick) } else { None } }
        Some(before) => { if full { Some(before) } else { None } }
    }
}

/// How many ticks have passed since then.
fn ticks_since(tick: u32, since: Option<u32>) -> u32
    ensures { result ≡ option_map_or (λ before. tick - before) since 0 }
{
    since.map_or(0, |before| tick.saturating_sub(before))
}

fn watched<R: Rows>(rows: &R, row: FullTime) -> FullTime
    ensures { result ≡ watched (R.site rows.now) (R.state rows.now) row }
{
    let since = since_now(is_full(rows, row.semaphore), rows.tick(), row.since);
    FullTime {
        semaphore: row.semaphore,
        since,
        longest: row.longest.max(ticks_since(rows.tick(), since)),
    }
}

impl Noted for FullTime {
    ghost noted = { λ c s _ row. watched c s row };

    fn noted<L: Look>(self, look: &L, _entry: &Entry) -> FullTime {
        watched(look.rows(), self)
    }
}
