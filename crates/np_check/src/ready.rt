//! Which labels pools offer and keep ready.

ghost use Rattle.std.specs.Prelude.{◌≡◌, ◌≤◌, length};
ghost use Rattle.np_check.specs.Lower.{AmountFits, is_offered, offers_of, times};
ghost use Rattle.std.specs.List.{list_any};
ghost use Rattle.np_check.specs.Demand.{is_another_kept, is_restless, keeps_ready, min_ready_of, pools_with, some_pool};

use crate::demand::{count_pools, limit};
use np_amount::Amount;
use np_config::{Config, Offer};
use np_look::{amount, is_offered, offers, ready_age};
use np_text::{LabelId, PoolId};

/// Whether a pool offers the label.
pub(crate) fn some_offers(config: &Config, label: LabelId) -> bool
    ensures { result ≡ some_pool config.now (λ p. is_offered config.now p label) }
{
    let mut found = false;
    for at in 0..count_pools(config) {
        found = found || is_offered(config, PoolId(at), label);
    }
    found
}

/// How many pools offer the label.
fn pools_with(config: &Config, label: LabelId) -> u64
    ensures count { result ≡ pools_with config.now label }
    ensures few { result ≤ 64 }
{
    let mut count = 0;
    for at in 0..count_pools(config) {
        if is_offered(config, PoolId(at), label) {
            count += 1;
        }
    }
    count
}

/// How many free ready nodes of the label are kept.
fn min_ready(config: &Config, label: LabelId) -> u32
    ensures { result ≡ min_ready_of config.now label }
{
    match config.label(label) {
        None => 0,
        Some(row) => row.min_ready,
    }
}

/// What this many nodes take.
fn many(amount: Amount, n: u32) -> Amount
    requires { AmountFits amount }
    ensures { result ≡ times n amount }
{
    amount.times(u64::from(n))
}

/// Whether the offer is of another label, which is kept ready too.
fn is_another_kept(config: &Config, label: LabelId, offer: &Offer) -> bool
    ensures { result ≡ is_another_kept config.now label offer.now }
{
    offer.label.0 != label.0 && min_ready(config, offer.label) > 0
}

/// Whether the pool offers another label that is kept ready.
fn keeps_another(config: &Config, label: LabelId, pool: PoolId) -> bool
    ensures { result ≡
        list_any (is_another_kept config.now label) (offers_of config.now pool) }
{
    offers(config, pool)
        .iter()
        .any(|o| is_another_kept(config, label, o))
}

/// Whether the pool offers the label, keeps no other ready, and its limits allow as many nodes of
/// it as are kept ready.
fn keeps_ready(config: &Config, label: LabelId, pool: PoolId) -> bool
    ensures { result ≡ keeps_ready config.now label pool }
{
    config.know_soundness();
    let all = many(amount(config, pool, label), min_ready(config, label));
    is_offered(config, pool, label)
        && !keeps_another(config, label, pool)
        && all.fits(&limit(config, pool))
}

/// Whether a pool keeps this label alone ready, and allows as many nodes of it as that takes.
fn some_keeps_ready(config: &Config, label: LabelId) -> bool
    ensures { result ≡ some_pool config.now (keeps_ready config.now label) }
{
    let mut found = false;
    for at in 0..count_pools(config) {
        found = found || keeps_ready(config, label, PoolId(at));
    }
    found
}

/// Whether the first node that is kept ready is past `max-ready-age` long before the last is made.
pub(crate) fn is_restless(config: &Config, label: LabelId) -> bool
    ensures { result ≡ is_restless config.now label }
{
    let age = u64::from(ready_age(config, label));
    let pools = pools_with(config, label);
    age > 0
        && 4 * pools * age < u64::from(min_ready(config, label))
        && some_keeps_ready(config, label)
}
