//! What pools offer, by the configuration alone.

ghost use Rattle.std.specs.Prelude.{◌≡◌, ◌<◌, ◌^◌, length, find, not, option_copied};
ghost use Rattle.np_look.specs.Lower.{AmountFits, IsFew, LabelId, amount_of, amount_of_all, fits, is_offered, limit_of, offer_of, offers_of, plus, ready_age, retries_of};
ghost use Rattle.np_look.specs.Jobs.{node_seen};
ghost use Rattle.np_look.specs.Readers.{amount_at};

use crate::asked::NodeView;
use np_amount::{Amount, Limit};
use np_config::{Config, Offer};
use np_text::{LabelId, PoolId};

pub const NOTHING: Amount = Amount {
    instances: 0,
    cores: 0,
    ram: 0,
};

pub const NO_LIMIT: Limit = Limit {
    instances: None,
    cores: None,
    ram: None,
};

/// What the pool offers.
pub fn offers(config: &Config, pool: PoolId) -> &[Offer]
    ensures { result.now ≡ offers_of config.now pool }
{
    match config.pool(pool) {
        None => &[],
        Some(row) => row.offers.items(),
    }
}

/// What the pool may use at most.
pub fn limit(config: &Config, pool: PoolId) -> Limit
    ensures { result ≡ limit_of config.now pool }
{
    match config.pool(pool) {
        None => NO_LIMIT,
        Some(row) => row.limit,
    }
}

/// How many times a node of the pool may be launched.
pub fn retries(config: &Config, pool: PoolId) -> u8
    ensures { result ≡ retries_of config.now pool }
{
    let Some(row) = config.pool(pool) else {
        return 0;
    };
    match config.provider(row.provider) {
        None => 0,
        Some(provider) => provider.retries,
    }
}

fn offer(config: &Config, pool: PoolId, label: LabelId) -> Option<&Offer>
    ensures { option_copied result ≡ offer_of config.now pool label }
{
    offers(config, pool).iter().find(|o| o.label.0 == label.0)
}

/// Whether the pool offers the label. Its cost grows with the number of the pool's offers.
pub fn is_offered(config: &Config, pool: PoolId, label: LabelId) -> bool
    ensures { result ≡ is_offered config.now pool label }
{
    offer(config, pool, label).is_some()
}

/// What a node of the label takes of the pool.
pub fn amount(config: &Config, pool: PoolId, label: LabelId) -> Amount
    ensures { result ≡ amount_of config.now pool label }
{
    match offer(config, pool, label) {
        None => NOTHING,
        Some(offered) => offered.amount,
    }
}

/// What the node takes, if it is the pool's.
pub fn amount_at(config: &Config, pool: PoolId, view: &NodeView) -> Amount
    requires small { (l : LabelId) → AmountFits (amount_of config.now pool l) }
    ensures amount { result ≡ amount_at config.now pool (node_seen view.now) }
    ensures few { IsFew result 1 }
{
    if view.kept.pool.0 == pool.0 {
        amount(config, pool, view.kept.label)
    } else {
        NOTHING
    }
}

/// What the labels that the pool offers take together.
pub fn amount_of_all(config: &Config, pool: PoolId, labels: &[LabelId]) -> Amount
    requires few { length labels.now < 2 ^ 32 }
    requires small { (l : LabelId) → AmountFits (amount_of config.now pool l) }
    ensures all { result ≡ amount_of_all config.now pool labels.now }
    ensures few { IsFew result (length labels.now) }
{
    let mut sum = NOTHING;
    for label in labels {
        sum = sum.plus(amount(config, pool, *label));
    }
    sum
}

/// Whether the labels together exceed a limit of the pool, however empty it is.
pub fn is_too_much(config: &Config, pool: PoolId, labels: &[LabelId]) -> bool
    requires few { length labels.now < 2 ^ 32 }
    requires small { (l : LabelId) → AmountFits (amount_of config.now pool l) }
    ensures { result ≡
        not (fits (amount_of_all config.now pool labels.now) (limit_of config.now pool)) }
{
    !amount_of_all(config, pool, labels).fits(&limit(config, pool))
}

/// Whether one more node of the label exceeds a limit of the pool, which uses `used`.
pub fn lacks_room(config: &Config, pool: PoolId, label: LabelId, used: Amount) -> bool
    requires instances { used.instances < 2 ^ 63 }
    requires cores { used.cores < 2 ^ 63 }
    requires ram { used.ram < 2 ^ 63 }
    requires small { AmountFits (amount_of config.now pool label) }
    ensures { result ≡
        not (fits (plus used (amount_of config.now pool label)) (limit_of config.now pool)) }
{
    let with_one = used.plus(amount(config, pool, label));
    !with_one.fits(&limit(config, pool))
}

/// The first of the labels that the pool does not offer.
pub fn first_unoffered(config: &Config, pool: PoolId, labels: &[LabelId]) -> Option<LabelId>
    ensures { result ≡ find (λ l. not (is_offered config.now pool l)) labels.now }
{
    for label in labels {
        if !is_offered(config, pool, *label) {
            return Some(*label);
        }
    }
    None
}

/// After how many ticks a ready node of the label is old; 0 is never.
pub fn ready_age(config: &Config, label: LabelId) -> u32
    ensures { result ≡ ready_age config.now label }
{
    match config.label(label) {
        None => 0,
        Some(row) => row.max_ready_age,
    }
}
