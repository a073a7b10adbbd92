//! Reading providers and their pools.

ghost use Rattle.std.specs.Prelude.{◌≡◌, ◌==◌, ◌+◌, ◌<◌, ℕ, List, false, IfOk, length};
ghost use Rattle.std.specs.List.{list_any};
ghost use Rattle.np_config_read.specs.Providers.{offer_at, start_at, pool_at, provider_at, label_for, label_value, offer_label, offer_amount, limit_at, offers_at, starts_at, pool_row, provider_row, pools_at};
ghost use Rattle.serde_json.specs.View.{view};
ghost use Rattle.np_config_read.specs.Lower.{Gives, pointer_to};

use crate::labels::{Alone, Labels};
use np_amount::{Amount, Limit};
use np_config::{Name, NumberList, Offer, OfferList, Pool, Provider};
use np_json::{
    ConfigKind, Length, Marked, NamedRow, Place, Reading, Rows, Table, fault_in, named_row, object,
    required, rows_maybe, rows_required, text_of, whole, whole_maybe, whole_of,
};
use np_lists::Items;
use np_text::{
    CONCURRENCY, FAIL_STARTS, LABELS, LAUNCHES, LabelId, NODE_CORES, NODE_RAM, POOL_CORES,
    POOL_RAM, POOL_SERVERS, POOLS, START_NUMBER,
};
use serde_json::Value;
use std::alloc::Global;

#[tactic(auto, unfolding(crate::specs::Providers::label_for))]
fn label_for(alloc: Global, labels: &Labels, place: Place<'_>, text: &[u8]) -> Reading<LabelId>
    ensures { Gives (λ l. l) result
        (label_for labels.now.table (pointer_to place.entry) text.now) }
{
    let Some(at) = labels.table.place(text) else {
        return Err(fault_in(alloc, ConfigKind::UnknownName, place));
    };
    Ok(LabelId(at))
}

/// The label whose name is at the place.
#[tactic(auto, using(np_json::proofs::Binds::exits), unfolding(crate::specs::Providers::label_value))]
pub(crate) fn label_of(
    alloc: Global,
    labels: &Labels,
    place: Place<'_>,
    value: &Value,
) -> Reading<LabelId>
    ensures { Gives (λ l. l) result
        (label_value labels.now.table (pointer_to place.entry) (view value.now)) }
{
    let text = text_of(alloc, place, value)?;
    label_for(alloc, labels, place, text.as_bytes())
}

#[tactic(auto, using(np_json::proofs::Binds::exits), unfolding(crate::specs::Providers::offer_label))]
fn offer_label(
    alloc: Global,
    labels: &Labels,
    at: &[u8],
    earlier: &Marked<Offer>,
    value: &Value,
) -> Reading<LabelId>
    ensures gives { Gives (λ l. l) result
        (offer_label labels.now.table at.now earlier.now (view value.now)) }
    ensures fresh { IfOk result
        (λ l. list_any (λ o. l.0 == o.label.0) earlier.now ≡ false) }
{
    let name = required(alloc, at, "name", value)?;
    let place = Place::Member(at, "name");
    let label = label_of(alloc, labels, place, name)?;
    if earlier.has(label.0) {
        return Err(fault_in(alloc, ConfigKind::Repeated, place));
    }
    Ok(label)
}

#[tactic(auto, using(np_json::proofs::Binds::exits), unfolding(crate::specs::Providers::offer_amount))]
fn offer_amount(alloc: Global, at: &[u8], value: &Value) -> Reading<Amount>
    ensures { Gives (λ a. a) result (offer_amount at.now (view value.now)) }
{
    let cores = whole(alloc, at, "cores", 0, NODE_CORES, 1, value)?;
    let ram = whole(alloc, at, "ram", 0, NODE_RAM, 1024, value)?;
    Ok(Amount {
        instances: 1,
        cores: u64::from(cores),
        ram: u64::from(ram),
    })
}

impl Rows<Labels> for Marked<Offer> {
    ghost reads = { λ labels at earlier d. offer_at labels.table at earlier d };

    ghost count = { length };

    #[tactic(auto, using(np_json::proofs::Binds::exits), unfolding(crate::specs::Providers::offer_at))]
    fn read(
        &mut self,
        alloc: Global,
        labels: &Labels,
        place: Place<'_>,
        value: &Value,
    ) -> Reading<()> {
        let at = place.pointer(alloc)?;
        let at = at.as_slice();
        object(alloc, at, &["name", "cores", "ram"], value)?;
        let label = offer_label(alloc, labels, at, self, value)?;
        let amount = offer_amount(alloc, at, value)?;
        self.push(Offer { label, amount })?;
        Ok(())
    }
}

ghost use Rattle.np_config_read.specs.Lower.{is_above};

fn is_above(starts: &[u32], start: u32) -> bool
    ensures { result ≡ is_above starts.now start }
{
    match starts.last() {
        Some(last) => *last < start,
        None => true,
    }
}

impl Rows<Alone> for NumberList {
    ghost reads = { λ _ at earlier d. start_at at earlier d };

    ghost count = { length };

    #[tactic(auto, using(np_json::proofs::Binds::exits), unfolding(crate::specs::Providers::start_at))]
    fn read(
        &mut self,
        alloc: Global,
        _alone: &Alone,
        place: Place<'_>,
        value: &Value,
    ) -> Reading<()> {
        let start = whole_of(alloc, place, 1, START_NUMBER, value)?;
        if !is_above(self.items(), start) {
            return Err(fault_in(alloc, ConfigKind::OutOfRange, place));
        }
        self.push(start)?;
        Ok(())
    }
}

/// The pools of the provider at a place that were read so far.
#[derive(Drop)]
pub(crate) struct PoolsOf {
    pub provider: u16,
    pub pools: Table<Pool>,
}

pub(crate) fn wide(number: Option<u32>) -> Option<u64>
    ensures { result ≡ number }
{
    match number {
        Some(number) => Some(u64::from(number)),
        None => None,
    }
}

/// The limits of a pool or a tenant.
#[tactic(auto, using(np_json::proofs::Binds::exits), unfolding(crate::specs::Providers::limit_at))]
pub(crate) fn limit_of(alloc: Global, at: &[u8], value: &Value) -> Reading<Limit>
    ensures { Gives (λ l. l) result (limit_at at.now (view value.now)) }
{
    let servers = whole_maybe(alloc, at, "max-servers", 0, POOL_SERVERS, value)?;
    let cores = whole_maybe(alloc, at, "max-cores", 0, POOL_CORES, value)?;
    let ram = whole_maybe(alloc, at, "max-ram", 0, POOL_RAM, value)?;
    Ok(Limit {
        instances: wide(servers),
        cores: wide(cores),
        ram: wide(ram),
    })
}

#[tactic(auto, unfolding(crate::specs::Providers::offers_at))]
fn offers_of(alloc: Global, labels: &Labels, at: &[u8], value: &Value) -> Reading<OfferList>
    ensures { Gives (λ o. o) result (offers_at labels.now.table at.now (view value.now)) }
{
    let none = Marked::<Offer>::new(alloc);
    let offers = rows_required(
        alloc,
        labels,
        at,
        "labels",
        Length::at_most(LABELS),
        value,
        none,
    )?;
    Ok(OfferList::new(offers.into_rows()))
}

#[tactic(auto, unfolding(crate::specs::Providers::starts_at))]
fn starts_of(alloc: Global, at: &[u8], value: &Value) -> Reading<NumberList>
    ensures { Gives (λ s. s) result (starts_at at.now (view value.now)) }
{
    let none = NumberList::none(alloc);
    rows_maybe(
        alloc,
        &Alone,
        at,
        "fail-starts",
        Length::at_most(FAIL_STARTS),
        value,
        none,
    )
}

#[tactic(auto, using(np_json::proofs::Binds::exits), unfolding(crate::specs::Providers::pool_row))]
fn pool_row(
    alloc: Global,
    labels: &Labels,
    at: &[u8],
    provider: u16,
    name: Name,
    value: &Value,
) -> Reading<Pool>
    ensures gives { Gives (λ p. p) result
        (pool_row labels.now.table at.now provider name (view value.now)) }
    ensures name { IfOk result (λ p. p.name ≡ name) }
{
    let limit = limit_of(alloc, at, value)?;
    let offers = offers_of(alloc, labels, at, value)?;
    let starts = starts_of(alloc, at, value)?;
    Ok(Pool {
        provider,
        name,
        limit,
        offers,
        fail_starts: starts,
    })
}

impl Rows<Labels> for PoolsOf {
    ghost reads = { λ labels at s d. pool_at labels.table at s d };

    ghost count = { λ s. length s.pools };

    #[tactic(auto, using(np_json::proofs::Binds::exits), unfolding(crate::specs::Providers::pool_at))]
    fn read(
        &mut self,
        alloc: Global,
        labels: &Labels,
        place: Place<'_>,
        value: &Value,
    ) -> Reading<()> {
        let keys = [
            "name",
            "max-servers",
            "max-cores",
            "max-ram",
            "labels",
            "fail-starts",
        ];
        let NamedRow { at, name } = named_row(alloc, place, &keys, &self.pools, value)?;
        let pool = pool_row(alloc, labels, at.as_slice(), self.provider, name, value)?;
        self.pools.push(alloc, pool)?;
        Ok(())
    }
}

/// The providers that were read so far, with the pools of all of them.
#[derive(Drop)]
pub(crate) struct Providers {
    pub providers: Table<Provider>,
    pub pools: Items<Pool>,
}

#[tactic(auto, using(np_json::proofs::Binds::exits), unfolding(crate::specs::Providers::provider_row))]
fn provider_row(alloc: Global, at: &[u8], name: Name, value: &Value) -> Reading<Provider>
    ensures gives { Gives (λ p. p) result (provider_row at.now name (view value.now)) }
    ensures name { IfOk result (λ p. p.name ≡ name) }
{
    let retries = whole(alloc, at, "launch-retries", 1, LAUNCHES, 3, value)?;
    let concurrency = whole_maybe(alloc, at, "max-concurrency", 1, CONCURRENCY, value)?;
    Ok(Provider {
        name,
        retries: retries as u8,
        concurrency,
    })
}

#[tactic(auto, unfolding(crate::specs::Providers::pools_at))]
fn pools_of(
    alloc: Global,
    labels: &Labels,
    at: &[u8],
    earlier: usize,
    provider: u16,
    value: &Value,
) -> Reading<PoolsOf>
    ensures { Gives (λ own. own) result
        (pools_at labels.now.table at.now earlier provider (view value.now)) }
{
    let length = Length::one_to(POOLS).behind(earlier);
    let pools = Table::new(alloc);
    let none = PoolsOf { provider, pools };
    rows_required(alloc, labels, at, "pools", length, value, none)
}

impl Rows<Labels> for Providers {
    ghost reads = { λ labels at s d. provider_at labels.table at s d };

    ghost count = { λ s. length s.providers };

    #[tactic(auto, using(np_json::proofs::Binds::exits), unfolding(crate::specs::Providers::provider_at))]
    fn read(
        &mut self,
        alloc: Global,
        labels: &Labels,
        place: Place<'_>,
        value: &Value,
    ) -> Reading<()> {
        let keys = ["name", "launch-retries", "max-concurrency", "pools"];
        let NamedRow { at, name } = named_row(alloc, place, &keys, &self.providers, value)?;
        let at = at.as_slice();
        let provider = provider_row(alloc, at, name, value)?;
        let earlier = self.pools.items().len();
        let place = self.providers.len() as u16;
        let own = pools_of(alloc, labels, at, earlier, place, value)?;
        self.providers.push(alloc, provider)?;
        self.pools.append(own.pools.into_rows())?;
        Ok(())
    }
}
