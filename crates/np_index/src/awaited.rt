//! The amounts by tenant, and what one request adds to them.

ghost use Rattle.std.specs.Prelude.{◌≡◌, ◌≤◌, IfOk, length, replicate, suc};
ghost use Rattle.np_index.specs.Lower.{Amount, Changes, Configuration, Fits, IsPlanned, IsReached, State, changed, minus, nothing, plus};
ghost use Rattle.np_index.specs.Waiting.{AreAwaited, AreSmall, IsSmall, OthersStay, amount_at, exchange, first_rest, rest_at, rest_by, with_rest, without_rest};

use np_amount::Amount;
use np_config::Config;
use np_look::{Rows, rest_of, tenant_of_job};
use np_record::RequestRecord;
use np_text::{RequestId, RequestState, TenantId};
use std::alloc::{AllocError, Global};
use std::marker::Model;

/// What a pending request still waits for, with the tenant of its job.
#[derive(Clone, Copy)]
pub struct Rest {
    pub tenant: TenantId,
    pub amount: Amount,
}

/// What the pending requests of each tenant still wait for, by the tenant's number.
#[derive(Drop)]
pub struct Awaited {
    amounts: Vec<Amount>,
}

impl Model for Awaited {
    ghost use Rattle.std.specs.Prelude.{List};
    ghost use Rattle.np_index.specs.Lower.{Amount};

    ghost Value = { List Amount };

    ghost view = { λ awaited. awaited.amounts.items };
}

/// What is left of the amount without the other: nothing of a part of which the other has more.
fn less(amount: Amount, other: Amount) -> Amount
    ensures { result ≡ minus amount other }
{
    Amount {
        instances: amount.instances.saturating_sub(other.instances),
        cores: amount.cores.saturating_sub(other.cores),
        ram: amount.ram.saturating_sub(other.ram),
    }
}

/// The sum of both, or the largest number in the place of a part that 64 bits can't have.
fn more(amount: Amount, other: Amount) -> Amount
    ensures { IsSmall (plus amount other) → result ≡ plus amount other }
{
    Amount {
        instances: amount.instances.saturating_add(other.instances),
        cores: amount.cores.saturating_add(other.cores),
        ram: amount.ram.saturating_add(other.ram),
    }
}

/// Takes off what a request waited for.
fn take_off(amounts: &mut Vec<Amount>, rest: Option<Rest>)
    ensures { amounts.new.items ≡ without_rest rest amounts.old.items }
{
    let Some(rest) = rest else {
        return;
    };
    let at = rest.tenant.0 as usize;
    if at >= amounts.len() {
        return;
    }
    amounts[at] = less(amounts[at], rest.amount);
}

/// Adds what a request waits for.
fn add(amounts: &mut Vec<Amount>, rest: Option<Rest>)
    ensures { AreSmall (with_rest rest amounts.old.items) →
        amounts.new.items ≡ with_rest rest amounts.old.items }
{
    let Some(rest) = rest else {
        return;
    };
    let at = rest.tenant.0 as usize;
    if at >= amounts.len() {
        return;
    }
    amounts[at] = more(amounts[at], rest.amount);
}

/// An amount of nothing for each tenant: for the tenant `default`, and for those that are listed.
fn no_amounts(alloc: Global, config: &Config) -> Result<Vec<Amount>, AllocError>
    requires { length config.now.tenants ≤ 64 }
    ensures { IfOk result (λ amounts.
        amounts.items ≡ replicate {A = Amount} (suc (length config.now.tenants)) nothing) }
{
    let mut amounts = Vec::new(alloc);
    let mut count = 0;
    while let Some(_) = config.tenant(TenantId(count)) {
        amounts.push(Amount::NOTHING)?;
        count += 1;
    }
    Ok(amounts)
}

/// What a request with this record still waits for, if it is pending and of a tenant's job.
fn rest_by(config: &Config, kept: &RequestRecord) -> Option<Rest>
    ensures { result ≡ rest_by config.now kept.now }
{
    if kept.state != RequestState::Pending {
        return None;
    }
    let tenant = tenant_of_job(config, kept.job)?;
    config.know_soundness();
    Some(Rest {
        tenant,
        amount: rest_of(config, kept),
    })
}

/// What the request still waits for, if it is pending and of a tenant's job. It costs one lookup of
/// the request, and for each label that still lacks a node one lookup among its pool's offers.
fn rest_at<R: Rows>(rows: &R, request: RequestId) -> Option<Rest>
    ensures { result ≡ rest_at (R.site rows.now) (R.state rows.now) request }
{
    let kept = rows.request(request)?;
    rest_by(rows.config(), &kept)
}

/// What the first of the requests still waits for. It costs what `rest_at` does.
pub fn first_rest<R: Rows>(rows: &R, requests: &[RequestId]) -> Option<Rest>
    ensures { result ≡ first_rest (R.site rows.now) (R.state rows.now) requests.now }
{
    match requests.first() {
        None => None,
        Some(request) => rest_at(rows, *request),
    }
}

impl Awaited {
    /// The amounts of the state, by one walk over its requests.
    pub fn rebuild<R: Rows>(alloc: Global, rows: &R) -> Result<Awaited, AllocError>
        requires { Fits (R.site rows.now) (R.state rows.now) }
        ensures { IfOk result (λ x. AreAwaited (R.site rows.now) (R.state rows.now) x) }
    {
        let config = rows.config();
        config.know_soundness();
        let mut amounts = no_amounts(alloc, config)?;
        for at in 0..rows.requests() {
            if let Some(view) = rows.request_view(at) {
                add(&mut amounts, rest_by(config, &view.kept));
            }
        }
        Ok(Awaited { amounts })
    }

    /// What the tenant's pending requests still wait for. One lookup by the tenant's number.
    pub fn of(&self, tenant: TenantId) -> Amount
        ensures { result ≡ amount_at tenant self.now }
    {
        match self.amounts.get(tenant.0 as usize) {
            None => Amount::NOTHING,
            Some(amount) => *amount,
        }
    }

    /// Takes off what a request waited for before it changed, and adds what it waits for now. An
    /// amount that 64 bits can't have becomes the largest that they can.
    fn exchange(&mut self, before: Option<Rest>, after: Option<Rest>)
        ensures { AreSmall (exchange before after self.old) →
            self.new ≡ exchange before after self.old }
    {
        take_off(&mut self.amounts, before);
        add(&mut self.amounts, after);
    }

    /// After the state has changed: exchanges what the first of the requests waited for before, as
    /// `first_rest` told, for what it waits for now. It takes no memory, and costs what `first_rest`
    /// does.
    pub fn note<R: Rows>(&mut self, rows: &R, requests: &[RequestId], before: Option<Rest>)
        ensures { (c : Configuration) (s : State) (ch : Changes)
            → IsReached c s → IsPlanned c s ch → OthersStay requests.now s (changed c ch s)
            → before ≡ first_rest c s requests.now
            → R.site rows.now ≡ c → R.state rows.now ≡ changed c ch s
            → AreAwaited c s self.old → AreAwaited c (changed c ch s) self.new }
    {
        rows.config().know_soundness();
        let after = first_rest(rows, requests);
        self.exchange(before, after);
    }
}
