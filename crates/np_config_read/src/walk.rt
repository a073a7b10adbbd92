//! Reading a configuration as a whole.

ghost use Rattle.std.specs.Prelude.{◌≡◌, ◌<◌, ◌^◌, [], Ok, codes, map, length, IfOk};
ghost use Rattle.serde_json.specs.View.{view};
ghost use Rattle.np_config_read.specs.Lower.{EachAfter, Gives};
ghost use Rattle.np_config_read.specs.Providers.{pool_names, IsUnused};

use crate::faults::Roles;
use crate::labels::{Alone, Known, Labels};
use crate::names::names_of_pools;
use crate::providers::Providers;
use crate::requesters::Requesters;
use np_config::{Config, Fault, Requester, Sem, Tenant};
use np_json::{
    ConfigKind, ConfigRead, Length, Reading, Table, fault_at, object, rows_maybe, rows_required,
    whole,
};
use np_lists::Items;
use np_text::{AGE, FAULTS, LABELS, PROVIDERS, REQUESTERS, SEMAPHORES, TENANTS};
use serde_json::{Category, Value};
use std::alloc::{AllocError, Global};

/// What faults may refer to.
fn roles_of(
    alloc: Global,
    supply: &Providers,
    requesters: Table<Requester>,
) -> Result<Roles, AllocError>
    requires unused { EachAfter IsUnused [] (pool_names supply.now.providers supply.now.pools) }
    requires few { length supply.now.pools < 2 ^ 16 }
    ensures pools { IfOk result
        (λ r. map (λ n. n.text) r.pools ≡ pool_names supply.now.providers supply.now.pools) }
    ensures requesters { IfOk result (λ r. r.requesters ≡ requesters) }
{
    let pools = names_of_pools(alloc, supply.providers.rows(), supply.pools.items())?;
    Ok(Roles { pools, requesters })
}

fn labels_of(alloc: Global, value: &Value) -> Reading<Labels>
    ensures { Gives (λ l. l.table) result (labels_at (view value.now)) }
{
    let none = Table::new(alloc);
    let length = Length::at_most(LABELS);
    let table = rows_required(alloc, &Alone, b"", "labels", length, value, none)?;
    Ok(Labels { table })
}

fn providers_of(alloc: Global, labels: &Labels, value: &Value) -> Reading<Providers>
    ensures gives { Gives (λ s. s) result (providers_at labels.now.table (view value.now)) }
    ensures unused { IfOk result (λ s. EachAfter IsUnused [] (pool_names s.providers s.pools)) }
    ensures few { IfOk result (λ s. length s.pools < 2 ^ 16) }
{
    let none = Providers {
        providers: Table::new(alloc),
        pools: Items::none(alloc),
    };
    let length = Length::one_to(PROVIDERS);
    rows_required(alloc, labels, b"", "providers", length, value, none)
}

fn semaphores_of(alloc: Global, value: &Value) -> Reading<Table<Sem>>
    ensures { Gives (λ s. s) result (semaphores_at (view value.now)) }
{
    let none = Table::new(alloc);
    let length = Length::at_most(SEMAPHORES);
    rows_maybe(alloc, &Alone, b"", "semaphores", length, value, none)
}

fn tenants_of(alloc: Global, value: &Value) -> Reading<Table<Tenant>>
    ensures { Gives (λ t. t) result (tenants_at (view value.now)) }
{
    let none = Table::new(alloc);
    let length = Length::at_most(TENANTS);
    rows_maybe(alloc, &Alone, b"", "tenants", length, value, none)
}

fn requesters_of(alloc: Global, known: &Known, value: &Value) -> Reading<Requesters>
    ensures { Gives (λ r. r) result (requesters_at known.now.labels.table known.now.semaphores
        known.now.tenants (view value.now)) }
{
    let none = Requesters {
        requesters: Table::new(alloc),
        jobs: Items::none(alloc),
    };
    let length = Length::at_most(REQUESTERS);
    rows_maybe(alloc, known, b"", "requesters", length, value, none)
}

fn faults_of(alloc: Global, roles: &Roles, value: &Value) -> Reading<Items<Fault>>
    ensures { Gives (λ f. f) result
        (faults_at (map (λ n. n.text) roles.now.pools) roles.now.requesters (view value.now)) }
{
    let none = Items::none(alloc);
    let length = Length::at_most(FAULTS);
    rows_maybe(alloc, roles, b"", "faults", length, value, none)
}

ghost use Rattle.np_config_read.specs.Lower.{AGE, object_at, whole_or};
ghost use Rattle.np_config_read.specs.Providers.{top_keys};
ghost use Rattle.np_config_read.specs.Walk.{labels_at, providers_at, semaphores_at, tenants_at, requesters_at, faults_at, configuration_at, reads};

/// The configuration that a JSON value is, or its first fault. What is read of it before the
/// requesters is given, and has no fault.
fn rest_of(
    alloc: Global,
    age: u32,
    supply: Providers,
    known: Known,
    value: &Value,
) -> Reading<Config>
    requires keys { object_at [] top_keys (view value.now) ≡ Ok tt }
    requires labels { labels_at (view value.now) ≡ Ok known.labels.table }
    requires age { whole_or [] (codes "max-hold-age") 0 AGE 0 (view value.now) ≡ Ok age }
    requires providers { providers_at known.labels.table (view value.now) ≡ Ok supply }
    requires semaphores { semaphores_at (view value.now) ≡ Ok known.semaphores }
    requires tenants { tenants_at (view value.now) ≡ Ok known.tenants }
    ensures { Gives (λ c. c) result (configuration_at (view value.now)) }
{
    let demand = requesters_of(alloc, &known, value)?;
    let roles = roles_of(alloc, &supply, demand.requesters)?;
    let faults = faults_of(alloc, &roles, value)?;
    let config = Config::of_parts(
        alloc,
        known.labels.table.into_rows(),
        supply.providers.into_rows(),
        supply.pools.into_vec(),
        known.semaphores.into_rows(),
        known.tenants.into_rows(),
        roles.requesters.into_rows(),
        demand.jobs.into_vec(),
        faults.into_vec(),
        age,
    )?;
    Ok(config)
}

/// The configuration that a JSON value is, or its first fault.
#[tactic(auto, using(np_json::proofs::Binds::exits), unfolding(crate::specs::Walk::configuration_at))]
fn configuration_of(alloc: Global, value: &Value) -> Reading<Config>
    ensures { Gives (λ c. c) result (configuration_at (view value.now)) }
{
    let keys = [
        "labels",
        "max-hold-age",
        "providers",
        "semaphores",
        "tenants",
        "requesters",
        "faults",
    ];
    object(alloc, b"", &keys, value)?;
    let labels = labels_of(alloc, value)?;
    let age = whole(alloc, b"", "max-hold-age", 0, AGE, 0, value)?;
    let supply = providers_of(alloc, &labels, value)?;
    let semaphores = semaphores_of(alloc, value)?;
    let tenants = tenants_of(alloc, value)?;
    let known = Known {
        labels,
        semaphores,
        tenants,
    };
    rest_of(alloc, age, supply, known, value)
}

ghost use Rattle.np_config_read.specs.Lower.{IsSound};

/// The configuration that the bytes of a JSON text are, or the first fault of a walk through it:
/// depth first, the keys of an object in the order of the documentation, lists from the front.
/// The cost grows with the length of the text; a reference is looked up without a scan.
#[tactic(auto, using(crate::proofs::WalkTakes::read_soundly))]
pub fn read_config(alloc: Global, bytes: &[u8]) -> Reading<Config>
    ensures exact { Gives (λ c. c) result (reads bytes.now) }
    ensures sound { IfOk result IsSound }
{
    match Value::from_slice(alloc, bytes) {
        Ok(value) => configuration_of(alloc, &value),
        Err(error) => match error.classify() {
            Category::Memory => Err(ConfigRead::NoMemory),
            _ => Err(fault_at(alloc, ConfigKind::NotJson, b"")),
        },
    }
}
