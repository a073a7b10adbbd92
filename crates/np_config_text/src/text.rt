//! The one text of a configuration.

ghost use Rattle.std.specs.Prelude.{◌≡◌, IfOk};
ghost use Rattle.serde_json.specs.View.{view};
ghost use Rattle.np_config_text.specs.Canonical.{configuration_data};

use crate::value::{list_if_any, list_value, placed_value, put_given};
use np_config::Config;
use np_text::NoMemory;
use serde_json::{Map, Value, put};
use std::alloc::{AllocError, Global};

/// The JSON value of a configuration.
fn config_value(alloc: Global, config: &Config) -> Result<Value, AllocError>
    ensures { IfOk result (λ v. view v ≡ configuration_data config.now) }
{
    config.know_soundness();
    let faults = list_value(alloc, config, config.faults())?;
    let labels = list_value(alloc, config, config.labels())?;
    let providers = placed_value(alloc, config, config.providers())?;
    let requesters = placed_value(alloc, config, config.requesters())?;
    let semaphores = list_value(alloc, config, config.semaphores())?;
    let tenants = list_if_any(alloc, config, config.tenants())?;
    let mut members = Map::new(alloc);
    put(&mut members, alloc, "faults", faults)?;
    put(&mut members, alloc, "labels", labels)?;
    let age = Value::from(config.max_hold_age());
    put(&mut members, alloc, "max-hold-age", age)?;
    put(&mut members, alloc, "providers", providers)?;
    put(&mut members, alloc, "requesters", requesters)?;
    put(&mut members, alloc, "semaphores", semaphores)?;
    put_given(&mut members, alloc, "tenants", tenants)?;
    Ok(Value::Object(members))
}

ghost use Rattle.np_config_text.specs.Canonical.{canonical};
ghost use Rattle.np_config_text.specs.Lower.{reads};

/// The one text of the configuration: compact JSON, keys in byte order, every default written
/// except an empty list of tenants and a job's tenant `default`. Reading it returns the same
/// configuration. The cost grows with the length of the text, and with the number of jobs times
/// that of requesters.
pub fn config_text(alloc: Global, config: &Config) -> Result<Vec<u8>, NoMemory>
    ensures text { IfOk result (λ b. b.items ≡ canonical config.now) }
    ensures again { IfOk result (λ b. reads b.items ≡ Ok config.now) }
{
    config.know_soundness();
    Ok(config_value(alloc, config)?.to_vec(alloc)?)
}
