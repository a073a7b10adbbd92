//! Rows as values.

ghost use Rattle.std.specs.Prelude.{◌≡◌, ℕ};
ghost use Rattle.std.specs.Str.{IsAscii};
ghost use Rattle.serde_json.specs.Data.{Data, string};
ghost use Rattle.np_config_text.specs.Lower.{Configuration, count};
ghost use Rattle.np_config_text.specs.Canonical.{label_data, label_name, semaphore_name, offer_data, pool_data, provider_data, semaphore_data, tenant_data, job_data, requester_data, fault_data};

use crate::names::{
    job_tenant, label_name, priority_word, role_name_value, role_word, semaphore_name,
};
use crate::value::{
    Owned, Placed, Shown, list_value, owned_value, put_count, put_given, put_limit, text_value,
};
use np_config::{Config, Fault, Job, Label, Offer, Pool, Provider, Requester, Sem, Tenant};
use np_text::{LabelId, SemId};
use serde_json::{Map, Value, json, put};
use std::alloc::{AllocError, Global};

impl Shown for Label {
    ghost can_show = { λ l. IsAscii l.name };

    ghost shown = { λ _ l. label_data l };

    fn value(&self, alloc: Global, _config: &Config) -> Result<Value, AllocError> {
        let name = text_value(alloc, self.name.items())?;
        json!(in alloc; {
            "max-ready-age": self.max_ready_age,
            "min-ready": self.min_ready,
            "name": name
        })
    }
}

impl Shown for Sem {
    ghost can_show = { λ s. IsAscii s.name };

    ghost shown = { λ _ s. semaphore_data s };

    fn value(&self, alloc: Global, _config: &Config) -> Result<Value, AllocError> {
        let name = text_value(alloc, self.name.items())?;
        json!(in alloc; {"max": self.max, "name": name})
    }
}

impl Shown for Tenant {
    ghost can_show = { λ t. IsAscii t.name };

    ghost shown = { λ _ t. tenant_data t };

    fn value(&self, alloc: Global, _config: &Config) -> Result<Value, AllocError> {
        let name = text_value(alloc, self.name.items())?;
        let mut members = Map::new(alloc);
        put_limit(&mut members, alloc, self.limit)?;
        put(&mut members, alloc, "name", name)?;
        Ok(Value::Object(members))
    }
}

impl Shown for u32 {
    ghost can_show = { λ _. Unit {0} };

    ghost shown = { λ _ n. count n };

    fn value(&self, _alloc: Global, _config: &Config) -> Result<Value, AllocError> {
        Ok(Value::from(*self))
    }
}

impl Shown for LabelId {
    ghost can_show = { λ _. Unit {0} };

    ghost shown = { λ c l. string (label_name c l) };

    fn value(&self, alloc: Global, config: &Config) -> Result<Value, AllocError> {
        text_value(alloc, label_name(config, *self))
    }
}

impl Shown for Offer {
    ghost can_show = { λ _. Unit {0} };

    ghost shown = { offer_data };

    fn value(&self, alloc: Global, config: &Config) -> Result<Value, AllocError> {
        let name = text_value(alloc, label_name(config, self.label))?;
        json!(in alloc; {
            "cores": self.amount.cores,
            "name": name,
            "ram": self.amount.ram
        })
    }
}

impl Shown for SemId {
    ghost can_show = { λ _. Unit {0} };

    ghost shown = { λ c s. string (semaphore_name c s) };

    fn value(&self, alloc: Global, config: &Config) -> Result<Value, AllocError> {
        text_value(alloc, semaphore_name(config, *self))
    }
}

impl Shown for Pool {
    ghost can_show = { λ p. IsAscii p.name };

    ghost shown = { pool_data };

    fn value(&self, alloc: Global, config: &Config) -> Result<Value, AllocError> {
        let name = text_value(alloc, self.name.items())?;
        let starts = list_value(alloc, config, self.fail_starts.items())?;
        let offers = list_value(alloc, config, self.offers.items())?;
        let mut members = Map::new(alloc);
        put(&mut members, alloc, "fail-starts", starts)?;
        put(&mut members, alloc, "labels", offers)?;
        put_limit(&mut members, alloc, self.limit)?;
        put(&mut members, alloc, "name", name)?;
        Ok(Value::Object(members))
    }
}

impl Owned for Pool {
    ghost owner = { λ p. p.provider };

    fn owner(&self) -> u16 {
        self.provider
    }
}

impl Shown for Job {
    ghost can_show = { λ j. IsAscii j.name };

    ghost shown = { job_data };

    fn value(&self, alloc: Global, config: &Config) -> Result<Value, AllocError> {
        let name = text_value(alloc, self.name.items())?;
        let labels = list_value(alloc, config, self.labels.items())?;
        let semaphores = list_value(alloc, config, self.semaphores.items())?;
        let end = Value::try_from_str(alloc, self.end.word())?;
        let priority = Value::try_from_str(alloc, priority_word(self.priority))?;
        let relative = Value::from(self.relative_priority);
        let first = Value::from(self.resources_first);
        let tenant = job_tenant(alloc, config, self.tenant)?;
        let mut members = Map::new(alloc);
        put(&mut members, alloc, "end", end)?;
        put(&mut members, alloc, "labels", labels)?;
        put(&mut members, alloc, "name", name)?;
        put(&mut members, alloc, "priority", priority)?;
        put(&mut members, alloc, "relative-priority", relative)?;
        put(&mut members, alloc, "resources-first", first)?;
        put(&mut members, alloc, "semaphores", semaphores)?;
        put_given(&mut members, alloc, "tenant", tenant)?;
        Ok(Value::Object(members))
    }
}

impl Owned for Job {
    ghost owner = { λ j. j.requester.0 };

    fn owner(&self) -> u16 {
        self.requester.0
    }
}

impl Shown for Fault {
    ghost can_show = { λ _. Unit {0} };

    ghost shown = { fault_data };

    fn value(&self, alloc: Global, config: &Config) -> Result<Value, AllocError> {
        let name = role_name_value(alloc, config, self.role)?;
        json!(in alloc; {
            "after": self.after,
            "kind": self.kind.word(),
            "name": name,
            "role": role_word(self.role)
        })
    }
}

impl Placed for Provider {
    ghost can_show = { λ p. IsAscii p.name };

    ghost shown = { provider_data };

    fn value_at(&self, alloc: Global, config: &Config, place: u16) -> Result<Value, AllocError> {
        let name = text_value(alloc, self.name.items())?;
        config.know_soundness();
        let pools = owned_value(alloc, config, place, config.pools())?;
        let mut members = Map::new(alloc);
        let retries = Value::from(self.retries);
        put(&mut members, alloc, "launch-retries", retries)?;
        let concurrency = self.concurrency.map(u64::from);
        put_count(&mut members, alloc, "max-concurrency", concurrency)?;
        put(&mut members, alloc, "name", name)?;
        put(&mut members, alloc, "pools", pools)?;
        Ok(Value::Object(members))
    }
}

impl Placed for Requester {
    ghost can_show = { λ q. IsAscii q.name };

    ghost shown = { requester_data };

    fn value_at(&self, alloc: Global, config: &Config, place: u16) -> Result<Value, AllocError> {
        let name = text_value(alloc, self.name.items())?;
        config.know_soundness();
        let jobs = owned_value(alloc, config, place, config.jobs())?;
        json!(in alloc; {"jobs": jobs, "name": name, "window": self.window})
    }
}
