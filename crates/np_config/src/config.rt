//! The configuration as a whole.

ghost use Rattle.std.specs.Prelude.{◌≡◌, slice_get};
ghost use Rattle.std.specs.Option.{option_copied};

use crate::tenant::default_tenant;
use crate::{Fault, Job, Label, Pool, Provider, Requester, Sem, Tenant};
use np_text::{JobId, LabelId, NoMemory, PoolId, RequesterId, SemId, TenantId};
use std::alloc::Global;
use std::marker::Model;

/// A configuration that a text can have. Ids are places in its tables.
#[derive(Drop)]
pub struct Config {
    labels: Vec<Label>,
    providers: Vec<Provider>,
    pools: Vec<Pool>,
    semaphores: Vec<Sem>,
    /// The tenants that are listed.
    tenants: Vec<Tenant>,
    /// The tenant `default`.
    unlisted: Tenant,
    requesters: Vec<Requester>,
    jobs: Vec<Job>,
    faults: Vec<Fault>,
    max_hold_age: u32,
}

impl Model for Config {
    ghost use Rattle.std.specs.Prelude.{◌≡◌};
    ghost use Rattle.np_config.specs.Configuration.{Configuration, configuration, default_tenant, IsSound};

    ghost Value = { Configuration };

    ghost view = { λ c. configuration c.labels.items c.providers.items c.pools.items
        c.semaphores.items c.tenants.items c.requesters.items c.jobs.items c.faults.items
        c.max_hold_age };

    ghost invariant = { λ c. IsSound (configuration c.labels.items c.providers.items
        c.pools.items c.semaphores.items c.tenants.items c.requesters.items c.jobs.items
        c.faults.items c.max_hold_age) × (c.unlisted ≡ default_tenant) };
}

ghost use Rattle.np_config.specs.Configuration.{configuration, tenant_of, IsSound};
ghost use Rattle.std.specs.Prelude.{IfOk};

impl Config {
    /// The configuration with these tables, in which each id is a place. It takes memory for the
    /// tenant `default`, which is not listed.
    pub fn of_parts(
        alloc: Global,
        labels: Vec<Label>,
        providers: Vec<Provider>,
        pools: Vec<Pool>,
        semaphores: Vec<Sem>,
        tenants: Vec<Tenant>,
        requesters: Vec<Requester>,
        jobs: Vec<Job>,
        faults: Vec<Fault>,
        max_hold_age: u32,
    ) -> Result<Config, NoMemory>
        requires { IsSound (configuration labels.items providers.items pools.items
            semaphores.items tenants.items requesters.items jobs.items faults.items max_hold_age) }
        ensures { IfOk result (λ c. c ≡ configuration labels.items providers.items pools.items
            semaphores.items tenants.items requesters.items jobs.items faults.items max_hold_age) }
    {
        let unlisted = default_tenant(alloc)?;
        Ok(Config {
            labels,
            providers,
            pools,
            semaphores,
            tenants,
            unlisted,
            requesters,
            jobs,
            faults,
            max_hold_age,
        })
    }

    /// Every configuration is sound. The call does nothing: a caller's proof takes the fact from it.
    pub fn know_soundness(&self)
        ensures { IsSound self.now }
    {
        let _labels = &self.labels;
    }

    /// The label, or `None` if the id is past the end of the table.
    pub fn label(&self, id: LabelId) -> Option<&Label>
        ensures { option_copied result ≡ slice_get self.now.labels id.0 }
    {
        self.labels.get(id.0 as usize)
    }

    /// The provider at this place, or `None` if the place is past the end of the table.
    pub fn provider(&self, at: u16) -> Option<&Provider>
        ensures { option_copied result ≡ slice_get self.now.providers at }
    {
        self.providers.get(at as usize)
    }

    /// The pool, or `None` if the id is past the end of the table.
    pub fn pool(&self, id: PoolId) -> Option<&Pool>
        ensures { option_copied result ≡ slice_get self.now.pools id.0 }
    {
        self.pools.get(id.0 as usize)
    }

    /// The semaphore, or `None` if the id is past the end of the table.
    pub fn semaphore(&self, id: SemId) -> Option<&Sem>
        ensures { option_copied result ≡ slice_get self.now.semaphores id.0 }
    {
        self.semaphores.get(id.0 as usize)
    }

    /// The tenant, or `None` if the id is past the last one; 0 is the tenant `default`, and those
    /// that are listed count from 1.
    pub fn tenant(&self, id: TenantId) -> Option<&Tenant>
        ensures { option_copied result ≡ tenant_of self.now id }
    {
        if id.0 == 0 {
            return Some(&self.unlisted);
        }
        self.tenants.get((id.0 - 1) as usize)
    }

    /// The requester, or `None` if the id is past the end of the table.
    pub fn requester(&self, id: RequesterId) -> Option<&Requester>
        ensures { option_copied result ≡ slice_get self.now.requesters id.0 }
    {
        self.requesters.get(id.0 as usize)
    }

    /// The job, or `None` if the id is past the end of the table.
    pub fn job(&self, id: JobId) -> Option<&Job>
        ensures { option_copied result ≡ slice_get self.now.jobs id.0 }
    {
        self.jobs.get(id.0 as usize)
    }

    /// The planned fault at this place, or `None` if the place is past the end of the table.
    pub fn fault(&self, at: u32) -> Option<&Fault>
        ensures { option_copied result ≡ slice_get self.now.faults at }
    {
        self.faults.get(at as usize)
    }

    /// After how many ticks a node that is held for its user is removed; 0 is never.
    pub fn max_hold_age(&self) -> u32
        ensures { result ≡ self.now.max_hold_age }
    {
        self.max_hold_age
    }

    /// The table of labels.
    pub fn labels(&self) -> &[Label]
        ensures { result.now ≡ self.now.labels }
    {
        &self.labels
    }

    /// The table of providers.
    pub fn providers(&self) -> &[Provider]
        ensures { result.now ≡ self.now.providers }
    {
        &self.providers
    }

    /// The table of pools, those of the first provider first.
    pub fn pools(&self) -> &[Pool]
        ensures { result.now ≡ self.now.pools }
    {
        &self.pools
    }

    /// The table of semaphores.
    pub fn semaphores(&self) -> &[Sem]
        ensures { result.now ≡ self.now.semaphores }
    {
        &self.semaphores
    }

    /// The tenants that are listed: the one at place `n` has the id `n + 1`.
    pub fn tenants(&self) -> &[Tenant]
        ensures { result.now ≡ self.now.tenants }
    {
        &self.tenants
    }

    /// The table of requesters.
    pub fn requesters(&self) -> &[Requester]
        ensures { result.now ≡ self.now.requesters }
    {
        &self.requesters
    }

    /// The table of jobs, those of the first requester first.
    pub fn jobs(&self) -> &[Job]
        ensures { result.now ≡ self.now.jobs }
    {
        &self.jobs
    }

    /// The planned faults.
    pub fn faults(&self) -> &[Fault]
        ensures { result.now ≡ self.now.faults }
    {
        &self.faults
    }
}
