//! What the definitions of reading say together.

ghost use Rattle.std.specs.Prelude.{◌≡◌, ◌≤◌, ℕ, List, Ok, length};
ghost use Rattle.std.specs.List.{AllByRecursion};
ghost use Rattle.np_config_read.specs.Lower.{JOBS, Label, Offer, Sem, Tenant};
ghost use Rattle.np_config_read.specs.declared.providers.PoolsOf.{PoolsOf};
ghost use Rattle.np_config_read.specs.declared.providers.Providers.{Providers};
ghost use Rattle.np_config_read.specs.declared.requesters.JobsOf.{JobsOf};
ghost use Rattle.np_config_read.specs.declared.requesters.Requesters.{Requesters};
ghost use Rattle.np_config_read.specs.Walk.{label_at, semaphore_at, configuration_at, reads};
ghost use Rattle.np_config_read.specs.Providers.{offer_at, pool_at, provider_at};
ghost use Rattle.np_config_read.specs.Requesters.{job_at, requester_at, AllStand, top_defaults, label_defaults, provider_defaults, pool_defaults, offer_defaults, semaphore_defaults, requester_defaults, job_defaults};
ghost use Rattle.np_config_read.specs.FirstFaults.{HasFirstFault, faulty_labels, faulty_pools, faulty_requesters, faulty_tenants, faulty_faults};

/// An object without an optional key reads as that object with the key's default put in.
pub fn an_absent_key_has_its_default()
    ensures top { AllStand configuration_at top_defaults }
    ensures label { (at : List ℕ) (earlier : List Label) →
        AllStand (label_at at earlier) label_defaults }
    ensures provider { (labels : List Label) (at : List ℕ) (s : Providers) →
        AllStand (provider_at labels at s) provider_defaults }
    ensures pool { (labels : List Label) (at : List ℕ) (s : PoolsOf) →
        AllStand (pool_at labels at s) pool_defaults }
    ensures offer { (labels : List Label) (at : List ℕ) (earlier : List Offer) →
        AllStand (offer_at labels at earlier) offer_defaults }
    ensures semaphore { (at : List ℕ) (earlier : List Sem) →
        AllStand (semaphore_at at earlier) semaphore_defaults }
    ensures requester { (labels : List Label) (semaphores : List Sem) (tenants : List Tenant)
        (at : List ℕ) (s : Requesters) → length s.jobs ≤ JOBS →
        AllStand (requester_at labels semaphores tenants at s) requester_defaults }
    ensures job { (labels : List Label) (semaphores : List Sem) (tenants : List Tenant)
        (at : List ℕ) (s : JobsOf) →
        AllStand (job_at labels semaphores tenants at s) job_defaults }
{}

/// Texts with their first faults.
pub fn texts_have_their_first_faults()
    ensures labels { AllByRecursion HasFirstFault faulty_labels }
    ensures pools { AllByRecursion HasFirstFault faulty_pools }
    ensures requesters { AllByRecursion HasFirstFault faulty_requesters }
    ensures tenants { AllByRecursion HasFirstFault faulty_tenants }
    ensures faults { AllByRecursion HasFirstFault faulty_faults }
{}
