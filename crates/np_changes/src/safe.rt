//! What holds of every run.

ghost use Rattle.std.specs.Prelude.{◌≡◌, ◌≤◌, List, Some, IsTrue, true, length, slice_get};
ghost use Rattle.np_changes.specs.Prelude.{Entry, NodeId, Pool, PoolId, RequestId, RequestRecord, Runs, Sem, SemId, SessionId, State, Tenant, TenantId, count_of, count_of_tenant, fits, handles_of, is_fulfilled, is_session_of, node_holder, request_holder, request_in};
ghost use Rattle.np_changes.specs.Lower.{Configuration, IsLiveHolder, IsLiveRequestHolder, NoRepeat, OwnsItsLabels, Safe, tenant_of};
ghost use Rattle.np_changes.specs.Parts.{Invariant};
ghost use Rattle.np_changes.specs.Steps.{AfterEveryStep};

/// Every state that a run leads to is as the parts say.
pub fn every_state_of_a_run_is_as_the_parts_say()
    ensures { (c : Configuration) (journal : List Entry) (s : State) →
        Runs c journal s → Invariant c s }
{}

/// A live holder of a node or of a request, read from the journal alone, is the first of its queue.
#[tactic(auto, using(crate::proofs::Runs::holding))]
pub fn a_live_holder_is_the_holder()
    ensures node { (c : Configuration) (journal : List Entry) (s : State) (session : SessionId)
        (n : NodeId) → Runs c journal s → IsLiveHolder c journal session n →
        is_session_of session (node_holder n s.nodes) ≡ true }
    ensures request { (c : Configuration) (journal : List Entry) (s : State) (session : SessionId)
        (r : RequestId) → Runs c journal s → IsLiveRequestHolder c journal session r →
        is_session_of session (request_holder r s.requests) ≡ true }
{}

/// No node and no request has two live holders.
pub fn no_node_and_no_request_has_two_live_holders()
    ensures node { (c : Configuration) (journal : List Entry) (s : State) (n : NodeId)
        (a b : SessionId) → Runs c journal s → IsLiveHolder c journal a n →
        IsLiveHolder c journal b n → a.0 ≡ b.0 }
    ensures request { (c : Configuration) (journal : List Entry) (s : State) (r : RequestId)
        (a b : SessionId) → Runs c journal s → IsLiveRequestHolder c journal a r →
        IsLiveRequestHolder c journal b r → a.0 ≡ b.0 }
{}

/// What a pool uses exceeds none of its limits.
pub fn no_pool_passes_its_limit()
    ensures { (c : Configuration) (journal : List Entry) (s : State) (p : PoolId) (pool : Pool) →
        Runs c journal s → slice_get c.pools p.0 ≡ Some pool →
        IsTrue (fits (count_of c s p) pool.limit) }
{}

/// What a tenant uses, with what its pending requests wait for, exceeds none of its limits.
pub fn no_tenant_passes_its_limit()
    ensures { (c : Configuration) (journal : List Entry) (s : State) (t : TenantId)
        (tenant : Tenant) → Runs c journal s → tenant_of c t ≡ Some tenant →
        IsTrue (fits (count_of_tenant c s t) tenant.limit) }
{}

/// A semaphore has at most `max` handles, each of a different job.
pub fn no_semaphore_passes_its_max()
    ensures few { (c : Configuration) (journal : List Entry) (s : State) (x : SemId) (sem : Sem) →
        Runs c journal s → slice_get c.semaphores x.0 ≡ Some sem →
        length (handles_of x s.handles) ≤ sem.max }
    ensures once { (c : Configuration) (journal : List Entry) (s : State) (x : SemId) (sem : Sem) →
        Runs c journal s → slice_get c.semaphores x.0 ≡ Some sem →
        NoRepeat (handles_of x s.handles) }
{}

/// A fulfilled request owns a node of one pool for each of its labels, in order.
#[tactic(auto, using(crate::proofs::Runs::holding))]
pub fn a_fulfilled_request_owns_its_labels_in_order_from_one_pool()
    ensures { (c : Configuration) (journal : List Entry) (s : State) (r : RequestId)
        (request : RequestRecord) → Runs c journal s → request_in r s.requests ≡ Some request →
        is_fulfilled request.state ≡ true → OwnsItsLabels s r request }
{}

/// Every run is safe after every step.
pub fn every_run_is_safe_after_every_step()
    ensures { (c : Configuration) (journal : List Entry) (s : State) →
        Runs c journal s → AfterEveryStep (Safe c) journal }
{}
