//! What is said of a state.

ghost use Rattle.std.specs.Prelude.{◌≡◌};
ghost use Rattle.np_causes.specs.Fact.{about_of};

use np_amount::Amount;
use np_machine::SessionFacts;
use np_text::{
    JobId, LabelId, NodeId, NodeState, Phase, PoolId, Reason, RequestId, RequesterId, Role, SemId,
    SessionId, TenantId,
};

/// What a fact is about.
#[derive(Clone, Copy, PartialEq, Eq)]
pub enum Thing {
    /// How far the job is.
    Job(JobId),
    /// Whose turn it is to go on with the job.
    Turn(JobId),
    /// Whether the job is in its requester's window.
    Window(JobId),
    /// Whether a semaphore that the job lacks is full.
    Supply(JobId),
    /// How many jobs have the semaphore.
    Semaphore(SemId),
    /// That the job has a handle of the semaphore.
    Handle(SemId, JobId),
    /// What became of the request so far.
    Request(RequestId),
    /// What the pool makes of the request.
    Offer(RequestId, PoolId),
    /// What the request lacks for its next node.
    Next(RequestId),
    /// Who launches for the pool.
    Pool(PoolId),
    /// Whether the pool's launcher is at work on a request.
    Work(PoolId),
    /// Whether the launchers of the pool's provider may take up one more request.
    Concurrency(PoolId),
    /// What the pool uses.
    Room(PoolId),
    /// What the tenant uses.
    Tenant(TenantId),
    /// In which state the node is.
    Node(NodeId),
    /// Who holds the node.
    Lock(NodeId),
    /// Whose node it is.
    Owner(NodeId),
    /// Who is behind the session.
    Session(SessionId),
    /// Who acts for the role.
    Role(Role),
}

/// One thing that is true of a state.
#[derive(Clone, Copy)]
pub enum Fact {
    /// The job is in this phase.
    InPhase {
        job: JobId,
        phase: Phase,
    },
    /// The job is this requester's.
    OfRequester {
        job: JobId,
        requester: RequesterId,
    },
    /// The job is not past its requester's window.
    InWindow {
        job: JobId,
    },
    /// The job is past its requester's window, in which this job is the last.
    PastWindow {
        job: JobId,
        last: JobId,
    },
    /// No semaphore that the job lacks is full.
    Supplied {
        job: JobId,
    },
    /// The job lacks this semaphore, which is full; it is the first such one.
    Full {
        job: JobId,
        semaphore: SemId,
    },
    /// So many jobs have a handle of the semaphore.
    Handles {
        semaphore: SemId,
        count: u32,
    },
    /// The job has a handle of the semaphore.
    HasHandle {
        semaphore: SemId,
        job: JobId,
    },
    /// Nobody has taken up the request.
    Open {
        request: RequestId,
    },
    /// The session holds the request, which no pool has accepted.
    TakenUp {
        request: RequestId,
        session: SessionId,
    },
    /// A pool serves the request, and the session holds it.
    Served {
        request: RequestId,
        session: SessionId,
    },
    /// A pool serves the request, and nobody holds it.
    Abandoned {
        request: RequestId,
    },
    /// The request is fulfilled.
    Fulfilled {
        request: RequestId,
    },
    /// The request failed.
    Failed {
        request: RequestId,
    },
    /// The pool declined the request for this reason.
    Declined {
        request: RequestId,
        pool: PoolId,
        reason: Reason,
    },
    /// The tenant has no room now for the request at the pool.
    Blocked {
        request: RequestId,
        pool: PoolId,
        tenant: TenantId,
    },
    /// The request is the first that the pool's launcher may take up.
    First {
        request: RequestId,
        pool: PoolId,
    },
    /// Another request is the first that the pool's launcher may take up.
    Behind {
        request: RequestId,
        pool: PoolId,
        first: RequestId,
    },
    /// There is no request that the pool's launcher may take up.
    Closed {
        request: RequestId,
        pool: PoolId,
    },
    /// The request has a node for each of its labels.
    Complete {
        request: RequestId,
    },
    /// The pool that serves the request has neither room for a node of its next label nor a ready
    /// one for it.
    NoRoom {
        request: RequestId,
        pool: PoolId,
        label: LabelId,
    },
    /// The request has no node for this label yet.
    Lacks {
        request: RequestId,
        label: LabelId,
    },
    /// The session is registered for the pool.
    Registered {
        pool: PoolId,
        session: SessionId,
    },
    /// No session is registered for the pool.
    Unregistered {
        pool: PoolId,
    },
    /// The pool serves a request that lacks a node.
    Busy {
        pool: PoolId,
    },
    /// The pool serves no request that lacks a node.
    Idle {
        pool: PoolId,
    },
    /// The launchers of the pool's provider may take up one more request.
    HasTurn {
        pool: PoolId,
    },
    /// The launchers of the pool's provider work on as many requests as they may.
    NoTurn {
        pool: PoolId,
        most: u32,
    },
    /// The nodes of the pool take this together.
    PoolUses {
        pool: PoolId,
        used: Amount,
    },
    /// The nodes of the tenant, and what its pending requests still wait for, take this together.
    TenantUses {
        tenant: TenantId,
        used: Amount,
    },
    /// The node is in this state, after so many attempts to launch it.
    Stands {
        node: NodeId,
        state: NodeState,
        attempts: u8,
    },
    /// The session holds the node.
    Held {
        node: NodeId,
        session: SessionId,
    },
    /// Nobody holds the node.
    Unheld {
        node: NodeId,
    },
    /// The job has the node.
    Owned {
        node: NodeId,
        job: JobId,
    },
    /// No job has the node, and it is allocated to the request.
    Allocated {
        node: NodeId,
        request: RequestId,
    },
    /// No job has the node, and it is allocated to no request.
    Free {
        node: NodeId,
    },
    /// This is known of the session.
    Known {
        session: SessionId,
        facts: SessionFacts,
    },
    /// The session is the role's current one.
    Current {
        role: Role,
        session: SessionId,
    },
    /// The role has no current session, and stopped for good.
    Stopped {
        role: Role,
    },
    /// The role has no current session, and may open one.
    MayOpen {
        role: Role,
    },
    /// The state or the configuration has no such thing.
    Missing {
        thing: Thing,
    },
}

/// What the fact is about.
pub fn about(fact: &Fact) -> Thing
    ensures { result ≡ about_of fact.now }
{
    match *fact {
        Fact::InPhase { job, .. } => Thing::Job(job),
        Fact::OfRequester { job, .. } => Thing::Turn(job),
        Fact::InWindow { job } | Fact::PastWindow { job, .. } => Thing::Window(job),
        Fact::Supplied { job } | Fact::Full { job, .. } => Thing::Supply(job),
        Fact::Handles { semaphore, .. } => Thing::Semaphore(semaphore),
        Fact::HasHandle { semaphore, job } => Thing::Handle(semaphore, job),
        Fact::Open { request }
        | Fact::TakenUp { request, .. }
        | Fact::Served { request, .. }
        | Fact::Abandoned { request }
        | Fact::Fulfilled { request }
        | Fact::Failed { request } => Thing::Request(request),
        Fact::Declined { request, pool, .. }
        | Fact::Blocked { request, pool, .. }
        | Fact::First { request, pool }
        | Fact::Behind { request, pool, .. }
        | Fact::Closed { request, pool } => Thing::Offer(request, pool),
        Fact::Complete { request } | Fact::NoRoom { request, .. } | Fact::Lacks { request, .. } => {
            Thing::Next(request)
        }
        Fact::Registered { pool, .. } | Fact::Unregistered { pool } => Thing::Pool(pool),
        Fact::Busy { pool } | Fact::Idle { pool } => Thing::Work(pool),
        Fact::HasTurn { pool } | Fact::NoTurn { pool, .. } => Thing::Concurrency(pool),
        Fact::PoolUses { pool, .. } => Thing::Room(pool),
        Fact::TenantUses { tenant, .. } => Thing::Tenant(tenant),
        Fact::Stands { node, .. } => Thing::Node(node),
        Fact::Held { node, .. } | Fact::Unheld { node } => Thing::Lock(node),
        Fact::Owned { node, .. } | Fact::Allocated { node, .. } | Fact::Free { node } => {
            Thing::Owner(node)
        }
        Fact::Known { session, .. } => Thing::Session(session),
        Fact::Current { role, .. } | Fact::Stopped { role } | Fact::MayOpen { role } => {
            Thing::Role(role)
        }
        Fact::Missing { thing } => thing,
    }
}
