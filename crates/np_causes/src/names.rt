//! Which things a fact names.

ghost use Rattle.std.specs.Prelude.{◌≡◌, ◌∷◌, [], Some, map, slice_get};
ghost use Rattle.np_causes.specs.Lower.{Janitor, handles_of, is_pending_of, is_tenant, is_under_way_by, option_map, request_of_job, request_seen};
ghost use Rattle.np_causes.specs.Fact.{pool_of};
ghost use Rattle.np_causes.specs.Explains.{a_node, if_live, if_of_pool, if_of_tenant, if_pending_of, if_under_way, job_of, named_by, named_in, nodes_in, offers_for, parts_of, sessions_for, supply_of};
ghost use Rattle.np_causes.specs.declared.fact.Thing.TheVariants as thing;

use crate::fact::{Fact, Thing};
use crate::near::request_near;
use np_config::Config;
use np_look::{Look, RequestView, Rows, is_same_role, tenant_of_job};
use np_record::RequestRecord;
use np_text::{JobId, Phase, PoolId, RequestId, RequestState, Role, SemId, SessionId, TenantId};

/// A place of a list: what it names, if anything.
pub type Place = Option<Thing>;

/// The turn of the request's job.
fn turn_of<R: Rows>(rows: &R, request: RequestId) -> Place
    ensures { result ≡ option_map thing.Turn (job_of request (R.state rows.now)) }
{
    let job = rows.asked(request)?.job?;
    Some(Thing::Turn(job))
}

/// The semaphores of the request's job.
fn supply_of_request<R: Rows>(rows: &R, request: RequestId) -> Place
    ensures { result ≡ option_map thing.Supply (job_of request (R.state rows.now)) }
{
    let job = rows.asked(request)?.job?;
    Some(Thing::Supply(job))
}

/// The janitor of the pool that serves the request.
fn janitor_of<R: Rows>(rows: &R, request: RequestId) -> Place
    ensures { result ≡ option_map (λ p. thing.Role (Janitor p)) (pool_of request (R.state rows.now)) }
{
    let pool = rows.asked(request)?.pool?;
    Some(Thing::Role(Role::Janitor(pool)))
}

/// The job's request.
fn request_of_job<R: Rows>(rows: &R, job: JobId) -> Place
    ensures { result ≡ option_map thing.Request (request_of_job job (R.state rows.now)) }
{
    let request = rows.job(job)?.request?;
    Some(Thing::Request(request))
}

/// The semaphores of a job that takes them before it asks for its nodes.
fn supply_of<R: Rows>(rows: &R, job: JobId) -> Place
    ensures { result ≡ supply_of (R.site rows.now) job }
{
    match rows.config().job(job) {
        None => None,
        Some(row) => {
            if row.resources_first {
                None
            } else {
                Some(Thing::Supply(job))
            }
        }
    }
}

/// A list with one place.
fn only(place: Place, at: u32) -> Option<Place>
    ensures { result ≡ slice_get (place ∷ []) at }
{
    if at == 0 { Some(place) } else { None }
}

/// A list with two places.
fn both(first: Place, second: Place, at: u32) -> Option<Place>
    ensures { result ≡ slice_get (first ∷ second ∷ []) at }
{
    if at == 0 {
        Some(first)
    } else if at == 1 {
        Some(second)
    } else {
        None
    }
}

/// A list with three places.
fn three(first: Place, second: Place, third: Place, at: u32) -> Option<Place>
    ensures { result ≡ slice_get (first ∷ second ∷ third ∷ []) at }
{
    if at == 0 {
        Some(first)
    } else if at == 1 {
        Some(second)
    } else if at == 2 {
        Some(third)
    } else {
        None
    }
}

/// The node at a place of the request's nodes.
fn node_in<R: Rows>(rows: &R, request: RequestId, at: u32) -> Option<Place>
    ensures { result ≡ slice_get (map a_node (nodes_in request (R.state rows.now))) at }
{
    let asked = rows.asked(request)?;
    match asked.nodes.at(at) {
        None => None,
        Some(node) => Some(Some(Thing::Node(node))),
    }
}

/// Two places, and then the request's nodes.
fn then_nodes<R: Rows>(
    rows: &R,
    first: Place,
    second: Place,
    request: RequestId,
    at: u32,
) -> Option<Place>
    ensures { result ≡
        slice_get (first ∷ second ∷ map a_node (nodes_in request (R.state rows.now))) at }
{
    if at == 0 {
        Some(first)
    } else if at == 1 {
        Some(second)
    } else {
        node_in(rows, request, at - 2)
    }
}

/// What the pool at a place makes of the request.
fn offer_at<R: Rows>(rows: &R, request: RequestId, at: u32) -> Option<Place>
    ensures { result ≡ slice_get (offers_for (R.site rows.now) request) at }
{
    let config = rows.config();
    config.know_soundness();
    if at >= u32::from(u16::MAX) {
        return None;
    }
    let pool = PoolId(at as u16);
    match config.pool(pool) {
        None => None,
        Some(_) => Some(Some(Thing::Offer(request, pool))),
    }
}

/// The handle at a place.
fn handle_at<R: Rows>(rows: &R, semaphore: SemId, at: u32) -> Option<Place>
    ensures { result ≡ slice_get (map (λ j. Some (thing.Handle semaphore j))
        (handles_of semaphore (R.state rows.now).handles)) at }
{
    match rows.handle_at(semaphore, at) {
        None => None,
        Some(job) => Some(Some(Thing::Handle(semaphore, job))),
    }
}

/// Whether the pool serves the request, which lacks a node.
fn is_under_way(pool: PoolId, kept: &RequestRecord) -> bool
    ensures { result ≡ is_under_way_by pool kept.now }
{
    let own = match kept.pool {
        None => false,
        Some(other) => other.0 == pool.0,
    };
    kept.state == RequestState::Pending && own && kept.labels.at(kept.nodes.len()).is_some()
}

/// The request at a place of all, if the pool serves it and it lacks a node.
fn request_under_way<R: Rows>(rows: &R, pool: PoolId, at: u32) -> Option<Place>
    ensures { result ≡ slice_get (map (if_under_way pool) (R.state rows.now).requests) at }
{
    match rows.request_view(at) {
        None => None,
        Some(view) => {
            if is_under_way(pool, &view.kept) {
                Some(Some(Thing::Request(view.id)))
            } else {
                Some(None)
            }
        }
    }
}

/// The node at a place of all, if it is the pool's.
fn node_of_pool<R: Rows>(rows: &R, pool: PoolId, at: u32) -> Option<Place>
    ensures { result ≡ slice_get (map (if_of_pool pool) (R.state rows.now).nodes) at }
{
    match rows.node_view(at) {
        None => None,
        Some(view) => {
            if view.kept.pool.0 == pool.0 {
                Some(Some(Thing::Node(view.id)))
            } else {
                Some(None)
            }
        }
    }
}

fn is_tenant(tenant: TenantId, found: Option<TenantId>) -> bool
    ensures { result ≡ is_tenant tenant found }
{
    match found {
        None => false,
        Some(other) => other.0 == tenant.0,
    }
}

/// The node at a place of all, if it is the tenant's.
fn node_of_tenant<R: Rows>(rows: &R, tenant: TenantId, at: u32) -> Option<Place>
    ensures { result ≡ slice_get (map (if_of_tenant tenant) (R.state rows.now).nodes) at }
{
    match rows.node_view(at) {
        None => None,
        Some(view) => {
            if is_tenant(tenant, view.kept.tenant) {
                Some(Some(Thing::Node(view.id)))
            } else {
                Some(None)
            }
        }
    }
}

/// Whether the request is pending and its job is the tenant's.
fn is_pending_of(config: &Config, tenant: TenantId, view: &RequestView) -> bool
    ensures { result ≡ is_pending_of config.now tenant (request_seen view.now) }
{
    view.kept.state == RequestState::Pending
        && is_tenant(tenant, tenant_of_job(config, view.kept.job))
}

/// The request, if it is pending and its job is the tenant's.
fn if_pending_of(config: &Config, tenant: TenantId, view: &RequestView) -> Place
    ensures { result ≡ if_pending_of config.now tenant (request_seen view.now) }
{
    if is_pending_of(config, tenant, view) {
        Some(Thing::Request(view.id))
    } else {
        None
    }
}

/// The request at a place of all, if it is pending and its job is the tenant's.
fn request_of_tenant<R: Rows>(rows: &R, tenant: TenantId, at: u32) -> Option<Place>
    ensures { result ≡
        slice_get (map (if_pending_of (R.site rows.now) tenant) (R.state rows.now).requests) at }
{
    match rows.request_view(at) {
        None => None,
        Some(view) => Some(if_pending_of(rows.config(), tenant, &view)),
    }
}

/// What the tenant's count is made of, at a place: first the nodes, and then the requests.
#[tactic(auto, using(crate::proofs::Places::in_first, crate::proofs::Places::in_second))]
fn part_of_tenant<R: Rows>(rows: &R, tenant: TenantId, at: u32) -> Option<Place>
    ensures { result ≡ slice_get (parts_of (R.site rows.now) (R.state rows.now) tenant) at }
{
    let nodes = rows.nodes();
    if at < nodes {
        node_of_tenant(rows, tenant, at)
    } else {
        request_of_tenant(rows, tenant, at - nodes)
    }
}

/// The session, if it is live and the role's.
fn if_live<R: Rows>(rows: &R, role: Role, session: SessionId) -> Place
    ensures { result ≡ if_live role (R.state rows.now) session }
{
    match rows.session(session) {
        None => None,
        Some(facts) => {
            if facts.live && is_same_role(facts.role, role) {
                Some(Thing::Session(session))
            } else {
                None
            }
        }
    }
}

/// The session at a place of all, if it is live and the role's.
#[tactic(auto, using(crate::proofs::Places::session_there, crate::proofs::Places::no_session))]
fn session_of_role<R: Rows>(rows: &R, role: Role, at: u32) -> Option<Place>
    ensures { result ≡ slice_get (sessions_for role (R.state rows.now)) at }
{
    if at >= rows.sessions() {
        return None;
    }
    Some(if_live(rows, role, SessionId(at + 1)))
}

/// What a job in this phase names.
fn named_in<R: Rows>(rows: &R, job: JobId, phase: Phase, at: u32) -> Option<Place>
    ensures { result ≡ slice_get (named_in (R.site rows.now) (R.state rows.now) job phase) at }
{
    match phase {
        Phase::New => {
            if at == 0 {
                Some(Some(Thing::Turn(job)))
            } else {
                both(Some(Thing::Window(job)), supply_of(rows, job), at - 1)
            }
        }
        Phase::Asked => only(request_of_job(rows, job), at),
        Phase::Using => only(Some(Thing::Turn(job)), at),
        Phase::Over => None,
    }
}

/// What the fact names at a place: `None` past the last place, and `Some(None)` at a place that
/// names nothing. It takes no memory, and costs a few lookups.
pub fn named<L: Look>(look: &L, fact: &Fact, at: u32) -> Option<Place>
    ensures { result ≡ slice_get (named_by (L.site look.now) (L.state look.now) fact.now) at }
{
    let rows = look.rows();
    match *fact {
        Fact::InPhase { job, phase } => named_in(rows, job, phase, at),
        Fact::OfRequester { requester, .. } => {
            only(Some(Thing::Role(Role::Requester(requester))), at)
        }
        Fact::Full { semaphore, .. } => only(Some(Thing::Semaphore(semaphore)), at),
        Fact::Handles { semaphore, .. } => handle_at(rows, semaphore, at),
        Fact::HasHandle { job, .. } | Fact::Owned { job, .. } => only(Some(Thing::Job(job)), at),
        Fact::Open { request } => offer_at(rows, request, at),
        Fact::TakenUp { session, .. } | Fact::Held { session, .. } => {
            only(Some(Thing::Session(session)), at)
        }
        Fact::Served { request, session } => then_nodes(
            rows,
            Some(Thing::Session(session)),
            Some(Thing::Next(request)),
            request,
            at,
        ),
        Fact::Abandoned { request } => only(janitor_of(rows, request), at),
        Fact::Fulfilled { request } => then_nodes(
            rows,
            turn_of(rows, request),
            supply_of_request(rows, request),
            request,
            at,
        ),
        Fact::Failed { request } => only(turn_of(rows, request), at),
        Fact::Blocked { tenant, .. } => only(Some(Thing::Tenant(tenant)), at),
        Fact::First { pool, .. } => only(Some(Thing::Pool(pool)), at),
        Fact::Behind { pool, first, .. } => both(
            Some(Thing::Pool(pool)),
            Some(Thing::Request(first)),
            at,
        ),
        Fact::NoRoom { pool, .. } => only(Some(Thing::Room(pool)), at),
        Fact::Registered { pool, session } => three(
            Some(Thing::Session(session)),
            Some(Thing::Work(pool)),
            Some(Thing::Concurrency(pool)),
            at,
        ),
        Fact::Unregistered { pool } => only(Some(Thing::Role(Role::Launcher(pool))), at),
        Fact::Busy { pool } => request_under_way(rows, pool, at),
        Fact::NoTurn { pool, .. } => request_near(rows, pool, at),
        Fact::PoolUses { pool, .. } => node_of_pool(rows, pool, at),
        Fact::TenantUses { tenant, .. } => part_of_tenant(rows, tenant, at),
        Fact::Stands { node, .. } => both(Some(Thing::Lock(node)), Some(Thing::Owner(node)), at),
        Fact::Stopped { role } | Fact::MayOpen { role } => session_of_role(rows, role, at),
        Fact::Allocated { request, .. } => only(Some(Thing::Request(request)), at),
        Fact::InWindow { .. }
        | Fact::PastWindow { .. }
        | Fact::Supplied { .. }
        | Fact::Declined { .. }
        | Fact::Closed { .. }
        | Fact::Complete { .. }
        | Fact::Lacks { .. }
        | Fact::Idle { .. }
        | Fact::HasTurn { .. }
        | Fact::Unheld { .. }
        | Fact::Free { .. }
        | Fact::Known { .. }
        | Fact::Current { .. }
        | Fact::Missing { .. } => None,
    }
}
