//! The spots of an event in a state, and their paths.

ghost use Rattle.std.specs.Prelude.{◌≡◌, ◌<◌, ◌≤◌, ◌++◌, ◌∷◌, [], IfOk, length};
ghost use Rattle.np_planned.specs.Lower.{AllByRecursion, IsGood, role_of};
ghost use Rattle.np_planned.specs.Spots.{listed, of_node, of_nodes, of_reason, of_request, of_role, paths_at, place_of, spots_of};
ghost use Rattle.np_planned.specs.declared.spot.Spot.TheVariants.{Session};

use crate::spot::{Spot, SpotRow, spot_path};
use np_event::Event;
use np_look::Rows;
use np_path::Path;
use np_text::{NoMemory, NodeId, Reason, RequestId, Role, SessionId};
use std::alloc::Global;

/// What of the state the judgement of the event reads: its spots, or none if the event is not one
/// that can be planned. It takes no memory, and looks up a session and a request at most.
pub fn spots<R: Rows>(rows: &R, event: &Event) -> SpotRow
    ensures { result ≡ spots_of (R.state rows.now) event.now }
{
    match *event {
        Event::Start { session, node } | Event::UnlockNode { session, node } => {
            with_node(with_session(session), node)
        }
        Event::UnlockRequest { session, request } => with_request(with_session(session), request),
        Event::Decline {
            session,
            request,
            reason,
        } => with_reason(head(rows, session, request), reason),
        Event::TakeReady {
            session,
            request,
            node,
        } => with_node(head(rows, session, request), node),
        Event::Fulfil { session, request } => {
            with_listed(rows, head(rows, session, request), request)
        }
        _ => SpotRow::new(),
    }
}

/// The paths of the spots, in their order. It fails only by running out of memory.
pub fn paths_of(alloc: Global, spots: &SpotRow) -> Result<Vec<Path>, NoMemory>
    requires { AllByRecursion (λ spot. IsGood (place_of spot)) spots.now }
    ensures { IfOk result (λ paths. paths.items ≡ paths_at spots.now) }
{
    let mut paths = Vec::new(alloc);
    for spot in spots.items() {
        paths.push(spot_path(alloc, *spot)?)?;
    }
    Ok(paths)
}

/// The row with one more.
fn with(row: SpotRow, spot: Spot) -> SpotRow
    requires { length row < 68 }
    ensures { result ≡ row ++ spot ∷ [] }
{
    let mut more = row;
    more.push(spot);
    more
}

/// The record of the session alone.
fn with_session(session: SessionId) -> SpotRow
    ensures { result ≡ Session session ∷ [] }
{
    with(SpotRow::new(), Spot::Session(session))
}

/// With a request's record and lock.
fn with_request(row: SpotRow, request: RequestId) -> SpotRow
    requires { length row < 67 }
    ensures { result ≡ row ++ of_request request }
{
    with(
        with(row, Spot::Request(request)),
        Spot::RequestLock(request),
    )
}

/// With a node's record and lock.
fn with_node(row: SpotRow, node: NodeId) -> SpotRow
    requires { length row < 67 }
    ensures { result ≡ row ++ of_node node }
{
    with(with(row, Spot::Node(node)), Spot::NodeLock(node))
}

/// With the node of the reason, if it has one.
fn with_reason(row: SpotRow, reason: Reason) -> SpotRow
    requires { length row < 68 }
    ensures { result ≡ row ++ of_reason reason }
{
    match reason {
        Reason::NoLabel(_) | Reason::NeverFits | Reason::TenantNeverFits => row,
        Reason::Spent(node) => with(row, Spot::Node(node)),
    }
}

/// With the registration of the launcher, if the role is one.
fn with_role(row: SpotRow, role: Option<Role>) -> SpotRow
    requires { length row < 68 }
    ensures { result ≡ row ++ of_role role }
{
    match role {
        Some(Role::Launcher(pool)) => with(row, Spot::Launcher(pool)),
        Some(Role::Janitor(_) | Role::Requester(_) | Role::Reaper) | None => row,
    }
}

/// The role of the session.
fn role_of<R: Rows>(rows: &R, session: SessionId) -> Option<Role>
    ensures { result ≡ role_of session (R.state rows.now) }
{
    match rows.session(session) {
        None => None,
        Some(facts) => Some(facts.role),
    }
}

/// The session, the registration of its pool, and the request's record and lock.
fn head<R: Rows>(rows: &R, session: SessionId, request: RequestId) -> SpotRow
    ensures spots { result ≡ Session session ∷ of_role (role_of session (R.state rows.now))
        ++ of_request request }
    ensures few { length result ≤ 4 }
{
    let row = with_role(with_session(session), role_of(rows, session));
    with_request(row, request)
}

/// With the record and the lock of each node.
fn with_nodes(row: SpotRow, nodes: &[NodeId]) -> SpotRow
    requires room { length row ≤ 4 }
    requires few { length nodes.now ≤ 32 }
    ensures { result ≡ row ++ of_nodes nodes.now }
{
    let mut more = row;
    for node in nodes {
        more = with_node(more, *node);
    }
    more
}

/// With the record and the lock of each node in the request's list.
fn with_listed<R: Rows>(rows: &R, row: SpotRow, request: RequestId) -> SpotRow
    requires { length row ≤ 4 }
    ensures { result ≡ row ++ of_nodes (listed request (R.state rows.now)) }
{
    match rows.asked(request) {
        None => row,
        Some(asked) => {
            let _few = asked.nodes.len();
            with_nodes(row, asked.nodes.items())
        }
    }
}
