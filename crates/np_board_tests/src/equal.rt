//! Whether two keepers have the same rows.

use np_look::Rows;
use np_record::{JobRecord, NodeRecord, RequestRecord, RoleRecord};
use np_text::{JobId, NodeId, PoolId, RequesterId, Role, SemId, SessionId};

/// More than any list of these tests has.
const MANY: u32 = 16;

fn have_equal_numbers<A: Rows, B: Rows>(one: &A, other: &B) -> bool {
    one.tick() == other.tick()
        && one.sessions() == other.sessions()
        && one.registrations() == other.registrations()
        && one.requests() == other.requests()
        && one.nodes() == other.nodes()
        && one.jobs() == other.jobs()
        && one.next_request() == other.next_request()
        && one.next_node() == other.next_node()
}

/// Sessions, registrations, handles and swept pairs.
fn have_equal_marks<A: Rows, B: Rows>(one: &A, other: &B, number: u16) -> bool {
    let semaphore = SemId(number);
    let node = NodeId(u32::from(number));
    let session = SessionId(u32::from(number));
    for at in 0..MANY {
        if one.handle_at(semaphore, at) != other.handle_at(semaphore, at)
            || one.swept(node, u64::from(at)) != other.swept(node, u64::from(at))
        {
            return false;
        }
    }
    one.session(session) == other.session(session)
        && one.registration(PoolId(number)) == other.registration(PoolId(number))
}

fn is_same_request(one: &RequestRecord, other: &RequestRecord) -> bool {
    one.job == other.job
        && one.labels.items() == other.labels.items()
        && one.nodes.items() == other.nodes.items()
        && one.pinned == other.pinned
        && one.pool == other.pool
        && one.relative_priority == other.relative_priority
        && one.state == other.state
        && one.declined.items().len() == other.declined.items().len()
}

/// The requests at a place, with their queues.
fn have_equal_requests<A: Rows, B: Rows>(one: &A, other: &B, at: u32) -> bool {
    let (Some(first), Some(second)) = (one.request_view(at), other.request_view(at)) else {
        return one.request_at(at).is_none() && other.request_at(at).is_none();
    };
    for place in 0..MANY {
        if one.request_queue(first.id, place) != other.request_queue(second.id, place) {
            return false;
        }
    }
    first.id == second.id && is_same_request(&first.kept, &second.kept)
}

fn is_same_node(one: &NodeRecord, other: &NodeRecord) -> bool {
    one.allocated_to == other.allocated_to
        && one.attempts == other.attempts
        && one.in_flight == other.in_flight
        && one.label == other.label
        && one.pool == other.pool
        && one.server == other.server
        && one.since == other.since
        && one.start == other.start
        && one.state == other.state
        && one.tenant == other.tenant
}

/// The nodes at a place, with their queues.
fn have_equal_nodes<A: Rows, B: Rows>(one: &A, other: &B, at: u32) -> bool {
    let (Some(first), Some(second)) = (one.node_view(at), other.node_view(at)) else {
        return one.node_at(at).is_none() && other.node_at(at).is_none();
    };
    for place in 0..MANY {
        if one.node_queue(first.id, place) != other.node_queue(second.id, place) {
            return false;
        }
    }
    first.id == second.id && is_same_node(&first.kept, &second.kept)
}

fn is_same_job(one: &Option<JobRecord>, other: &Option<JobRecord>) -> bool {
    match (one, other) {
        (None, None) => true,
        (Some(one), Some(other)) => {
            one.ending == other.ending
                && one.phase == other.phase
                && one.pool == other.pool
                && one.request == other.request
                && one.nodes.items().len() == other.nodes.items().len()
        }
        _ => false,
    }
}

fn is_same_role(one: &Option<RoleRecord>, other: &Option<RoleRecord>) -> bool {
    match (one, other) {
        (None, None) => true,
        (Some(one), Some(other)) => {
            one.acts == other.acts && one.starts == other.starts && one.strikes == other.strikes
        }
        _ => false,
    }
}

/// What the roles of the number have done.
fn have_equal_roles<A: Rows, B: Rows>(one: &A, other: &B, number: u16) -> bool {
    for role in [
        Role::Launcher(PoolId(number)),
        Role::Janitor(PoolId(number)),
        Role::Requester(RequesterId(number)),
    ] {
        if !is_same_role(&one.role(role), &other.role(role)) {
            return false;
        }
    }
    true
}

/// Whether both have the same rows.
pub fn have_equal_rows<A: Rows, B: Rows>(one: &A, other: &B) -> bool {
    for at in 0..MANY {
        if !have_equal_marks(one, other, at as u16)
            || !have_equal_requests(one, other, at)
            || !have_equal_nodes(one, other, at)
            || !is_same_job(&one.job(JobId(at)), &other.job(JobId(at)))
            || !have_equal_roles(one, other, at as u16)
        {
            return false;
        }
    }
    have_equal_numbers(one, other)
}
