//! A place in the tree.

ghost use Rattle.std.specs.Prelude.{◌≡◌};
ghost use Rattle.np_layout.specs.Roles.{place_of_role};

use np_text::{JobId, NodeId, PoolId, RequestId, RequesterId, Role, SemId, SessionId};

/// The place of a record, a lock or a directory in the coordination tree. `specs/Place` has the
/// path of each. The reaper has no session, and so no record and no place.
#[derive(Clone, Copy, Debug, PartialEq, Eq)]
pub enum Place {
    /// `/`.
    Root,
    /// The directory of Nodepool's state.
    Nodepool,
    /// The directory of the requests' records.
    Requests,
    /// A request's record.
    Request(RequestId),
    /// The directory of the requests' locks.
    RequestLocks,
    /// A request's lock: the directory of those that wait for it.
    RequestLock(RequestId),
    /// A wait for a request's lock, by its sequence number.
    RequestWait(RequestId, u32),
    /// The directory of the nodes' records.
    Nodes,
    /// A node's record.
    Node(NodeId),
    /// A node's lock: the directory of those that wait for it.
    NodeLock(NodeId),
    /// A wait for a node's lock, by its sequence number.
    NodeWait(NodeId, u32),
    /// The directory of the registered launchers.
    Launchers,
    /// The registration of a pool's launcher.
    Launcher(PoolId),
    /// The directory of Zuul's state.
    Zuul,
    /// The directory of the semaphores.
    Semaphores,
    /// A semaphore: the directory of its handles.
    Semaphore(SemId),
    /// The handle of a semaphore that a job holds.
    Handle(SemId, JobId),
    /// The directory of what neither Nodepool nor Zuul keeps.
    Poolsim,
    /// The directory of the jobs' records.
    Jobs,
    /// A job's record.
    Job(JobId),
    /// The directory of the roles' records.
    Roles,
    /// The record of a pool's launcher.
    LauncherRole(PoolId),
    /// The record of a pool's cleanup worker.
    JanitorRole(PoolId),
    /// The record of a requester.
    RequesterRole(RequesterId),
    /// The directory of the sessions' records.
    Sessions,
    /// A session's record.
    Session(SessionId),
    /// The directory of the nodes' servers that were swept.
    SweptPairs,
    /// A node and the number of a server of it that was swept.
    Swept(NodeId, u64),
    /// The record of the tick.
    Tick,
}

impl Place {
    /// The place of a role's record; only the reaper has none.
    pub fn of_role(role: Role) -> Option<Place>
        ensures { result ≡ place_of_role role }
    {
        match role {
            Role::Launcher(pool) => Some(Place::LauncherRole(pool)),
            Role::Janitor(pool) => Some(Place::JanitorRole(pool)),
            Role::Requester(requester) => Some(Place::RequesterRole(requester)),
            Role::Reaper => None,
        }
    }
}
