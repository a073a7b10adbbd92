//! Laws of the layout. Each function does nothing: its contract is the law.
#![tactic(auto, using(crate::proofs::Proved::sets))]

ghost use Rattle.np_layout.specs.Deletes.{GrownNodesLayOut, GrownRequestsLayOut, HandlesLayOut, NodeWaitsLayOut, RegistrationsLayOut, RequestWaitsLayOut, SessionsLayOut, SweptPairsLayOut, HandlesGoLayOut, NodeWaitsGoLayOut, NodesGoLayOut, RequestWaitsGoLayOut, RequestsGoLayOut, SessionEndsLayOut};
ghost use Rattle.np_layout.specs.Layout.{FirstCallsAreAccepted, FirstTreesLayOut};
ghost use Rattle.np_layout.specs.Sets.{JobChangesLayOut, JobsLayOut, MutesLayOut, NodesLayOut, RequestsLayOut, RolesLayOut, TicksLayOut};

/// The first tree of each sound site lays out the state before the first event, and the one call
/// that makes it is accepted.
pub fn first_trees_lay_out_the_start()
    ensures accepted { FirstCallsAreAccepted }
    ensures lays { FirstTreesLayOut }
{}

/// A set of the tick lays out the state with that tick.
pub fn sets_of_the_tick_lay_out()
    ensures { TicksLayOut }
{}

/// A set of a job's record lays out the state with that record, and no other row changes.
pub fn sets_of_jobs_lay_out()
    ensures put { JobsLayOut }
    ensures change { JobChangesLayOut }
{}

/// A set of a role's record lays out the state with that record: a launcher's, a janitor's or a
/// requester's.
pub fn sets_of_roles_lay_out()
    ensures { RolesLayOut }
{}

/// A set of a session's record to mute lays out the state in which that session is.
pub fn sets_of_sessions_lay_out()
    ensures { MutesLayOut }
{}

/// A set of a request's record lays out the state with that record.
pub fn sets_of_requests_lay_out()
    ensures { RequestsLayOut }
{}

/// A set of a node's record lays out the state with that record, whichever way the bytes spell it.
pub fn sets_of_nodes_lay_out()
    ensures { NodesLayOut }
{}

/// A create of a semaphore's handle for a job that has none lays out the state in which the job has.
pub fn creates_of_handles_lay_out()
    ensures { HandlesLayOut }
{}

/// A create of a swept pair that is not there lays out the state in which it is.
pub fn creates_of_swept_pairs_lay_out()
    ensures { SweptPairsLayOut }
{}

/// A create of a launcher's registration, by its session, lays out the state in which it is
/// registered, if nobody is registered for the pool.
pub fn creates_of_registrations_lay_out()
    ensures { RegistrationsLayOut }
{}

/// A wait at a request's lock, by its session, lays out the state in which the session is the last
/// of the queue, if it was not in it.
pub fn waits_at_requests_lay_out()
    ensures { RequestWaitsLayOut }
{}

/// A wait at a node's lock, by its session, lays out the state in which the session is the last of
/// the queue, if it was not in it.
pub fn waits_at_nodes_lay_out()
    ensures { NodeWaitsLayOut }
{}

/// The begin of a session, and a create of its record by the tree's first session, lay out the
/// state in which it has begun.
pub fn begun_sessions_lay_out()
    ensures { SessionsLayOut }
{}

/// The creates of a request's record and of its lock lay out the state in which the request is,
/// under the next number and with an empty queue.
pub fn grown_requests_lay_out()
    ensures { GrownRequestsLayOut }
{}

/// The creates of a node's record, of its lock and of its maker's wait lay out the state in which
/// the node is, under the next number, and its maker holds it.
pub fn grown_nodes_lay_out()
    ensures { GrownNodesLayOut }
{}

/// A delete of a job's handle of a semaphore lays out the state in which the job has none.
pub fn deletes_of_handles_lay_out()
    ensures { HandlesGoLayOut }
{}

/// A delete of a wait for a request lays out the state in which the session is not in its queue.
pub fn deletes_of_request_waits_lay_out()
    ensures { RequestWaitsGoLayOut }
{}

/// A delete of a wait for a node lays out the state in which the session is not in its queue.
pub fn deletes_of_node_waits_lay_out()
    ensures { NodeWaitsGoLayOut }
{}

/// The end of a session lays out the state in which it has ended, in no queue and not registered.
pub fn ends_of_sessions_lay_out()
    ensures { SessionEndsLayOut }
{}

/// The deletes of a request's waits, its lock and its record go, and lay out the state without it.
pub fn deletes_of_requests_lay_out()
    ensures { RequestsGoLayOut }
{}

/// The deletes of a node's waits, its lock and its record go, and lay out the state without it.
pub fn deletes_of_nodes_lay_out()
    ensures { NodesGoLayOut }
{}
