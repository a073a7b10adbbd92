//! Laws of the parts. Each function does nothing: its contract is the law.

ghost use Rattle.np_layout.specs.Ways.{EventsEnact, DeedsEnact, GrowthsEnact, HandlesEnact, JobsEnact, NodesEnact, RequestsEnact, SessionsEnact, TicksEnact};

/// The parts for what grows are accepted, and leave a tree of the grown state.
pub fn growths_are_enacted()
    ensures { GrowthsEnact }
{}

/// The parts for a change of requests are accepted, and leave a tree with the changed requests.
pub fn changes_of_requests_are_enacted()
    ensures { RequestsEnact }
{}

/// The parts for a change of nodes are accepted, and leave a tree with the changed nodes.
pub fn changes_of_nodes_are_enacted()
    ensures { NodesEnact }
{}

/// The parts for a change of jobs are accepted, and leave a tree with the changed jobs.
pub fn changes_of_jobs_are_enacted()
    ensures { JobsEnact }
{}

/// The parts for a change of handles are accepted, and leave a tree with the changed handles.
pub fn changes_of_handles_are_enacted()
    ensures { HandlesEnact }
{}

/// The part for a role's deed is accepted, and leaves a tree with the changed record.
pub fn changes_of_roles_are_enacted()
    ensures { DeedsEnact }
{}

/// The part for a session that makes no more events is accepted, and leaves a tree of that state.
pub fn changes_of_sessions_are_enacted()
    ensures { SessionsEnact }
{}

/// The part for a tick is accepted, and leaves a tree of the next tick.
pub fn ticks_are_enacted()
    ensures { TicksEnact }
{}

/// The parts for the changes of an accepted event are accepted in one call, and the tree after it,
/// and after the begin or the end of a session, lays out the changed state.
pub fn events_are_enacted()
    ensures { EventsEnact }
{}
