//! The nodes, the requests, the queues of requests, the jobs and the sessions that the changes of an
//! event touch, listed before it.

ghost use Rattle.std.specs.Prelude.{◌≡◌, ◌++◌, ◌-◌, IfOk, OnOk, option_to_list};
ghost use Rattle.np_classes.specs.Lower.{Fits, IsPlanned, IsReached, SessionId, queued_nodes, queued_requests};
ghost use Rattle.np_changes.specs.declared.changes.SessionsChange.TheVariants as sessions;
ghost use Rattle.np_classes.specs.Listed.{IsTouched, changed_nodes, changed_requests, ended, grown_nodes, grown_queues, grown_requests, left_queues, touched_nodes, touched_queues, touched_requests, unclaimed_nodes};
ghost use Rattle.np_classes.specs.Touched.{asker_of, at_place, beginning, changed_job, job_of_request, releasing, stopping, taking, touched_jobs, touched_sessions};

use np_changes::{
    Changes, Growth, HandlesChange, JobsChange, NodesChange, RequestsChange, SessionsChange,
};
use np_look::Rows;
use np_text::{JobId, NodeId, RequestId, SessionId};
use std::alloc::{AllocError, Global};
use std::marker::Model;

/// What an event's changes touch: nodes, the requests whose records may change, those whose queues
/// alone may, jobs and sessions.
#[derive(Drop)]
pub struct Touched {
    nodes: Vec<NodeId>,
    requests: Vec<RequestId>,
    queues: Vec<RequestId>,
    jobs: Vec<JobId>,
    sessions: Vec<SessionId>,
}

impl Model for Touched {
    ghost use Rattle.np_classes.specs.Listed.{TouchedOf};

    ghost Value = { TouchedOf };

    ghost view = { λ touched. record {
      nodes = touched.nodes.items;
      requests = touched.requests.items;
      queues = touched.queues.items;
      jobs = touched.jobs.items;
      sessions = touched.sessions.items;
    } };
}

impl Touched {
    /// The nodes whose records or queues may change, and those whose request goes away. Constant
    /// time.
    pub fn nodes(&self) -> &[NodeId]
        ensures { result.now ≡ self.now.nodes }
    {
        self.nodes.as_slice()
    }

    /// The requests whose records may change, one at most. Constant time.
    pub fn requests(&self) -> &[RequestId]
        ensures { result.now ≡ self.now.requests }
    {
        self.requests.as_slice()
    }

    /// The requests whose queues alone may change. Constant time.
    pub fn queues(&self) -> &[RequestId]
        ensures { result.now ≡ self.now.queues }
    {
        self.queues.as_slice()
    }

    /// The jobs whose record, handles or request may change. Constant time.
    pub fn jobs(&self) -> &[JobId]
        ensures { result.now ≡ self.now.jobs }
    {
        self.jobs.as_slice()
    }

    /// The sessions that may begin, be mute or be over. Constant time.
    pub fn sessions(&self) -> &[SessionId]
        ensures { result.now ≡ self.now.sessions }
    {
        self.sessions.as_slice()
    }
}

// ## nodes and requests

/// The node that grows, or whose queue or allocation does.
fn grown_node<R: Rows>(rows: &R, growth: &Growth) -> Option<NodeId>
    ensures { option_to_list result ≡ grown_nodes growth.now (R.state rows.now) }
{
    match growth {
        Growth::Node { .. } => Some(NodeId(rows.next_node())),
        Growth::JoinNode { node } => Some(*node),
        Growth::Allocate { node, .. } => Some(*node),
        _ => None,
    }
}

fn list_if<T: Copy>(list: &mut Vec<T>, one: Option<T>) -> Result<(), AllocError>
    ensures { OnOk result (list.new.items ≡ list.old.items ++ option_to_list one) }
{
    if let Some(one) = one {
        list.push(one)?;
    }
    Ok(())
}

fn list_changed_nodes<R: Rows>(
    list: &mut Vec<NodeId>,
    rows: &R,
    change: &NodesChange,
) -> Result<(), AllocError>
    ensures { OnOk result
        (list.new.items ≡ list.old.items ++ changed_nodes change.now (R.state rows.now)) }
{
    match change {
        NodesChange::Same => Ok(()),
        NodesChange::Put { node, .. } => list_if(list, Some(*node)),
        NodesChange::Remove { node } => list_if(list, Some(*node)),
        NodesChange::Leave { node } => list_if(list, Some(*node)),
        NodesChange::FreeAll { request } => match rows.asked(*request) {
            None => Ok(()),
            Some(asked) => list.extend_from_slice(asked.nodes.items()),
        },
        NodesChange::TakeOver { nodes } => list.extend_from_slice(nodes.items()),
    }
}

/// The nodes or the requests in whose queues the session is that ends.
fn list_ended<T: Copy>(
    list: &mut Vec<T>,
    change: &SessionsChange,
    queued: &[T],
) -> Result<(), AllocError>
    ensures { OnOk result (list.new.items ≡ list.old.items ++ ended change.now queued.now) }
{
    match change {
        SessionsChange::End { .. } => list.extend_from_slice(queued),
        _ => Ok(()),
    }
}

fn list_unclaimed_nodes<R: Rows>(
    list: &mut Vec<NodeId>,
    rows: &R,
    change: &RequestsChange,
) -> Result<(), AllocError>
    ensures { OnOk result
        (list.new.items ≡ list.old.items ++ unclaimed_nodes change.now (R.state rows.now)) }
{
    let RequestsChange::Remove { request } = change else {
        return Ok(());
    };
    match rows.asked(*request) {
        None => Ok(()),
        Some(gone) => list.extend_from_slice(gone.nodes.items()),
    }
}

fn touched_nodes<R: Rows>(
    alloc: Global,
    rows: &R,
    changes: &Changes,
    ended_nodes: &[NodeId],
) -> Result<Vec<NodeId>, AllocError>
    ensures { IfOk result
        (λ list. list.items ≡ touched_nodes changes.now ended_nodes.now (R.state rows.now)) }
{
    let mut list = Vec::new(alloc);
    list_if(&mut list, grown_node(rows, &changes.grows))?;
    list_changed_nodes(&mut list, rows, &changes.nodes)?;
    list_ended(&mut list, &changes.sessions, ended_nodes)?;
    list_unclaimed_nodes(&mut list, rows, &changes.requests)?;
    Ok(list)
}

fn grown_request<R: Rows>(rows: &R, growth: &Growth) -> Option<RequestId>
    ensures { option_to_list result ≡ grown_requests growth.now (R.state rows.now) }
{
    match growth {
        Growth::Request { priority, .. } => Some(RequestId {
            priority: *priority,
            seq: rows.next_request(),
        }),
        _ => None,
    }
}

fn changed_request(change: &RequestsChange) -> Option<RequestId>
    ensures { option_to_list result ≡ changed_requests change.now }
{
    match change {
        RequestsChange::Edit { request, .. } => Some(*request),
        RequestsChange::Remove { request } => Some(*request),
        RequestsChange::Same | RequestsChange::Leave { .. } => None,
    }
}

fn touched_requests<R: Rows>(
    alloc: Global,
    rows: &R,
    changes: &Changes,
) -> Result<Vec<RequestId>, AllocError>
    ensures { IfOk result
        (λ list. list.items ≡ touched_requests changes.now (R.state rows.now)) }
{
    let mut list = Vec::new(alloc);
    list_if(&mut list, grown_request(rows, &changes.grows))?;
    list_if(&mut list, changed_request(&changes.requests))?;
    Ok(list)
}

fn grown_queue(growth: &Growth) -> Option<RequestId>
    ensures { option_to_list result ≡ grown_queues growth.now }
{
    match growth {
        Growth::JoinRequest { request } => Some(*request),
        _ => None,
    }
}

fn left_queue(change: &RequestsChange) -> Option<RequestId>
    ensures { option_to_list result ≡ left_queues change.now }
{
    match change {
        RequestsChange::Leave { request } => Some(*request),
        _ => None,
    }
}

fn touched_queues(
    alloc: Global,
    changes: &Changes,
    ended_requests: &[RequestId],
) -> Result<Vec<RequestId>, AllocError>
    ensures { IfOk result (λ list. list.items ≡ touched_queues changes.now ended_requests.now) }
{
    let mut list = Vec::new(alloc);
    list_if(&mut list, grown_queue(&changes.grows))?;
    list_if(&mut list, left_queue(&changes.requests))?;
    list_ended(&mut list, &changes.sessions, ended_requests)?;
    Ok(list)
}

// ## jobs

fn taking(growth: &Growth) -> Option<JobId>
    ensures { result ≡ taking growth.now }
{
    match growth {
        Growth::Handles { job } => Some(*job),
        _ => None,
    }
}

fn changed_job(change: &JobsChange) -> Option<JobId>
    ensures { result ≡ changed_job change.now }
{
    match change {
        JobsChange::Same => None,
        JobsChange::Put { job, .. } => Some(*job),
        JobsChange::EndNode { job, .. } => Some(*job),
    }
}

fn releasing(change: &HandlesChange) -> Option<JobId>
    ensures { result ≡ releasing change.now }
{
    match change {
        HandlesChange::Same => None,
        HandlesChange::Release { job } => Some(*job),
    }
}

/// The job of the request whose record changes or that goes away. One lookup if there is one.
fn asker_of<R: Rows>(rows: &R, change: &RequestsChange) -> Option<JobId>
    ensures { result ≡ asker_of change.now (R.state rows.now) }
{
    match change {
        RequestsChange::Edit { request, .. } => rows.asked(*request)?.job,
        RequestsChange::Remove { request } => rows.asked(*request)?.job,
        RequestsChange::Same | RequestsChange::Leave { .. } => None,
    }
}

fn touched_jobs<R: Rows>(
    alloc: Global,
    rows: &R,
    changes: &Changes,
) -> Result<Vec<JobId>, AllocError>
    ensures { IfOk result (λ list. list.items ≡ touched_jobs changes.now (R.state rows.now)) }
{
    let mut list = Vec::new(alloc);
    list_if(&mut list, taking(&changes.grows))?;
    list_if(&mut list, changed_job(&changes.jobs))?;
    list_if(&mut list, releasing(&changes.handles))?;
    list_if(&mut list, asker_of(rows, &changes.requests))?;
    Ok(list)
}

// ## sessions

fn beginning<R: Rows>(rows: &R, growth: &Growth) -> Option<SessionId>
    requires { Fits (R.site rows.now) (R.state rows.now) }
    ensures { result ≡ beginning growth.now (R.state rows.now) }
{
    match growth {
        Growth::Session { .. } => Some(SessionId(rows.sessions() + 1)),
        _ => None,
    }
}

/// The session of the place before the number: sessions count from 1.
fn at_place(session: SessionId) -> SessionId
    ensures { result ≡ at_place session }
{
    SessionId(session.0.saturating_sub(1) + 1)
}

fn stopping(change: &SessionsChange) -> Option<SessionId>
    ensures { result ≡ stopping change.now }
{
    match change {
        SessionsChange::Same => None,
        SessionsChange::Mute { session } => Some(at_place(*session)),
        SessionsChange::End { session } => Some(at_place(*session)),
    }
}

fn touched_sessions<R: Rows>(
    alloc: Global,
    rows: &R,
    changes: &Changes,
) -> Result<Vec<SessionId>, AllocError>
    requires { Fits (R.site rows.now) (R.state rows.now) }
    ensures { IfOk result
        (λ list. list.items ≡ touched_sessions changes.now (R.state rows.now)) }
{
    let mut list = Vec::new(alloc);
    list_if(&mut list, beginning(rows, &changes.grows))?;
    list_if(&mut list, stopping(&changes.sessions))?;
    Ok(list)
}

// ## all of it

/// What the changes touch, before the state changes. The nodes that are freed or whose request goes
/// away are read from that request; those in whose queues a session is that ends, and such requests,
/// are passed. It costs a lookup of a request for each of these, and one for its job.
pub fn touched_by<R: Rows>(
    alloc: Global,
    rows: &R,
    changes: &Changes,
    ended_nodes: &[NodeId],
    ended_requests: &[RequestId],
) -> Result<Touched, AllocError>
    requires reached { IsReached (R.site rows.now) (R.state rows.now) }
    requires fits { Fits (R.site rows.now) (R.state rows.now) }
    requires planned { IsPlanned (R.site rows.now) (R.state rows.now) changes.now }
    requires nodes { (session : SessionId) → changes.now.sessions ≡ sessions.End session
        → ended_nodes.now ≡ queued_nodes session (R.state rows.now) }
    requires requests { (session : SessionId) → changes.now.sessions ≡ sessions.End session
        → ended_requests.now ≡ queued_requests session (R.state rows.now) }
    ensures { IfOk result (λ touched. IsTouched (R.state rows.now) changes.now touched) }
{
    let nodes = touched_nodes(alloc, rows, changes, ended_nodes)?;
    let requests = touched_requests(alloc, rows, changes)?;
    let queues = touched_queues(alloc, changes, ended_requests)?;
    let jobs = touched_jobs(alloc, rows, changes)?;
    let sessions = touched_sessions(alloc, rows, changes)?;
    Ok(Touched {
        nodes,
        requests,
        queues,
        jobs,
        sessions,
    })
}
