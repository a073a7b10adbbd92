//! Kinds of events, by what they name.

ghost use Rattle.std.specs.Prelude.{◌≡◌};
ghost use Rattle.np_useful.specs.Candidates.{is_from_request_queue, is_from_node_queue};
ghost use Rattle.np_useful.specs.Kinds.{request_event, node_event, job_event};

use np_event::Event;
use np_text::{EndAs, JobId, NodeId, RequestId, SessionId};

/// A kind of event that names, besides its maker, one request, one node or one job.
#[derive(Clone, Copy)]
pub enum EventKind {
    Request(RequestKind),
    Node(NodeKind),
    Job(JobKind),
}

/// A kind of event that names one request.
#[derive(Clone, Copy)]
pub enum RequestKind {
    Lock,
    Unlock,
    Accept,
    Create,
    Fulfil,
    Reset,
    FailDeclined,
}

/// A kind of event that names one node.
#[derive(Clone, Copy)]
pub enum NodeKind {
    Lock,
    Unlock,
    Start,
    /// With how the requester leaves the node.
    End(EndAs),
    MarkDeleting,
    Gone,
    Free,
}

/// A kind of event that names one job.
#[derive(Clone, Copy)]
pub enum JobKind {
    Acquire,
    Submit,
    Take,
    Finish,
    Release,
}

/// The session's event of the kind on the request.
pub fn request_event(kind: RequestKind, session: SessionId, request: RequestId) -> Event
    ensures { result ≡ request_event kind session request }
{
    match kind {
        RequestKind::Lock => Event::LockRequest { session, request },
        RequestKind::Unlock => Event::UnlockRequest { session, request },
        RequestKind::Accept => Event::Accept { session, request },
        RequestKind::Create => Event::Create { session, request },
        RequestKind::Fulfil => Event::Fulfil { session, request },
        RequestKind::Reset => Event::Reset { session, request },
        RequestKind::FailDeclined => Event::FailDeclined { session, request },
    }
}

/// The session's event of the kind on the node.
pub fn node_event(kind: NodeKind, session: SessionId, node: NodeId) -> Event
    ensures { result ≡ node_event kind session node }
{
    match kind {
        NodeKind::Lock => Event::LockNode { session, node },
        NodeKind::Unlock => Event::UnlockNode { session, node },
        NodeKind::Start => Event::Start { session, node },
        NodeKind::End(end) => Event::EndNode { session, node, end },
        NodeKind::MarkDeleting => Event::MarkDeleting { session, node },
        NodeKind::Gone => Event::Gone { session, node },
        NodeKind::Free => Event::FreeNode { session, node },
    }
}

/// The session's event of the kind on the job.
pub fn job_event(kind: JobKind, session: SessionId, job: JobId) -> Event
    ensures { result ≡ job_event kind session job }
{
    match kind {
        JobKind::Acquire => Event::Acquire { session, job },
        JobKind::Submit => Event::Submit { session, job },
        JobKind::Take => Event::Take { session, job },
        JobKind::Finish => Event::Finish { session, job },
        JobKind::Release => Event::Release { session, job },
    }
}

/// Whether the machine accepts the event only from a session in the request's queue.
pub(crate) fn is_from_request_queue(kind: RequestKind) -> bool
    ensures { result ≡ is_from_request_queue kind }
{
    match kind {
        RequestKind::Lock | RequestKind::FailDeclined => false,
        RequestKind::Unlock | RequestKind::Accept | RequestKind::Create => true,
        RequestKind::Fulfil | RequestKind::Reset => true,
    }
}

/// Whether the machine accepts the event only from a session in the node's queue.
pub(crate) fn is_from_node_queue(kind: NodeKind) -> bool
    ensures { result ≡ is_from_node_queue kind }
{
    match kind {
        NodeKind::Lock => false,
        NodeKind::Unlock | NodeKind::Start | NodeKind::End(_) => true,
        NodeKind::MarkDeleting | NodeKind::Gone | NodeKind::Free => true,
    }
}
