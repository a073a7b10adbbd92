//! The events of a kind as candidates.

ghost use Rattle.std.specs.Prelude.{◌≡◌, true};
ghost use Rattle.np_useful.specs.Lower.{Fits};
ghost use Rattle.np_useful.specs.Sessions.{is_current};
ghost use Rattle.np_useful.specs.declared.kind.EventKind.TheVariants as kind_of;
ghost use Rattle.np_useful.specs.Candidates.{places, candidate, request_named, node_named};
ghost use Rattle.np_useful.specs.Useful.{ChoosesOf, ChoosesOfAny};

use crate::first::{Candidates, first_that_passes};
use crate::kind::{
    EventKind, NodeKind, RequestKind, is_from_node_queue, is_from_request_queue, job_event,
    node_event, request_event,
};
use crate::rows::RoleRows;
use np_event::Event;
use np_look::{Look, Rows};
use np_text::{JobId, NodeId, RequestId, SessionId};

/// The session's events of the kind, by place. Where the machine accepts the event only from a
/// session in the queue of what it names, only what the session queues for is named.
#[derive(Clone, Copy)]
struct OfKind {
    session: SessionId,
    kind: EventKind,
}

impl Candidates for OfKind {
    ghost places = { λ of c s. places s of.session of.kind };

    ghost candidate = { λ of c s at. candidate s of.session of.kind at };

    fn places<L: Look>(&self, look: &L) -> u32 {
        match self.kind {
            EventKind::Request(kind) => request_places(look, self.session, kind),
            EventKind::Node(kind) => node_places(look, self.session, kind),
            EventKind::Job(_) => look.rows().jobs(),
        }
    }

    fn candidate<L: Look>(&self, look: &L, at: u32) -> Option<Event> {
        match self.kind {
            EventKind::Request(kind) => match request_named(look, self.session, kind, at) {
                None => None,
                Some(request) => Some(request_event(kind, self.session, request)),
            },
            EventKind::Node(kind) => match node_named(look, self.session, kind, at) {
                None => None,
                Some(node) => Some(node_event(kind, self.session, node)),
            },
            EventKind::Job(kind) => match look.rows().job(JobId(at)) {
                None => None,
                Some(_) => Some(job_event(kind, self.session, JobId(at))),
            },
        }
    }
}

/// How many requests the session's events of the kind may name.
fn request_places<L: Look>(look: &L, session: SessionId, kind: RequestKind) -> u32
    ensures { result ≡ places (L.state look.now) session (kind_of.Request kind) }
{
    if is_from_request_queue(kind) {
        look.queued_requests(session)
    } else {
        look.rows().requests()
    }
}

/// How many nodes the session's events of the kind may name.
fn node_places<L: Look>(look: &L, session: SessionId, kind: NodeKind) -> u32
    ensures { result ≡ places (L.state look.now) session (kind_of.Node kind) }
{
    if is_from_node_queue(kind) {
        look.queued_nodes(session)
    } else {
        look.rows().nodes()
    }
}

/// The request at a place among those that the session's events of the kind may name.
fn request_named<L: Look>(
    look: &L,
    session: SessionId,
    kind: RequestKind,
    at: u32,
) -> Option<RequestId>
    ensures { result ≡ request_named (L.state look.now) session kind at }
{
    if is_from_request_queue(kind) {
        look.queued_request_at(session, at)
    } else {
        look.rows().request_at(at)
    }
}

/// The node at a place among those that the session's events of the kind may name.
fn node_named<L: Look>(look: &L, session: SessionId, kind: NodeKind, at: u32) -> Option<NodeId>
    ensures { result ≡ node_named (L.state look.now) session kind at }
{
    if is_from_node_queue(kind) {
        look.queued_node_at(session, at)
    } else {
        look.rows().node_at(at)
    }
}

/// The first useful event of the kind that the current session may make, in the order of the kind's
/// table, or `None` if and only if no event of the kind is useful. It tests each candidate up to
/// the first that passes: the requests or nodes in whose queues the session is, and all of them
/// only for locks and for requests that every pool declined.
pub fn first_of_kind<L: Look, R: RoleRows>(
    look: &L,
    rows: &R,
    session: SessionId,
    kind: EventKind,
) -> Option<Event>
    requires fits { Fits (L.site look.now) (L.state look.now) }
    requires knows { R.knows rows.now (L.site look.now) (L.state look.now) }
    requires current { is_current (R.role rows.now) session (L.state look.now) ≡ true }
    ensures { ChoosesOf (L.site look.now) (L.state look.now) (R.role rows.now) kind result }
{
    first_that_passes(look, rows, &OfKind { session, kind })
}

/// The first useful event of the first kind that has one, or `None` if and only if no event of any
/// of the kinds is useful. It tests the candidates of one kind after another up to the first that
/// passes.
pub fn first_of_kinds<L: Look, R: RoleRows>(
    look: &L,
    rows: &R,
    session: SessionId,
    kinds: &[EventKind],
) -> Option<Event>
    requires fits { Fits (L.site look.now) (L.state look.now) }
    requires knows { R.knows rows.now (L.site look.now) (L.state look.now) }
    requires current { is_current (R.role rows.now) session (L.state look.now) ≡ true }
    ensures { ChoosesOfAny (L.site look.now) (L.state look.now) (R.role rows.now) kinds.now result }
{
    for kind in kinds {
        let found = first_of_kind(look, rows, session, *kind);
        if found.is_some() {
            return found;
        }
    }
    None
}
