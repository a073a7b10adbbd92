//! A state in vectors, seen as the state of the definitions, with the room that the vectors have.

ghost use Rattle.std.specs.Prelude.{◌≡◌, option_copied, slice_get};
ghost use Rattle.np_tables.specs.Lower.{handles_of, has_handle, is_swept, node_entry, node_queue, node_view, option_map, registered, request_entry, request_queue, request_view, role_in, session_of};

use crate::keys::{HandleTable, NodeTable, RequestTable, SweptTable};
use np_look::{NodeView, RequestView};
use np_machine::{NodeEntry, Registration, RequestEntry, SessionFacts, Swept, holder_of};
use np_record::{JobRecord, RoleRecord};
use np_text::{JobId, NodeId, PoolId, RequestId, Role, SemId, SessionId};
use std::alloc::Global;
use std::marker::Model;

/// A state in vectors. They have the rows of the state and nothing that it doesn't have. A caller that
/// has the rows may put them together.
#[derive(Drop)]
pub struct Vectors {
    pub alloc: Global,
    pub tick: u32,
    pub sessions: Vec<SessionFacts>,
    pub registrations: Vec<Registration>,
    pub requests: RequestTable,
    pub nodes: NodeTable,
    pub handles: Vec<HandleTable>,
    pub jobs: Vec<JobRecord>,
    pub launchers: Vec<RoleRecord>,
    pub janitors: Vec<RoleRecord>,
    pub requesters: Vec<RoleRecord>,
    pub swept: SweptTable,
    pub next_request: u32,
    pub next_node: u32,
}

impl Model for Vectors {
    ghost use Rattle.std.specs.Prelude.{◌-◌, vec_capacity, vec_len};
    ghost use Rattle.np_tables.specs.CanChange.{Stored, rooms_of, rows_of};

    ghost Value = { Stored };

    ghost view = { λ t. record {
      state = record {
        tick = t.tick;
        sessions = t.sessions.items;
        registrations = t.registrations.items;
        requests = t.requests.rows;
        nodes = t.nodes.rows;
        handles = rows_of t.handles.items;
        jobs = t.jobs.items;
        launchers = t.launchers.items;
        janitors = t.janitors.items;
        requesters = t.requesters.items;
        swept = t.swept.rows;
        next_request = t.next_request;
        next_node = t.next_node;
      };
      room = record {
        sessions = vec_capacity t.sessions - vec_len t.sessions;
        registrations = vec_capacity t.registrations - vec_len t.registrations;
        requests = t.requests.room;
        nodes = t.nodes.room;
        handles = rooms_of t.handles.items;
        swept = t.swept.room;
      };
    } };
}

impl Vectors {
    /// How many ticks have passed.
    pub(crate) fn tick(&self) -> u32
        ensures { result ≡ self.now.state.tick }
    {
        self.tick
    }

    /// The sessions; the first has number 1.
    pub(crate) fn sessions(&self) -> &[SessionFacts]
        ensures { result.now ≡ self.now.state.sessions }
    {
        self.sessions.as_slice()
    }

    /// What is known of the session.
    pub(crate) fn session(&self, session: SessionId) -> Option<SessionFacts>
        ensures { result ≡ session_of session self.now.state }
    {
        if session.0 == 0 {
            return None;
        }
        self.sessions.get(session.0 as usize - 1).copied()
    }

    /// The registrations, by pool.
    pub(crate) fn registrations(&self) -> &[Registration]
        ensures { result.now ≡ self.now.state.registrations }
    {
        self.registrations.as_slice()
    }

    /// Who holds the registration of the pool.
    pub(crate) fn registered(&self, pool: PoolId) -> Option<SessionId>
        ensures { result ≡ registered pool self.now.state.registrations }
    {
        self.registrations
            .iter()
            .find(|r| r.pool.0 == pool.0)
            .map(|r| r.session)
    }

    /// The requests under their locks, by priority and then sequence.
    pub(crate) fn requests(&self) -> &[RequestEntry]
        ensures { result.now ≡ self.now.state.requests }
    {
        self.requests.rows()
    }

    /// The request at a place.
    pub(crate) fn request_at(&self, at: usize) -> Option<RequestId>
        ensures { result ≡ option_map (λ e. e.id) (slice_get self.now.state.requests at) }
    {
        match self.requests.rows().get(at) {
            None => None,
            Some(entry) => Some(entry.id),
        }
    }

    /// The request at a place, with its record and who holds it.
    pub(crate) fn request_view(&self, at: usize) -> Option<RequestView>
        ensures { result ≡ option_map request_view (slice_get self.now.state.requests at) }
    {
        match self.requests.rows().get(at) {
            None => None,
            Some(entry) => Some(RequestView {
                id: entry.id,
                kept: entry.kept,
                holder: holder_of(entry.queue.items()),
            }),
        }
    }

    /// The request with its queue.
    pub(crate) fn request(&self, request: RequestId) -> Option<&RequestEntry>
        ensures { option_copied result ≡ request_entry request self.now.state.requests }
    {
        self.requests.find(request)
    }

    /// The request's queue, or nobody.
    pub(crate) fn request_queue(&self, request: RequestId) -> &[SessionId]
        ensures { result.now ≡ request_queue request self.now.state.requests }
    {
        match self.request(request) {
            None => &[],
            Some(entry) => entry.queue.items(),
        }
    }

    /// The nodes under their locks, by number.
    pub(crate) fn nodes(&self) -> &[NodeEntry]
        ensures { result.now ≡ self.now.state.nodes }
    {
        self.nodes.rows()
    }

    /// The node at a place.
    pub(crate) fn node_at(&self, at: usize) -> Option<NodeId>
        ensures { result ≡ option_map (λ e. e.id) (slice_get self.now.state.nodes at) }
    {
        match self.nodes.rows().get(at) {
            None => None,
            Some(entry) => Some(entry.id),
        }
    }

    /// The node at a place, with its record and who holds it.
    pub(crate) fn node_view(&self, at: usize) -> Option<NodeView>
        ensures { result ≡ option_map node_view (slice_get self.now.state.nodes at) }
    {
        match self.nodes.rows().get(at) {
            None => None,
            Some(entry) => Some(NodeView {
                id: entry.id,
                kept: entry.kept,
                holder: holder_of(entry.queue.items()),
            }),
        }
    }

    /// The node with its queue.
    pub(crate) fn node(&self, node: NodeId) -> Option<&NodeEntry>
        ensures { option_copied result ≡ node_entry node self.now.state.nodes }
    {
        self.nodes.find(node)
    }

    /// The node's queue, or nobody.
    pub(crate) fn node_queue(&self, node: NodeId) -> &[SessionId]
        ensures { result.now ≡ node_queue node self.now.state.nodes }
    {
        match self.node(node) {
            None => &[],
            Some(entry) => entry.queue.items(),
        }
    }

    /// The jobs that have a handle of the semaphore.
    pub(crate) fn handles(&self, semaphore: SemId) -> &[JobId]
        ensures { result.now ≡ handles_of semaphore self.now.state.handles }
    {
        match self.handles.get(semaphore.0 as usize) {
            None => &[],
            Some(jobs) => jobs.rows(),
        }
    }

    /// Whether the job has a handle of the semaphore.
    pub(crate) fn has_handle(&self, job: JobId, semaphore: SemId) -> bool
        ensures { result ≡ has_handle job self.now.state.handles semaphore }
    {
        matches!(self.handles.get(semaphore.0 as usize), Some(jobs) if jobs.has(job))
    }

    /// The jobs, as the machine keeps them.
    pub(crate) fn jobs(&self) -> &[JobRecord]
        ensures { result.now ≡ self.now.state.jobs }
    {
        self.jobs.as_slice()
    }

    /// The job, as the machine keeps it.
    pub(crate) fn job(&self, job: JobId) -> Option<JobRecord>
        ensures { result ≡ slice_get self.now.state.jobs job.0 }
    {
        self.jobs.get(job.0 as usize).copied()
    }

    /// What the role has done.
    pub(crate) fn deeds(&self, role: Role) -> Option<RoleRecord>
        ensures { result ≡ role_in role self.now.state }
    {
        match role {
            Role::Launcher(pool) => self.launchers.get(pool.0 as usize).copied(),
            Role::Janitor(pool) => self.janitors.get(pool.0 as usize).copied(),
            Role::Requester(requester) => self.requesters.get(requester.0 as usize).copied(),
            Role::Reaper => None,
        }
    }

    /// Whether the server of the node was swept.
    pub(crate) fn was_swept(&self, node: NodeId, server: u64) -> bool
        ensures { result ≡ is_swept node server self.now.state.swept }
    {
        self.swept.has(Swept { node, server })
    }

    /// The number of the next request.
    pub(crate) fn next_request(&self) -> u32
        ensures { result ≡ self.now.state.next_request }
    {
        self.next_request
    }

    /// The number of the next node.
    pub(crate) fn next_node(&self) -> u32
        ensures { result ≡ self.now.state.next_node }
    {
        self.next_node
    }
}
