//! The rows of the tables.
//!
//! A request's record is about 1 KB, so it is read where it is, and copied only for `request` and
//! `request_view`, which answer it.

use crate::queues::{count_queued, queued_at};
use crate::tables::Tables;
use np_changes::Asked;
use np_config::Config;
use np_look::{NodeView, RequestView, Rows, asked_of, is_declined_by};
use np_machine::{Registration, SessionFacts};
use np_record::{JobRecord, NodeRecord, RequestRecord, RoleRecord};
use np_text::{JobId, NodeId, PoolId, RequestId, Role, SemId, SessionId};

impl Rows for Tables {
    ghost site = { λ t. t.configuration };

    ghost state = { λ t. t.state };

    fn config(&self) -> &Config {
        &self.config
    }

    fn tick(&self) -> u32 {
        self.vectors.tick()
    }

    fn session(&self, session: SessionId) -> Option<SessionFacts> {
        self.vectors.session(session)
    }

    fn sessions(&self) -> u32 {
        self.vectors.sessions().len() as u32
    }

    fn registration(&self, pool: PoolId) -> Option<SessionId> {
        self.vectors.registered(pool)
    }

    fn registrations(&self) -> u32 {
        self.vectors.registrations().len() as u32
    }

    fn registration_at(&self, at: u32) -> Option<Registration> {
        self.vectors.registrations().get(at as usize).copied()
    }

    fn requests(&self) -> u32 {
        self.vectors.requests().len() as u32
    }

    fn request_at(&self, at: u32) -> Option<RequestId> {
        self.vectors.request_at(at as usize)
    }

    fn request_view(&self, at: u32) -> Option<RequestView> {
        self.vectors.request_view(at as usize)
    }

    fn request(&self, request: RequestId) -> Option<RequestRecord> {
        match self.vectors.request(request) {
            None => None,
            Some(entry) => Some(entry.kept),
        }
    }

    fn nodes(&self) -> u32 {
        self.vectors.nodes().len() as u32
    }

    fn node_at(&self, at: u32) -> Option<NodeId> {
        self.vectors.node_at(at as usize)
    }

    fn node_view(&self, at: u32) -> Option<NodeView> {
        self.vectors.node_view(at as usize)
    }

    fn node(&self, node: NodeId) -> Option<NodeRecord> {
        match self.vectors.node(node) {
            None => None,
            Some(entry) => Some(entry.kept),
        }
    }

    fn request_queue(&self, request: RequestId, at: u32) -> Option<SessionId> {
        self.vectors
            .request_queue(request)
            .get(at as usize)
            .copied()
    }

    fn node_queue(&self, node: NodeId, at: u32) -> Option<SessionId> {
        self.vectors.node_queue(node).get(at as usize).copied()
    }

    fn queued_requests(&self, session: SessionId) -> u32 {
        count_queued(self.vectors.requests(), session) as u32
    }

    fn queued_request_at(&self, session: SessionId, at: u32) -> Option<RequestId> {
        queued_at(self.vectors.requests(), session, at)
    }

    fn queued_nodes(&self, session: SessionId) -> u32 {
        count_queued(self.vectors.nodes(), session) as u32
    }

    fn queued_node_at(&self, session: SessionId, at: u32) -> Option<NodeId> {
        queued_at(self.vectors.nodes(), session, at)
    }

    fn handles(&self, semaphore: SemId) -> u32 {
        self.vectors.handles(semaphore).len() as u32
    }

    fn handle_at(&self, semaphore: SemId, at: u32) -> Option<JobId> {
        self.vectors.handles(semaphore).get(at as usize).copied()
    }

    fn has_handle(&self, semaphore: SemId, job: JobId) -> bool {
        self.vectors.has_handle(job, semaphore)
    }

    fn jobs(&self) -> u32 {
        self.vectors.jobs().len() as u32
    }

    fn job(&self, job: JobId) -> Option<JobRecord> {
        self.vectors.job(job)
    }

    fn role(&self, role: Role) -> Option<RoleRecord> {
        self.vectors.deeds(role)
    }

    fn swept(&self, node: NodeId, server: u64) -> bool {
        self.vectors.was_swept(node, server)
    }

    fn next_request(&self) -> u32 {
        self.vectors.next_request()
    }

    fn next_node(&self) -> u32 {
        self.vectors.next_node()
    }

    fn asked(&self, request: RequestId) -> Option<Asked> {
        match self.vectors.request(request) {
            None => None,
            Some(entry) => Some(asked_of(&entry.kept)),
        }
    }

    fn is_declined(&self, request: RequestId, pool: PoolId) -> bool {
        matches!(self.vectors.request(request), Some(entry)
            if is_declined_by(pool, entry.kept.declined.items()))
    }
}
