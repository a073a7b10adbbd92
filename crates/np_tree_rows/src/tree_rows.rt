//! The rows of the state that a tree stores.

ghost use Rattle.std.specs.Prelude.{◌≡◌, ◌<◌, ◌^◌};
ghost use Rattle.np_tree_rows.specs.Lower.{IsStored, decoded};

use crate::{job_table, node_table, queues, request_table, semaphores, session_table};
use np_changes::Asked;
use np_config::Config;
use np_look::{NodeView, RequestView, Rows, asked_of, is_declined_by};
use np_machine::{Registration, SessionFacts};
use np_record::{JobRecord, NodeRecord, RequestRecord, RoleRecord};
use np_text::{JobId, NodeId, PoolId, RequestId, Role, SemId, SessionId};
use np_tree::Tree;
use std::marker::Model;

/// Reads the rows of the state that a tree stores.
#[derive(Drop)]
pub struct TreeRows<'a> {
    config: &'a Config,
    tree: &'a Tree,
}

impl<'a> Model for TreeRows<'a> {
    ghost use Rattle.np_tree_rows.specs.Lower.{decoded};
    ghost use Rattle.np_tree_rows.specs.Rows.{IsReadable, SiteState};

    ghost Value = { SiteState };

    ghost view = { λ rows. record {
      configuration = rows.config.now;
      state = decoded rows.config.now rows.tree.now;
    } };

    ghost invariant = { λ rows. IsReadable rows.config.now rows.tree.now };
}

impl<'a> TreeRows<'a> {
    /// The rows of the state that the tree stores. It reads nothing yet.
    pub fn new(config: &'a Config, tree: &'a Tree) -> TreeRows<'a>
        requires stored { IsStored config.now (decoded config.now tree.now) tree.now }
        // The last session has a number of 32 bits.
        requires begun { tree.now.begun < 2 ^ 32 }
        ensures { result ≡ record {
          configuration = config.now;
          state = decoded config.now tree.now;
        } }
    {
        TreeRows { config, tree }
    }
}

impl<'a> Rows for TreeRows<'a> {
    ghost site = { λ rows. rows.configuration };

    ghost state = { λ rows. rows.state };

    fn config(&self) -> &Config {
        self.config
    }

    fn tick(&self) -> u32 {
        session_table::tick(self.tree)
    }

    fn session(&self, session: SessionId) -> Option<SessionFacts> {
        session_table::session(self.tree, session)
    }

    fn sessions(&self) -> u32 {
        session_table::sessions(self.tree)
    }

    fn registration(&self, pool: PoolId) -> Option<SessionId> {
        session_table::registration(self.tree, pool)
    }

    fn registrations(&self) -> u32 {
        session_table::registrations(self.tree)
    }

    fn registration_at(&self, at: u32) -> Option<Registration> {
        session_table::registration_at(self.tree, self.config, at)
    }

    fn requests(&self) -> u32 {
        request_table::requests(self.tree)
    }

    fn request_at(&self, at: u32) -> Option<RequestId> {
        request_table::request_at(self.tree, at)
    }

    fn request_view(&self, at: u32) -> Option<RequestView> {
        request_table::request_view(self.tree, at)
    }

    fn request(&self, request: RequestId) -> Option<RequestRecord> {
        request_table::request(self.tree, request)
    }

    fn asked(&self, request: RequestId) -> Option<Asked> {
        match request_table::request(self.tree, request) {
            Some(kept) => Some(asked_of(&kept)),
            None => None,
        }
    }

    fn is_declined(&self, request: RequestId, pool: PoolId) -> bool {
        match request_table::request(self.tree, request) {
            Some(kept) => is_declined_by(pool, kept.declined.items()),
            None => false,
        }
    }

    fn nodes(&self) -> u32 {
        node_table::nodes(self.tree)
    }

    fn node_at(&self, at: u32) -> Option<NodeId> {
        node_table::node_at(self.tree, at)
    }

    fn node_view(&self, at: u32) -> Option<NodeView> {
        node_table::node_view(self.tree, at)
    }

    fn node(&self, node: NodeId) -> Option<NodeRecord> {
        node_table::node(self.tree, node)
    }

    fn request_queue(&self, request: RequestId, at: u32) -> Option<SessionId> {
        request_table::request_queue(self.tree, request, at)
    }

    fn node_queue(&self, node: NodeId, at: u32) -> Option<SessionId> {
        node_table::node_queue(self.tree, node, at)
    }

    fn queued_requests(&self, session: SessionId) -> u32 {
        queues::queued_requests(self.tree, session)
    }

    fn queued_request_at(&self, session: SessionId, at: u32) -> Option<RequestId> {
        queues::queued_request_at(self.tree, session, at)
    }

    fn queued_nodes(&self, session: SessionId) -> u32 {
        queues::queued_nodes(self.tree, session)
    }

    fn queued_node_at(&self, session: SessionId, at: u32) -> Option<NodeId> {
        queues::queued_node_at(self.tree, session, at)
    }

    fn handles(&self, semaphore: SemId) -> u32 {
        semaphores::handles(self.tree, semaphore)
    }

    fn handle_at(&self, semaphore: SemId, at: u32) -> Option<JobId> {
        semaphores::handle_at(self.tree, self.config, semaphore, at)
    }

    fn has_handle(&self, semaphore: SemId, job: JobId) -> bool {
        semaphores::has_handle(self.tree, semaphore, job)
    }

    fn jobs(&self) -> u32 {
        job_table::jobs(self.tree)
    }

    fn job(&self, job: JobId) -> Option<JobRecord> {
        job_table::job(self.tree, job)
    }

    fn role(&self, role: Role) -> Option<RoleRecord> {
        job_table::role(self.tree, role)
    }

    fn swept(&self, node: NodeId, server: u64) -> bool {
        semaphores::swept(self.tree, node, server)
    }

    fn next_request(&self) -> u32 {
        job_table::next_request(self.tree)
    }

    fn next_node(&self) -> u32 {
        job_table::next_node(self.tree)
    }
}
