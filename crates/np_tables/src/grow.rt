//! What grows in the vectors. There is room for it, so nothing here fails.

ghost use Rattle.std.specs.Prelude.{◌≡◌, ◌<◌, ◌==◌, ◌+◌, ◌++◌, ◌∷◌, [], nat_lt, true, false, vec_capacity, vec_len};
ghost use Rattle.np_tables.specs.Lower.{AllByRecursion, all_with_handle, allocated, by_maker, change_first, grown, insert_before, insert_request, joined, new_record, next_id, node_queue, position, put_node_queue, put_request_queue, registers, request_queue, semaphores_of, with_pair};
ghost use Rattle.np_tables.specs.CanChange.{CanGrow, TakesNode, TakesRequest, IsRoomFor, queue_after};

use crate::edits::{Allocate, PutQueue};
use crate::handles::add_handles;
use crate::vectors::Vectors;
use np_changes::{Asked, Growth, Maker};
use np_config::Config;
use np_machine::{Locked, Queue, Registration, RequestEntry, SessionFacts, Swept};
use np_record::{DeclineRow, NodeRecord, RequestRecord};
use np_text::{JobId, NodeId, PoolId, RequestId, Role, SessionId, TenantId};
use std::alloc::Global;

/// A request that no pool has declined, and that nobody holds.
fn new_request(alloc: Global, id: RequestId, asked: &Asked) -> RequestEntry
    ensures { result ≡ record { id = id; kept = new_record asked.now; queue = [] } }
{
    Locked {
        id,
        kept: RequestRecord {
            declined: DeclineRow::new(),
            job: asked.job,
            labels: asked.labels,
            nodes: asked.nodes,
            pinned: asked.pinned,
            pool: asked.pool,
            relative_priority: asked.relative_priority,
            state: asked.state,
        },
        queue: Queue::new(alloc),
    }
}

/// The place of the first registration of a later pool.
fn place_after(registrations: &[Registration], pool: PoolId) -> Option<usize>
    ensures { result ≡ position (λ g. nat_lt pool.0 g.pool.0) registrations.now }
{
    registrations.iter().position(|g| pool.0 < g.pool.0)
}

/// A new registration is added at its pool's place.
fn add_registration(registrations: &mut Vec<Registration>, new: Registration)
    requires { vec_len registrations.old < vec_capacity registrations.old }
    ensures { registrations.new.items ≡
        insert_before (λ g. nat_lt new.pool.0 g.pool.0) new registrations.old.items }
{
    let Some(at) = place_after(registrations.as_slice(), new.pool) else {
        registrations.push_reserved(new);
        return;
    };
    let _done = registrations.insert(at, new);
}

impl Vectors {
    /// What grows. `queue` is the queue that the maker joins, with the maker at its end.
    pub(crate) fn grow(
        &mut self,
        config: &Config,
        maker: Option<Maker>,
        growth: &Growth,
        queue: Queue<SessionId>,
    )
        requires grows { CanGrow growth.now self.old.state }
        requires room { IsRoomFor growth.now self.old.room }
        requires queue { queue ≡ queue_after maker growth.now self.old.state }
        ensures { self.new.state ≡ grown config.now maker growth.now self.old.state }
    {
        match growth {
            Growth::Nothing => {}
            Growth::Session { role } => self.begin_session(*role),
            Growth::Registration { pool } => self.register(maker, *pool),
            Growth::Request { priority, asked } => self.add_request(*priority, asked),
            Growth::Node { kept } => self.add_node(maker, kept, queue),
            Growth::JoinRequest { request } => self.join_request(maker, *request, queue),
            Growth::JoinNode { node } => self.join_node(maker, *node, queue),
            Growth::Allocate {
                node,
                request,
                tenant,
            } => self.allocate(maker, *node, *request, *tenant, queue),
            Growth::Handles { job } => self.take_handles(config, *job),
            Growth::Swept { node, server } => self.add_swept(*node, *server),
        }
    }

    /// A session of the role begins.
    fn begin_session(&mut self, role: Role)
        requires { 0 < self.old.room.sessions }
        ensures { self.new.state ≡ record self.old.state {
          sessions = self.old.state.sessions ++ record { role = role; live = true; mute = false } ∷ [];
        } }
    {
        self.sessions.push_reserved(SessionFacts {
            role,
            live: true,
            mute: false,
        });
    }

    /// The maker registers for the pool.
    fn register(&mut self, maker: Option<Maker>, pool: PoolId)
        requires { 0 < self.old.room.registrations }
        ensures { self.new.state ≡
            by_maker maker (λ session s. registers s session pool) self.old.state }
    {
        let Some(maker) = maker else {
            return;
        };
        let new = Registration {
            pool,
            session: maker.session,
        };
        add_registration(&mut self.registrations, new);
    }

    /// A request with the next number, which nobody holds.
    fn add_request(&mut self, priority: u16, asked: &Asked)
        requires takes { TakesRequest self.old.state }
        requires room { 0 < self.old.room.requests }
        ensures { self.new.state ≡ record self.old.state {
          requests = insert_request (record {
            id = next_id priority self.old.state;
            kept = new_record asked.now;
            queue = [];
          }) self.old.state.requests;
          next_request = self.old.state.next_request + 1;
        } }
    {
        let id = RequestId {
            priority,
            seq: self.next_request,
        };
        self.requests.insert(new_request(self.alloc, id, asked));
        self.next_request += 1;
    }

    /// A node with the next number, which the maker holds.
    fn add_node(&mut self, maker: Option<Maker>, kept: &NodeRecord, queue: Queue<SessionId>)
        requires takes { TakesNode self.old.state }
        requires room { 0 < self.old.room.nodes }
        requires queue { queue ≡ by_maker maker joined [] }
        ensures { self.new.state ≡ record self.old.state {
          nodes = self.old.state.nodes ++ record {
            id = record { 0 = self.old.state.next_node };
            kept = kept.now;
            queue = by_maker maker (λ session queue. queue ++ session ∷ []) [];
          } ∷ [];
          next_node = self.old.state.next_node + 1;
        } }
    {
        self.nodes.insert(Locked {
            id: NodeId(self.next_node),
            kept: *kept,
            queue,
        });
        self.next_node += 1;
    }

    /// The maker joins the request's queue.
    fn join_request(&mut self, maker: Option<Maker>, request: RequestId, queue: Queue<SessionId>)
        requires { queue ≡ by_maker maker joined (request_queue request self.old.state.requests) }
        ensures { self.new.state ≡ record self.old.state {
          requests = by_maker maker (λ session rows.
              put_request_queue request (joined session (request_queue request rows)) rows)
              self.old.state.requests;
        } }
    {
        if let Some(_) = maker {
            self.requests.edit(request, PutQueue { queue });
        }
    }

    /// The maker joins the node's queue.
    fn join_node(&mut self, maker: Option<Maker>, node: NodeId, queue: Queue<SessionId>)
        requires { queue ≡ by_maker maker joined (node_queue node self.old.state.nodes) }
        ensures { self.new.state ≡ record self.old.state {
          nodes = by_maker maker (λ session rows.
              put_node_queue node (joined session (node_queue node rows)) rows)
              self.old.state.nodes;
        } }
    {
        if let Some(_) = maker {
            self.nodes.edit(node, PutQueue { queue });
        }
    }

    /// The node is allocated to the request, for the tenant, and the maker joins its queue.
    fn allocate(
        &mut self,
        maker: Option<Maker>,
        node: NodeId,
        request: RequestId,
        tenant: Option<TenantId>,
        queue: Queue<SessionId>,
    )
        requires { queue ≡ by_maker maker joined (node_queue node self.old.state.nodes) }
        ensures { self.new.state ≡ record self.old.state {
          nodes = by_maker maker (λ session rows.
              change_first (λ e. e.id.0 == node.0) (allocated request tenant session) rows)
              self.old.state.nodes;
        } }
    {
        if let Some(_) = maker {
            let allocate = Allocate {
                request,
                tenant,
                queue,
            };
            self.nodes.edit(node, allocate);
        }
    }

    /// The job takes a handle of each of its semaphores.
    fn take_handles(&mut self, config: &Config, job: JobId)
        requires { AllByRecursion (λ more. 0 < more) self.old.room.handles }
        ensures { self.new.state ≡ record self.old.state {
          handles = all_with_handle job (semaphores_of config.now job) self.old.state.handles;
        } }
    {
        let Some(row) = config.job(job) else {
            return;
        };
        add_handles(&mut self.handles, row.semaphores.items(), job);
    }

    /// The server was swept.
    fn add_swept(&mut self, node: NodeId, server: u64)
        requires { 0 < self.old.room.swept }
        ensures { self.new.state ≡ record self.old.state {
          swept = with_pair node server self.old.state.swept;
        } }
    {
        let pair = Swept { node, server };
        if self.swept.has(pair) {
            return;
        }
        self.swept.insert(pair);
    }
}
