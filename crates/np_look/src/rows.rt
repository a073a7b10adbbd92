//! The rows of a state, as every representation of it reads them.

ghost use Rattle.std.specs.Prelude.{◌≡◌, length, slice_get};
ghost use Rattle.np_look.specs.Lower.{Configuration, State, asked_of, handles_of, has_handle, is_swept, node_in, node_queue, option_map, registered, request_in, request_queue, role_in, session_of};
ghost use Rattle.np_look.specs.Jobs.{request_view, node_view};
ghost use Rattle.np_look.specs.Readers.{is_declined, queued_requests, queued_nodes};

use crate::asked::{NodeView, RequestView};
use crate::walk::asked_of;
use np_amount::Amount;
use np_changes::Asked;
use np_config::{Config, Job};
use np_machine::{Registration, SessionFacts};
use np_record::{JobRecord, NodeRecord, RequestRecord, RoleRecord};
use np_text::{JobId, NodeId, PoolId, RequestId, Role, SemId, SessionId};

/// Reads the rows of a state. No call takes memory.
pub trait Rows {
    /// The configuration.
    ghost site: { Self → Configuration };
    /// The state.
    ghost state: { Self → State };

    /// The configuration.
    fn config(&self) -> &Config
        ensures { result.now ≡ site self.now };

    /// How many ticks have passed.
    fn tick(&self) -> u32
        ensures { result ≡ (state self.now).tick };

    /// What is known of the session, or `None` if and only if it was never begun.
    fn session(&self, session: SessionId) -> Option<SessionFacts>
        ensures { result ≡ session_of session (state self.now) };

    /// How many sessions were begun; they count from 1.
    fn sessions(&self) -> u32
        ensures { result ≡ length (state self.now).sessions };

    /// The session that is registered for the pool.
    fn registration(&self, pool: PoolId) -> Option<SessionId>
        ensures { result ≡ registered pool (state self.now).registrations };

    /// How many registrations there are.
    fn registrations(&self) -> u32
        ensures { result ≡ length (state self.now).registrations };

    /// The registration at a place.
    fn registration_at(&self, at: u32) -> Option<Registration>
        ensures { result ≡ slice_get (state self.now).registrations at };

    /// How many requests there are.
    fn requests(&self) -> u32
        ensures { result ≡ length (state self.now).requests };

    /// The request at a place, by priority and then sequence: the byte order of their texts.
    fn request_at(&self, at: u32) -> Option<RequestId>
        ensures { result ≡ option_map (λ e. e.id) (slice_get (state self.now).requests at) };

    /// The request at a place, with its record and who holds it.
    fn request_view(&self, at: u32) -> Option<RequestView>
        ensures { result ≡ option_map request_view (slice_get (state self.now).requests at) };

    /// The request's record. It is found by binary search.
    fn request(&self, request: RequestId) -> Option<RequestRecord>
        ensures { result ≡ request_in request (state self.now).requests };

    /// The request's record without its declines.
    fn asked(&self, request: RequestId) -> Option<Asked>
        ensures { result ≡ option_map asked_of (request_in request (state self.now).requests) };

    /// Whether the pool is among the request's declines.
    fn is_declined(&self, request: RequestId, pool: PoolId) -> bool
        ensures { result ≡ is_declined pool request (state self.now) };

    /// How many nodes there are.
    fn nodes(&self) -> u32
        ensures { result ≡ length (state self.now).nodes };

    /// The node at a place, by number.
    fn node_at(&self, at: u32) -> Option<NodeId>
        ensures { result ≡ option_map (λ e. e.id) (slice_get (state self.now).nodes at) };

    /// The node at a place, with its record and who holds it.
    fn node_view(&self, at: u32) -> Option<NodeView>
        ensures { result ≡ option_map node_view (slice_get (state self.now).nodes at) };

    /// The node's record. It is found by binary search.
    fn node(&self, node: NodeId) -> Option<NodeRecord>
        ensures { result ≡ node_in node (state self.now).nodes };

    /// The session at a place of the request's queue; the one at 0 holds it.
    fn request_queue(&self, request: RequestId, at: u32) -> Option<SessionId>
        ensures { result ≡ slice_get (request_queue request (state self.now).requests) at };

    /// The session at a place of the node's queue; the one at 0 holds it.
    fn node_queue(&self, node: NodeId, at: u32) -> Option<SessionId>
        ensures { result ≡ slice_get (node_queue node (state self.now).nodes) at };

    /// In how many requests' queues the session is.
    fn queued_requests(&self, session: SessionId) -> u32
        ensures { result ≡ length (queued_requests session (state self.now)) };

    /// The request at a place among those in whose queues the session is, by priority and then
    /// sequence.
    fn queued_request_at(&self, session: SessionId, at: u32) -> Option<RequestId>
        ensures { result ≡ slice_get (queued_requests session (state self.now)) at };

    /// In how many nodes' queues the session is.
    fn queued_nodes(&self, session: SessionId) -> u32
        ensures { result ≡ length (queued_nodes session (state self.now)) };

    /// The node at a place among those in whose queues the session is, by number.
    fn queued_node_at(&self, session: SessionId, at: u32) -> Option<NodeId>
        ensures { result ≡ slice_get (queued_nodes session (state self.now)) at };

    /// How many jobs have a handle of the semaphore.
    fn handles(&self, semaphore: SemId) -> u32
        ensures { result ≡ length (handles_of semaphore (state self.now).handles) };

    /// The job at a place among those that have a handle of the semaphore, by number.
    fn handle_at(&self, semaphore: SemId, at: u32) -> Option<JobId>
        ensures { result ≡ slice_get (handles_of semaphore (state self.now).handles) at };

    /// Whether the job has a handle of the semaphore. Its cost grows with the semaphore's handles.
    fn has_handle(&self, semaphore: SemId, job: JobId) -> bool
        ensures { result ≡ has_handle job (state self.now).handles semaphore };

    /// How many jobs there are.
    fn jobs(&self) -> u32
        ensures { result ≡ length (state self.now).jobs };

    /// The job's record.
    fn job(&self, job: JobId) -> Option<JobRecord>
        ensures { result ≡ slice_get (state self.now).jobs job.0 };

    /// What the role has done, or `None` if and only if it is no role of the configuration.
    fn role(&self, role: Role) -> Option<RoleRecord>
        ensures { result ≡ role_in role (state self.now) };

    /// Whether the server of the node was swept. The pair is found by binary search.
    fn swept(&self, node: NodeId, server: u64) -> bool
        ensures { result ≡ is_swept node server (state self.now).swept };

    /// The number of the next request.
    fn next_request(&self) -> u32
        ensures { result ≡ (state self.now).next_request };

    /// The number of the next node.
    fn next_node(&self) -> u32
        ensures { result ≡ (state self.now).next_node };
}
