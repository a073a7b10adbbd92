//! The edits of one request or one node under its lock.

ghost use Rattle.np_tables.specs.Lower.{Locked, NodeEntry, edited, freed_from, in_use, is_request, left};
ghost use Rattle.np_tables.specs.CanChange.{edited_in_room, has_room};
ghost use Rattle.std.specs.Prelude.{◌≡◌, Some, true};

use np_changes::RequestEdit;
use np_lists::{RowChange, RowEdit};
use np_machine::{Locked, NodeEntry, Queue, RequestEntry};
use np_record::{Declined, NodeRow, RequestRecord};
use np_text::{JOB_LABELS, NodeState, POOLS, RequestId, RequestState, SessionId, TenantId};
use std::convert::Infallible;

/// Another record.
#[derive(Drop)]
pub struct Put<K> {
    pub kept: K,
}

/// The request's record is edited, if its rows have room.
#[derive(Drop)]
pub struct Edit {
    pub edit: RequestEdit,
}

/// Another queue.
#[derive(Drop)]
pub struct PutQueue {
    pub queue: Queue<SessionId>,
}

/// The session leaves the queue.
#[derive(Drop)]
pub struct Leave {
    pub session: SessionId,
}

/// The node is allocated to the request, for the tenant, and has another queue.
#[derive(Drop)]
pub struct Allocate {
    pub request: RequestId,
    pub tenant: Option<TenantId>,
    pub queue: Queue<SessionId>,
}

/// The node is freed, if it is allocated to the request.
#[derive(Drop)]
pub struct Free {
    pub request: RequestId,
}

/// The node is in use from this tick.
#[derive(Drop)]
pub struct TakeOver {
    pub tick: u32,
}

impl<I, K: Copy> RowEdit<Locked<I, K>> for Put<K> {
    ghost after = { λ put row. record row { kept = put.kept } };

    fn make(self, row: &mut Locked<I, K>) {
        row.kept = self.kept;
    }
}

/// Whether the record's rows have room for the edit.
fn has_room(edit: RequestEdit, kept: &RequestRecord) -> bool
    ensures { result ≡ has_room edit kept.now }
{
    match edit {
        RequestEdit::AddNode { node: _ } => (kept.nodes.len() as usize) < JOB_LABELS,
        RequestEdit::Decline { .. } => (kept.declined.len() as usize) < POOLS,
        RequestEdit::Serve { pool: _ }
        | RequestEdit::Fulfil
        | RequestEdit::GiveBack
        | RequestEdit::Fail
        | RequestEdit::Revise { relative: _ } => true,
    }
}

/// The record is edited in place.
fn edit_record(edit: RequestEdit, kept: &mut RequestRecord)
    requires { has_room edit kept.old ≡ true }
    ensures { kept.new ≡ edited edit kept.old }
{
    match edit {
        RequestEdit::Serve { pool } => {
            kept.pool = Some(pool);
            kept.state = RequestState::Pending;
        }
        RequestEdit::AddNode { node } => {
            let _room = kept.nodes.push(node);
        }
        RequestEdit::Decline {
            pool,
            reason,
            failed,
        } => {
            let _room = kept.declined.push(Declined { pool, reason });
            kept.nodes = NodeRow::new();
            kept.pool = None;
            kept.state = if failed {
                RequestState::Failed
            } else {
                RequestState::Requested
            };
        }
        RequestEdit::Fulfil => kept.state = RequestState::Fulfilled,
        RequestEdit::GiveBack => {
            kept.nodes = NodeRow::new();
            kept.pool = None;
            kept.state = RequestState::Requested;
        }
        RequestEdit::Fail => kept.state = RequestState::Failed,
        RequestEdit::Revise { relative } => kept.relative_priority = relative,
    }
}

impl RowEdit<RequestEntry> for Edit {
    ghost after = { λ edit row. record row { kept = edited_in_room edit.edit row.kept } };

    fn make(self, row: &mut RequestEntry) {
        if has_room(self.edit, &row.kept) {
            edit_record(self.edit, &mut row.kept);
        }
    }
}

impl<I, K> RowEdit<Locked<I, K>> for PutQueue {
    ghost after = { λ put row. record row { queue = put.queue } };

    fn make(self, row: &mut Locked<I, K>) {
        row.queue = self.queue;
    }
}

impl<I, K> RowEdit<Locked<I, K>> for Leave {
    ghost after = { λ leave row. record row { queue = left leave.session row.queue } };

    fn make(self, row: &mut Locked<I, K>) {
        row.queue.leave(self.session);
    }
}

impl RowEdit<NodeEntry> for Allocate {
    ghost after = { λ allocate row. record row {
      kept = record row.kept { allocated_to = Some allocate.request; tenant = allocate.tenant };
      queue = allocate.queue;
    } };

    fn make(self, row: &mut NodeEntry) {
        row.kept.allocated_to = Some(self.request);
        row.kept.tenant = self.tenant;
        row.queue = self.queue;
    }
}

/// Whether the allocation is to the request.
fn is_allocated_to(request: RequestId, found: Option<RequestId>) -> bool
    ensures { result ≡ is_request request found }
{
    matches!(found, Some(other) if other.priority == request.priority && other.seq == request.seq)
}

impl RowChange<NodeEntry> for Free {
    type Error = Infallible;

    ghost after = { λ free row. freed_from free.request row };

    fn make(&self, row: &mut NodeEntry) -> Result<(), Infallible> {
        if is_allocated_to(self.request, row.kept.allocated_to) {
            row.kept.allocated_to = None;
            row.kept.tenant = None;
        }
        Ok(())
    }
}

impl RowEdit<NodeEntry> for TakeOver {
    ghost after = { λ take_over row. in_use take_over.tick row };

    fn make(self, row: &mut NodeEntry) {
        row.kept.since = self.tick;
        row.kept.state = NodeState::InUse;
    }
}
