//! For each session, by its number, the rows in whose queues it is.

ghost use Rattle.std.specs.Prelude.{◌≡◌, IfOk, OnErr, OnOk};
ghost use Rattle.np_lookups.specs.Lower.{Fits};
ghost use Rattle.np_lookups.specs.Lookups.{lists_ended, lists_joined, lists_left, lists_removed, lists_taken_back, lists_without, holder_at, queue_at};

use crate::lists::{add_at, clear_at, remove_at, take_back_at};
use crate::waits::Wait;
use np_lists::{KeyTable, Order};
use np_look::{Rows, request_holder};
use np_text::{NodeId, RequestId, SessionId};
use std::alloc::{AllocError, Global};

/// The session's list has the row, unless it is there; true if it was added.
pub(crate) fn join<O: Order>(
    lists: &mut Vec<KeyTable<O>>,
    wait: Option<Wait<O::Row>>,
) -> Result<bool, AllocError>
    ensures ok { OnOk result (lists.new.items ≡ lists_joined (λ a b. O.before (O.key a) (O.key b))
        (λ a b. O.same (O.key a) (O.key b)) wait lists.old.items) }
    ensures undo { IfOk result (λ added. lists_taken_back (λ a b. O.same (O.key a) (O.key b))
        wait added lists.new.items ≡ lists.old.items) }
    ensures err { OnErr result (lists.new.items ≡ lists.old.items) }
{
    let Some(wait) = wait else {
        return Ok(false);
    };
    add_at(lists, wait.session.0 as usize, wait.id)
}

/// Takes the row out of the session's list again, if it was added.
pub(crate) fn take_back<O: Order>(
    lists: &mut Vec<KeyTable<O>>,
    wait: Option<Wait<O::Row>>,
    added: bool,
)
    ensures { lists.new.items ≡ lists_taken_back (λ a b. O.same (O.key a) (O.key b))
        wait added lists.old.items }
{
    if let Some(wait) = wait {
        take_back_at(lists, wait.session.0 as usize, &wait.id, added);
    }
}

/// Removes the row from the session's list.
pub(crate) fn leave<O: Order>(lists: &mut Vec<KeyTable<O>>, wait: Option<Wait<O::Row>>)
    ensures { lists.new.items ≡ lists_left (λ a b. O.same (O.key a) (O.key b)) wait lists.old.items }
{
    if let Some(wait) = wait {
        remove_at(lists, wait.session.0 as usize, &wait.id);
    }
}

/// Removes the row from the lists of all sessions of the queue.
fn leave_all<O: Order>(lists: &mut Vec<KeyTable<O>>, row: &O::Row, queue: &[SessionId])
    ensures { lists.new.items ≡ lists_without (λ a b. O.same (O.key a) (O.key b))
        row.now queue.now lists.old.items }
{
    for session in queue {
        remove_at(lists, session.0 as usize, row);
    }
}

/// Removes a row that goes from the lists of all sessions of its queue.
pub(crate) fn remove<O: Order>(
    lists: &mut Vec<KeyTable<O>>,
    row: Option<O::Row>,
    queue: &[SessionId],
)
    ensures { lists.new.items ≡ lists_removed (λ a b. O.same (O.key a) (O.key b))
        row queue.now lists.old.items }
{
    if let Some(row) = row {
        leave_all(lists, &row, queue);
    }
}

/// Empties the list of a session that ends.
pub(crate) fn end<O: Order>(alloc: Global, lists: &mut Vec<KeyTable<O>>, session: Option<SessionId>)
    ensures { lists.new.items ≡ lists_ended session lists.old.items }
{
    if let Some(session) = session {
        clear_at(alloc, lists, session.0 as usize);
    }
}

/// The queue of a node that goes. It takes memory only if there is such a node.
pub(crate) fn queue_of<R: Rows>(
    alloc: Global,
    rows: &R,
    node: Option<NodeId>,
) -> Result<Vec<SessionId>, AllocError>
    requires { Fits (R.site rows.now) (R.state rows.now) }
    ensures { IfOk result (λ queue. queue.items ≡ queue_at node (R.state rows.now)) }
{
    let mut queue = Vec::new(alloc);
    let Some(node) = node else {
        return Ok(queue);
    };
    while let Some(session) = rows.node_queue(node, queue.len() as u32) {
        queue.push(session)?;
    }
    Ok(queue)
}

/// The holder of a request that goes.
pub(crate) fn holder_of<R: Rows>(rows: &R, request: Option<RequestId>) -> Option<SessionId>
    ensures { result ≡ holder_at request (R.state rows.now) }
{
    request_holder(rows, request?)
}
