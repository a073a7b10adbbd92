//! The requests and the nodes, each with its lock's queue.

ghost use Rattle.std.specs.Prelude.{◌≡◌, slice_get, IfOk};
ghost use Rattle.np_keeper.specs.Lower.{Fits, IsReached};

use crate::append::push;
use crate::queue::{node_queue_of, request_queue_of};
use np_look::Rows;
use np_machine::{NodeEntry, RequestEntry};
use np_tables::{NodeTable, RequestTable};
use std::alloc::{AllocError, Global};

/// The request at a place with its queue, or `None` past the last one.
fn request_entry<R: Rows>(
    alloc: Global,
    rows: &R,
    at: u32,
) -> Result<Option<RequestEntry>, AllocError>
    requires reached { IsReached (R.site rows.now) (R.state rows.now) }
    requires fits { Fits (R.site rows.now) (R.state rows.now) }
    ensures { IfOk result (λ entry. entry ≡ slice_get (R.state rows.now).requests at) }
{
    let Some(view) = rows.request_view(at) else {
        return Ok(None);
    };
    let queue = request_queue_of(alloc, rows, view.id)?;
    Ok(Some(RequestEntry {
        id: view.id,
        kept: view.kept,
        queue,
    }))
}

/// The requests, by priority and then sequence. It costs one look-up of each request, and one of
/// each session in their queues.
pub(crate) fn requests_of<R: Rows>(alloc: Global, rows: &R) -> Result<RequestTable, AllocError>
    requires reached { IsReached (R.site rows.now) (R.state rows.now) }
    requires fits { Fits (R.site rows.now) (R.state rows.now) }
    ensures { IfOk result (λ table. table.rows ≡ (R.state rows.now).requests) }
{
    let mut table = RequestTable::new(alloc);
    for at in 0..rows.requests() {
        if let Some(entry) = request_entry(alloc, rows, at)? {
            push(&mut table, entry)?;
        }
    }
    Ok(table)
}

/// The node at a place with its queue, or `None` past the last one.
fn node_entry<R: Rows>(alloc: Global, rows: &R, at: u32) -> Result<Option<NodeEntry>, AllocError>
    requires reached { IsReached (R.site rows.now) (R.state rows.now) }
    requires fits { Fits (R.site rows.now) (R.state rows.now) }
    ensures { IfOk result (λ entry. entry ≡ slice_get (R.state rows.now).nodes at) }
{
    let Some(view) = rows.node_view(at) else {
        return Ok(None);
    };
    let queue = node_queue_of(alloc, rows, view.id)?;
    Ok(Some(NodeEntry {
        id: view.id,
        kept: view.kept,
        queue,
    }))
}

/// The nodes, by number. It costs one look-up of each node, and one of each session in their queues.
pub(crate) fn nodes_of<R: Rows>(alloc: Global, rows: &R) -> Result<NodeTable, AllocError>
    requires reached { IsReached (R.site rows.now) (R.state rows.now) }
    requires fits { Fits (R.site rows.now) (R.state rows.now) }
    ensures { IfOk result (λ table. table.rows ≡ (R.state rows.now).nodes) }
{
    let mut table = NodeTable::new(alloc);
    for at in 0..rows.nodes() {
        if let Some(entry) = node_entry(alloc, rows, at)? {
            push(&mut table, entry)?;
        }
    }
    Ok(table)
}
