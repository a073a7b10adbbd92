//! The nodes that the changes of an event touch, listed before it with the groups that they are in.

ghost use Rattle.std.specs.Prelude.{◌≡◌, ◌≤◌, ◌++◌, suc, true, IfOk, OnOk, length, map};
ghost use Rattle.np_active.specs.Lower.{AllByRecursion, Fits, list_any, most, node_queue, same_node, touches_node};
ghost use Rattle.np_active.specs.Given.{changes_state, nodes_by_job, nodes_by_state, nodes_of_request, IsPrepared, placed_node};

use crate::past_given::{PastNode, past_node, queue_length};
use np_changes::{Changes, JobsChange, RequestEdit, RequestsChange};
use np_look::Rows;
use np_text::{NodeId, RequestId};
use std::alloc::{AllocError, Global};
use std::marker::Model;

/// The nodes that an event's changes touch, with the groups that they are in before it, and how many
/// sessions may be in the queue of one of them after it.
#[derive(Drop)]
pub struct Prepared {
    pub(crate) past: Vec<PastNode>,
    pub(crate) most: u32,
}

impl Model for Prepared {
    ghost use Rattle.np_active.specs.Given.{PreparedOf};

    ghost Value = { PreparedOf };

    ghost view = { λ prepared. record { past = prepared.past.items; most = prepared.most } };
}

// ## lists of nodes

/// Whether the edit may change the state of the request.
fn changes_state(edit: &RequestEdit) -> bool
    ensures { result ≡ changes_state edit.now }
{
    match edit {
        RequestEdit::AddNode { .. } | RequestEdit::Revise { .. } => false,
        RequestEdit::Serve { .. } => true,
        RequestEdit::Decline { .. } => true,
        RequestEdit::Fulfil => true,
        RequestEdit::GiveBack => true,
        RequestEdit::Fail => true,
    }
}

/// Lists the nodes of the request, if it is there.
fn list_nodes<R: Rows>(
    list: &mut Vec<NodeId>,
    rows: &R,
    request: RequestId,
) -> Result<(), AllocError>
    ensures { OnOk result
        (list.new.items ≡ list.old.items ++ nodes_of_request (R.state rows.now) request) }
{
    match rows.asked(request) {
        None => Ok(()),
        Some(asked) => list.extend_from_slice(asked.nodes.items()),
    }
}

/// Lists the nodes of the request whose state changes.
fn list_by_state<R: Rows>(
    list: &mut Vec<NodeId>,
    rows: &R,
    change: &RequestsChange,
) -> Result<(), AllocError>
    ensures { OnOk result
        (list.new.items ≡ list.old.items ++ nodes_by_state change.now (R.state rows.now)) }
{
    let RequestsChange::Edit { request, edit } = change else {
        return Ok(());
    };
    if !changes_state(edit) {
        return Ok(());
    }
    list_nodes(list, rows, *request)
}

/// Lists the nodes of the request of the job whose record is put.
fn list_by_job<R: Rows>(
    list: &mut Vec<NodeId>,
    rows: &R,
    change: &JobsChange,
) -> Result<(), AllocError>
    ensures { OnOk result
        (list.new.items ≡ list.old.items ++ nodes_by_job change.now (R.state rows.now)) }
{
    let JobsChange::Put { job, .. } = change else {
        return Ok(());
    };
    let Some(kept) = rows.job(*job) else {
        return Ok(());
    };
    let Some(request) = kept.request else {
        return Ok(());
    };
    list_nodes(list, rows, request)
}

/// The nodes that are touched, then those of the request whose state changes, then those of the
/// request of the job whose record is put.
fn listed_nodes<R: Rows>(
    alloc: Global,
    rows: &R,
    changes: &Changes,
    touched: &[NodeId],
) -> Result<Vec<NodeId>, AllocError>
    ensures { IfOk result (λ list. list.items
        ≡ (touched.now ++ nodes_by_state changes.now.requests (R.state rows.now))
        ++ nodes_by_job changes.now.jobs (R.state rows.now)) }
{
    let mut list = Vec::new(alloc);
    list.extend_from_slice(touched)?;
    list_by_state(&mut list, rows, &changes.requests)?;
    list_by_job(&mut list, rows, &changes.jobs)?;
    Ok(list)
}

/// One more than the sessions in the longest of the nodes' queues. One lookup for each session.
fn most_queued<R: Rows>(rows: &R, nodes: &[NodeId]) -> u32
    requires { Fits (R.site rows.now) (R.state rows.now) }
    ensures { AllByRecursion
        (λ n. suc (length (node_queue n (R.state rows.now).nodes)) ≤ result) nodes.now }
{
    let mut most = 1;
    for node in nodes {
        let count = queue_length(rows, *node) + 1;
        if most < count {
            most = count;
        }
    }
    most
}

// ## what is prepared

/// The nodes with their groups. A few lookups for each, and two for each session in its queue.
fn past_nodes<R: Rows>(
    alloc: Global,
    rows: &R,
    nodes: &[NodeId],
) -> Result<Vec<PastNode>, AllocError>
    requires { Fits (R.site rows.now) (R.state rows.now) }
    ensures { IfOk result (λ list. list.items
        ≡ map (placed_node (R.site rows.now) (R.state rows.now)) nodes.now) }
{
    let mut list = Vec::new(alloc);
    for node in nodes {
        list.push(past_node(alloc, rows, *node)?)?;
    }
    Ok(list)
}

/// What the changes touch, with the groups that it is in. The nodes whose records or queues change
/// are passed; those of the request whose state changes and of the job whose record is put are
/// read from their requests.
pub(crate) fn prepared_by<R: Rows>(
    alloc: Global,
    rows: &R,
    changes: &Changes,
    touched: &[NodeId],
) -> Result<Prepared, AllocError>
    requires fits { Fits (R.site rows.now) (R.state rows.now) }
    requires touched { (n : NodeId) → touches_node changes.now (R.state rows.now) n ≡ true
        → list_any (λ m. same_node m n) touched.now ≡ true }
    ensures { IfOk result (λ prepared.
        IsPrepared (R.site rows.now) (R.state rows.now) changes.now prepared) }
{
    let nodes = listed_nodes(alloc, rows, changes, touched)?;
    let past = past_nodes(alloc, rows, nodes.as_slice())?;
    let most = most_queued(rows, nodes.as_slice());
    Ok(Prepared { past, most })
}
