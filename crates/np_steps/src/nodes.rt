//! The parts for what happens to the nodes.

ghost use Rattle.std.specs.Prelude.{◌≡◌, ◌++◌, ◌∷◌, [], OnOk};
ghost use Rattle.np_steps.specs.Lower.{AllByRecursion, IsCarried, IsNode, Node, NodeLock, NodesReady, change_parts, each_changed, freed_from, is_request, leave_parts, node_deletes, node_entry, node_text, nodes_changed, nodes_of, nodes_parts, put_node, set, where_there};
ghost use Rattle.np_steps.specs.NodeEdits.{KeepsNodes, edited_entry, edited_record};

use crate::ops::{push_delete, push_deletes, push_leave, push_set};
use np_changes::{Maker, NodesChange};
use np_layout::Place;
use np_look::Rows;
use np_record::NodeRecord;
use np_text::{Ample, NodeId, NodeState, RequestId, SessionId};
use np_tree::Tree;
use np_tree_nodes::Op;
use std::alloc::Global;

/// What happens to the record of each of several nodes.
#[derive(Clone, Copy)]
pub(crate) enum NodeEdit {
    /// It is free, if it is allocated to the request.
    Free { request: RequestId },
    /// It is in use from this tick.
    TakeOver { tick: u32 },
}

/// Puts the parts for a change of the nodes behind others. If memory runs out nothing is promised
/// of them.
pub(crate) fn push_nodes<R: Rows>(
    alloc: Global,
    ops: &mut Vec<Op>,
    tree: &Tree,
    rows: &R,
    maker: Option<Maker>,
    change: &NodesChange,
) -> Ample
    requires carried { IsCarried (R.site rows.now) (R.state rows.now) }
    requires spelled { let s = R.state rows.now in
        AllByRecursion (λ e. IsNode e.kept) (nodes_changed maker s.tick change.now s.nodes) }
    requires ready { let s = R.state rows.now in
        NodesReady change.now s.tick s.requests s.nodes }
    ensures { let s = R.state rows.now in OnOk result (ops.new.items ≡ ops.old.items
        ++ nodes_parts maker s.tick s.requests change.now s.nodes tree.now) }
{
    match change {
        NodesChange::Same => Ok(()),
        NodesChange::Put { node, kept } => push_record(alloc, ops, rows, *node, kept),
        NodesChange::Remove { node } => push_removal(alloc, ops, tree, rows, *node),
        NodesChange::Leave { node } => match maker {
            Some(maker) => push_leaving(alloc, ops, tree, rows, maker.session, *node),
            None => Ok(()),
        },
        NodesChange::FreeAll { request } => push_freed(alloc, ops, rows, *request),
        NodesChange::TakeOver { nodes } => {
            let edit = NodeEdit::TakeOver { tick: rows.tick() };
            push_edits(alloc, ops, rows, edit, nodes.items())
        }
    }
}

/// A set of the node's record to another, if the node is there.
fn push_record<R: Rows>(
    alloc: Global,
    ops: &mut Vec<Op>,
    rows: &R,
    id: NodeId,
    kept: &NodeRecord,
) -> Ample
    requires { AllByRecursion (λ e. IsNode e.kept)
        (put_node id kept.now (R.state rows.now).nodes) }
    ensures { OnOk result (ops.new.items ≡ ops.old.items
        ++ where_there (node_entry id (R.state rows.now).nodes)
        (λ e. set (node_text kept.now) (Node id) ∷ [])) }
{
    let Some(_) = rows.node(id) else {
        return Ok(());
    };
    push_set(alloc, ops, Place::Node(id), kept)
}

/// The deletes of the node's waits, of its lock and of its record, if the node is there.
fn push_removal<R: Rows>(
    alloc: Global,
    ops: &mut Vec<Op>,
    tree: &Tree,
    rows: &R,
    id: NodeId,
) -> Ample
    ensures { OnOk result (ops.new.items ≡ ops.old.items
        ++ where_there (node_entry id (R.state rows.now).nodes)
        (λ e. node_deletes id tree.now)) }
{
    let Some(_) = rows.node(id) else {
        return Ok(());
    };
    push_deletes(alloc, ops, tree, Place::NodeLock(id))?;
    push_delete(alloc, ops, Place::NodeLock(id))?;
    push_delete(alloc, ops, Place::Node(id))
}

/// The delete of the session's wait for the node, if the node is there.
fn push_leaving<R: Rows>(
    alloc: Global,
    ops: &mut Vec<Op>,
    tree: &Tree,
    rows: &R,
    session: SessionId,
    id: NodeId,
) -> Ample
    ensures { OnOk result (ops.new.items ≡ ops.old.items
        ++ where_there (node_entry id (R.state rows.now).nodes)
        (λ e. leave_parts (NodeLock id) tree.now session)) }
{
    let Some(_) = rows.node(id) else {
        return Ok(());
    };
    push_leave(alloc, ops, tree, Place::NodeLock(id), session)
}

/// A set of each of the request's nodes to its record, free.
fn push_freed<R: Rows>(alloc: Global, ops: &mut Vec<Op>, rows: &R, id: RequestId) -> Ample
    requires { IsCarried (R.site rows.now) (R.state rows.now) }
    ensures { let s = R.state rows.now in OnOk result (ops.new.items ≡ ops.old.items
        ++ each_changed (freed_from id) (nodes_of id s.requests) s.nodes) }
{
    let Some(kept) = rows.request(id) else {
        return Ok(());
    };
    let edit = NodeEdit::Free { request: id };
    push_edits(alloc, ops, rows, edit, kept.nodes.items())
}

/// A set of each of the nodes that is there to its record, edited.
fn push_edits<R: Rows>(
    alloc: Global,
    ops: &mut Vec<Op>,
    rows: &R,
    edit: NodeEdit,
    nodes: &[NodeId],
) -> Ample
    requires carried { IsCarried (R.site rows.now) (R.state rows.now) }
    requires sound { KeepsNodes edit }
    ensures { OnOk result (ops.new.items ≡ ops.old.items
        ++ each_changed (edited_entry edit) nodes.now (R.state rows.now).nodes) }
{
    for node in nodes {
        push_edit(alloc, ops, rows, edit, *node)?;
    }
    Ok(())
}

/// A set of the node's record, edited, if the node is there.
fn push_edit<R: Rows>(
    alloc: Global,
    ops: &mut Vec<Op>,
    rows: &R,
    edit: NodeEdit,
    id: NodeId,
) -> Ample
    requires carried { IsCarried (R.site rows.now) (R.state rows.now) }
    requires sound { KeepsNodes edit }
    ensures { OnOk result (ops.new.items ≡ ops.old.items
        ++ where_there (node_entry id (R.state rows.now).nodes)
        (change_parts (edited_entry edit))) }
{
    let Some(kept) = rows.node(id) else {
        return Ok(());
    };
    let later = edited(edit, kept);
    push_set(alloc, ops, Place::Node(id), &later)
}

/// The record, edited.
fn edited(edit: NodeEdit, kept: NodeRecord) -> NodeRecord
    ensures { result ≡ edited_record edit kept }
{
    let mut later = kept;
    match edit {
        NodeEdit::Free { request } => {
            if is_allocated_to(request, kept.allocated_to) {
                later.allocated_to = None;
                later.tenant = None;
            }
        }
        NodeEdit::TakeOver { tick } => {
            later.since = tick;
            later.state = NodeState::InUse;
        }
    }
    later
}

/// Whether the allocation is to the request.
fn is_allocated_to(request: RequestId, found: Option<RequestId>) -> bool
    ensures { result ≡ is_request request found }
{
    matches!(found, Some(other) if other.priority == request.priority && other.seq == request.seq)
}
