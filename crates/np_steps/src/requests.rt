//! The parts for what happens to the requests.

ghost use Rattle.std.specs.Prelude.{◌≡◌, ◌++◌, ◌∷◌, [], None, OnOk};
ghost use Rattle.np_steps.specs.Lower.{AllByRecursion, IsCarried, IsRequest, Request, RequestLock, edited, leave_parts, request_deletes, request_in, request_record_text, requests_changed, requests_parts, set, where_there};
ghost use Rattle.np_changes.specs.declared.changes.RequestsChange.TheVariants as requests;

use crate::ops::{push_delete, push_deletes, push_leave, push_set};
use np_changes::{Maker, RequestEdit, RequestsChange};
use np_layout::Place;
use np_look::Rows;
use np_record::{Declined, NodeRow, RequestRecord};
use np_text::{Ample, RequestId, RequestState, SessionId};
use np_tree::Tree;
use np_tree_nodes::Op;
use std::alloc::Global;

/// Puts the parts for a change of the requests behind others. If memory runs out nothing is
/// promised of them.
pub(crate) fn push_requests<R: Rows>(
    alloc: Global,
    ops: &mut Vec<Op>,
    tree: &Tree,
    rows: &R,
    maker: Option<Maker>,
    change: &RequestsChange,
) -> Ample
    requires carried { IsCarried (R.site rows.now) (R.state rows.now) }
    requires spelled { AllByRecursion (λ e. IsRequest e.kept)
        (requests_changed maker change.now (R.state rows.now).requests) }
    ensures { OnOk result (ops.new.items ≡ ops.old.items
        ++ requests_parts maker change.now (R.state rows.now).requests tree.now) }
{
    match *change {
        RequestsChange::Same => Ok(()),
        RequestsChange::Edit { request, edit } => { push_edit(alloc, ops, rows, request, edit) }
        RequestsChange::Remove { request } => push_removal(alloc, ops, tree, rows, request),
        RequestsChange::Leave { request } => match maker {
            Some(maker) => push_leaving(alloc, ops, tree, rows, maker.session, request),
            None => Ok(()),
        },
    }
}

/// A set of the request's record, edited, if the request is there.
fn push_edit<R: Rows>(
    alloc: Global,
    ops: &mut Vec<Op>,
    rows: &R,
    id: RequestId,
    edit: RequestEdit,
) -> Ample
    requires carried { IsCarried (R.site rows.now) (R.state rows.now) }
    requires spelled { AllByRecursion (λ e. IsRequest e.kept) (requests_changed None
        (requests.Edit id edit) (R.state rows.now).requests) }
    ensures { OnOk result (ops.new.items ≡ ops.old.items
        ++ where_there (request_in id (R.state rows.now).requests)
        (λ kept. set (request_record_text (edited edit kept)) (Request id) ∷ [])) }
{
    let Some(kept) = rows.request(id) else {
        return Ok(());
    };
    let later = edited(edit, kept);
    push_set(alloc, ops, Place::Request(id), &later)
}

/// The deletes of the request's waits, of its lock and of its record, if the request is there.
fn push_removal<R: Rows>(
    alloc: Global,
    ops: &mut Vec<Op>,
    tree: &Tree,
    rows: &R,
    id: RequestId,
) -> Ample
    requires { IsCarried (R.site rows.now) (R.state rows.now) }
    ensures { OnOk result (ops.new.items ≡ ops.old.items
        ++ where_there (request_in id (R.state rows.now).requests)
        (λ kept. request_deletes id tree.now)) }
{
    let Some(_) = rows.request(id) else {
        return Ok(());
    };
    push_deletes(alloc, ops, tree, Place::RequestLock(id))?;
    push_delete(alloc, ops, Place::RequestLock(id))?;
    push_delete(alloc, ops, Place::Request(id))
}

/// The delete of the session's wait for the request, if the request is there.
fn push_leaving<R: Rows>(
    alloc: Global,
    ops: &mut Vec<Op>,
    tree: &Tree,
    rows: &R,
    session: SessionId,
    id: RequestId,
) -> Ample
    requires { IsCarried (R.site rows.now) (R.state rows.now) }
    ensures { OnOk result (ops.new.items ≡ ops.old.items
        ++ where_there (request_in id (R.state rows.now).requests)
        (λ kept. leave_parts (RequestLock id) tree.now session)) }
{
    let Some(_) = rows.request(id) else {
        return Ok(());
    };
    push_leave(alloc, ops, tree, Place::RequestLock(id), session)
}

/// The record, edited. What is edited can be spelled, so its rows have room.
fn edited(edit: RequestEdit, kept: RequestRecord) -> RequestRecord
    requires { IsRequest (edited edit kept) }
    ensures { result ≡ edited edit kept }
{
    let mut later = kept;
    match edit {
        RequestEdit::Serve { pool } => {
            later.pool = Some(pool);
            later.state = RequestState::Pending;
        }
        RequestEdit::AddNode { node } => {
            let _room = later.nodes.push(node);
        }
        RequestEdit::Decline {
            pool,
            reason,
            failed,
        } => {
            let _room = later.declined.push(Declined { pool, reason });
            later.nodes = NodeRow::new();
            later.pool = None;
            later.state = if failed {
                RequestState::Failed
            } else {
                RequestState::Requested
            };
        }
        RequestEdit::Fulfil => later.state = RequestState::Fulfilled,
        RequestEdit::GiveBack => {
            later.nodes = NodeRow::new();
            later.pool = None;
            later.state = RequestState::Requested;
        }
        RequestEdit::Fail => later.state = RequestState::Failed,
        RequestEdit::Revise { relative } => later.relative_priority = relative,
    }
    later
}
