//! The parts for what grows. If memory runs out, nothing is promised of the parts.

ghost use Rattle.std.specs.Prelude.{◌≡◌, ◌<◌, ◌^◌, ◌++◌, ◌∷◌, [], Some, false, not, if◌then◌else◌, filter, map, IfOk, IfSome, OnOk};
ghost use Rattle.np_steps.specs.Lower.{Configuration, GrowthReady, Handle, HasText, IsGood, IsNode, IsRequest, IsSessionRole, IsStored, Launcher, NodeEntry, NodeLock, RequestEntry, RequestLock, Requests, Session, State, Swept, acquire_parts, allocate_parts, below, by_session, grown_parts, has_handle, is_owner, is_swept, join_parts, list_any, make, new_record, node_entry, node_parts, node_text, path_of, request_entry, request_parts, request_prefix, request_record_text, semaphores_of, session_text, tree_session, under, wait_at, where_there};
ghost use Rattle.np_tree_nodes.specs.declared.kind.Mode.TheVariants as modes;
ghost use Rattle.np_tree_nodes.specs.declared.op.Op.TheVariants as op;

use crate::ops::{child, push_make, push_set, push_wait, waits};
use np_changes::{Asked, Growth, Maker};
use np_layout::{Place, to_path};
use np_look::Rows;
use np_path::Path;
use np_record::{DeclineRow, NodeRecord, RequestRecord, SessionRecord};
use np_spelling::Record;
use np_text::{
    Ample, JobId, NoMemory, NodeId, PoolId, RequestId, Role, SemId, SessionId, TenantId,
};
use np_tree::Tree;
use np_tree_nodes::{Bytes, Mode, Op};
use std::alloc::Global;

/// A node that is given to a request, for the tenant of its job.
#[derive(Clone, Copy)]
struct Allocation {
    node: NodeId,
    request: RequestId,
    tenant: Option<TenantId>,
}

/// Puts the parts for what grows behind others. What only a maker's session makes has no parts if
/// there is no maker.
pub(crate) fn push_growth<R: Rows>(
    alloc: Global,
    ops: &mut Vec<Op>,
    tree: &Tree,
    rows: &R,
    maker: Option<Maker>,
    growth: &Growth,
) -> Ample
    requires stored { IsStored (R.site rows.now) (R.state rows.now) tree.now }
    requires ready { GrowthReady (R.site rows.now) maker growth.now (R.state rows.now) }
    ensures { OnOk result (ops.new.items
        ≡ ops.old.items ++ grown_parts (R.site rows.now) maker growth.now (R.state rows.now)) }
{
    match growth {
        Growth::Nothing => Ok(()),
        Growth::Session { role } => {
            let session = SessionId(rows.sessions() + 1);
            push_session(alloc, ops, session, *role)
        }
        Growth::Registration { pool } => push_registration(alloc, ops, maker, *pool),
        Growth::Request { priority, asked } => {
            let priority = *priority;
            let seq = rows.next_request();
            let kept = new_record(asked);
            push_request(alloc, ops, RequestId { priority, seq }, &kept)
        }
        Growth::Node { kept } => push_node(alloc, ops, NodeId(rows.next_node()), kept),
        Growth::JoinRequest { request } => push_request_wait(alloc, ops, tree, maker, *request),
        Growth::JoinNode { node } => push_node_wait(alloc, ops, tree, maker, *node),
        Growth::Allocate {
            node,
            request,
            tenant,
        } => {
            let allocation = Allocation {
                node: *node,
                request: *request,
                tenant: *tenant,
            };
            push_allocation(alloc, ops, tree, rows, maker, allocation)
        }
        Growth::Handles { job } => push_handles(alloc, ops, rows, *job),
        Growth::Swept { node, server } => push_swept(alloc, ops, rows, *node, *server),
    }
}

/// Makes the record of a session that begins.
fn push_session(alloc: Global, ops: &mut Vec<Op>, session: SessionId, role: Role) -> Ample
    requires { IsSessionRole role }
    ensures { OnOk result (ops.new.items ≡ ops.old.items
        ++ make (session_text (record { mute = false; role = role })) (Session session) ∷ []) }
{
    let record = SessionRecord { mute: false, role };
    let path = to_path(alloc, Place::Session(session))?;
    let bytes = Bytes::new(record.text(alloc)?);
    let mode = Mode::Persistent;
    ops.push(Op::Create { path, bytes, mode })?;
    Ok(())
}

/// Makes the registration of the maker for a pool.
fn push_registration(alloc: Global, ops: &mut Vec<Op>, maker: Option<Maker>, pool: PoolId) -> Ample
    ensures { OnOk result (ops.new.items ≡ ops.old.items
        ++ by_session maker
        (λ session. op.Create (path_of (Launcher pool)) [] modes.Ephemeral ∷ [])) }
{
    let Some(_) = maker else {
        return Ok(());
    };
    let path = to_path(alloc, Place::Launcher(pool))?;
    let bytes = Bytes::new(Vec::new(alloc));
    let mode = Mode::Ephemeral;
    ops.push(Op::Create { path, bytes, mode })?;
    Ok(())
}

/// The record of a request that no pool has declined.
fn new_record(asked: &Asked) -> RequestRecord
    ensures { result ≡ new_record asked.now }
{
    RequestRecord {
        declined: DeclineRow::new(),
        job: asked.job,
        labels: asked.labels,
        nodes: asked.nodes,
        pinned: asked.pinned,
        pool: asked.pool,
        relative_priority: asked.relative_priority,
        state: asked.state,
    }
}

/// Makes a request's record and its lock. The id has the number that the tree gives next.
fn push_request(alloc: Global, ops: &mut Vec<Op>, id: RequestId, kept: &RequestRecord) -> Ample
    requires text { HasText id }
    requires sound { IsRequest kept.now }
    ensures { OnOk result (ops.new.items ≡ ops.old.items
        ++ request_parts id (request_record_text kept.now)) }
{
    let path = request_path(alloc, id)?;
    let bytes = Bytes::new(kept.text(alloc)?);
    let mode = Mode::PersistentSequential;
    ops.push(Op::Create { path, bytes, mode })?;
    push_make(alloc, ops, Place::RequestLock(id))
}

/// The path that a request's record is created by: the tree puts its number behind it.
fn request_path(alloc: Global, id: RequestId) -> Result<Path, NoMemory>
    ensures { IfOk result (λ path. path ≡ below (path_of Requests) (request_prefix id)) }
{
    let dir = to_path(alloc, Place::Requests)?;
    let priority = id.priority;
    let prefix = format!(in alloc; "{priority}-")?;
    child(&dir, prefix.as_str())
}

/// Makes a node's record, its lock, and the wait of its maker there. The id is the number that the
/// tree gives next.
fn push_node(alloc: Global, ops: &mut Vec<Op>, id: NodeId, kept: &NodeRecord) -> Ample
    requires { IsNode kept.now }
    ensures { OnOk result (ops.new.items ≡ ops.old.items ++ node_parts id (node_text kept.now)) }
{
    let parent = to_path(alloc, Place::Nodes)?;
    let bytes = Bytes::new(kept.text(alloc)?);
    let mode = Mode::PersistentSequential;
    ops.push(Op::CreateUnder {
        parent,
        bytes,
        mode,
    })?;
    push_make(alloc, ops, Place::NodeLock(id))?;
    push_wait(alloc, ops, Place::NodeLock(id))
}

/// Waits at a lock, unless the session waits there. The session is the one that makes the call.
fn push_join(
    alloc: Global,
    ops: &mut Vec<Op>,
    tree: &Tree,
    lock: Place,
    session: SessionId,
) -> Ample
    requires { IsGood lock }
    ensures { OnOk result (ops.new.items ≡ ops.old.items
        ++ (if list_any (λ row. is_owner (tree_session session) row.owner) (under lock tree.now)
        then [] else wait_at lock ∷ [])) }
{
    if waits(tree, lock, session) {
        return Ok(());
    }
    push_wait(alloc, ops, lock)
}

/// Waits at a request's lock, unless the maker waits there.
fn push_request_wait(
    alloc: Global,
    ops: &mut Vec<Op>,
    tree: &Tree,
    maker: Option<Maker>,
    request: RequestId,
) -> Ample
    requires { HasText request }
    ensures { (c : Configuration) (s : State) (e : RequestEntry) → IsStored c s tree.now →
        request_entry request s.requests ≡ Some e →
        OnOk result (ops.new.items
        ≡ ops.old.items ++ by_session maker (join_parts (RequestLock request) e.queue)) }
{
    match maker {
        Some(maker) => push_join(alloc, ops, tree, Place::RequestLock(request), maker.session),
        None => Ok(()),
    }
}

/// Waits at a node's lock, unless the maker waits there.
fn push_node_wait(
    alloc: Global,
    ops: &mut Vec<Op>,
    tree: &Tree,
    maker: Option<Maker>,
    node: NodeId,
) -> Ample
    ensures { (c : Configuration) (s : State) (e : NodeEntry) → IsStored c s tree.now →
        node_entry node s.nodes ≡ Some e →
        OnOk result (ops.new.items
        ≡ ops.old.items ++ by_session maker (join_parts (NodeLock node) e.queue)) }
{
    match maker {
        Some(maker) => push_join(alloc, ops, tree, Place::NodeLock(node), maker.session),
        None => Ok(()),
    }
}

/// Writes a node's record with its request and tenant, and then waits at its lock, unless the maker
/// waits there. A node that is not there has no parts.
fn push_allocation<R: Rows>(
    alloc: Global,
    ops: &mut Vec<Op>,
    tree: &Tree,
    rows: &R,
    maker: Option<Maker>,
    allocation: Allocation,
) -> Ample
    requires stored { IsStored (R.site rows.now) (R.state rows.now) tree.now }
    requires text { HasText allocation.request }
    requires tenant { IfSome allocation.tenant (λ t. t.0 < 2 ^ 16) }
    ensures { OnOk result (ops.new.items ≡ ops.old.items
        ++ by_session maker (λ session. where_there
        (node_entry allocation.node (R.state rows.now).nodes)
        (allocate_parts allocation.request allocation.tenant session))) }
{
    let Some(_) = maker else {
        return Ok(());
    };
    let Some(mut kept) = rows.node(allocation.node) else {
        return Ok(());
    };
    kept.allocated_to = Some(allocation.request);
    kept.tenant = allocation.tenant;
    push_set(alloc, ops, Place::Node(allocation.node), &kept)?;
    push_node_wait(alloc, ops, tree, maker, allocation.node)
}

/// Makes a handle of each of the job's semaphores of which it has none.
fn push_handles<R: Rows>(alloc: Global, ops: &mut Vec<Op>, rows: &R, job: JobId) -> Ample
    ensures { OnOk result (ops.new.items ≡ ops.old.items
        ++ acquire_parts job (semaphores_of (R.site rows.now) job) (R.state rows.now).handles) }
{
    let config = rows.config();
    // No job of a configuration names a semaphore twice.
    config.know_soundness();
    match config.job(job) {
        Some(row) => push_each_handle(alloc, ops, rows, job, row.semaphores.items()),
        None => Ok(()),
    }
}

/// Makes a handle of each of the semaphores of which the job has none.
fn push_each_handle<R: Rows>(
    alloc: Global,
    ops: &mut Vec<Op>,
    rows: &R,
    job: JobId,
    semaphores: &[SemId],
) -> Ample
    ensures { OnOk result (ops.new.items ≡ ops.old.items ++ map (λ x. make [] (Handle x job))
        (filter (λ x. not (has_handle job (R.state rows.now).handles x)) semaphores.now)) }
{
    for semaphore in semaphores {
        push_handle(alloc, ops, rows, *semaphore, job)?;
    }
    Ok(())
}

/// Makes the job's handle of a semaphore, unless it has one.
fn push_handle<R: Rows>(
    alloc: Global,
    ops: &mut Vec<Op>,
    rows: &R,
    semaphore: SemId,
    job: JobId,
) -> Ample
    ensures { OnOk result (ops.new.items ≡ ops.old.items
        ++ (if has_handle job (R.state rows.now).handles semaphore then []
        else make [] (Handle semaphore job) ∷ [])) }
{
    if rows.has_handle(semaphore, job) {
        return Ok(());
    }
    push_make(alloc, ops, Place::Handle(semaphore, job))
}

/// Marks a server of a node as swept, unless it is.
fn push_swept<R: Rows>(
    alloc: Global,
    ops: &mut Vec<Op>,
    rows: &R,
    node: NodeId,
    server: u64,
) -> Ample
    ensures { OnOk result (ops.new.items ≡ ops.old.items
        ++ (if is_swept node server (R.state rows.now).swept then []
        else make [] (Swept node server) ∷ [])) }
{
    if rows.swept(node, server) {
        return Ok(());
    }
    push_make(alloc, ops, Place::Swept(node, server))
}
