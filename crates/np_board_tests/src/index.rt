//! Whether a board's machine answers searches by its index as a walk does, over its own rows and
//! over those of its tree.

ghost use Rattle.np_changes.specs.Fits.{Fits};

use np_board::Board;
use np_keeper::TreeStore;
use np_look::{Look, Rows, Scan, UnheldKind};
use np_rules::Machine;
use np_text::{LabelId, NodeId, PoolId, RequesterId, Role, SessionId, TenantId};
use np_tree_rows::TreeRows;

const POOL: PoolId = PoolId(0);

const LABEL: LabelId = LabelId(0);

const REQUESTER: RequesterId = RequesterId(0);

/// Both find the same requests and spare nodes of the pool.
fn have_equal_pools<A: Look, B: Look>(one: &A, other: &B) -> bool {
    one.has_spare(POOL, LABEL) == other.has_spare(POOL, LABEL)
        && one.free_ready(POOL, LABEL, 0) == other.free_ready(POOL, LABEL, 0)
        && one.has_spent_min_ready(POOL, LABEL) == other.has_spent_min_ready(POOL, LABEL)
        && one.pending_requests(POOL) == other.pending_requests(POOL)
        && one.first_unheld_pending(POOL) == other.first_unheld_pending(POOL)
        && one.has_request_under_way(POOL) == other.has_request_under_way(POOL)
        && one.first_declined_by_all() == other.first_declined_by_all()
}

/// Both find the same first node of each kind that nobody holds.
fn have_equal_due<A: Look, B: Look>(one: &A, other: &B) -> bool {
    for kind in [
        UnheldKind::Free,
        UnheldKind::Abandoned,
        UnheldKind::LeftOver,
        UnheldKind::Hold,
    ] {
        if one.first_due(POOL, kind) != other.first_due(POOL, kind) {
            return false;
        }
    }
    true
}

/// Both find the same next jobs of the requester.
fn have_equal_jobs<A: Look, B: Look>(one: &A, other: &B) -> bool {
    one.job_to_take(REQUESTER, 0) == other.job_to_take(REQUESTER, 0)
        && one.job_to_acquire(REQUESTER) == other.job_to_acquire(REQUESTER)
        && one.job_to_begin(REQUESTER) == other.job_to_begin(REQUESTER)
        && one.job_to_finish(REQUESTER, 0) == other.job_to_finish(REQUESTER, 0)
        && one.job_to_release(REQUESTER, 0) == other.job_to_release(REQUESTER, 0)
        && one.unfinished(REQUESTER, 0) == other.unfinished(REQUESTER, 0)
        && one.unfinished(REQUESTER, 1) == other.unfinished(REQUESTER, 1)
}

/// Both find the same sessions of the roles.
fn have_equal_sessions<A: Look, B: Look>(one: &A, other: &B) -> bool {
    for role in [
        Role::Launcher(POOL),
        Role::Janitor(POOL),
        Role::Requester(REQUESTER),
    ] {
        if one.current_session(role) != other.current_session(role) {
            return false;
        }
    }
    one.has_live_session(REQUESTER) == other.has_live_session(REQUESTER)
        && one.first_mute() == other.first_mute()
        && one.owner(NodeId(0)) == other.owner(NodeId(0))
}

/// Both find the session in the same queues, and the same node for it to lock and to leave.
fn have_equal_queues<A: Look, B: Look>(one: &A, other: &B, session: SessionId) -> bool
    requires one { Fits (A.site one.now) (A.state one.now) }
    requires other { Fits (B.site other.now) (B.state other.now) }
{
    one.queued_requests(session) == other.queued_requests(session)
        && one.queued_request_at(session, 0) == other.queued_request_at(session, 0)
        && one.queued_nodes(session) == other.queued_nodes(session)
        && one.queued_node_at(session, 0) == other.queued_node_at(session, 0)
        && one.node_to_lock(REQUESTER, session) == other.node_to_lock(REQUESTER, session)
        && one.node_to_leave(REQUESTER, session, 0) == other.node_to_leave(REQUESTER, session, 0)
}

/// Both count the same for the pool, the label and the first tenant of the configuration.
fn have_equal_counts<A: Look, B: Look>(one: &A, other: &B) -> bool
    requires one { Fits (A.site one.now) (A.state one.now) }
    requires other { Fits (B.site other.now) (B.state other.now) }
{
    let tenant = TenantId(1);
    one.used(POOL) == other.used(POOL)
        && one.used_by(tenant) == other.used_by(tenant)
        && one.ready_count(LABEL) == other.ready_count(LABEL)
        && one.is_paused(POOL) == other.is_paused(POOL)
        && one.first_of(POOL) == other.first_of(POOL)
}

/// Both find the same tenant without room for the request at this place.
fn have_equal_room<A: Look, B: Look>(one: &A, other: &B, at: u32) -> bool
    requires one { Fits (A.site one.now) (A.state one.now) }
    requires other { Fits (B.site other.now) (B.state other.now) }
{
    let Some(request) = one.rows().request_at(at) else {
        return true;
    };
    match one.rows().asked(request) {
        None => true,
        Some(asked) => one.blocking(POOL, &asked) == other.blocking(POOL, &asked),
    }
}

/// Whether both answer the same.
fn are_equal<A: Look, B: Look>(one: &A, other: &B) -> bool
    requires one { Fits (A.site one.now) (A.state one.now) }
    requires other { Fits (B.site other.now) (B.state other.now) }
{
    for number in 0..16 {
        if !have_equal_queues(one, other, SessionId(number)) {
            return false;
        }
    }
    have_equal_pools(one, other)
        && have_equal_due(one, other)
        && have_equal_jobs(one, other)
        && have_equal_sessions(one, other)
        && have_equal_counts(one, other)
        && have_equal_room(one, other, 0)
        && have_equal_room(one, other, 1)
}

/// Whether the machine answers as a walk of its rows does.
pub fn answers_as_its_rows_do(machine: &Machine<TreeStore>) -> bool {
    machine.know_soundness();
    are_equal(machine, &Scan::over(machine.rows()))
}

/// Whether the board's machine answers as a walk of its rows does.
pub fn answers_as_a_walk_does(board: &Board) -> bool {
    answers_as_its_rows_do(board.machine())
}

/// Whether the board's machine answers as a walk of its tree does.
pub fn answers_as_its_tree_does(board: &Board) -> bool {
    let machine = board.machine();
    machine.know_soundness();
    let tree = TreeRows::new(machine.rows().config(), board.tree());
    are_equal(machine, &Scan::over(&tree))
}
