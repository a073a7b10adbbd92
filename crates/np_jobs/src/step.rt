//! What a requester does next with its jobs.

ghost use Rattle.std.specs.Prelude.{◌≡◌, true};
ghost use Rattle.np_jobs.specs.Lower.{ChoosesOf, Fits, IsReached, Job, Node, Requester, is_current};
ghost use Rattle.np_useful.specs.declared.kind.NodeKind.TheVariants as of_node;
ghost use Rattle.np_useful.specs.declared.kind.JobKind.TheVariants as of_job;
ghost use Rattle.np_jobs.specs.Steps.{ChoosesToFinish, ChoosesToTakeOne, ChoosesToTake, ChoosesToAcquire, ChoosesUnderWay, ChoosesOfNew, ChoosesInWindow};

use crate::leave::first_to_leave;
use crate::rows::RequesterRows;
use crate::window::is_in_window;
use np_event::Event;
use np_look::{Look, Rows};
use np_text::{JobId, SessionId};
use np_useful::passes;

/// The first useful event of these on a job: end-node and unlock-node of its nodes if it uses them,
/// and then finish. It judges at most two events for each of these nodes, and one more.
fn step_to_finish<L: Look>(
    look: &L,
    rows: &RequesterRows,
    session: SessionId,
    job: JobId,
) -> Option<Event>
    requires reached { IsReached (L.site look.now) (L.state look.now) }
    requires fits { Fits (L.site look.now) (L.state look.now) }
    requires current { is_current (Requester rows.now.requester) session (L.state look.now) ≡ true }
    ensures { ChoosesToFinish (L.site look.now) (L.state look.now) rows.now.requester session job
        result }
{
    let left = first_to_leave(look, rows, session, job);
    if left.is_some() {
        return left;
    }
    let finish = Event::Finish { session, job };
    passes(look, rows, finish).then_some(finish)
}

/// The first useful event on the jobs that use their nodes or whose request failed, the first job
/// first: end-node and unlock-node of the nodes that it uses, and then its finish. `None` only if
/// no finish is useful, since only these jobs can be finished. It stops at the first job that has a
/// useful event.
fn first_step_to_finish<L: Look>(
    look: &L,
    rows: &RequesterRows,
    session: SessionId,
) -> Option<Event>
    requires reached { IsReached (L.site look.now) (L.state look.now) }
    requires fits { Fits (L.site look.now) (L.state look.now) }
    requires current { is_current (Requester rows.now.requester) session (L.state look.now) ≡ true }
    ensures { ChoosesOf (L.site look.now) (L.state look.now) (Requester rows.now.requester)
        (Job of_job.Finish) result }
{
    for at in 0..look.rows().jobs() {
        let Some(job) = look.job_to_finish(rows.requester, at) else {
            return None;
        };
        let found = step_to_finish(look, rows, session, job);
        if found.is_some() {
            return found;
        }
    }
    None
}

/// The first useful lock-node, by number of its node, or `None` if and only if there is none. A
/// lock is useful if and only if its node was given to the requester and the session is not in its
/// queue, so the cost is one call of the reader `node_to_lock`.
fn first_lock<L: Look>(look: &L, rows: &RequesterRows, session: SessionId) -> Option<Event>
    requires reached { IsReached (L.site look.now) (L.state look.now) }
    requires fits { Fits (L.site look.now) (L.state look.now) }
    requires current { is_current (Requester rows.now.requester) session (L.state look.now) ≡ true }
    ensures { ChoosesOf (L.site look.now) (L.state look.now) (Requester rows.now.requester)
        (Node of_node.Lock) result }
{
    match look.node_to_lock(rows.requester, session) {
        None => None,
        Some(node) => Some(Event::LockNode { session, node }),
    }
}

/// The first useful event of these on a job: take, acquire. It judges at most two events.
fn step_to_take<L: Look>(
    look: &L,
    rows: &RequesterRows,
    session: SessionId,
    job: JobId,
) -> Option<Event>
    requires reached { IsReached (L.site look.now) (L.state look.now) }
    requires fits { Fits (L.site look.now) (L.state look.now) }
    requires current { is_current (Requester rows.now.requester) session (L.state look.now) ≡ true }
    ensures { ChoosesToTakeOne (L.site look.now) (L.state look.now) rows.now.requester session job
        result }
{
    let take = Event::Take { session, job };
    if passes(look, rows, take) {
        return Some(take);
    }
    let acquire = Event::Acquire { session, job };
    if passes(look, rows, acquire) {
        Some(acquire)
    } else {
        None
    }
}

/// The first useful take or acquire on the jobs that were given their nodes and need not wait for
/// handles, the first job first. `None` if there is none on any of them. Only a job that has some
/// of its handles and lacks others has a useful acquire here. It stops at the first job that has a
/// useful event, and so passes only those whose nodes others hold.
fn first_step_to_take<L: Look>(look: &L, rows: &RequesterRows, session: SessionId) -> Option<Event>
    requires reached { IsReached (L.site look.now) (L.state look.now) }
    requires fits { Fits (L.site look.now) (L.state look.now) }
    requires current { is_current (Requester rows.now.requester) session (L.state look.now) ≡ true }
    ensures { ChoosesToTake (L.site look.now) (L.state look.now) rows.now.requester session result }
{
    for at in 0..look.rows().jobs() {
        let Some(job) = look.job_to_take(rows.requester, at) else {
            return None;
        };
        let found = step_to_take(look, rows, session, job);
        if found.is_some() {
            return found;
        }
    }
    None
}

/// A useful acquire of the first job that was given its nodes, waits for handles and finds room in
/// all its semaphores, or `None` if there is no such job. The acquire of each such job is useful,
/// so the cost is one call of the reader `job_to_acquire`.
fn first_acquire<L: Look>(look: &L, rows: &RequesterRows, session: SessionId) -> Option<Event>
    requires current { is_current (Requester rows.now.requester) session (L.state look.now) ≡ true }
    ensures { ChoosesToAcquire (L.site look.now) (L.state look.now) rows.now.requester result }
{
    match look.job_to_acquire(rows.requester) {
        None => None,
        Some(job) => Some(Event::Acquire { session, job }),
    }
}

/// The first useful event on the jobs that have asked for their nodes or use them. These are tried
/// in order: what ends a job, the lock of a node that was given to the requester, take, and
/// acquire. Its cost grows with the jobs that use their nodes or whose request failed, and with
/// those that need not wait for handles but whose nodes others hold.
pub(crate) fn first_step_under_way<L: Look>(
    look: &L,
    rows: &RequesterRows,
    session: SessionId,
) -> Option<Event>
    requires reached { IsReached (L.site look.now) (L.state look.now) }
    requires fits { Fits (L.site look.now) (L.state look.now) }
    requires current { is_current (Requester rows.now.requester) session (L.state look.now) ≡ true }
    ensures { ChoosesUnderWay (L.site look.now) (L.state look.now) rows.now.requester session
        result }
{
    let finish = first_step_to_finish(look, rows, session);
    if finish.is_some() {
        return finish;
    }
    let lock = first_lock(look, rows, session);
    if lock.is_some() {
        return lock;
    }
    let take = first_step_to_take(look, rows, session);
    if take.is_some() {
        return take;
    }
    first_acquire(look, rows, session)
}

/// The first useful event of these on a job: acquire, submit. It judges at most two events.
fn step_of_new<L: Look>(
    look: &L,
    rows: &RequesterRows,
    session: SessionId,
    job: JobId,
) -> Option<Event>
    requires reached { IsReached (L.site look.now) (L.state look.now) }
    requires fits { Fits (L.site look.now) (L.state look.now) }
    requires current { is_current (Requester rows.now.requester) session (L.state look.now) ≡ true }
    ensures { ChoosesOfNew (L.site look.now) (L.state look.now) rows.now.requester session job
        result }
{
    let acquire = Event::Acquire { session, job };
    if passes(look, rows, acquire) {
        return Some(acquire);
    }
    let submit = Event::Submit { session, job };
    if passes(look, rows, submit) {
        Some(submit)
    } else {
        None
    }
}

/// A useful acquire or submit of a new job in the requester's window. Only a job that need not wait
/// for semaphores has one, and the first of these jobs has one if it is in the window. So no other
/// job is looked at: the cost is one call of the reader `job_to_begin`, the window test, which is
/// two lookups, and at most two judged events. With an index, that reader costs a few lookups for
/// each different list of semaphores that new jobs wait for, and these jobs cost nothing, whatever
/// their number.
pub(crate) fn first_step_in_window<L: Look>(
    look: &L,
    rows: &RequesterRows,
    session: SessionId,
) -> Option<Event>
    requires reached { IsReached (L.site look.now) (L.state look.now) }
    requires fits { Fits (L.site look.now) (L.state look.now) }
    requires current { is_current (Requester rows.now.requester) session (L.state look.now) ≡ true }
    ensures { ChoosesInWindow (L.site look.now) (L.state look.now) rows.now.requester session
        result }
{
    let Some(job) = look.job_to_begin(rows.requester) else {
        return None;
    };
    if !is_in_window(look, rows.requester, job) {
        return None;
    }
    step_of_new(look, rows, session, job)
}
