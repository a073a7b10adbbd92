//! The decision: one line for each event.

ghost use Rattle.std.specs.Prelude.{◌≡◌, IfOk};
ghost use Rattle.np_decision.specs.Lower.{Fits, judge, plan};
ghost use Rattle.np_decision.specs.Verdicts.{answer_of};

use crate::node::{
    decide_create, decide_done, decide_end_node, decide_free_node, decide_gone, decide_lock_node,
    decide_mark_deleting, decide_start, decide_sweep, decide_take_ready, decide_unlock_node,
};
use crate::request::{
    decide_accept, decide_decline, decide_fail_declined, decide_fulfil, decide_lock_request,
    decide_min_ready, decide_register, decide_reset, decide_revise, decide_submit,
    decide_unlock_request,
};
use crate::semaphore::{
    decide_acquire, decide_finish, decide_release, decide_take, decide_withdraw,
};
use crate::session::{decide_crash, decide_expire, decide_open, decide_tick};
use crate::verdict::Ruling;
use np_event::Event;
use np_look::Look;

/// The answer to the event, and what it changes if it is accepted. It takes no memory, and costs
/// what the readers cost that its row calls.
pub fn decide<L: Look>(look: &L, event: Event) -> Ruling
    requires { Fits (L.site look.now) (L.state look.now) }
    ensures answer { answer_of result ≡ judge (L.site look.now) (L.state look.now) event }
    ensures changes { IfOk result (λ v. v.changes ≡
        plan (L.site look.now) (L.state look.now) event) }
{
    let rows = look.rows();
    match event {
        Event::Tick => decide_tick(),
        Event::OpenSession { role } => decide_open(rows, role),
        Event::Crash { session } => decide_crash(rows, session),
        Event::Expire { session } => decide_expire(rows, session),
        Event::Register { session } => decide_register(rows, session),
        Event::Submit { session, job } => decide_submit(rows, session, job),
        Event::Revise {
            session,
            job,
            relative,
        } => decide_revise(rows, session, job, relative),
        Event::MinReady { session, label } => decide_min_ready(look, session, label),
        Event::LockRequest { session, request } => decide_lock_request(look, session, request),
        Event::UnlockRequest { session, request } => decide_unlock_request(rows, session, request),
        Event::Accept { session, request } => decide_accept(look, session, request),
        Event::Decline {
            session,
            request,
            reason,
        } => decide_decline(rows, session, request, reason),
        Event::TakeReady {
            session,
            request,
            node,
        } => decide_take_ready(rows, session, request, node),
        Event::Create { session, request } => decide_create(look, session, request),
        Event::Start { session, node } => decide_start(rows, session, node),
        Event::Done {
            session,
            node,
            attempt,
            outcome,
        } => decide_done(rows, session, node, attempt, outcome),
        Event::Fulfil { session, request } => decide_fulfil(rows, session, request),
        Event::LockNode { session, node } => decide_lock_node(rows, session, node),
        Event::UnlockNode { session, node } => decide_unlock_node(rows, session, node),
        Event::Acquire { session, job } => decide_acquire(rows, session, job),
        Event::Take { session, job } => decide_take(rows, session, job),
        Event::EndNode { session, node, end } => decide_end_node(look, session, node, end),
        Event::Finish { session, job } => decide_finish(look, session, job),
        Event::Withdraw { session, job } => decide_withdraw(rows, session, job),
        Event::Release { session, job } => decide_release(rows, session, job),
        Event::MarkDeleting { session, node } => decide_mark_deleting(look, session, node),
        Event::Gone { session, node } => decide_gone(rows, session, node),
        Event::Reset { session, request } => decide_reset(rows, session, request),
        Event::FreeNode { session, node } => decide_free_node(rows, session, node),
        Event::FailDeclined { session, request } => decide_fail_declined(rows, session, request),
        Event::Sweep {
            session,
            node,
            server,
        } => decide_sweep(rows, session, node, server),
    }
}
