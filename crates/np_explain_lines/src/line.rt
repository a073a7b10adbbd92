//! The line of a fact.

ghost use Rattle.std.specs.Prelude.{◌≡◌, ◌++◌, OnOk};
ghost use Rattle.np_explain_lines.specs.Line.{line_of, said};

use crate::amount::{limit_of_pool, limit_of_tenant, put_amount, put_handles};
use crate::part::{put_life, put_next, put_no_turn, put_node_state, put_phase, put_reason_words};
use crate::subject::put_subject;
use crate::words::{
    put, put_job, put_label, put_pool, put_request, put_requester, put_role, put_semaphore,
    put_session, put_tenant,
};
use np_causes::{Fact, about};
use np_config::Config;
use np_text::{Ample, put_number};

/// Appends what a fact says.
fn put_said(out: &mut Vec<u8>, config: &Config, fact: &Fact) -> Ample
    ensures { OnOk result (out.new.items ≡ out.old.items ++ said config.now fact.now) }
{
    match *fact {
        Fact::InPhase { phase, .. } => put_phase(out, phase),
        Fact::OfRequester { requester, .. } => {
            put(out, b"goes on by requester ")?;
            put_requester(out, config, requester)
        }
        Fact::InWindow { .. } => put(out, b"is in its requester's window"),
        Fact::PastWindow { last, .. } => {
            put(out, b"is past its requester's window, whose last job is ")?;
            put_job(out, config, last)
        }
        Fact::Supplied { .. } => put(out, b"lacks no semaphore that is full"),
        Fact::Full { semaphore, .. } => {
            put(out, b"lacks semaphore ")?;
            put_semaphore(out, config, semaphore)?;
            put(out, b", which is full")
        }
        Fact::Handles { semaphore, count } => put_handles(out, config, semaphore, count),
        Fact::HasHandle { job, .. } => {
            put_job(out, config, job)?;
            put(out, b" has a handle")
        }
        Fact::Open { .. } => put(out, b"nobody has taken it up"),
        Fact::TakenUp { session, .. } => {
            put_session(out, session)?;
            put(out, b" has taken it up, and no pool has accepted it")
        }
        Fact::Served { session, .. } => {
            put(out, b"a pool serves it, by ")?;
            put_session(out, session)
        }
        Fact::Abandoned { .. } => put(out, b"a pool serves it, and nobody holds it"),
        Fact::Fulfilled { .. } => put(out, b"is fulfilled"),
        Fact::Failed { .. } => put(out, b"failed"),
        Fact::Declined { reason, .. } => {
            put(out, b"the pool declined: ")?;
            put_reason_words(out, config, reason)
        }
        Fact::Blocked { tenant, .. } => {
            put(out, b"tenant ")?;
            put_tenant(out, config, tenant)?;
            put(out, b" has no room for it now")
        }
        Fact::First { .. } => put(out, b"it is the first that the pool may take up"),
        Fact::Behind { first, .. } => {
            put_request(out, first)?;
            put(out, b" comes first")
        }
        Fact::Closed { .. } => put(out, b"the pool may take up no request now"),
        Fact::Complete { .. } => put(out, b"has a node for each of its labels"),
        Fact::NoRoom { pool, label, .. } => {
            put(out, b"no room in ")?;
            put_pool(out, config, pool)?;
            put_next(out, config, label)
        }
        Fact::Lacks { label, .. } => {
            put(out, b"has no node of label ")?;
            put_label(out, config, label)?;
            put(out, b" yet")
        }
        Fact::Registered { session, .. } => {
            put_session(out, session)?;
            put(out, b" is registered for it")
        }
        Fact::Unregistered { .. } => put(out, b"no session is registered for it"),
        Fact::Busy { .. } => put(out, b"serves a request that lacks a node"),
        Fact::Idle { .. } => put(out, b"serves no request that lacks a node"),
        Fact::HasTurn { .. } => {
            put(
                out,
                b"its provider's launchers may take up one more request",
            )
        }
        Fact::NoTurn { most, .. } => put_no_turn(out, most),
        Fact::PoolUses { pool, used } => {
            put(out, b"its nodes take ")?;
            put_amount(out, used, limit_of_pool(config, pool))
        }
        Fact::TenantUses { tenant, used } => {
            put(out, b"its nodes and pending requests take ")?;
            put_amount(out, used, limit_of_tenant(config, tenant))
        }
        Fact::Stands {
            state,
            attempts,
            ..
        } => {
            put_node_state(out, state)?;
            put(out, b", launched ")?;
            put_number(out, u64::from(attempts))?;
            put(out, b" times")
        }
        Fact::Held { session, .. } => {
            put_session(out, session)?;
            put(out, b" holds it")
        }
        Fact::Unheld { .. } => put(out, b"nobody holds it"),
        Fact::Owned { job, .. } => {
            put_job(out, config, job)?;
            put(out, b" has it")
        }
        Fact::Allocated { request, .. } => {
            put(out, b"is allocated to ")?;
            put_request(out, request)
        }
        Fact::Free { .. } => put(out, b"is allocated to no request, and no job has it"),
        Fact::Known { facts, .. } => {
            put(out, b"is of ")?;
            put_role(out, config, facts.role)?;
            put_life(out, facts.live, facts.mute)
        }
        Fact::Current { session, .. } => {
            put(out, b"acts by ")?;
            put_session(out, session)
        }
        Fact::Stopped { .. } => put(out, b"has stopped for good"),
        Fact::MayOpen { .. } => put(out, b"has no session, and may open one"),
        Fact::Missing { .. } => put(out, b"is not there"),
    }
}

/// Appends the fact's line, without a newline: what the fact is about, and what it says. The time
/// grows with the line.
#[tactic(auto, unfolding(crate::specs::Line::line_of))]
pub fn put_line(out: &mut Vec<u8>, config: &Config, fact: &Fact) -> Ample
    ensures { OnOk result (out.new.items ≡ out.old.items ++ line_of config.now fact.now) }
{
    put_subject(out, config, about(fact))?;
    put(out, b": ")?;
    put_said(out, config, fact)
}
