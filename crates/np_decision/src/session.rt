//! The rows on sessions and the tick.

ghost use Rattle.std.specs.Prelude.{◌≡◌, Ok, IfOk};
ghost use Rattle.np_decision.specs.Lower.{Fits, Plain, is_role, judge_crash, judge_expire, judge_open, plan_crash, plan_expire, plan_open, plan_tick};
ghost use Rattle.np_decision.specs.Verdicts.{answer_of};

use crate::verdict::{Ruling, Verdict, plain};
use np_changes::{Changes, Deed, Growth, SAME, SessionsChange};
use np_event::{Done, Refusal};
use np_look::Rows;
use np_text::{Role, SessionId};

/// Time advances by one tick.
pub fn decide_tick() -> Ruling
    ensures answer { answer_of result ≡ Ok Plain }
    ensures changes { IfOk result (λ v. v.changes ≡ plan_tick) }
{
    plain(Changes {
        ticks: true,
        ..SAME
    })
}

/// Whether the role is in the configuration.
fn is_role<R: Rows>(rows: &R, role: Role) -> bool
    ensures { result ≡ is_role (R.site rows.now) role }
{
    match role {
        Role::Launcher(pool) => rows.config().pool(pool).is_some(),
        Role::Janitor(pool) => rows.config().pool(pool).is_some(),
        Role::Requester(requester) => rows.config().requester(requester).is_some(),
        Role::Reaper => false,
    }
}

/// A role of the configuration begins a session.
pub fn decide_open<R: Rows>(rows: &R, role: Role) -> Ruling
    requires { Fits (R.site rows.now) (R.state rows.now) }
    ensures answer { answer_of result ≡ judge_open (R.site rows.now) (R.state rows.now) role }
    ensures changes { IfOk result (λ v. v.changes ≡ plan_open role) }
{
    ensure!(is_role(rows, role), Refusal::WrongRole);
    Ok(Verdict {
        done: Done::Session(SessionId(rows.sessions() + 1)),
        changes: Changes {
            grows: Growth::Session { role },
            ..SAME
        },
    })
}

/// The party stops, and its session is mute from then on.
pub fn decide_crash<R: Rows>(rows: &R, session: SessionId) -> Ruling
    ensures answer { answer_of result ≡ judge_crash (R.state rows.now) session }
    ensures changes { IfOk result (λ v. v.changes ≡ plan_crash (R.state rows.now) session) }
{
    let Some(facts) = rows.session(session) else {
        return Err(Refusal::NoSession);
    };
    ensure!(facts.live, Refusal::Expired);
    ensure!(!facts.mute, Refusal::Crashed);
    plain(Changes {
        sessions: SessionsChange::Mute { session },
        deed: Some(Deed::Strikes {
            role: facts.role,
            counted: false,
        }),
        ..SAME
    })
}

/// The session ends, and leaves every queue and its registration.
pub fn decide_expire<R: Rows>(rows: &R, session: SessionId) -> Ruling
    ensures answer { answer_of result ≡ judge_expire (R.state rows.now) session }
    ensures changes { IfOk result (λ v. v.changes ≡ plan_expire (R.state rows.now) session) }
{
    let Some(facts) = rows.session(session) else {
        return Err(Refusal::NoSession);
    };
    ensure!(facts.live, Refusal::Expired);
    plain(Changes {
        sessions: SessionsChange::End { session },
        deed: Some(Deed::Strikes {
            role: facts.role,
            counted: facts.mute,
        }),
        ..SAME
    })
}
