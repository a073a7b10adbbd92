//! The table of sessions.

ghost use Rattle.std.specs.Prelude.{◌≡◌, ◌++◌, ◌∷◌, [], IfOk, OnOk};
ghost use Rattle.np_listing.specs.Lower.{is_session_of, registered, role_words};
ghost use Rattle.np_listing.specs.Listing.{life_said, registered_pool, session_head, session_row, session_rows};

use crate::row::{Row, head, push, push_or_dash, push_text};
use np_config::Config;
use np_lists::Items;
use np_look::Rows;
use np_machine::SessionFacts;
use np_text::{Ample, NoMemory, PoolId, Role, SessionId};
use std::alloc::Global;

/// Whether the session has the registration for the pool.
fn is_registered<R: Rows>(rows: &R, session: SessionId, pool: PoolId) -> bool
    ensures { result ≡ is_session_of session (registered pool (R.state rows.now).registrations) }
{
    rows.registration(pool)
        .is_some_and(|other| other.0 == session.0)
}

/// The launcher's pool, if the session has the registration for it.
fn registered_pool<R: Rows>(rows: &R, session: SessionId, role: Role) -> Option<PoolId>
    ensures { result ≡ registered_pool (R.state rows.now) session role }
{
    match role {
        Role::Launcher(pool) => is_registered(rows, session, pool).then_some(pool),
        Role::Janitor(_) | Role::Requester(_) | Role::Reaper => None,
    }
}

fn life(live: bool, mute: bool) -> &'static [u8]
    ensures { result.now ≡ life_said live mute }
{
    if !live {
        b"expired"
    } else if mute {
        b"crashed"
    } else {
        b"live"
    }
}

/// The row of a session of which this is known.
fn session_row<R: Rows>(
    alloc: Global,
    rows: &R,
    session: SessionId,
    facts: SessionFacts,
) -> Result<Row, NoMemory>
    ensures { IfOk result (λ row.
        row ≡ session_row (R.site rows.now) (R.state rows.now) session facts) }
{
    let mut row = Items::none(alloc);
    let config = rows.config();
    push(alloc, &mut row, config, &session)?;
    push_text(alloc, &mut row, life(facts.live, facts.mute))?;
    push(alloc, &mut row, config, &facts.role)?;
    let pool = registered_pool(rows, session, facts.role);
    push_or_dash(alloc, &mut row, config, &pool)?;
    push(
        alloc,
        &mut row,
        config,
        &u64::from(rows.queued_requests(session)),
    )?;
    push(
        alloc,
        &mut row,
        config,
        &u64::from(rows.queued_nodes(session)),
    )?;
    Ok(row)
}

/// The head, and a row for each session.
pub(crate) fn session_rows<R: Rows>(alloc: Global, rows: &R) -> Result<Vec<Row>, NoMemory>
    ensures { IfOk result (λ table.
        table.items ≡ session_rows (R.site rows.now) (R.state rows.now)) }
{
    let mut table = Vec::new(alloc);
    let words = [
        "session",
        "life",
        "of",
        "registered for",
        "in requests' queues",
        "in nodes' queues",
    ];
    table.push(head(alloc, &words)?)?;
    for at in 0..rows.sessions() {
        let session = SessionId(at + 1);
        let Some(facts) = rows.session(session) else {
            return Ok(table);
        };
        table.push(session_row(alloc, rows, session, facts)?)?;
    }
    Ok(table)
}
