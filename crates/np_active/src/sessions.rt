//! The groups that a session is in, and sessions moved between groups. Only making groups anew takes
//! memory.

ghost use Rattle.std.specs.Prelude.{◌≡◌, ◌≤◌, ◌*◌, [], IfOk, OnOk, length, map};
ghost use Rattle.np_active.specs.Lower.{is_session_before, same_session, with_all_moved, with_groups};
ghost use Rattle.np_active.specs.Active.{AreSessionGroups, live_group, mute_group, role_group, session_group};
ghost use Rattle.np_active.specs.Placed.{groups_of_session, kind_of_role, live_kind, session_before};
ghost use Rattle.std.specs.Option.{option_map};

use crate::group::group_of;
use crate::past::PastSession;
use np_lists::{Group, Groups, move_id};
use np_look::{BySession, Rows};
use np_text::{RequesterId, Role, SessionId};
use std::alloc::{AllocError, Global};

// ## groups

/// The sessions that speak for the role.
pub(crate) fn role_group(role: Role) -> Group
    ensures { result ≡ role_group role }
{
    let (class, first) = match role {
        Role::Launcher(pool) => (0, pool.0),
        Role::Janitor(pool) => (1, pool.0),
        Role::Requester(requester) => (2, requester.0),
        Role::Reaper => (3, 0),
    };
    group_of(class, first, 0, 0)
}

/// The live sessions that are mute.
pub(crate) fn mute_group() -> Group
    ensures { result ≡ mute_group }
{
    group_of(4, 0, 0, 0)
}

/// The live sessions of the requester, mute or not.
pub(crate) fn live_group(requester: RequesterId) -> Group
    ensures { result ≡ live_group requester }
{
    group_of(5, requester.0, 0, 0)
}

// ## one session

/// The group of a live session of the role: those that speak for it, or the mute ones.
fn group_of_role(role: Role, is_mute: bool) -> Group
    ensures { result ≡ session_group (kind_of_role role is_mute) }
{
    if is_mute {
        return mute_group();
    }
    role_group(role)
}

/// The group of the live sessions of the requester, if the role is one.
fn live_group_of(role: Role) -> Option<Group>
    ensures { result ≡ option_map session_group (live_kind role) }
{
    match role {
        Role::Requester(requester) => Some(live_group(requester)),
        Role::Launcher(_) | Role::Janitor(_) | Role::Reaper => None,
    }
}

/// The groups that the session is in. One lookup.
pub(crate) fn groups_of_session<R: Rows>(rows: &R, session: SessionId) -> [Option<Group>; 2]
    ensures { result ≡ groups_of_session (R.state rows.now) session }
{
    let Some(facts) = rows.session(session) else {
        return [None, None];
    };
    if !facts.live {
        return [None, None];
    }
    [
        Some(group_of_role(facts.role, facts.mute)),
        live_group_of(facts.role),
    ]
}

// ## all of them

/// Moves the sessions to where the state has them.
pub(crate) fn move_sessions<R: Rows>(
    groups: &mut Groups<BySession>,
    rows: &R,
    moved: &[PastSession],
)
    requires { 2 * length moved.now ≤ groups.old.room }
    ensures { groups.new.members ≡ with_all_moved is_session_before same_session
        (groups_of_session (R.state rows.now)) (map session_before moved.now)
        groups.old.members }
{
    for past in moved {
        let now = groups_of_session(rows, past.session);
        move_id(groups, past.session, &past.groups, &now);
    }
}

/// Puts the session in its groups, and takes the memory.
fn add_session<R: Rows>(
    groups: &mut Groups<BySession>,
    rows: &R,
    session: SessionId,
) -> Result<(), AllocError>
    ensures { OnOk result (groups.new.members ≡ with_groups is_session_before same_session
        session [] (groups_of_session (R.state rows.now) session) groups.old.members) }
{
    groups.reserve(2)?;
    let now = groups_of_session(rows, session);
    move_id(groups, session, &[], &now);
    Ok(())
}

/// The groups of all sessions, by one walk over them.
pub(crate) fn all_sessions<R: Rows>(
    alloc: Global,
    rows: &R,
) -> Result<Groups<BySession>, AllocError>
    ensures { IfOk result (λ groups. AreSessionGroups (R.state rows.now) groups.members) }
{
    let mut groups = Groups::new(alloc);
    for at in 0..rows.sessions() {
        add_session(&mut groups, rows, SessionId(at + 1))?;
    }
    Ok(groups)
}
