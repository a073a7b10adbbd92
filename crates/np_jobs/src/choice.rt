//! The choice of any role.

ghost use Rattle.std.specs.Prelude.{◌≡◌};
ghost use Rattle.np_jobs.specs.Lower.{Chooses, Fits, IsReached, takes_part};

use crate::choose_requester;
use np_event::Event;
use np_janitor::{choose_janitor, choose_reaper};
use np_launch::choose_launcher;
use np_look::{Look, Rows};
use np_text::Role;

/// Whether the role is in the configuration, or is the reaper.
pub fn takes_part<R: Rows>(rows: &R, role: Role) -> bool
    ensures { result ≡ takes_part (R.site rows.now) role }
{
    match role {
        Role::Launcher(pool) => rows.config().pool(pool).is_some(),
        Role::Janitor(pool) => rows.config().pool(pool).is_some(),
        Role::Requester(requester) => rows.config().requester(requester).is_some(),
        Role::Reaper => true,
    }
}

/// A useful event of the role, or `None` if and only if there is none; a role that is not in the
/// configuration has none. It takes no memory. The cost is that of the role's own choice. Over an
/// index it grows with what the party is at work on, and not with the number of all requests, nodes
/// or jobs.
pub fn choose<L: Look>(look: &L, role: Role) -> Option<Event>
    requires reached { IsReached (L.site look.now) (L.state look.now) }
    requires fits { Fits (L.site look.now) (L.state look.now) }
    ensures { Chooses (L.site look.now) (L.state look.now) role result }
{
    if !takes_part(look.rows(), role) {
        return None;
    }
    match role {
        Role::Launcher(pool) => choose_launcher(look, pool),
        Role::Janitor(pool) => choose_janitor(look, pool),
        Role::Requester(requester) => choose_requester(look, requester),
        Role::Reaper => choose_reaper(look),
    }
}
