//! What is said of sessions and of those who act by them.

ghost use Rattle.std.specs.Prelude.{◌≡◌};
ghost use Rattle.np_causes.specs.Lower.{current_of};
ghost use Rattle.np_causes.specs.Fact.{Tells};
ghost use Rattle.np_causes.specs.declared.fact.Thing.TheVariants as thing;

use crate::fact::{Fact, Thing};
use np_look::{Look, Rows};
use np_text::{Role, SessionId};
use np_useful::is_stopped;

/// Who is behind the session.
pub(crate) fn fact_of_session<R: Rows>(rows: &R, session: SessionId) -> Fact
    ensures { Tells (R.site rows.now) (R.state rows.now) (thing.Session session) result }
{
    match rows.session(session) {
        None => Fact::Missing {
            thing: Thing::Session(session),
        },
        Some(facts) => Fact::Known { session, facts },
    }
}

/// Why nobody acts for the role.
fn fact_of_silent<R: Rows>(rows: &R, role: Role) -> Fact
    requires { current_of role (R.state rows.now) ≡ None }
    ensures { Tells (R.site rows.now) (R.state rows.now) (thing.Role role) result }
{
    if is_stopped(rows, role) {
        Fact::Stopped { role }
    } else {
        Fact::MayOpen { role }
    }
}

/// Who acts for the role.
pub(crate) fn fact_of_role<L: Look>(look: &L, role: Role) -> Fact
    ensures { Tells (L.site look.now) (L.state look.now) (thing.Role role) result }
{
    match look.current_session(role) {
        Some(session) => Fact::Current { role, session },
        None => fact_of_silent(look.rows(), role),
    }
}
