//! Who acts for a role, and whether a session may begin.

ghost use Rattle.std.specs.Prelude.{◌≡◌, ◌&&◌, ◌==◌, true, false, cond, slice_get};
ghost use Rattle.np_useful.specs.Lower.{Fits, is_role};
ghost use Rattle.np_useful.specs.Sessions.{has_current, faults_of, strikes_of, is_stopped, may_open};
ghost use Rattle.np_useful.specs.Useful.{NamesCurrent, ChoosesOpening};

use np_config::{Config, Fault, FaultKind};
use np_event::Event;
use np_look::{Look, Rows, is_same_role};
use np_text::{Role, SessionId};

/// The role's current session, or `None` if and only if it has none. It costs what the reader
/// `current_session` costs.
pub fn current_session<L: Look>(look: &L, role: Role) -> Option<SessionId>
    ensures { NamesCurrent role (L.state look.now) result }
{
    look.current_session(role)
}

/// How many sessions of the role were lost.
pub fn strikes_of<R: Rows>(rows: &R, role: Role) -> u32
    ensures { result ≡ strikes_of role (R.state rows.now) }
{
    match rows.role(role) {
        None => 0,
        Some(deeds) => deeds.strikes,
    }
}

/// 1 if it is true.
fn one_if(holds: bool) -> u32
    ensures { result ≡ cond holds 1 0 }
{
    if holds { 1 } else { 0 }
}

/// Whether it is the role's own, and no more are to be skipped.
fn is_next(own: bool, left: u32) -> bool
    ensures { result ≡ (own && (left == 0)) }
{
    own && left == 0
}

/// The role's fault at a place among its faults, in the configuration's order. The cost is the
/// number of faults that the configuration has.
pub fn fault_of(config: &Config, role: Role, place: u32) -> Option<Fault>
    ensures { result ≡ slice_get (faults_of config.now role) place }
{
    config.know_soundness();
    let mut left = place;
    let mut at = 0;
    while let Some(fault) = config.fault(at) {
        let own = is_same_role(fault.role, role);
        if is_next(own, left) {
            return Some(*fault);
        }
        left = left.saturating_sub(one_if(own));
        at += 1;
    }
    None
}

/// Whether the role stopped for good: the last fault that struck it was a stop. The cost is the
/// number of faults that the configuration has.
pub fn is_stopped<R: Rows>(rows: &R, role: Role) -> bool
    ensures { result ≡ is_stopped (R.site rows.now) role (R.state rows.now) }
{
    let strikes = strikes_of(rows, role);
    if strikes == 0 {
        return false;
    }
    matches!(fault_of(rows.config(), role, strikes - 1), Some(fault)
        if fault.kind == FaultKind::Stop)
}

/// Whether a session of the role may begin: it has no current one, and has not stopped.
pub fn may_open<L: Look>(look: &L, role: Role) -> bool
    ensures { result ≡ may_open (L.site look.now) role (L.state look.now) }
{
    current_session(look, role).is_none() && !is_stopped(look.rows(), role)
}

/// The opening of a session of the role, which has none, or `None` if and only if it has stopped.
pub fn choose_opening<L: Look>(look: &L, role: Role) -> Option<Event>
    requires fits { Fits (L.site look.now) (L.state look.now) }
    requires role { is_role (L.site look.now) role ≡ true }
    requires none { has_current role (L.state look.now) ≡ false }
    ensures { ChoosesOpening (L.site look.now) (L.state look.now) role result }
{
    if is_stopped(look.rows(), role) {
        return None;
    }
    Some(Event::OpenSession { role })
}
