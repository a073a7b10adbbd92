//! The reaper, which ends sessions.

ghost use Rattle.std.specs.Prelude.{◌≡◌};
ghost use Rattle.np_janitor.specs.Lower.{Chooses, Reaper, is_due};
ghost use Rattle.np_janitor.specs.Struck.{due_kind, strike_on, strike_of, strike_by, ChoosesStrike};

use np_config::{Fault, FaultKind};
use np_event::Event;
use np_look::{Look, Rows};
use np_text::{Role, SessionId};
use np_useful::{fault_of, strikes_of};

/// Whether the role has as many accepted events as the fault waits for.
fn is_due<R: Rows>(rows: &R, role: Role, fault: &Fault) -> bool
    ensures { result ≡ is_due role (R.state rows.now) fault.now }
{
    matches!(rows.role(role), Some(deeds) if fault.after <= deeds.acts)
}

/// The kind of the role's next fault, if it is due.
fn due_kind<R: Rows>(rows: &R, role: Role) -> Option<FaultKind>
    ensures { result ≡ due_kind (R.site rows.now) role (R.state rows.now) }
{
    let fault = fault_of(rows.config(), role, strikes_of(rows, role))?;
    is_due(rows, role, &fault).then_some(fault.kind)
}

/// What a fault of the kind does to the session: the session ends, or its party crashes.
fn strike_on(kind: FaultKind, session: SessionId) -> Event
    ensures { result ≡ strike_on kind session }
{
    match kind {
        FaultKind::Expire => Event::Expire { session },
        FaultKind::Crash | FaultKind::Stop => Event::Crash { session },
    }
}

/// What the role's next fault does to the role's current session, if the fault is due. It walks the
/// configuration's faults up to that one, or all if none is left, and looks the session up only for
/// one that is due.
fn strike_of<L: Look>(look: &L, role: Role) -> Option<Event>
    ensures { result ≡ strike_of (L.site look.now) (L.state look.now) role }
{
    let kind = due_kind(look.rows(), role)?;
    let session = look.current_session(role)?;
    Some(strike_on(kind, session))
}

/// What strikes the role of a fault now, if the role has as many accepted events as the fault waits
/// for. If it has fewer, the cost is one lookup.
fn strike_by<L: Look>(look: &L, fault: &Fault) -> Option<Event>
    ensures { result ≡ strike_by (L.site look.now) (L.state look.now) fault.now }
{
    if is_due(look.rows(), fault.role, fault) {
        strike_of(look, fault.role)
    } else {
        None
    }
}

/// What strikes a role now, for the first fault in the configuration's order whose role is struck,
/// or `None` if and only if no role is. It walks the faults up to that one.
fn first_strike<L: Look>(look: &L) -> Option<Event>
    ensures { ChoosesStrike (L.site look.now) (L.state look.now) result }
{
    let config = look.rows().config();
    config.know_soundness();
    let mut at = 0;
    while let Some(fault) = config.fault(at) {
        let found = strike_by(look, fault);
        if found.is_some() {
            return found;
        }
        at += 1;
    }
    None
}

/// A useful event of the reaper, or `None` if and only if there is none. First comes the expiry of
/// the oldest session that is live and mute. Then come the expiries and crashes that are due, in
/// the order of the configuration's faults. Its cost grows with the number of these faults and not
/// with the number of sessions, if the readers `first_mute` and `current_session` are lookups, as
/// with an index: a fault for which its role has not acted enough yet costs one lookup, and any
/// other a walk of the faults up to the role's next one, or of all if none is left. If that one is
/// due, the role's session is looked up.
pub fn choose_reaper<L: Look>(look: &L) -> Option<Event>
    ensures { Chooses (L.site look.now) (L.state look.now) Reaper result }
{
    match look.first_mute() {
        Some(session) => Some(Event::Expire { session }),
        None => first_strike(look),
    }
}
