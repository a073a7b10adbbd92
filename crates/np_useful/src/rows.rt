//! The test of one event.

ghost use Rattle.std.specs.Prelude.{◌≡◌};
ghost use Rattle.np_useful.specs.Lower.{Configuration, Fits, Role, State};
ghost use Rattle.np_useful.specs.Useful.{row_holds, passes};

use np_decision::decide;
use np_event::Event;
use np_look::Look;

/// The rows of one role.
pub trait RoleRows {
    /// The role.
    ghost role: { Self → Role };
    /// What the rows know of the state beforehand.
    ghost knows: { Self → Configuration → State → Type 0 };

    /// Whether the event is one of the role's, and its row is true.
    fn holds<L: Look>(&self, look: &L, event: Event) -> bool
        requires fits { Fits (L.site look.now) (L.state look.now) }
        requires knows { knows self.now (L.site look.now) (L.state look.now) }
        ensures { result ≡ row_holds (L.site look.now) (L.state look.now) (role self.now) event };
}

/// Whether the machine accepts the event and its row is true. The row is tested only for an
/// accepted event. The cost is that of the judge and the row.
pub fn passes<L: Look, R: RoleRows>(look: &L, rows: &R, event: Event) -> bool
    requires fits { Fits (L.site look.now) (L.state look.now) }
    requires knows { R.knows rows.now (L.site look.now) (L.state look.now) }
    ensures { result ≡ passes (L.site look.now) (L.state look.now) (R.role rows.now) event }
{
    decide(look, event).is_ok() && rows.holds(look, event)
}
