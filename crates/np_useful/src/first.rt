//! The first event that passes, among candidates in an order.

ghost use Rattle.std.specs.Prelude.{◌≡◌, ℕ, Option};
ghost use Rattle.np_useful.specs.Lower.{Configuration, Event, Fits, State};
ghost use Rattle.np_useful.specs.Useful.{passing, IsFirstThatPasses};

use crate::rows::{RoleRows, passes};
use np_event::Event;
use np_look::Look;

/// Events at places from 0 on; a place may have none.
pub trait Candidates {
    /// How many places there are.
    ghost places: { Self → Configuration → State → ℕ };
    /// The event at a place.
    ghost candidate: { Self → Configuration → State → ℕ → Option Event };

    /// How many places there are.
    fn places<L: Look>(&self, look: &L) -> u32
        requires { Fits (L.site look.now) (L.state look.now) }
        ensures { result ≡ places self.now (L.site look.now) (L.state look.now) };

    /// The event at a place.
    fn candidate<L: Look>(&self, look: &L, at: u32) -> Option<Event>
        requires { Fits (L.site look.now) (L.state look.now) }
        ensures { result ≡ candidate self.now (L.site look.now) (L.state look.now) at };
}

/// The candidate, if it passes.
fn passing<L: Look, R: RoleRows>(look: &L, rows: &R, found: Option<Event>) -> Option<Event>
    requires fits { Fits (L.site look.now) (L.state look.now) }
    requires knows { R.knows rows.now (L.site look.now) (L.state look.now) }
    ensures { result ≡ passing (L.site look.now) (L.state look.now) (R.role rows.now) found }
{
    let Some(event) = found else {
        return None;
    };
    if passes(look, rows, event) {
        Some(event)
    } else {
        None
    }
}

/// The first of the candidates that passes, or `None` if and only if none of them does. It tests
/// the candidates up to that one.
pub fn first_that_passes<L: Look, R: RoleRows, C: Candidates>(
    look: &L,
    rows: &R,
    candidates: &C,
) -> Option<Event>
    requires fits { Fits (L.site look.now) (L.state look.now) }
    requires knows { R.knows rows.now (L.site look.now) (L.state look.now) }
    ensures { IsFirstThatPasses (L.site look.now) (L.state look.now) (R.role rows.now)
        (C.places candidates.now (L.site look.now) (L.state look.now))
        (C.candidate candidates.now (L.site look.now) (L.state look.now)) result }
{
    for at in 0..candidates.places(look) {
        let found = passing(look, rows, candidates.candidate(look, at));
        if found.is_some() {
            return found;
        }
    }
    None
}
