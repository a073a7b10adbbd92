//! Where a machine writes what changes.

ghost use Rattle.std.specs.Prelude.{OnErr, OnOk};
ghost use Rattle.np_look.specs.Lower.{Configuration, Fits, IsPlanned, IsReached, State, changed};

use crate::rows::Rows;
use np_changes::Changes;
use np_text::Ample;

/// Where a machine writes what each accepted event changes, before its own tables take it.
pub trait Store {
    /// What is written is this state of the configuration.
    ghost holds: { Self → Configuration → State → Type 0 };

    /// What the second has is what the first had, or came after it.
    ghost later: { Self → Self → Type 0 };

    ghost same: { (store : Self) → later store store };

    /// Writes what the event changes in the state of these rows, all of it or nothing. If memory
    /// runs out, what is written is still that state.
    fn write<R: Rows>(&mut self, rows: &R, changes: &Changes) -> Ample
        requires reached { IsReached (R.site rows.now) (R.state rows.now) }
        requires fits { Fits (R.site rows.now) (R.state rows.now) }
        requires planned { IsPlanned (R.site rows.now) (R.state rows.now) changes.now }
        requires holds { holds self.old (R.site rows.now) (R.state rows.now) }
        ensures ok { OnOk result (holds self.new (R.site rows.now)
            (changed (R.site rows.now) changes.now (R.state rows.now))) }
        ensures err { OnErr result (holds self.new (R.site rows.now) (R.state rows.now)) }
        ensures later { later self.old self.new };
}

/// Nothing is written.
impl Store for () {
    ghost holds = { λ store c s. Unit {0} };

    ghost later = { λ before now. Unit {0} };

    ghost same = { λ store. tt };

    fn write<R: Rows>(&mut self, rows: &R, changes: &Changes) -> Ample {
        Ok(())
    }
}
