//! The verdict on an event that is accepted.

ghost use Rattle.std.specs.Prelude.{◌≡◌, Ok};
ghost use Rattle.np_decision.specs.Lower.{Plain, made_by, same};

use np_changes::{Changes, Deed, Maker, SAME};
use np_event::{Done, Refusal};
use np_text::{Role, SessionId};

/// The event is accepted: the answer to it, and what it changes.
#[derive(Clone, Copy)]
pub struct Verdict {
    pub done: Done,
    pub changes: Changes,
}

/// What an event comes to: its verdict, or why it is refused.
pub type Ruling = Result<Verdict, Refusal>;

/// One act of the session's role, and nothing else.
pub(crate) fn made_by(session: SessionId, role: Role) -> Changes
    ensures { result ≡ made_by session role same }
{
    Changes {
        maker: Some(Maker { session, role }),
        deed: Some(Deed::Acts),
        ..SAME
    }
}

/// The event is accepted, and answered with no more than that.
pub(crate) fn plain(changes: Changes) -> Ruling
    ensures { result ≡ Ok (record { done = Plain; changes = changes }) }
{
    Ok(Verdict {
        done: Done::Plain,
        changes,
    })
}
