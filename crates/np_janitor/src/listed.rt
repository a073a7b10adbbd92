//! What a janitor takes up as candidates: of each kind of nodes the one that is due first.

ghost use Rattle.std.specs.Prelude.{◌≡◌, length, slice_get};
ghost use Rattle.np_janitor.specs.Struck.{tried_kinds, lock_due_at};

use np_event::Event;
use np_look::{Look, UnheldKind};
use np_text::{PoolId, SessionId};
use np_useful::Candidates;

/// The kinds of nodes that nobody holds, in the order in which they are tried.
const TRIED: [UnheldKind; 4] = [
    UnheldKind::Abandoned,
    UnheldKind::LeftOver,
    UnheldKind::Hold,
    UnheldKind::Free,
];

/// The kind at a place of that order.
fn kind_at(at: u32) -> Option<UnheldKind>
    ensures { result ≡ slice_get tried_kinds at }
{
    TRIED.get(at as usize).copied()
}

/// The session's locks of the nodes of the pool that nobody holds and that are due first: for each
/// kind that of one node.
#[derive(Clone, Copy)]
pub(crate) struct LocksOfDue {
    pub(crate) session: SessionId,
    pub(crate) pool: PoolId,
}

impl Candidates for LocksOfDue {
    ghost places = { λ of c s. length tried_kinds };

    ghost candidate = { λ of c s at. lock_due_at c s of.session of.pool at };

    fn places<L: Look>(&self, _look: &L) -> u32 {
        TRIED.len() as u32
    }

    fn candidate<L: Look>(&self, look: &L, at: u32) -> Option<Event> {
        let kind = kind_at(at)?;
        let node = look.first_due(self.pool, kind)?;
        Some(Event::LockNode {
            session: self.session,
            node,
        })
    }
}
