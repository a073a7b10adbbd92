//! The events of a launcher that can be planned.

ghost use Rattle.std.specs.Prelude.{◌≡◌, true};
ghost use Rattle.np_launch.specs.Lower.{Fits, IsReached, Launcher, is_current, is_role};
ghost use Rattle.np_launch.specs.Planned.{ChoosesPlanned, ChoosesPlannedOf, ChoosesPlannedOfAny, planned_at, planned_order, planned_places};

use crate::computed::{decline_at, take_ready_at};
use crate::launcher::LauncherRows;
use np_event::Event;
use np_look::Look;
use np_text::{NodeId, PoolId, RequestId, Role, SessionId};
use np_useful::{Candidates, current_session, first_that_passes};

/// A kind of event that can be planned.
#[derive(Clone, Copy)]
pub(crate) enum PlannedKind {
    Fulfil,
    UnlockNode,
    UnlockRequest,
    Start,
    TakeReady,
    Decline,
}

/// The kinds in the order of the crate's table.
const PLANNED: [PlannedKind; 6] = [
    PlannedKind::Fulfil,
    PlannedKind::UnlockNode,
    PlannedKind::UnlockRequest,
    PlannedKind::Start,
    PlannedKind::TakeReady,
    PlannedKind::Decline,
];

/// The session's events of the kind, by place: of the requests or nodes in whose queues it is.
#[derive(Clone, Copy)]
struct OfPlanned {
    pool: PoolId,
    session: SessionId,
    kind: PlannedKind,
}

impl Candidates for OfPlanned {
    ghost places = { λ of c s. planned_places c s of.session of.kind };

    ghost candidate = { λ of c s at. planned_at c s of.pool of.session of.kind at };

    fn places<L: Look>(&self, look: &L) -> u32 {
        match self.kind {
            PlannedKind::UnlockNode | PlannedKind::Start => look.queued_nodes(self.session),
            PlannedKind::Fulfil
            | PlannedKind::UnlockRequest
            | PlannedKind::TakeReady
            | PlannedKind::Decline => look.queued_requests(self.session),
        }
    }

    fn candidate<L: Look>(&self, look: &L, at: u32) -> Option<Event> {
        let session = self.session;
        match self.kind {
            PlannedKind::Fulfil => match look.queued_request_at(session, at) {
                None => None,
                Some(request) => Some(Event::Fulfil { session, request }),
            },
            PlannedKind::UnlockNode => match look.queued_node_at(session, at) {
                None => None,
                Some(node) => Some(Event::UnlockNode { session, node }),
            },
            PlannedKind::UnlockRequest => match look.queued_request_at(session, at) {
                None => None,
                Some(request) => Some(Event::UnlockRequest { session, request }),
            },
            PlannedKind::Start => match look.queued_node_at(session, at) {
                None => None,
                Some(node) => Some(Event::Start { session, node }),
            },
            PlannedKind::TakeReady => take_ready_at(look, self.pool, session, at),
            PlannedKind::Decline => decline_at(look, self.pool, session, at),
        }
    }
}

/// The first useful event of the kind, or `None` if and only if there is none.
fn first_planned<L: Look>(
    look: &L,
    rows: &LauncherRows,
    session: SessionId,
    kind: PlannedKind,
) -> Option<Event>
    requires reached { IsReached (L.site look.now) (L.state look.now) }
    requires fits { Fits (L.site look.now) (L.state look.now) }
    requires current { is_current (Launcher rows.now.pool) session (L.state look.now) ≡ true }
    ensures { ChoosesPlannedOf (L.site look.now) (L.state look.now) rows.now.pool kind result }
{
    let pool = rows.pool;
    first_that_passes(
        look,
        rows,
        &OfPlanned {
            pool,
            session,
            kind,
        },
    )
}

/// The first useful event of the first kind that has one, or `None` if and only if there is none.
fn first_planned_of_any<L: Look>(
    look: &L,
    rows: &LauncherRows,
    session: SessionId,
    kinds: &[PlannedKind],
) -> Option<Event>
    requires reached { IsReached (L.site look.now) (L.state look.now) }
    requires fits { Fits (L.site look.now) (L.state look.now) }
    requires current { is_current (Launcher rows.now.pool) session (L.state look.now) ≡ true }
    ensures { ChoosesPlannedOfAny (L.site look.now) (L.state look.now) rows.now.pool
        kinds.now result }
{
    for kind in kinds {
        let found = first_planned(look, rows, session, *kind);
        if found.is_some() {
            return found;
        }
    }
    None
}

/// A useful event of the pool's launcher that can be planned: fulfil, unlock-node, unlock-request,
/// start, take-ready or decline, the first in this order; or `None` if and only if no useful event
/// is of these kinds. Its cost grows with the number of requests and nodes in whose queues the
/// launcher's session is. It takes no memory.
pub fn choose_planned<L: Look>(look: &L, pool: PoolId) -> Option<Event>
    requires reached { IsReached (L.site look.now) (L.state look.now) }
    requires fits { Fits (L.site look.now) (L.state look.now) }
    requires pool { is_role (L.site look.now) (Launcher pool) ≡ true }
    ensures { ChoosesPlanned (L.site look.now) (L.state look.now) pool result }
{
    let Some(session) = current_session(look, Role::Launcher(pool)) else {
        return None;
    };
    first_planned_of_any(look, &LauncherRows { pool }, session, &PLANNED)
}
