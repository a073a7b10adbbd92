//! How a requester leaves nodes.

ghost use Rattle.std.specs.Prelude.{◌≡◌, IfSome, true};
ghost use Rattle.np_jobs.specs.Lower.{ChoosesOfAny, Fits, IsReached, IsUseful, Requester, is_current};
ghost use Rattle.np_jobs.specs.Steps.{leaving, ChoosesToLeave};

use crate::rows::RequesterRows;
use np_event::Event;
use np_look::{Look, Rows};
use np_text::{EndAs, JobId, NodeId, Phase, SessionId};
use np_useful::passes;

/// The first useful end-node or unlock-node of a node that the job uses, or `None` if there is none
/// or the job does not use its nodes. It judges two events for each of these nodes. That it is
/// tried before the job is finished keeps nodes that are no longer needed out of the session's
/// queues; the other nodes to leave are tried last.
pub(crate) fn first_to_leave<L: Look>(
    look: &L,
    rows: &RequesterRows,
    session: SessionId,
    job: JobId,
) -> Option<Event>
    requires reached { IsReached (L.site look.now) (L.state look.now) }
    requires fits { Fits (L.site look.now) (L.state look.now) }
    requires current { is_current (Requester rows.now.requester) session (L.state look.now) ≡ true }
    ensures { IfSome result
        (IsUseful (L.site look.now) (L.state look.now) (Requester rows.now.requester)) }
{
    let row = look.rows().config().job(job)?;
    let kept = look.rows().job(job)?;
    if kept.phase != Phase::Using {
        return None;
    }
    for marked in kept.nodes.items() {
        let node = marked.node;
        let end = Event::EndNode {
            session,
            node,
            end: row.end,
        };
        if passes(look, rows, end) {
            return Some(end);
        }
        let leave = Event::UnlockNode { session, node };
        if passes(look, rows, leave) {
            return Some(leave);
        }
    }
    None
}

/// The first useful event of these on the node: its end as used, its end as held, its unlock. It
/// judges at most three events.
fn step_to_leave<L: Look>(
    look: &L,
    rows: &RequesterRows,
    session: SessionId,
    node: NodeId,
) -> Option<Event>
    requires reached { IsReached (L.site look.now) (L.state look.now) }
    requires fits { Fits (L.site look.now) (L.state look.now) }
    requires current { is_current (Requester rows.now.requester) session (L.state look.now) ≡ true }
    ensures { ChoosesToLeave (L.site look.now) (L.state look.now) rows.now.requester session node
        result }
{
    let end = Event::EndNode {
        session,
        node,
        end: EndAs::Used,
    };
    if passes(look, rows, end) {
        return Some(end);
    }
    let hold = Event::EndNode {
        session,
        node,
        end: EndAs::Hold,
    };
    if passes(look, rows, hold) {
        return Some(hold);
    }
    let unlock = Event::UnlockNode { session, node };
    passes(look, rows, unlock).then_some(unlock)
}

/// The first useful end-node or unlock-node, or `None` if and only if there is none. Only a node to
/// leave has one: the session is in its queue, and it was not given to the requester. It judges at
/// most three events for each of these nodes, in order of their numbers, and stops at the first
/// useful event.
pub(crate) fn first_step_to_leave<L: Look>(
    look: &L,
    rows: &RequesterRows,
    session: SessionId,
) -> Option<Event>
    requires reached { IsReached (L.site look.now) (L.state look.now) }
    requires fits { Fits (L.site look.now) (L.state look.now) }
    requires current { is_current (Requester rows.now.requester) session (L.state look.now) ≡ true }
    ensures { ChoosesOfAny (L.site look.now) (L.state look.now) (Requester rows.now.requester)
        leaving result }
{
    for at in 0..look.rows().nodes() {
        let Some(node) = look.node_to_leave(rows.requester, session, at) else {
            return None;
        };
        let found = step_to_leave(look, rows, session, node);
        if found.is_some() {
            return found;
        }
    }
    None
}
