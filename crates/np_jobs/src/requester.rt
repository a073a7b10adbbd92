//! A requester's choice.

ghost use Rattle.std.specs.Prelude.{◌≡◌, true};
ghost use Rattle.np_jobs.specs.Lower.{Chooses, Fits, IsReached, Requester, is_role};

use crate::leave::first_step_to_leave;
use crate::rows::RequesterRows;
use crate::step::{first_step_in_window, first_step_under_way};
use np_event::Event;
use np_look::Look;
use np_text::{RequesterId, Role};
use np_useful::{choose_opening, current_session, first_release};

/// A useful event of the requester, or `None` if and only if there is none. It takes no memory. It
/// tries the kinds of events in the order of the crate's table, and stops at the first useful
/// event. Until then it judges at most
///
/// - two events for each node that a job uses, and one for each job that uses its nodes or whose
///   request failed;
/// - two for each job that was given its nodes and need not wait for handles, but whose nodes
///   others hold;
/// - one release, and two for the first new job that need not wait for semaphores;
/// - three for each node in whose queue the session is and that was not given to the requester.
///
/// The readers of `Look` name these jobs and nodes, the first node to lock, and the first job to
/// acquire handles for. With an index a reader costs a few lookups, `job_to_acquire` and
/// `job_to_begin` a few for each different list of semaphores that jobs wait for. A judged event on
/// a node costs a few lookups, and one on a job under way a few for each of its nodes and
/// semaphores. So jobs that wait for nodes, handles or semaphores cost nothing, whatever their
/// number, nor do locked nodes and handles.
pub fn choose_requester<L: Look>(look: &L, requester: RequesterId) -> Option<Event>
    requires there { is_role (L.site look.now) (Requester requester) ≡ true }
    requires reached { IsReached (L.site look.now) (L.state look.now) }
    requires fits { Fits (L.site look.now) (L.state look.now) }
    ensures { Chooses (L.site look.now) (L.state look.now) (Requester requester) result }
{
    let rows = RequesterRows { requester };
    let Some(session) = current_session(look, Role::Requester(requester)) else {
        return choose_opening(look, Role::Requester(requester));
    };
    let found = first_step_under_way(look, &rows, session);
    if found.is_some() {
        return found;
    }
    let release = first_release(look, &rows, session, requester);
    if release.is_some() {
        return release;
    }
    let begun = first_step_in_window(look, &rows, session);
    if begun.is_some() {
        return begun;
    }
    first_step_to_leave(look, &rows, session)
}
