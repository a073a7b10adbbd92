//! The release of the handles of a requester's jobs.

ghost use Rattle.std.specs.Prelude.{◌≡◌, true};
ghost use Rattle.np_useful.specs.Lower.{Fits};
ghost use Rattle.np_useful.specs.Sessions.{is_current};
ghost use Rattle.np_useful.specs.Useful.{ChoosesRelease};

use crate::rows::{RoleRows, passes};
use np_event::Event;
use np_look::{Look, Rows};
use np_text::{RequesterId, SessionId};

/// The first useful release of a job of the requester that the current session may make, by job, or
/// `None` if and only if no release of a job of the requester is useful. The machine accepts the
/// release of a job only when the job is over, and no role releases a job that has no handle, so it
/// tests only the requester's jobs that are over and have a handle, up to the first whose release
/// passes. For a janitor and for the requester itself that is the first of them: a choice costs one
/// lookup and one judged event, or the lookup alone if there is no such job.
pub fn first_release<L: Look, R: RoleRows>(
    look: &L,
    rows: &R,
    session: SessionId,
    requester: RequesterId,
) -> Option<Event>
    requires fits { Fits (L.site look.now) (L.state look.now) }
    requires knows { R.knows rows.now (L.site look.now) (L.state look.now) }
    requires current { is_current (R.role rows.now) session (L.state look.now) ≡ true }
    ensures { ChoosesRelease (L.site look.now) (L.state look.now) (R.role rows.now) requester result }
{
    for at in 0..look.rows().jobs() {
        let Some(job) = look.job_to_release(requester, at) else {
            return None;
        };
        let release = Event::Release { session, job };
        if passes(look, rows, release) {
            return Some(release);
        }
    }
    None
}
