//! The rows of a requester.

ghost use Rattle.std.specs.Prelude.{◌≡◌};
ghost use Rattle.np_jobs.specs.Lower.{IsReached, Requester, has_some_handle, job_is, row_holds};

use crate::node::{is_for, is_idle, is_left_as};
use crate::window::{is_in_window, is_to_acquire};
use np_event::Event;
use np_look::{Look, Rows, is_same_role, waits_at_node};
use np_text::{JobId, RequesterId, Role};
use np_useful::{RoleRows, may_open};

/// The rows of this requester.
#[derive(Clone, Copy)]
pub(crate) struct RequesterRows {
    pub(crate) requester: RequesterId,
}

/// Whether the job exists and has a handle of one of its semaphores.
fn has_handles<R: Rows>(rows: &R, id: JobId) -> bool
    ensures { result ≡ job_is id (R.site rows.now) (has_some_handle (R.state rows.now) id) }
{
    rows.config()
        .job(id)
        .is_some_and(|job| np_look::has_handles(rows, id, job))
}

impl RoleRows for RequesterRows {
    ghost role = { λ rows. Requester rows.requester };

    ghost knows = { λ rows. IsReached };

    fn holds<L: Look>(&self, look: &L, event: Event) -> bool {
        let rows = look.rows();
        let own = Role::Requester(self.requester);
        match event {
            Event::OpenSession { role } => is_same_role(role, own) && may_open(look, role),
            Event::Acquire { job, .. } => is_to_acquire(look, self.requester, job),
            Event::Submit { job, .. } => is_in_window(look, self.requester, job),
            Event::LockNode { session, node } => {
                is_for(rows, self.requester, node) && !waits_at_node(rows, session, node)
            }
            Event::Take { .. } | Event::Finish { .. } => true,
            Event::EndNode { node, end, .. } => is_left_as(look, node, end),
            Event::UnlockNode { node, .. } => {
                is_idle(rows, node) && !is_for(rows, self.requester, node)
            }
            Event::Release { job, .. } => has_handles(rows, job),
            _ => false,
        }
    }
}
