//! The jobs and the sessions that the changes of an event touch, with the groups that they are in
//! before it.

ghost use Rattle.std.specs.Prelude.{◌≡◌, IfOk, map};
ghost use Rattle.np_active.specs.Placed.{IsPast, past_job, past_session};

use crate::jobs::group_of_job;
use crate::sessions::groups_of_session;
use np_classes::Touched;
use np_lists::Group;
use np_look::Rows;
use np_text::{JobId, SessionId};
use std::alloc::{AllocError, Global};
use std::marker::Model;

/// A job, with the group that it is in before a change.
#[derive(Clone, Copy)]
pub(crate) struct PastJob {
    pub(crate) job: JobId,
    pub(crate) groups: [Option<Group>; 1],
}

/// A session, with its groups.
#[derive(Clone, Copy)]
pub(crate) struct PastSession {
    pub(crate) session: SessionId,
    pub(crate) groups: [Option<Group>; 2],
}

/// The jobs and the sessions that an event's changes touch, with the groups that they are in before
/// it.
#[derive(Drop)]
pub struct Past {
    pub(crate) jobs: Vec<PastJob>,
    pub(crate) sessions: Vec<PastSession>,
}

impl Model for Past {
    ghost use Rattle.np_active.specs.Placed.{PastOf};

    ghost Value = { PastOf };

    ghost view = { λ past. record { jobs = past.jobs.items; sessions = past.sessions.items } };
}

fn past_jobs<R: Rows>(
    alloc: Global,
    rows: &R,
    lines: &[JobId],
    jobs: &[JobId],
) -> Result<Vec<PastJob>, AllocError>
    ensures { IfOk result (λ list. list.items
        ≡ map (past_job (R.site rows.now) (R.state rows.now) lines.now) jobs.now) }
{
    let mut list = Vec::new(alloc);
    for job in jobs {
        list.push(PastJob {
            job: *job,
            groups: [group_of_job(rows, lines, *job)],
        })?;
    }
    Ok(list)
}

fn past_sessions<R: Rows>(
    alloc: Global,
    rows: &R,
    sessions: &[SessionId],
) -> Result<Vec<PastSession>, AllocError>
    ensures { IfOk result
        (λ list. list.items ≡ map (past_session (R.state rows.now)) sessions.now) }
{
    let mut list = Vec::new(alloc);
    for session in sessions {
        list.push(PastSession {
            session: *session,
            groups: groups_of_session(rows, *session),
        })?;
    }
    Ok(list)
}

/// What was touched, with its groups. It costs what `group_of_job` does for each job, and a lookup
/// for each session.
pub(crate) fn past_of<R: Rows>(
    alloc: Global,
    rows: &R,
    lines: &[JobId],
    touched: &Touched,
) -> Result<Past, AllocError>
    ensures { IfOk result
        (λ past. IsPast (R.site rows.now) (R.state rows.now) lines.now touched.now past) }
{
    let jobs = past_jobs(alloc, rows, lines, touched.jobs())?;
    let sessions = past_sessions(alloc, rows, touched.sessions())?;
    Ok(Past { jobs, sessions })
}
