//! What is said of a job.

ghost use Rattle.std.specs.Prelude.{◌≡◌};
ghost use Rattle.np_causes.specs.Fact.{Tells, full_of, last_in_window};
ghost use Rattle.np_causes.specs.declared.fact.Thing.TheVariants as thing;

use crate::fact::{Fact, Thing};
use np_look::{Look, Rows, first_full};
use np_text::{JobId, SemId};

/// How far the job is.
pub(crate) fn fact_of_job<R: Rows>(rows: &R, job: JobId) -> Fact
    ensures { Tells (R.site rows.now) (R.state rows.now) (thing.Job job) result }
{
    match rows.job(job) {
        None => Fact::Missing {
            thing: Thing::Job(job),
        },
        Some(kept) => Fact::InPhase {
            job,
            phase: kept.phase,
        },
    }
}

/// Whose job it is.
pub(crate) fn fact_of_turn<R: Rows>(rows: &R, job: JobId) -> Fact
    ensures { Tells (R.site rows.now) (R.state rows.now) (thing.Turn job) result }
{
    match rows.config().job(job) {
        None => Fact::Missing {
            thing: Thing::Turn(job),
        },
        Some(row) => Fact::OfRequester {
            job,
            requester: row.requester,
        },
    }
}

/// The last of the jobs that the job's requester works on, if it works on as many as it may.
fn last_in_window<L: Look>(look: &L, job: JobId) -> Option<JobId>
    ensures { result ≡ last_in_window (L.site look.now) (L.state look.now) job }
{
    let config = look.rows().config();
    match config.job(job) {
        None => None,
        Some(row) => {
            let window = match config.requester(row.requester) {
                None => 0,
                Some(requester) => requester.window,
            };
            look.unfinished(row.requester, window.saturating_sub(1))
        }
    }
}

/// Whether the job is in its requester's window.
pub(crate) fn fact_of_window<L: Look>(look: &L, job: JobId) -> Fact
    ensures { Tells (L.site look.now) (L.state look.now) (thing.Window job) result }
{
    match last_in_window(look, job) {
        None => Fact::InWindow { job },
        Some(last) => {
            if last.0 < job.0 {
                Fact::PastWindow { job, last }
            } else {
                Fact::InWindow { job }
            }
        }
    }
}

/// The first of the job's semaphores that is full and of which it has no handle.
fn full_of<R: Rows>(rows: &R, job: JobId) -> Option<SemId>
    ensures { result ≡ full_of (R.site rows.now) (R.state rows.now) job }
{
    match rows.config().job(job) {
        None => None,
        Some(row) => first_full(rows, job, row),
    }
}

/// Whether a semaphore that the job lacks is full.
pub(crate) fn fact_of_supply<R: Rows>(rows: &R, job: JobId) -> Fact
    ensures { Tells (R.site rows.now) (R.state rows.now) (thing.Supply job) result }
{
    match full_of(rows, job) {
        None => Fact::Supplied { job },
        Some(semaphore) => Fact::Full { job, semaphore },
    }
}

/// How many jobs have the semaphore.
pub(crate) fn fact_of_semaphore<R: Rows>(rows: &R, semaphore: SemId) -> Fact
    ensures { Tells (R.site rows.now) (R.state rows.now) (thing.Semaphore semaphore) result }
{
    Fact::Handles {
        semaphore,
        count: rows.handles(semaphore),
    }
}

/// Whether the job has a handle of the semaphore.
pub(crate) fn fact_of_handle<R: Rows>(rows: &R, semaphore: SemId, job: JobId) -> Fact
    ensures { Tells (R.site rows.now) (R.state rows.now) (thing.Handle semaphore job) result }
{
    if rows.has_handle(semaphore, job) {
        Fact::HasHandle { semaphore, job }
    } else {
        Fact::Missing {
            thing: Thing::Handle(semaphore, job),
        }
    }
}
