//! Which jobs of a requester are in its window, and which wait for their semaphores.

ghost use Rattle.std.specs.Prelude.{◌≡◌, false, slice_get};
ghost use Rattle.np_jobs.specs.Lower.{Fits, has_fulfilled_request, is_in_window, is_to_acquire, is_unfinished_job, job_is, option_map_or, waits_for_handles, window_of};

use np_config::{Config, Job};
use np_decision::missing_handles;
use np_look::{Look, Rows};
use np_record::JobRecord;
use np_text::{JobId, Phase, RequestState, RequesterId};

/// How many jobs the requester works on at the same time.
fn window(config: &Config, requester: RequesterId) -> u32
    ensures { result ≡ window_of config.now requester }
{
    config.requester(requester).map_or(0, |row| row.window)
}

/// Whether the job exists, is the requester's and is not over. It costs one lookup.
fn is_unfinished<R: Rows>(rows: &R, requester: RequesterId, id: JobId) -> bool
    ensures { result ≡ option_map_or (is_unfinished_job (R.site rows.now) requester id)
        (slice_get (R.state rows.now).jobs id.0) false }
{
    let Some(job) = rows.config().job(id) else {
        return false;
    };
    let Some(kept) = rows.job(id) else {
        return false;
    };
    job.requester.0 == requester.0 && kept.phase != Phase::Over
}

/// Whether the job is one of the first jobs of the requester that are not over, as many as its
/// window. A job that is not over is in the window unless the one at the window's last place comes
/// before it. So this costs two lookups at most, however wide the window is.
pub(crate) fn is_in_window<L: Look>(look: &L, requester: RequesterId, job: JobId) -> bool
    ensures { result ≡ is_in_window (L.site look.now) (L.state look.now) requester job }
{
    let rows = look.rows();
    let width = window(rows.config(), requester);
    if width == 0 {
        return false;
    }
    if !is_unfinished(rows, requester, job) {
        return false;
    }
    match look.unfinished(requester, width - 1) {
        None => true,
        Some(last) => job.0 <= last.0,
    }
}

/// Whether the job's request exists and is fulfilled.
fn has_fulfilled_request<R: Rows>(rows: &R, kept: &JobRecord) -> bool
    ensures { result ≡ has_fulfilled_request (R.state rows.now) kept.now }
{
    let Some(request) = kept.request else {
        return false;
    };
    rows.asked(request)
        .is_some_and(|asked| asked.state == RequestState::Fulfilled)
}

/// Whether the job waits for its semaphores.
fn waits_for_handles<L: Look>(
    look: &L,
    requester: RequesterId,
    id: JobId,
    job: &Job,
    kept: &JobRecord,
) -> bool
    ensures { result ≡ waits_for_handles (L.site look.now) (L.state look.now) requester id
        job.now kept.now }
{
    (kept.phase == Phase::New && !job.resources_first && is_in_window(look, requester, id))
        || (kept.phase == Phase::Asked && has_fulfilled_request(look.rows(), kept))
}

/// Whether some handle is missing, and the job waits for it.
pub(crate) fn is_to_acquire<L: Look>(look: &L, requester: RequesterId, id: JobId) -> bool
    ensures { result ≡ job_is id (L.site look.now)
        (is_to_acquire (L.site look.now) (L.state look.now) requester id) }
{
    let rows = look.rows();
    let Some(job) = rows.config().job(id) else {
        return false;
    };
    let Some(kept) = rows.job(id) else {
        return false;
    };
    missing_handles(rows, id, job) != 0 && waits_for_handles(look, requester, id, job, &kept)
}
