//! The status of an explanation.

ghost use Rattle.std.specs.Prelude.{◌≡◌};
ghost use Rattle.np_explain.specs.Lower.{list_any};
ghost use Rattle.np_explain.specs.Explained.{is_open, status_of, is_failed};

use np_look::Rows;
use np_record::JobRecord;
use np_text::{Ending, JobId, Phase};

/// Whether the job's request failed.
pub(crate) fn is_failed(ending: Option<Ending>) -> bool
    ensures { result ≡ is_failed ending }
{
    matches!(ending, Some(Ending::Failed))
}

/// Whether the job is not over, or failed.
fn is_open(kept: &JobRecord) -> bool
    ensures { result ≡ is_open kept.now }
{
    kept.phase != Phase::Over || is_failed(kept.ending)
}

/// Whether a job is not over, or failed.
fn has_open<R: Rows>(rows: &R) -> bool
    ensures { result ≡ list_any is_open (R.state rows.now).jobs }
{
    for at in 0..rows.jobs() {
        let Some(kept) = rows.job(JobId(at)) else {
            return false;
        };
        if is_open(&kept) {
            return true;
        }
    }
    false
}

/// 1 if a job is not over or failed, and otherwise 0.
pub(crate) fn status_of<R: Rows>(rows: &R) -> u8
    ensures { result ≡ status_of (R.state rows.now) }
{
    if has_open(rows) { 1 } else { 0 }
}
