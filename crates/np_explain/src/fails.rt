//! Why requests failed.

ghost use Rattle.std.specs.Prelude.{◌≡◌, ◌++◌, slice_get, IfOk, OnOk};
ghost use Rattle.np_explain.specs.Lower.{flat_map};
ghost use Rattle.np_explain.specs.Explained.{declined_line, declined_lines, failed_lines, failure_lines, lines_of_job};

use crate::status::is_failed;
use np_config::Config;
use np_explain_lines::{put, put_job, put_pool, put_reason_words, put_request};
use np_look::Rows;
use np_record::{Declined, JobRecord};
use np_text::{Ample, JobId, NoMemory, RequestId};
use std::alloc::Global;

/// Appends a pool's decline.
#[tactic(auto, unfolding(crate::specs::Explained::declined_line))]
fn put_decline(out: &mut Vec<u8>, config: &Config, request: RequestId, declined: Declined) -> Ample
    ensures { OnOk result (out.new.items
        ≡ out.old.items ++ declined_line config.now request declined) }
{
    put(out, b"  ")?;
    put_request(out, request)?;
    put(out, b" at ")?;
    put_pool(out, config, declined.pool)?;
    put(out, b": the pool declined: ")?;
    put_reason_words(out, config, declined.reason)?;
    put(out, b"\n")
}

/// Appends each of these declines.
fn put_record(
    out: &mut Vec<u8>,
    config: &Config,
    request: RequestId,
    declines: &[Declined],
) -> Ample
    ensures { OnOk result (out.new.items
        ≡ out.old.items ++ flat_map (declined_line config.now request) declines.now) }
{
    for declined in declines {
        put_decline(out, config, request, *declined)?;
    }
    Ok(())
}

/// Appends each decline of the job's request.
fn put_declines<R: Rows>(out: &mut Vec<u8>, rows: &R, request: Option<RequestId>) -> Ample
    ensures { OnOk result (out.new.items
        ≡ out.old.items ++ declined_lines (R.site rows.now) (R.state rows.now) request) }
{
    let Some(request) = request else {
        return put(out, b"  it has no request\n");
    };
    match rows.request(request) {
        None => put(out, b"  its request is gone\n"),
        Some(kept) => put_record(out, rows.config(), request, kept.declined.items()),
    }
}

#[tactic(auto, unfolding(crate::specs::Explained::failed_lines))]
fn put_failed<R: Rows>(out: &mut Vec<u8>, rows: &R, job: JobId, kept: &JobRecord) -> Ample
    ensures { OnOk result (out.new.items
        ≡ out.old.items ++ failed_lines (R.site rows.now) (R.state rows.now) job kept.now) }
{
    put_job(out, rows.config(), job)?;
    put(out, b": its request failed\n")?;
    put_declines(out, rows, kept.request)
}

/// Appends the lines of the job, if its request failed.
fn put_job_lines<R: Rows>(out: &mut Vec<u8>, rows: &R, job: JobId) -> Ample
    ensures { OnOk result (out.new.items
        ≡ out.old.items ++ lines_of_job (R.site rows.now) (R.state rows.now) job.0
        (slice_get (R.state rows.now).jobs job.0)) }
{
    let Some(kept) = rows.job(job) else {
        return Ok(());
    };
    if is_failed(kept.ending) {
        return put_failed(out, rows, job, &kept);
    }
    Ok(())
}

/// Why the requests of jobs failed, a few lines for each such job.
pub(crate) fn failures<R: Rows>(alloc: Global, rows: &R) -> Result<Vec<u8>, NoMemory>
    ensures { IfOk result (λ lines. lines.items
        ≡ failure_lines (R.site rows.now) (R.state rows.now)) }
{
    let mut out = Vec::new(alloc);
    for at in 0..rows.jobs() {
        put_job_lines(&mut out, rows, JobId(at))?;
    }
    Ok(out)
}
