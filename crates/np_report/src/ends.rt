//! How many jobs came to which end.

ghost use Rattle.std.specs.Prelude.{◌≡◌, ◌≤◌, ◌++◌, codes, length, count_by, if◌then◌else◌, OnOk, IfOk};
ghost use Rattle.np_report.specs.Lower.{fate_of, fates};
ghost use Rattle.np_report.specs.Summary.{is_end, summary_of, count_line};

use np_look::Rows;
use np_record::JobRecord;
use np_text::{Ample, Ending, JobId, NoMemory, put_number};
use std::alloc::Global;

/// What a job can come to.
#[derive(Clone, Copy)]
enum End {
    Served,
    Failed,
    Lost,
    Withdrawn,
    /// It isn't over.
    Waiting,
}

/// Whether the job came to this end.
fn is_end<R: Rows>(rows: &R, end: End, job: &JobRecord) -> bool
    ensures { result ≡ is_end end (fate_of (R.state rows.now) job.now) }
{
    match end {
        End::Served => matches!(job.ending, Some(Ending::Served)),
        End::Failed => matches!(job.ending, Some(Ending::Failed)),
        End::Lost => matches!(job.ending, Some(Ending::Lost)),
        End::Withdrawn => matches!(job.ending, Some(Ending::Withdrawn)),
        End::Waiting => job.ending.is_none(),
    }
}

fn one_if(counted: bool) -> u32
    ensures answer { result ≡ (if counted then 1 else 0) }
    ensures small { result ≤ 1 }
{
    if counted { 1 } else { 0 }
}

fn count_jobs<R: Rows>(rows: &R) -> u32
    requires { length (R.state rows.now).jobs ≤ 4096 }
    ensures { result ≡ length (R.state rows.now).jobs }
{
    let mut at = 0;
    while let Some(_) = rows.job(JobId(at)) {
        at += 1;
    }
    at
}

fn count_ends<R: Rows>(rows: &R, end: End) -> u32
    requires { length (R.state rows.now).jobs ≤ 4096 }
    ensures { result ≡ count_by (is_end end) (fates (R.state rows.now)) }
{
    let mut at = 0;
    let mut count = 0;
    while let Some(job) = rows.job(JobId(at)) {
        count += one_if(is_end(rows, end, &job));
        at += 1;
    }
    count
}

fn put_count(out: &mut Vec<u8>, word: &[u8], count: u32) -> Ample
    ensures { OnOk result (out.new.items ≡ out.old.items ++ count_line word.now count) }
{
    out.extend_from_slice(word)?;
    out.push(b' ')?;
    put_number(out, u64::from(count))?;
    out.push(b'\n')?;
    Ok(())
}

/// The summary of a state: how many jobs there are, and how many were served, failed, lost and
/// withdrawn, and are waiting, a line each. The time grows with the number of jobs.
#[tactic(auto, unfolding(crate::specs::Summary::summary_of))]
pub fn summary<R: Rows>(alloc: Global, rows: &R) -> Result<Vec<u8>, NoMemory>
    requires jobs { length (R.state rows.now).jobs ≡ length (R.site rows.now).jobs }
    ensures { IfOk result (λ text. text.items ≡ summary_of (fates (R.state rows.now))) }
{
    rows.config().know_soundness();
    let mut out = Vec::new(alloc);
    put_count(&mut out, b"jobs", count_jobs(rows))?;
    put_count(&mut out, b"served", count_ends(rows, End::Served))?;
    put_count(&mut out, b"failed", count_ends(rows, End::Failed))?;
    put_count(&mut out, b"lost", count_ends(rows, End::Lost))?;
    put_count(&mut out, b"withdrawn", count_ends(rows, End::Withdrawn))?;
    put_count(&mut out, b"waiting", count_ends(rows, End::Waiting))?;
    Ok(out)
}
