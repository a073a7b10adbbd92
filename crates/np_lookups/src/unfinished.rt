//! The jobs of each requester that are not over.

ghost use Rattle.std.specs.Prelude.{◌≡◌, ◌≤◌, [], List, length, replicate, IfOk};
ghost use Rattle.np_lookups.specs.Lower.{JobId};
ghost use Rattle.np_lookups.specs.Lookups.{unfinished_changed, AreUnfinished};
ghost use Rattle.np_lookups.specs.Waits.{has_ended};

use crate::lists::{push_at, remove_at};
use np_changes::JobsChange;
use np_config::Config;
use np_look::{JobTable, Rows};
use np_text::{JobId, Phase, RequesterId};
use std::alloc::{AllocError, Global};

/// Whether the job exists and is over.
fn has_ended<R: Rows>(rows: &R, job: JobId) -> bool
    ensures { result ≡ has_ended (R.state rows.now) job }
{
    matches!(rows.job(job), Some(kept) if kept.phase == Phase::Over)
}

/// A table for each requester, with no job.
fn no_jobs(alloc: Global, config: &Config) -> Result<Vec<JobTable>, AllocError>
    requires { length config.now.requesters ≤ 16 }
    ensures { IfOk result (λ lists.
        lists.items ≡ replicate {A = List JobId} (length config.now.requesters) []) }
{
    let mut lists = Vec::new(alloc);
    let mut count = 0;
    while let Some(_) = config.requester(RequesterId(count)) {
        lists.push(JobTable::new(alloc))?;
        count += 1;
    }
    Ok(lists)
}

/// The jobs of each requester that are not over, by one scan of all jobs.
pub(crate) fn list_unfinished<R: Rows>(alloc: Global, rows: &R) -> Result<Vec<JobTable>, AllocError>
    ensures { IfOk result
        (λ lists. AreUnfinished (R.site rows.now) (R.state rows.now) lists.items) }
{
    let config = rows.config();
    config.know_soundness();
    let mut lists = no_jobs(alloc, config)?;
    for number in 0..rows.jobs() {
        let job = JobId(number);
        if has_ended(rows, job) {
            continue;
        }
        let Some(row) = config.job(job) else {
            continue;
        };
        push_at(&mut lists, row.requester.0 as usize, job)?;
    }
    Ok(lists)
}

/// A job that is over leaves the list of its requester: a binary search there, and a move of the
/// jobs after it.
pub(crate) fn settle_unfinished(lists: &mut Vec<JobTable>, config: &Config, change: &JobsChange)
    ensures { lists.new.items ≡ unfinished_changed config.now change.now lists.old.items }
{
    let JobsChange::Put { job, kept } = change else {
        return;
    };
    if kept.phase != Phase::Over {
        return;
    }
    let Some(row) = config.job(*job) else {
        return;
    };
    remove_at(lists, row.requester.0 as usize, job);
}
