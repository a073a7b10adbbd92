//! In which line a job waits for its semaphores.

ghost use Rattle.std.specs.Prelude.{◌≡◌};
ghost use Rattle.np_active.specs.Active.{is_like, line_of};

use np_config::{Config, Job};
use np_text::JobId;
use std::alloc::{AllocError, Global};

/// Whether there is such a job and it has the semaphores of this row, in the same order. It
/// compares at most 8.
fn is_like(config: &Config, row: &Job, job: JobId) -> bool
    ensures { result ≡ is_like config.now row.now job }
{
    matches!(config.job(job), Some(other) if other.semaphores.items() == row.semaphores.items())
}

/// The line of the job with this row. Constant time, and two lists of semaphores are compared.
pub(crate) fn line_of(config: &Config, lines: &[JobId], job: JobId, row: &Job) -> u64
    ensures { result ≡ line_of config.now lines.now job row.now }
{
    let Some(first) = lines.get(job.0 as usize) else {
        return job.0 as u64;
    };
    if is_like(config, row, *first) {
        first.0 as u64
    } else {
        job.0 as u64
    }
}

/// The first of these jobs that has the semaphores of this row.
fn first_alike(config: &Config, firsts: &[JobId], row: &Job) -> Option<JobId> {
    for first in firsts {
        if is_like(config, row, *first) {
            return Some(*first);
        }
    }
    None
}

/// For each job the first job of its requester that has the same semaphores. The jobs of a
/// requester stand together, so each is compared only with the first ones of its requester: the
/// cost grows with the number of jobs times that of the different lists of semaphores of a
/// requester.
pub(crate) fn lines_of(alloc: Global, config: &Config) -> Result<Vec<JobId>, AllocError> {
    let mut lines = Vec::new(alloc);
    let mut firsts = Vec::new(alloc);
    let mut requester = 0;
    for number in 0..u32::MAX {
        let job = JobId(number);
        let Some(row) = config.job(job) else {
            return Ok(lines);
        };
        if row.requester.0 != requester {
            requester = row.requester.0;
            firsts.clear();
        }
        match first_alike(config, firsts.as_slice(), row) {
            Some(first) => lines.push(first)?,
            None => {
                firsts.push(job)?;
                lines.push(job)?;
            }
        }
    }
    Ok(lines)
}
