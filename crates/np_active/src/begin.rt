//! The first of a requester's jobs that may begin, and the first that may acquire its handles,
//! found by the groups and the handles of the state.

ghost use Rattle.std.specs.Prelude.{◌≡◌, None, find};
ghost use Rattle.np_active.specs.Lower.{Rises, ids_in, is_job_before, is_member_before, job_to_acquire, job_to_begin};
ghost use Rattle.np_active.specs.Active.{AreActive, prompt_group};
ghost use Rattle.np_active.specs.Given.{IsBest, at_line, earlier_job, first_line, first_of_line, is_free, line_after, line_if, may_begin_of};

use crate::active::Active;
use crate::group::group_of;
use crate::jobs::{lacking_group, prompt_group, waiting_group};
use np_lists::{Group, Groups};
use np_look::{ByJob, Rows, first_full};
use np_text::{JobId, RequesterId};

// ## one job

/// Whether there is such a job and none of its semaphores blocks it: none is full of which it has no
/// handle. A lookup for each semaphore, and a second for one of which it has no handle.
fn is_free<R: Rows>(rows: &R, job: JobId) -> bool
    ensures { result ≡ is_free (R.site rows.now) (R.state rows.now) job }
{
    matches!(rows.config().job(job), Some(row) if first_full(rows, job, row).is_none())
}

/// Whether there is such a job, and it asks for its nodes first or none of its semaphores blocks
/// it. It costs what `is_free` does.
fn may_begin<R: Rows>(rows: &R, job: JobId) -> bool
    ensures { result ≡ may_begin_of (R.site rows.now) (R.state rows.now) job }
{
    matches!(rows.config().job(job), Some(row)
        if row.resources_first || first_full(rows, job, row).is_none())
}

/// The first that may begin of the requester's new jobs that wait for no semaphore. Three binary
/// searches, and what `may_begin` costs. Only one job is tested in a state that a run reaches:
/// there a job has handles of all its semaphores or of none, so each of these jobs may begin.
fn first_prompt<R: Rows>(rows: &R, jobs: &Groups<ByJob>, requester: RequesterId) -> Option<JobId>
    ensures { result ≡ find (may_begin_of (R.site rows.now) (R.state rows.now))
        (ids_in (prompt_group requester) jobs.now.members) }
{
    let group = prompt_group(requester);
    for at in 0..jobs.count(group) {
        let job = jobs.at(group, at)?;
        if may_begin(rows, job) {
            return Some(job);
        }
    }
    None
}

// ## lines

/// The group of this line, where `lines` is the group of one of the same requester's, for the same
/// purpose.
fn at_line(lines: Group, line: u64) -> Group
    ensures { result ≡ at_line lines line }
{
    group_of(lines.class, lines.first, lines.second, line)
}

/// The line of the group, if it is one of these.
fn line_if(lines: Group, found: Option<Group>) -> Option<u64>
    ensures { result ≡ line_if lines found }
{
    let group = found?;
    if at_line(lines, group.third) != group {
        return None;
    }
    Some(group.third)
}

/// The first line in which a job waits. One binary search.
fn first_line(jobs: &Groups<ByJob>, lines: Group) -> Option<u64>
    ensures { result ≡ first_line lines jobs.now.members }
{
    line_if(lines, jobs.group_from(at_line(lines, 0)))
}

/// The first line after this one in which a job waits. One binary search.
fn line_after(jobs: &Groups<ByJob>, lines: Group, line: u64) -> Option<u64>
    ensures { result ≡ line_after lines line jobs.now.members }
{
    line_if(lines, jobs.group_after(at_line(lines, line)))
}

/// The first job that waits in the line, if it comes before the best so far and none of its
/// semaphores blocks it; otherwise the best so far. Those after it have the same semaphores and no
/// handles, so it speaks for all of them. One binary search, and what `is_free` costs if the job
/// comes before the best so far.
fn earlier_in_line<R: Rows>(
    rows: &R,
    jobs: &Groups<ByJob>,
    lines: Group,
    line: u64,
    best: Option<JobId>,
) -> Option<JobId>
    ensures { result ≡ earlier_job (R.site rows.now) (R.state rows.now) best
        (first_of_line lines line jobs.now.members) }
{
    let Some(first) = jobs.at(at_line(lines, line), 0) else {
        return best;
    };
    let comes_first = match best {
        None => true,
        Some(other) => first.0 < other.0,
    };
    if comes_first && is_free(rows, first) {
        return Some(first);
    }
    best
}

/// The earliest of these jobs: `old`, if it is one, and the first job of each line, if none of its
/// semaphores blocks it. One binary search, two for each line in which a job waits, and what
/// `is_free` costs for each first job that comes before the earliest so far.
fn earliest<R: Rows>(
    rows: &R,
    jobs: &Groups<ByJob>,
    lines: Group,
    old: Option<JobId>,
) -> Option<JobId>
    ensures { Rises (is_member_before is_job_before) jobs.now.members
        → IsBest (R.site rows.now) (R.state rows.now) jobs.now.members lines old None result }
{
    let mut best = old;
    let mut next = first_line(jobs, lines);
    while let Some(line) = next {
        best = earlier_in_line(rows, jobs, lines, line, best);
        next = line_after(jobs, lines, line);
    }
    best
}

impl Active {
    /// The first of the requester's jobs that is new and need not wait for semaphores: it asks for
    /// its nodes first, or none of those that it lacks is full. It costs a few binary searches for
    /// each different list of semaphores for which new jobs of the requester wait, and a lookup or
    /// two for each semaphore of such a list. It does not grow with the number of jobs, except that
    /// binary searches do.
    pub fn job_to_begin<R: Rows>(&self, rows: &R, requester: RequesterId) -> Option<JobId>
        ensures { AreActive (R.site rows.now) (R.state rows.now) self.now
            → result ≡ job_to_begin (R.site rows.now) requester (R.state rows.now) }
    {
        let first = first_prompt(rows, &self.jobs, requester);
        earliest(rows, &self.jobs, waiting_group(requester, 0), first)
    }

    /// The first of the requester's jobs that was given its nodes, waits for handles and finds room
    /// in all its semaphores. It costs a few binary searches for each different list of semaphores
    /// for which such jobs of the requester wait, and a lookup or two for each semaphore of such a
    /// list. It does not grow with the number of jobs, except that binary searches do.
    pub fn job_to_acquire<R: Rows>(&self, rows: &R, requester: RequesterId) -> Option<JobId>
        ensures { AreActive (R.site rows.now) (R.state rows.now) self.now
            → result ≡ job_to_acquire (R.site rows.now) requester (R.state rows.now) }
    {
        earliest(rows, &self.jobs, lacking_group(requester, 0), None)
    }
}
