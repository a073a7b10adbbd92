//! The group that a job is in, and jobs moved between groups. Only making groups anew takes memory.

ghost use Rattle.std.specs.Prelude.{◌≡◌, ◌≤◌, [], Some, None, IfOk, OnOk, length, map};
ghost use Rattle.np_active.specs.Lower.{is_job_before, same_job, with_all_moved, with_groups};
ghost use Rattle.np_active.specs.Active.{AreJobGroups, ending_group, is_prompt, job_group, lacking_group, prompt_group, releasing_group, supplied_group, waiting_group};
ghost use Rattle.np_active.specs.Placed.{groups_of_job, kind_by, kind_of_job, job_before};
ghost use Rattle.std.specs.Option.{option_map};
ghost use Rattle.np_text.specs.declared.word.Phase.TheVariants as phase;
ghost use Rattle.np_text.specs.declared.word.RequestState.TheVariants as request_state;

use crate::group::group_of;
use crate::lines::line_of;
use crate::past::PastJob;
use np_config::Job;
use np_lists::{Group, Groups, move_id};
use np_look::{ByJob, Rows, has_handles, is_supplied, request_state};
use np_text::{JobId, Phase, RequestState, RequesterId};
use std::alloc::{AllocError, Global};

// ## groups

/// The jobs of the requester to take: they were given their nodes and need not wait for handles.
pub(crate) fn supplied_group(requester: RequesterId) -> Group
    ensures { result ≡ supplied_group requester }
{
    group_of(0, requester.0, 0, 0)
}

/// The new jobs of the requester that wait for no semaphore.
pub(crate) fn prompt_group(requester: RequesterId) -> Group
    ensures { result ≡ prompt_group requester }
{
    group_of(1, requester.0, 0, 0)
}

/// The new jobs of the requester that wait for semaphores in this line.
pub(crate) fn waiting_group(requester: RequesterId, line: u64) -> Group
    ensures { result ≡ waiting_group requester line }
{
    group_of(2, requester.0, 0, line)
}

/// The jobs of the requester to finish.
pub(crate) fn ending_group(requester: RequesterId) -> Group
    ensures { result ≡ ending_group requester }
{
    group_of(3, requester.0, 0, 0)
}

/// The jobs of the requester that are over and have handles.
pub(crate) fn releasing_group(requester: RequesterId) -> Group
    ensures { result ≡ releasing_group requester }
{
    group_of(4, requester.0, 0, 0)
}

/// The jobs of the requester that were given their nodes and wait for handles in this line.
pub(crate) fn lacking_group(requester: RequesterId, line: u64) -> Group
    ensures { result ≡ lacking_group requester line }
{
    group_of(5, requester.0, 0, line)
}

// ## one job

/// Whether the job asks for its nodes without waiting for a semaphore: it asks for them first, has
/// no semaphores, or has a handle already. A lookup for each of its semaphores, and none if it asks
/// for its nodes first.
fn is_prompt<R: Rows>(rows: &R, job: JobId, row: &Job) -> bool
    ensures { result ≡ is_prompt (R.state rows.now) job row.now }
{
    row.resources_first || is_supplied(rows, job, row)
}

/// The group of a job with this row that is new.
fn new_group<R: Rows>(rows: &R, lines: &[JobId], job: JobId, row: &Job) -> Group
    ensures { Some result ≡ option_map job_group (kind_by (R.site rows.now) (R.state rows.now)
        lines.now job row.now None phase.New) }
{
    if is_prompt(rows, job, row) {
        return prompt_group(row.requester);
    }
    waiting_group(row.requester, line_of(rows.config(), lines, job, row))
}

/// The group of a job with this row that was given its nodes.
fn given_group<R: Rows>(rows: &R, lines: &[JobId], job: JobId, row: &Job) -> Group
    ensures { Some result ≡ option_map job_group (kind_by (R.site rows.now) (R.state rows.now)
        lines.now job row.now (Some request_state.Fulfilled) phase.Asked) }
{
    if is_supplied(rows, job, row) {
        return supplied_group(row.requester);
    }
    lacking_group(row.requester, line_of(rows.config(), lines, job, row))
}

/// The group of a job with this row that has asked for its nodes, by the state of its request.
fn asked_group<R: Rows>(
    rows: &R,
    lines: &[JobId],
    job: JobId,
    row: &Job,
    state: Option<RequestState>,
) -> Option<Group>
    ensures { result ≡ option_map job_group (kind_by (R.site rows.now) (R.state rows.now)
        lines.now job row.now state phase.Asked) }
{
    match state? {
        RequestState::Fulfilled => Some(given_group(rows, lines, job, row)),
        RequestState::Failed => Some(ending_group(row.requester)),
        RequestState::Requested | RequestState::Pending => None,
    }
}

/// The group that the job is in. Two lookups of the job, one of its request if it has asked for its
/// nodes, and a lookup for each of its semaphores unless it uses its nodes or waits for them.
pub(crate) fn group_of_job<R: Rows>(rows: &R, lines: &[JobId], job: JobId) -> Option<Group>
    ensures { result ≡ option_map job_group
        (kind_of_job (R.site rows.now) (R.state rows.now) lines.now job) }
{
    let row = rows.config().job(job)?;
    let kept = rows.job(job)?;
    match kept.phase {
        Phase::New => Some(new_group(rows, lines, job, row)),
        Phase::Asked => asked_group(rows, lines, job, row, request_state(rows, kept.request)),
        Phase::Using => Some(ending_group(row.requester)),
        Phase::Over => {
            if !has_handles(rows, job, row) {
                return None;
            }
            Some(releasing_group(row.requester))
        }
    }
}

// ## all of them

/// Moves the jobs to where the state has them.
pub(crate) fn move_jobs<R: Rows>(
    groups: &mut Groups<ByJob>,
    rows: &R,
    lines: &[JobId],
    moved: &[PastJob],
)
    requires { length moved.now ≤ groups.old.room }
    ensures { groups.new.members ≡ with_all_moved is_job_before same_job
        (groups_of_job (R.site rows.now) (R.state rows.now) lines.now) (map job_before moved.now)
        groups.old.members }
{
    for past in moved {
        let now = [group_of_job(rows, lines, past.job)];
        move_id(groups, past.job, &past.groups, &now);
    }
}

/// Puts the job in its group, and takes the memory.
fn add_job<R: Rows>(
    groups: &mut Groups<ByJob>,
    rows: &R,
    lines: &[JobId],
    job: JobId,
) -> Result<(), AllocError>
    ensures { OnOk result (groups.new.members ≡ with_groups is_job_before same_job job []
        (groups_of_job (R.site rows.now) (R.state rows.now) lines.now job) groups.old.members) }
{
    groups.reserve(1)?;
    let now = [group_of_job(rows, lines, job)];
    move_id(groups, job, &[], &now);
    Ok(())
}

/// The groups of all jobs, by one walk over them.
pub(crate) fn all_jobs<R: Rows>(
    alloc: Global,
    rows: &R,
    lines: &[JobId],
) -> Result<Groups<ByJob>, AllocError>
    ensures { IfOk result (λ groups.
        AreJobGroups (R.site rows.now) (R.state rows.now) lines.now groups.members) }
{
    let mut groups = Groups::new(alloc);
    for number in 0..rows.jobs() {
        add_job(&mut groups, rows, lines, JobId(number))?;
    }
    Ok(groups)
}
