//! The handles of semaphores that a job takes together and gives back together.

ghost use Rattle.std.specs.Prelude.{◌≡◌, ◌<◌, OnOk, true};
ghost use Rattle.np_tables.specs.Lower.{AllByRecursion, all_with_handle, all_without_handle, change_at, with_handle, without_handle};
ghost use Rattle.np_tables.specs.CanChange.{has_place, rooms_of, rows_of};

use crate::keys::HandleTable;
use np_text::{JobId, SemId};
use std::alloc::AllocError;

/// Each semaphore's table has room for one more job.
pub(crate) fn reserve_handles(handles: &mut Vec<HandleTable>) -> Result<(), AllocError>
    ensures rows { rows_of handles.new.items ≡ rows_of handles.old.items }
    ensures ok { OnOk result (AllByRecursion (λ more. 0 < more) (rooms_of handles.new.items)) }
{
    for at in 0..handles.len() {
        let table = &mut handles[at];
        table.reserve()?;
    }
    Ok(())
}

/// The job takes a handle, unless it has one.
fn add_job(jobs: &mut HandleTable, job: JobId)
    requires { has_place job jobs.old ≡ true }
    ensures rows { jobs.new.rows ≡ with_handle job jobs.old.rows }
    ensures place { has_place job jobs.new ≡ true }
{
    if jobs.has(job) {
        return;
    }
    jobs.insert(job);
}

/// The job takes a handle of the semaphore, unless it has one.
fn add_handle(handles: &mut Vec<HandleTable>, at: usize, job: JobId)
    requires { AllByRecursion (λ t. has_place job t ≡ true) handles.old.items }
    ensures rows { rows_of handles.new.items ≡
        change_at at (with_handle job) (rows_of handles.old.items) }
    ensures place { AllByRecursion (λ t. has_place job t ≡ true) handles.new.items }
{
    if at >= handles.len() {
        return;
    }
    let jobs = &mut handles[at];
    add_job(jobs, job);
}

/// The job takes a handle of each of the semaphores. A semaphore may stand there more than once: a
/// table that has the job needs no more room.
pub(crate) fn add_handles(handles: &mut Vec<HandleTable>, semaphores: &[SemId], job: JobId)
    requires { AllByRecursion (λ t. has_place job t ≡ true) handles.old.items }
    ensures { rows_of handles.new.items ≡
        all_with_handle job semaphores.now (rows_of handles.old.items) }
{
    for semaphore in semaphores {
        add_handle(handles, semaphore.0 as usize, job);
    }
}

/// The job has no handle any more. No clause of a table says that a key is there only once, so it
/// is removed until it is gone.
fn drop_job(jobs: &mut HandleTable, job: JobId)
    ensures { jobs.new.rows ≡ without_handle job jobs.old.rows }
{
    while jobs.has(job) {
        jobs.remove(job);
    }
}

/// The job gives its handle of the semaphore back, if it has one.
fn drop_handle(handles: &mut Vec<HandleTable>, at: usize, job: JobId)
    ensures { rows_of handles.new.items ≡ change_at at (without_handle job) (rows_of handles.old.items) }
{
    if at >= handles.len() {
        return;
    }
    let jobs = &mut handles[at];
    drop_job(jobs, job);
}

/// The job gives its handles of the semaphores back.
pub(crate) fn drop_handles(handles: &mut Vec<HandleTable>, semaphores: &[SemId], job: JobId)
    ensures { rows_of handles.new.items ≡ all_without_handle job semaphores.now (rows_of handles.old.items) }
{
    for semaphore in semaphores {
        drop_handle(handles, semaphore.0 as usize, job);
    }
}
