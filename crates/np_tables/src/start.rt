//! The vectors before the first event.

ghost use Rattle.std.specs.Prelude.{◌≡◌, List, [], replicate, IfOk};
ghost use Rattle.np_tables.specs.Lower.{JobId, new_job, no_deeds, start};
ghost use Rattle.np_tables.specs.CanChange.{rows_of};

use crate::keys::{HandleTable, NodeTable, RequestTable, SweptTable};
use crate::vectors::Vectors;
use np_config::Config;
use np_record::{JobRecord, MarkRow, RoleRecord};
use np_text::Phase;
use std::alloc::{AllocError, Global};

/// `count` roles that have done nothing.
fn idle_roles(alloc: Global, count: usize) -> Result<Vec<RoleRecord>, AllocError>
    ensures { IfOk result (λ roles. roles.items ≡ replicate count no_deeds) }
{
    let mut roles = Vec::new(alloc);
    for _at in 0..count {
        roles.push(RoleRecord {
            acts: 0,
            starts: 0,
            strikes: 0,
        })?;
    }
    Ok(roles)
}

/// `count` jobs that nobody has begun.
fn new_jobs(alloc: Global, count: usize) -> Result<Vec<JobRecord>, AllocError>
    ensures { IfOk result (λ jobs. jobs.items ≡ replicate count new_job) }
{
    let mut jobs = Vec::new(alloc);
    for _at in 0..count {
        jobs.push(JobRecord {
            ending: None,
            nodes: MarkRow::new(),
            phase: Phase::New,
            pool: None,
            request: None,
        })?;
    }
    Ok(jobs)
}

/// `count` semaphores of which nobody has a handle.
fn no_handles(alloc: Global, count: usize) -> Result<Vec<HandleTable>, AllocError>
    ensures { IfOk result (λ handles. rows_of handles.items ≡ replicate {A = List JobId} count []) }
{
    let mut handles = Vec::new(alloc);
    for _at in 0..count {
        handles.push(HandleTable::new(alloc))?;
    }
    Ok(handles)
}

impl Vectors {
    /// The state before the first event.
    pub(crate) fn start(alloc: Global, config: &Config) -> Result<Vectors, AllocError>
        ensures { IfOk result (λ vectors. vectors.state ≡ start config.now) }
    {
        let handles = no_handles(alloc, config.semaphores().len())?;
        let jobs = new_jobs(alloc, config.jobs().len())?;
        let launchers = idle_roles(alloc, config.pools().len())?;
        let janitors = idle_roles(alloc, config.pools().len())?;
        let requesters = idle_roles(alloc, config.requesters().len())?;
        Ok(Vectors {
            alloc,
            tick: 0,
            sessions: Vec::new(alloc),
            registrations: Vec::new(alloc),
            requests: RequestTable::new(alloc),
            nodes: NodeTable::new(alloc),
            handles,
            jobs,
            launchers,
            janitors,
            requesters,
            swept: SweptTable::new(alloc),
            next_request: 0,
            next_node: 0,
        })
    }
}
