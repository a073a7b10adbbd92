//! The lists whose rows are found by their place.

ghost use Rattle.std.specs.Prelude.{◌≡◌, IfOk};
ghost use Rattle.np_keeper.specs.Lower.{IsCarried};

use crate::list::list_of;
use np_look::Rows;
use np_machine::{Registration, SessionFacts};
use np_record::{JobRecord, RoleRecord};
use np_text::{JobId, PoolId, RequesterId, Role, SessionId};
use std::alloc::{AllocError, Global};

/// The sessions, the first of which has number 1.
pub(crate) fn sessions_of<R: Rows>(alloc: Global, rows: &R) -> Result<Vec<SessionFacts>, AllocError>
    ensures { IfOk result (λ list. list.items ≡ (R.state rows.now).sessions) }
{
    list_of(alloc, rows.sessions(), |at| rows.session(SessionId(at + 1)))
}

/// The registrations, by pool.
pub(crate) fn registrations_of<R: Rows>(
    alloc: Global,
    rows: &R,
) -> Result<Vec<Registration>, AllocError>
    ensures { IfOk result (λ list. list.items ≡ (R.state rows.now).registrations) }
{
    list_of(alloc, rows.registrations(), |at| rows.registration_at(at))
}

/// The jobs, by number.
pub(crate) fn jobs_of<R: Rows>(alloc: Global, rows: &R) -> Result<Vec<JobRecord>, AllocError>
    ensures { IfOk result (λ list. list.items ≡ (R.state rows.now).jobs) }
{
    list_of(alloc, rows.jobs(), |at| rows.job(JobId(at)))
}

/// What the launchers have done, by pool.
pub(crate) fn launchers_of<R: Rows>(alloc: Global, rows: &R) -> Result<Vec<RoleRecord>, AllocError>
    requires { IsCarried (R.site rows.now) (R.state rows.now) }
    ensures { IfOk result (λ list. list.items ≡ (R.state rows.now).launchers) }
{
    let config = rows.config();
    config.know_soundness();
    list_of(alloc, config.pools().len() as u32, |at| {
        rows.role(Role::Launcher(PoolId(at as u16)))
    })
}

/// What the janitors have done, by pool.
pub(crate) fn janitors_of<R: Rows>(alloc: Global, rows: &R) -> Result<Vec<RoleRecord>, AllocError>
    requires { IsCarried (R.site rows.now) (R.state rows.now) }
    ensures { IfOk result (λ list. list.items ≡ (R.state rows.now).janitors) }
{
    let config = rows.config();
    config.know_soundness();
    list_of(alloc, config.pools().len() as u32, |at| {
        rows.role(Role::Janitor(PoolId(at as u16)))
    })
}

/// What the requesters have done, by number.
pub(crate) fn requesters_of<R: Rows>(alloc: Global, rows: &R) -> Result<Vec<RoleRecord>, AllocError>
    requires { IsCarried (R.site rows.now) (R.state rows.now) }
    ensures { IfOk result (λ list. list.items ≡ (R.state rows.now).requesters) }
{
    let config = rows.config();
    config.know_soundness();
    list_of(alloc, config.requesters().len() as u32, |at| {
        rows.role(Role::Requester(RequesterId(at as u16)))
    })
}
