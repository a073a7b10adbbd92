//! The site as a whole.

ghost use Rattle.std.specs.Prelude.{◌≡◌, ◌≤◌, IfOk};
ghost use Rattle.np_gen.specs.Site.{drill_requester, drill_requesters, drill_jobs, drill_site};

use crate::job::put_jobs_of;
use crate::supply::{labels, name, pools, providers, semaphores};
use np_config::{Config, Job, Requester};
use np_text::NoMemory;
use std::alloc::Global;

fn requester(alloc: Global, text: &[u8]) -> Result<Requester, NoMemory>
    ensures { IfOk result (λ requester. requester ≡ drill_requester text.now) }
{
    Ok(Requester {
        name: name(alloc, text)?,
        window: 8,
    })
}

fn requesters(alloc: Global) -> Result<Vec<Requester>, NoMemory>
    ensures { IfOk result (λ rows. rows.items ≡ drill_requesters) }
{
    let first = requester(alloc, b"z0")?;
    let second = requester(alloc, b"z1")?;
    let third = requester(alloc, b"z2")?;
    let fourth = requester(alloc, b"z3")?;
    Ok(vec![in alloc; first, second, third, fourth]?)
}

fn all_jobs(alloc: Global, jobs: u32) -> Result<Vec<Job>, NoMemory>
    ensures { IfOk result (λ rows. rows.items ≡ drill_jobs jobs) }
{
    let mut rows = Vec::new(alloc);
    put_jobs_of(alloc, 0, jobs, &mut rows)?;
    put_jobs_of(alloc, 1, jobs, &mut rows)?;
    put_jobs_of(alloc, 2, jobs, &mut rows)?;
    put_jobs_of(alloc, 3, jobs, &mut rows)?;
    Ok(rows)
}

/// The drill site with 1 to 4,000 jobs, which is the same each time it is made. Running out of
/// memory is the only error. The cost grows with the number of jobs.
pub fn drill(alloc: Global, jobs: u32) -> Result<Config, NoMemory>
    requires { (1 ≤ jobs) × (jobs ≤ 4000) }
    ensures { IfOk result (λ c. c ≡ drill_site jobs) }
{
    let labels = labels(alloc)?;
    let providers = providers(alloc)?;
    let pools = pools(alloc)?;
    let semaphores = semaphores(alloc)?;
    let tenants = Vec::new(alloc);
    let requesters = requesters(alloc)?;
    let rows = all_jobs(alloc, jobs)?;
    let faults = Vec::new(alloc);
    Config::of_parts(
        alloc, labels, providers, pools, semaphores, tenants, requesters, rows, faults, 0,
    )
}
