//! In which line a request waits, by its record and the job that its job is like.

ghost use Rattle.std.specs.Prelude.{◌≡◌, false};
ghost use Rattle.np_lookups.specs.Lower.{has_limit, is_tenant, limit_of_tenant, option_map_or};
ghost use Rattle.np_lookups.specs.Open.{is_like, is_of_line, line_of, same_labels};

use np_config::{Config, Job};
use np_look::tenant_of_job;
use np_record::RequestRecord;
use np_text::{JobId, LabelId, TenantId};
use std::alloc::{AllocError, Global};

/// Whether the option names this tenant.
fn is_tenant(tenant: TenantId, found: Option<TenantId>) -> bool
    ensures { result ≡ is_tenant tenant found }
{
    matches!(found, Some(other) if other.0 == tenant.0)
}

/// Whether at least one part of what the tenant may use is limited.
fn has_limit(config: &Config, tenant: TenantId) -> bool
    ensures { result ≡ has_limit (limit_of_tenant config.now tenant) }
{
    matches!(config.tenant(tenant), Some(row)
        if row.limit.instances.is_some() || row.limit.cores.is_some() || row.limit.ram.is_some())
}

/// Whether the labels are the same, in the same order. It compares at most 32.
fn are_same(labels: &[LabelId], others: &[LabelId]) -> bool
    ensures { result ≡ same_labels labels.now others.now }
{
    labels == others
}

/// Whether a request with this record has the job's tenant, which has a limit, and its labels.
fn is_like(config: &Config, kept: &RequestRecord, job: &Job) -> bool
    ensures { result ≡ is_like config.now kept.now job.now }
{
    is_tenant(job.tenant, tenant_of_job(config, kept.job))
        && has_limit(config, job.tenant)
        && are_same(job.labels.items(), kept.labels.items())
}

/// Whether the request is not pinned and is like this job. Three lookups, and the labels are
/// compared.
fn is_of_line(config: &Config, kept: &RequestRecord, job: JobId) -> bool
    ensures { result ≡ is_of_line config.now kept.now job }
{
    if kept.pinned.is_some() {
        return false;
    }
    matches!(config.job(job), Some(row) if is_like(config, kept, row))
}

/// The line of a request with this record. Four lookups, and the labels are compared.
fn line_by(config: &Config, lines: &[JobId], kept: &RequestRecord) -> u64
    ensures { result ≡ line_of config.now lines.now kept.now }
{
    let Some(job) = kept.job else {
        return 0;
    };
    let Some(first) = lines.get(job.0 as usize) else {
        return 0;
    };
    if !is_of_line(config, kept, *first) {
        return 0;
    }
    first.0 as u64 + 1
}

/// The line of a request with this record, if there is one; 0 if there is none.
pub(crate) fn line_of(config: &Config, lines: &[JobId], kept: &Option<RequestRecord>) -> u64
    ensures { result ≡ option_map_or (line_of config.now lines.now) kept.now 0 }
{
    match kept {
        None => 0,
        Some(kept) => line_by(config, lines, kept),
    }
}

/// The first of these jobs that has the tenant and the labels of this one.
fn first_alike(config: &Config, firsts: &[JobId], row: &Job) -> Option<JobId> {
    for first in firsts {
        if let Some(other) = config.job(*first)
            && other.tenant.0 == row.tenant.0
            && are_same(other.labels.items(), row.labels.items())
        {
            return Some(*first);
        }
    }
    None
}

/// For each job the first that has its tenant and its labels; the job itself if the tenant has no
/// limit. The cost grows with the number of jobs times that of different lines.
pub(crate) fn lines_of(alloc: Global, config: &Config) -> Result<Vec<JobId>, AllocError> {
    let mut lines = Vec::new(alloc);
    let mut firsts = Vec::new(alloc);
    for number in 0..u32::MAX {
        let job = JobId(number);
        let Some(row) = config.job(job) else {
            return Ok(lines);
        };
        if !has_limit(config, row.tenant) {
            lines.push(job)?;
            continue;
        }
        match first_alike(config, firsts.as_slice(), row) {
            Some(first) => lines.push(first)?,
            None => {
                firsts.push(job)?;
                lines.push(job)?;
            }
        }
    }
    Ok(lines)
}
