//! Findings as lines.

ghost use Rattle.std.specs.Prelude.{◌≡◌, ◌++◌, OnOk};
ghost use Rattle.std.specs.List.{flat_map};
ghost use Rattle.np_check.specs.Lower.{pool_name};
ghost use Rattle.np_check.specs.Report.{finding_line, full_name, job_name, label_name, own_name, remark, semaphore_name, tenant_name};

use crate::finding::Finding;
use np_config::{Config, Job, Pool};
use np_text::{Ample, JobId, LabelId, PoolId, RequesterId, SemId, TenantId};

fn label_name(config: &Config, label: LabelId) -> &[u8]
    ensures { result.now ≡ label_name config.now label }
{
    match config.label(label) {
        None => b"",
        Some(row) => row.name.items(),
    }
}

fn semaphore_name(config: &Config, semaphore: SemId) -> &[u8]
    ensures { result.now ≡ semaphore_name config.now semaphore }
{
    match config.semaphore(semaphore) {
        None => b"",
        Some(row) => row.name.items(),
    }
}

fn tenant_name(config: &Config, tenant: TenantId) -> &[u8]
    ensures { result.now ≡ tenant_name config.now tenant }
{
    match config.tenant(tenant) {
        None => b"",
        Some(row) => row.name.items(),
    }
}

ghost use Rattle.std.specs.Prelude.{[], slice_get};
ghost use Rattle.std.specs.Option.{option_map_or};

fn provider_name<'a>(config: &'a Config, pool: &Pool) -> &'a [u8]
    ensures { result.now ≡
        option_map_or (λ q. q.name) (slice_get config.now.providers pool.now.provider) [] }
{
    match config.provider(pool.provider) {
        None => b"",
        Some(row) => row.name.items(),
    }
}

fn requester_name(config: &Config, requester: RequesterId) -> &[u8]
    ensures { result.now ≡
        option_map_or (λ r. r.name) (slice_get config.now.requesters requester.0) [] }
{
    match config.requester(requester) {
        None => b"",
        Some(row) => row.name.items(),
    }
}

fn put_pool_row(config: &Config, pool: &Pool, out: &mut Vec<u8>) -> Ample
    ensures { OnOk result
        (out.new.items ≡ out.old.items ++ pool_name config.now.providers pool.now) }
{
    out.extend_from_slice(provider_name(config, pool))?;
    out.push(b'/')?;
    out.extend_from_slice(pool.name.items())?;
    Ok(())
}

fn put_job_row(config: &Config, job: &Job, out: &mut Vec<u8>) -> Ample
    ensures { OnOk result (out.new.items ≡ out.old.items ++ own_name config.now job.now) }
{
    out.extend_from_slice(requester_name(config, job.requester))?;
    out.push(b'/')?;
    out.extend_from_slice(job.name.items())?;
    Ok(())
}

fn put_pool(config: &Config, pool: PoolId, out: &mut Vec<u8>) -> Ample
    ensures { OnOk result (out.new.items ≡ out.old.items ++ full_name config.now pool) }
{
    match config.pool(pool) {
        None => Ok(()),
        Some(row) => put_pool_row(config, row, out),
    }
}

fn put_job(config: &Config, job: JobId, out: &mut Vec<u8>) -> Ample
    ensures { OnOk result (out.new.items ≡ out.old.items ++ job_name config.now job) }
{
    match config.job(job) {
        None => Ok(()),
        Some(row) => put_job_row(config, row, out),
    }
}

/// What kind of thing the finding is about.
fn kind(finding: Finding) -> &'static [u8]
    ensures { result.now ≡ kind finding }
{
    match finding {
        Finding::LabelUnoffered(_) | Finding::ReadyNodesAge(_) => b"label ",
        Finding::PoolUnusable(_) | Finding::OfferTooLarge(_, _) => b"pool ",
        Finding::SemaphoreUnnamed(_) => b"semaphore ",
        Finding::TenantUnnamed(_) => b"tenant ",
        Finding::JobUnoffered(_) | Finding::JobTooLarge(_) | Finding::JobAboveTenant(_) => b"job ",
    }
}

fn put_offer(config: &Config, pool: PoolId, label: LabelId, out: &mut Vec<u8>) -> Ample
    ensures { OnOk result (out.new.items ≡ out.old.items
        ++ (full_name config.now pool ++ codes ", label " ++ label_name config.now label)) }
{
    put_pool(config, pool, out)?;
    out.extend_from_slice(b", label ")?;
    out.extend_from_slice(label_name(config, label))?;
    Ok(())
}

/// Appends the name of what the finding is about.
fn put_name(config: &Config, finding: Finding, out: &mut Vec<u8>) -> Ample
    ensures { OnOk result (out.new.items ≡ out.old.items ++ name config.now finding) }
{
    match finding {
        Finding::LabelUnoffered(label) | Finding::ReadyNodesAge(label) => {
            out.extend_from_slice(label_name(config, label))?;
            Ok(())
        }
        Finding::PoolUnusable(pool) => put_pool(config, pool, out),
        Finding::OfferTooLarge(pool, label) => put_offer(config, pool, label, out),
        Finding::SemaphoreUnnamed(semaphore) => {
            out.extend_from_slice(semaphore_name(config, semaphore))?;
            Ok(())
        }
        Finding::TenantUnnamed(tenant) => {
            out.extend_from_slice(tenant_name(config, tenant))?;
            Ok(())
        }
        Finding::JobUnoffered(job) | Finding::JobTooLarge(job) | Finding::JobAboveTenant(job) => {
            put_job(config, job, out)
        }
    }
}

ghost use Rattle.std.specs.Prelude.{codes};
ghost use Rattle.np_check.specs.Report.{kind, name};

/// What the finding says of that.
fn remark(finding: Finding) -> &'static [u8]
    ensures { result.now ≡ remark finding }
{
    match finding {
        Finding::LabelUnoffered(_) => b": no pool offers it",
        Finding::ReadyNodesAge(_) =>
            b": max-ready-age is too low for min-ready, so that nodes are made and removed again and again",
        Finding::PoolUnusable(_) =>
            b": it can have no node, since it offers no label that is within its limits",
        Finding::OfferTooLarge(_, _) => b": one node exceeds a limit of the pool",
        Finding::SemaphoreUnnamed(_) => b": no job takes it",
        Finding::TenantUnnamed(_) => b": no job is of it",
        Finding::JobUnoffered(_) => b": no pool offers all its labels",
        Finding::JobTooLarge(_) =>
            b": its nodes together exceed a limit of each pool that offers all its labels",
        Finding::JobAboveTenant(_) =>
            b": its nodes together exceed a limit of its tenant in each pool that could serve it",
    }
}

/// Appends the line of the finding.
fn put_line(config: &Config, finding: Finding, out: &mut Vec<u8>) -> Ample
    ensures { OnOk result (out.new.items ≡ out.old.items ++ finding_line config.now finding) }
{
    out.extend_from_slice(kind(finding))?;
    put_name(config, finding, out)?;
    out.extend_from_slice(remark(finding))?;
    out.push(b'\n')?;
    Ok(())
}

/// Appends the lines of the findings.
pub(crate) fn put_lines(config: &Config, findings: &[Finding], out: &mut Vec<u8>) -> Ample
    ensures { OnOk result (out.new.items ≡
        out.old.items ++ flat_map (finding_line config.now) findings.now) }
{
    for finding in findings {
        put_line(config, *finding, out)?;
    }
    Ok(())
}
