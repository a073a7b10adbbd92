//! How a thing is called.

ghost use Rattle.std.specs.Prelude.{◌≡◌, ◌++◌, decimal, OnOk};
ghost use Rattle.np_explain_lines.specs.Line.{job_name, job_words, label_words, node_words, pool_name, pool_words, request_words, requester_words, role_words, semaphore_words, session_words, tenant_words};

use np_config::{Config, Job, Pool};
use np_text::{
    Ample, JobId, LabelId, NodeId, PoolId, RequestId, RequesterId, Role, SemId, SessionId,
    TenantId, put_number, ten_digits,
};

/// Appends a text.
pub fn put(out: &mut Vec<u8>, text: &[u8]) -> Ample
    ensures { OnOk result (out.new.items ≡ out.old.items ++ text.now) }
{
    out.extend_from_slice(text)?;
    Ok(())
}

/// Appends a text and a number.
fn put_id(out: &mut Vec<u8>, letter: &[u8], n: u32) -> Ample
    ensures { OnOk result (out.new.items ≡ out.old.items ++ (letter.now ++ decimal n)) }
{
    out.extend_from_slice(letter)?;
    put_number(out, u64::from(n))
}

fn put_job_name(out: &mut Vec<u8>, config: &Config, job: &Job) -> Ample
    ensures { OnOk result (out.new.items ≡ out.old.items ++ job_name config.now job.now) }
{
    if let Some(requester) = config.requester(job.requester) {
        out.extend_from_slice(requester.name.items())?;
    }
    out.push(b'/')?;
    out.extend_from_slice(job.name.items())?;
    Ok(())
}

fn put_pool_name(out: &mut Vec<u8>, config: &Config, pool: &Pool) -> Ample
    ensures { OnOk result (out.new.items ≡ out.old.items ++ pool_name config.now pool.now) }
{
    if let Some(provider) = config.provider(pool.provider) {
        out.extend_from_slice(provider.name.items())?;
    }
    out.push(b'/')?;
    out.extend_from_slice(pool.name.items())?;
    Ok(())
}

/// Appends a job's id, with its requester's and its own name.
pub fn put_job(out: &mut Vec<u8>, config: &Config, job: JobId) -> Ample
    ensures { OnOk result (out.new.items ≡ out.old.items ++ job_words config.now job) }
{
    put_id(out, b"j", job.0)?;
    if let Some(row) = config.job(job) {
        out.push(b' ')?;
        put_job_name(out, config, row)?;
    }
    Ok(())
}

/// Appends a pool's id, with its provider's and its own name.
pub fn put_pool(out: &mut Vec<u8>, config: &Config, pool: PoolId) -> Ample
    ensures { OnOk result (out.new.items ≡ out.old.items ++ pool_words config.now pool) }
{
    put_id(out, b"p", u32::from(pool.0))?;
    if let Some(row) = config.pool(pool) {
        out.push(b' ')?;
        put_pool_name(out, config, row)?;
    }
    Ok(())
}

/// Appends a label's id and name.
pub fn put_label(out: &mut Vec<u8>, config: &Config, label: LabelId) -> Ample
    ensures { OnOk result (out.new.items ≡ out.old.items ++ label_words config.now label) }
{
    put_id(out, b"l", u32::from(label.0))?;
    if let Some(row) = config.label(label) {
        out.push(b' ')?;
        out.extend_from_slice(row.name.items())?;
    }
    Ok(())
}

/// Appends a semaphore's id and name.
pub fn put_semaphore(out: &mut Vec<u8>, config: &Config, semaphore: SemId) -> Ample
    ensures { OnOk result (out.new.items ≡ out.old.items ++ semaphore_words config.now semaphore) }
{
    put_id(out, b"x", u32::from(semaphore.0))?;
    if let Some(row) = config.semaphore(semaphore) {
        out.push(b' ')?;
        out.extend_from_slice(row.name.items())?;
    }
    Ok(())
}

/// Appends a tenant's id and name.
pub fn put_tenant(out: &mut Vec<u8>, config: &Config, tenant: TenantId) -> Ample
    ensures { OnOk result (out.new.items ≡ out.old.items ++ tenant_words config.now tenant) }
{
    put_id(out, b"t", u32::from(tenant.0))?;
    if let Some(row) = config.tenant(tenant) {
        out.push(b' ')?;
        out.extend_from_slice(row.name.items())?;
    }
    Ok(())
}

/// Appends a requester's id and name.
pub fn put_requester(out: &mut Vec<u8>, config: &Config, requester: RequesterId) -> Ample
    ensures { OnOk result (out.new.items ≡ out.old.items ++ requester_words config.now requester) }
{
    put_id(out, b"q", u32::from(requester.0))?;
    if let Some(row) = config.requester(requester) {
        out.push(b' ')?;
        out.extend_from_slice(row.name.items())?;
    }
    Ok(())
}

/// Appends a node's id.
pub fn put_node(out: &mut Vec<u8>, node: NodeId) -> Ample
    ensures { OnOk result (out.new.items ≡ out.old.items ++ node_words node) }
{
    put_id(out, b"n", node.0)
}

/// Appends a session's id.
pub fn put_session(out: &mut Vec<u8>, session: SessionId) -> Ample
    ensures { OnOk result (out.new.items ≡ out.old.items ++ session_words session) }
{
    put_id(out, b"s", session.0)
}

/// Appends the word `request`, and the request's priority and sequence number.
pub fn put_request(out: &mut Vec<u8>, request: RequestId) -> Ample
    ensures { OnOk result (out.new.items ≡ out.old.items ++ request_words request) }
{
    put_id(out, b"request ", u32::from(request.priority))?;
    out.push(b'-')?;
    out.extend_from_slice(&ten_digits(request.seq))?;
    Ok(())
}

/// Appends what a role is, with whom it acts for.
pub fn put_role(out: &mut Vec<u8>, config: &Config, role: Role) -> Ample
    ensures { OnOk result (out.new.items ≡ out.old.items ++ role_words config.now role) }
{
    match role {
        Role::Launcher(pool) => {
            out.extend_from_slice(b"launcher of ")?;
            put_pool(out, config, pool)
        }
        Role::Janitor(pool) => {
            out.extend_from_slice(b"janitor of ")?;
            put_pool(out, config, pool)
        }
        Role::Requester(requester) => {
            out.extend_from_slice(b"requester ")?;
            put_requester(out, config, requester)
        }
        Role::Reaper => put(out, b"reaper"),
    }
}
