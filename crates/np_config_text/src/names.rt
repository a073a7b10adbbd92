//! The names and words that stand for ids and kinds.

ghost use Rattle.std.specs.Prelude.{◌≡◌, IfOk};
ghost use Rattle.std.specs.Option.{option_map};
ghost use Rattle.std.specs.Str.{IsAscii};
ghost use Rattle.serde_json.specs.Data.{string};
ghost use Rattle.serde_json.specs.View.{view};
ghost use Rattle.np_config_text.specs.Canonical.{label_name, semaphore_name, tenant_name, job_tenant, requester_name, full_name, priority_word, role_word, role_name};

use crate::value::text_value;
use np_config::Config;
use np_config_read::full_name;
use np_text::{LabelId, PoolId, RequesterId, Role, RoleKind, SemId, TenantId};
use serde_json::Value;
use std::alloc::{AllocError, Global};

/// The name of the label with this id.
pub(crate) fn label_name(config: &Config, id: LabelId) -> &[u8]
    ensures name { result.now ≡ label_name config.now id }
    ensures ascii { IsAscii result.now }
{
    config.know_soundness();
    match config.label(id) {
        Some(label) => label.name.items(),
        None => b"",
    }
}

/// The name of the semaphore with this id.
pub(crate) fn semaphore_name(config: &Config, id: SemId) -> &[u8]
    ensures name { result.now ≡ semaphore_name config.now id }
    ensures ascii { IsAscii result.now }
{
    config.know_soundness();
    match config.semaphore(id) {
        Some(semaphore) => semaphore.name.items(),
        None => b"",
    }
}

/// The name of the tenant with this id.
fn tenant_name(config: &Config, id: TenantId) -> &[u8]
    ensures name { result.now ≡ tenant_name config.now id }
    ensures ascii { IsAscii result.now }
{
    config.know_soundness();
    match config.tenant(id) {
        Some(tenant) => tenant.name.items(),
        None => b"",
    }
}

/// The name of a job's tenant, if it isn't the default one.
pub(crate) fn job_tenant(
    alloc: Global,
    config: &Config,
    id: TenantId,
) -> Result<Option<Value>, AllocError>
    ensures { IfOk result (λ v. option_map (λ w. view w) v ≡ job_tenant config.now id) }
{
    if id.0 == 0 {
        return Ok(None);
    }
    Ok(Some(text_value(alloc, tenant_name(config, id))?))
}

/// The name of the requester with this id.
pub(crate) fn requester_name(config: &Config, id: RequesterId) -> &[u8]
    ensures name { result.now ≡ requester_name config.now id }
    ensures ascii { IsAscii result.now }
{
    config.know_soundness();
    match config.requester(id) {
        Some(requester) => requester.name.items(),
        None => b"",
    }
}

/// The full name of a pool.
pub(crate) fn pool_name_value(
    alloc: Global,
    config: &Config,
    id: PoolId,
) -> Result<Value, AllocError>
    ensures { IfOk result (λ v. view v ≡ string (full_name config.now id)) }
{
    config.know_soundness();
    match config.pool(id) {
        Some(pool) => {
            let name = full_name(alloc, config.providers(), pool)?;
            text_value(alloc, name.as_slice())
        }
        None => text_value(alloc, b""),
    }
}

pub(crate) fn role_name_value(
    alloc: Global,
    config: &Config,
    role: Role,
) -> Result<Value, AllocError>
    ensures { IfOk result (λ v. view v ≡ string (role_name config.now role)) }
{
    match role {
        Role::Launcher(pool) => pool_name_value(alloc, config, pool),
        Role::Janitor(pool) => pool_name_value(alloc, config, pool),
        Role::Requester(requester) => text_value(alloc, requester_name(config, requester)),
        Role::Reaper => text_value(alloc, b""),
    }
}

pub(crate) fn role_word(role: Role) -> &'static str
    ensures { result.now ≡ role_word role }
{
    match role {
        Role::Launcher(_) => RoleKind::Launcher.word(),
        Role::Janitor(_) => RoleKind::Janitor.word(),
        Role::Requester(_) => RoleKind::Requester.word(),
        Role::Reaper => "",
    }
}

pub(crate) fn priority_word(priority: u16) -> &'static str
    ensures { result.now ≡ priority_word priority }
{
    match priority {
        100 => "high",
        200 => "normal",
        _ => "low",
    }
}
