//! The tenant that no text lists.

ghost use Rattle.std.specs.Prelude.{◌≡◌, IfOk};
ghost use Rattle.np_config.specs.Configuration.{default_tenant};

use crate::{Name, Tenant};
use np_amount::Limit;
use std::alloc::{AllocError, Global};

/// The tenant of the jobs that name none.
pub(crate) fn default_tenant(alloc: Global) -> Result<Tenant, AllocError>
    ensures { IfOk result (λ t. t ≡ default_tenant) }
{
    let name = Vec::from_slice(alloc, b"default")?;
    Ok(Tenant {
        name: Name::new(name),
        limit: Limit::NO_LIMIT,
    })
}
