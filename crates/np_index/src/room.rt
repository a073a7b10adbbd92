//! Whether a request's tenant has room for it.

ghost use Rattle.std.specs.Prelude.{◌≡◌};
ghost use Rattle.np_index.specs.Lower.{AreClasses, Fits, blocking, new_record};
ghost use Rattle.np_index.specs.Waiting.{AreAwaited};

use crate::Awaited;
use crate::tenant::used_by;
use np_changes::Asked;
use np_classes::Classes;
use np_look::{Rows, is_short_of, limited_tenant};
use np_text::{PoolId, TenantId};

/// The tenant that has no room now for a request that the pool may serve. What the tenant uses is
/// read only if the tenant has a limit and the pool may serve the request: that costs a few binary
/// searches and one lookup of a node for each pool and label of which it has nodes, and one lookup
/// for what its pending requests wait for, however many they are. Otherwise the cost grows with the
/// request's labels times the pool's offers.
pub fn blocking<R: Rows>(
    classes: &Classes,
    awaited: &Awaited,
    rows: &R,
    pool: PoolId,
    asked: &Asked,
) -> Option<TenantId>
    requires fits { Fits (R.site rows.now) (R.state rows.now) }
    requires classes { AreClasses (R.site rows.now) (R.state rows.now) classes.now }
    requires awaited { AreAwaited (R.site rows.now) (R.state rows.now) awaited.now }
    ensures { result ≡ blocking (R.site rows.now) (R.state rows.now) pool (new_record asked.now) }
{
    let tenant = limited_tenant(rows.config(), pool, asked)?;
    let used = used_by(classes, awaited, rows, tenant);
    if is_short_of(rows.config(), pool, asked, tenant, used) {
        Some(tenant)
    } else {
        None
    }
}
