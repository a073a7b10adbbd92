//! The simulated clouds of a site.

ghost use Rattle.std.specs.Prelude.{◌≡◌, length, IfOk};
ghost use Rattle.np_cloud.specs.Inventory.{simulations};

use crate::sim::SimDriver;
use np_config::Config;
use np_text::{NoMemory, PoolId};
use std::alloc::Global;

/// The simulated clouds of all pools, in their order, before the first launch. The cost grows with
/// the pools and the starts that they plan to fail.
pub fn simulated_clouds(alloc: Global, config: &Config) -> Result<Vec<SimDriver>, NoMemory>
    ensures count { IfOk result (λ v. length v.items ≡ length config.now.pools) }
    ensures clouds { IfOk result (λ v. v.items ≡ simulations config.now (length config.now.pools)) }
{
    config.know_soundness();
    let mut clouds = Vec::new(alloc);
    while config.pool(PoolId(clouds.len() as u16)).is_some() {
        let pool = PoolId(clouds.len() as u16);
        clouds.push(SimDriver::new(alloc, config, pool)?)?;
    }
    Ok(clouds)
}
