//! The full names of pools.

ghost use Rattle.std.specs.Prelude.{◌≡◌, ◌<◌, ◌^◌, [], map, length, IfOk};
ghost use Rattle.np_config_read.specs.Providers.{pool_name, pool_names, IsUnused};
ghost use Rattle.np_config_read.specs.Lower.{EachAfter};

use np_config::{Name, Named, Pool, Provider};
use np_json::Table;
use std::alloc::{AllocError, Global};

/// The name of a provider, `/`, and the name of its pool.
#[derive(Drop)]
pub(crate) struct PoolName {
    pub text: Name,
}

impl Named for PoolName {
    ghost name = { λ n. n.text };

    fn name(&self) -> &[u8] {
        self.text.items()
    }
}

/// The name of a pool's provider, `/`, and its own name.
pub fn full_name(alloc: Global, providers: &[Provider], pool: &Pool) -> Result<Vec<u8>, AllocError>
    ensures { IfOk result (λ n. n.items ≡ pool_name providers.now pool.now) }
{
    let provider: &[u8] = match providers.get(pool.provider as usize) {
        Some(provider) => provider.name.items(),
        None => b"",
    };
    let mut name = Vec::from_slice(alloc, provider)?;
    name.push(b'/')?;
    name.extend_from_slice(pool.name.items())?;
    Ok(name)
}

/// The full names of pools, no two of which are equal.
pub(crate) fn names_of_pools(
    alloc: Global,
    providers: &[Provider],
    pools: &[Pool],
) -> Result<Table<PoolName>, AllocError>
    requires unused { EachAfter IsUnused [] (pool_names providers.now pools.now) }
    requires few { length pools.now < 2 ^ 16 }
    ensures { IfOk result (λ names. map (λ n. n.text) names ≡ pool_names providers.now pools.now) }
{
    let mut names = Table::new(alloc);
    for pool in pools {
        let text = Name::new(full_name(alloc, providers, pool)?);
        names.push(alloc, PoolName { text })?;
    }
    Ok(names)
}
