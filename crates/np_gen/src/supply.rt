//! The supply: labels, providers with their pools, and semaphores.

ghost use Rattle.std.specs.Prelude.{◌≡◌, IfOk};
ghost use Rattle.np_gen.specs.Site.{drill_label, drill_labels, drill_provider, drill_providers, drill_offer, drill_pool, drill_pools, drill_semaphores};

use np_amount::{Amount, Limit};
use np_config::{Label, Name, NumberList, Offer, OfferList, Pool, Provider, Sem};
use np_text::{LabelId, NoMemory};
use std::alloc::Global;

pub(crate) fn name(alloc: Global, text: &[u8]) -> Result<Name, NoMemory>
    ensures { IfOk result (λ name. name ≡ text.now) }
{
    Ok(Name::new(Vec::from_slice(alloc, text)?))
}

fn label(alloc: Global, text: &[u8]) -> Result<Label, NoMemory>
    ensures { IfOk result (λ label. label ≡ drill_label text.now) }
{
    Ok(Label {
        name: name(alloc, text)?,
        min_ready: 0,
        max_ready_age: 0,
    })
}

pub(crate) fn labels(alloc: Global) -> Result<Vec<Label>, NoMemory>
    ensures { IfOk result (λ rows. rows.items ≡ drill_labels) }
{
    let first = label(alloc, b"l0")?;
    let second = label(alloc, b"l1")?;
    let third = label(alloc, b"l2")?;
    let fourth = label(alloc, b"l3")?;
    Ok(vec![in alloc; first, second, third, fourth]?)
}

fn provider(alloc: Global, text: &[u8]) -> Result<Provider, NoMemory>
    ensures { IfOk result (λ provider. provider ≡ drill_provider text.now) }
{
    Ok(Provider {
        name: name(alloc, text)?,
        retries: 3,
        concurrency: None,
    })
}

pub(crate) fn providers(alloc: Global) -> Result<Vec<Provider>, NoMemory>
    ensures { IfOk result (λ rows. rows.items ≡ drill_providers) }
{
    let first = provider(alloc, b"c0")?;
    let second = provider(alloc, b"c1")?;
    Ok(vec![in alloc; first, second]?)
}

fn offer(label: u16) -> Offer
    ensures { result ≡ drill_offer label }
{
    Offer {
        label: LabelId(label),
        amount: Amount {
            instances: 1,
            cores: 1,
            ram: 1024,
        },
    }
}

fn pool(alloc: Global, provider: u16, text: &[u8]) -> Result<Pool, NoMemory>
    ensures { IfOk result (λ pool. pool ≡ drill_pool provider text.now) }
{
    let offers = vec![in alloc; offer(0), offer(1), offer(2), offer(3)]?;
    Ok(Pool {
        provider,
        name: name(alloc, text)?,
        limit: Limit {
            instances: Some(8),
            cores: None,
            ram: None,
        },
        offers: OfferList::new(offers),
        fail_starts: NumberList::none(alloc),
    })
}

pub(crate) fn pools(alloc: Global) -> Result<Vec<Pool>, NoMemory>
    ensures { IfOk result (λ rows. rows.items ≡ drill_pools) }
{
    let first = pool(alloc, 0, b"m0")?;
    let second = pool(alloc, 0, b"m1")?;
    let third = pool(alloc, 1, b"m0")?;
    let fourth = pool(alloc, 1, b"m1")?;
    Ok(vec![in alloc; first, second, third, fourth]?)
}

pub(crate) fn semaphores(alloc: Global) -> Result<Vec<Sem>, NoMemory>
    ensures { IfOk result (λ rows. rows.items ≡ drill_semaphores) }
{
    let deploy = Sem {
        name: name(alloc, b"deploy")?,
        max: 1,
    };
    let stage = Sem {
        name: name(alloc, b"stage")?,
        max: 2,
    };
    Ok(vec![in alloc; deploy, stage]?)
}
