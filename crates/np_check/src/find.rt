//! All that is to find.

ghost use Rattle.std.specs.Prelude.{◌≡◌, ◌++◌, [], ◌∷◌, IfOk, OnOk, filter, length, map};
ghost use Rattle.std.specs.List.{flat_map};
ghost use Rattle.np_check.specs.Lower.{offers_of};
ghost use Rattle.np_check.specs.declared.finding.Finding.TheVariants.{OfferTooLarge};
ghost use Rattle.np_check.specs.Report.{findings, is_true, of_job, of_label, of_pool, of_semaphore, of_tenant, places};

use crate::demand::count_pools;
use crate::finding::Finding;
use crate::truth::is_true;
use np_config::{Config, Offer};
use np_look::offers;
use np_text::{Ample, JobId, LabelId, NoMemory, PoolId, SemId, TenantId};
use std::alloc::Global;

/// Adds the finding if it is true.
fn add(config: &Config, finding: Finding, out: &mut Vec<Finding>) -> Ample
    ensures { OnOk result
        (out.new.items ≡ out.old.items ++ filter (is_true config.now) (finding ∷ [])) }
{
    if is_true(config, finding) {
        out.push(finding)?;
    }
    Ok(())
}

#[tactic(auto, using(crate::proofs::Joined::joins))]
fn add_label(config: &Config, at: u16, out: &mut Vec<Finding>) -> Ample
    ensures { OnOk result
        (out.new.items ≡ out.old.items ++ filter (is_true config.now) (of_label at)) }
{
    add(config, Finding::LabelUnoffered(LabelId(at)), out)?;
    add(config, Finding::ReadyNodesAge(LabelId(at)), out)
}

#[tactic(auto, using(crate::proofs::Joined::joins))]
fn add_labels(config: &Config, out: &mut Vec<Finding>) -> Ample
    ensures { OnOk result (out.new.items ≡ out.old.items
        ++ filter (is_true config.now) (places of_label (length config.now.labels))) }
{
    config.know_soundness();
    for at in 0..config.labels().len() as u16 {
        add_label(config, at, out)?;
    }
    Ok(())
}

fn add_each(config: &Config, pool: PoolId, offers: &[Offer], out: &mut Vec<Finding>) -> Ample
    ensures { OnOk result (out.new.items ≡ out.old.items ++ flat_map
        (λ o. filter (is_true config.now) (OfferTooLarge pool o.label ∷ [])) offers.now) }
{
    for offer in offers {
        add(config, Finding::OfferTooLarge(pool, offer.label), out)?;
    }
    Ok(())
}

fn add_offers(config: &Config, pool: PoolId, out: &mut Vec<Finding>) -> Ample
    ensures { OnOk result (out.new.items ≡ out.old.items ++ filter (is_true config.now)
        (map (λ o. OfferTooLarge pool o.label) (offers_of config.now pool))) }
{
    add_each(config, pool, offers(config, pool), out)
}

#[tactic(auto, using(crate::proofs::Joined::joins))]
fn add_pool(config: &Config, at: u16, out: &mut Vec<Finding>) -> Ample
    ensures { OnOk result
        (out.new.items ≡ out.old.items ++ filter (is_true config.now) (of_pool config.now at)) }
{
    add(config, Finding::PoolUnusable(PoolId(at)), out)?;
    add_offers(config, PoolId(at), out)
}

#[tactic(auto, using(crate::proofs::Joined::joins))]
fn add_pools(config: &Config, out: &mut Vec<Finding>) -> Ample
    ensures { OnOk result (out.new.items ≡ out.old.items
        ++ filter (is_true config.now) (places (of_pool config.now) (length config.now.pools))) }
{
    for at in 0..count_pools(config) {
        add_pool(config, at, out)?;
    }
    Ok(())
}

#[tactic(auto, using(crate::proofs::Joined::joins))]
fn add_semaphores(config: &Config, out: &mut Vec<Finding>) -> Ample
    ensures { OnOk result (out.new.items ≡ out.old.items
        ++ filter (is_true config.now) (places of_semaphore (length config.now.semaphores))) }
{
    config.know_soundness();
    for at in 0..config.semaphores().len() as u16 {
        add(config, Finding::SemaphoreUnnamed(SemId(at)), out)?;
    }
    Ok(())
}

#[tactic(auto, using(crate::proofs::Joined::joins))]
fn add_tenants(config: &Config, out: &mut Vec<Finding>) -> Ample
    ensures { OnOk result (out.new.items ≡ out.old.items
        ++ filter (is_true config.now) (places of_tenant (length config.now.tenants))) }
{
    config.know_soundness();
    for at in 0..config.tenants().len() as u16 {
        add(config, Finding::TenantUnnamed(TenantId(at + 1)), out)?;
    }
    Ok(())
}

#[tactic(auto, using(crate::proofs::Joined::joins))]
fn add_job(config: &Config, at: u32, out: &mut Vec<Finding>) -> Ample
    ensures { OnOk result
        (out.new.items ≡ out.old.items ++ filter (is_true config.now) (of_job at)) }
{
    add(config, Finding::JobUnoffered(JobId(at)), out)?;
    add(config, Finding::JobTooLarge(JobId(at)), out)?;
    add(config, Finding::JobAboveTenant(JobId(at)), out)
}

#[tactic(auto, using(crate::proofs::Joined::joins))]
fn add_jobs(config: &Config, out: &mut Vec<Finding>) -> Ample
    ensures { OnOk result (out.new.items ≡ out.old.items
        ++ filter (is_true config.now) (places of_job (length config.now.jobs))) }
{
    config.know_soundness();
    for at in 0..config.jobs().len() as u32 {
        add_job(config, at, out)?;
    }
    Ok(())
}

/// All that will surprise the author of the configuration, each finding once: of labels, pools,
/// semaphores, tenants and jobs, each kind in the order of its table. The cost grows with the
/// number of jobs times the number of pools with their offers, and with the number of jobs times
/// the number of semaphores and tenants.
#[tactic(auto, using(crate::proofs::Joined::five))]
pub fn findings(alloc: Global, config: &Config) -> Result<Vec<Finding>, NoMemory>
    ensures { IfOk result (λ v. v.items ≡ findings config.now) }
{
    let mut out = Vec::new(alloc);
    add_labels(config, &mut out)?;
    add_pools(config, &mut out)?;
    add_semaphores(config, &mut out)?;
    add_tenants(config, &mut out)?;
    add_jobs(config, &mut out)?;
    Ok(out)
}
