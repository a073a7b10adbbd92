//! The simulated cloud.

ghost use Rattle.std.specs.Prelude.{◌≡◌, ◌==◌, Option, Some, IfOk, IsOk, slice_get};
ghost use Rattle.np_machine.specs.Prelude.{list_any, outcome_of};
ghost use Rattle.np_cloud.specs.declared.driver.Tag.{Tag};
ghost use Rattle.np_cloud.specs.Calls.{KeepsCounts};
ghost use Rattle.np_cloud.specs.Sound.{every_list, soundness_of_every_list};
ghost use Rattle.np_cloud.specs.Inventory.{after_removal, HasOutcome, simulation_of, simulated_outcome, simulation_facts, simulation_plan};

use crate::driver::{Driver, LaunchFault, RemoveFailed, Server, Tag};
use crate::inventory::Inventory;
use np_config::Config;
use np_event::Outcome;
use np_text::{NoMemory, PoolId};
use std::alloc::Global;
use std::marker::Model;

/// Whether the start is one of these. The cost grows with them.
fn is_one_of(starts: &[u32], start: u32) -> bool
    ensures { result ≡ list_any (λ k. k == start) starts.now }
{
    starts.iter().any(|k| *k == start)
}

/// The simulated cloud of a pool: the starts that the configuration plans to fail do, and any other
/// launches the server of its own number. Contracts see it as a `Simulation`.
#[derive(Drop)]
pub struct SimDriver {
    /// The starts that fail, rising. It never changes.
    fail_starts: Vec<u32>,
    inventory: Inventory,
}

impl Model for SimDriver {
    ghost use Rattle.np_cloud.specs.Inventory.{Simulation};

    ghost Value = { Simulation };

    ghost view = { λ d. record { fail_starts = d.fail_starts.items; told = d.inventory } };
}

impl SimDriver {
    /// The cloud of the pool, before the first launch. The cost grows with the starts that the pool
    /// plans to fail.
    pub fn new(alloc: Global, config: &Config, pool: PoolId) -> Result<SimDriver, NoMemory>
        ensures start { IfOk result (λ cloud. cloud ≡ simulation_of config.now pool) }
        ensures plan { IfOk result (λ cloud. (tag : Tag) → ⟦<SimDriver as Driver>⟧.plan cloud tag
            ≡ Some (outcome_of config.now pool tag.start)) }
    {
        let fail_starts = match config.pool(pool) {
            None => Vec::new(alloc),
            Some(row) => Vec::from_slice(alloc, row.fail_starts.items())?,
        };
        Ok(SimDriver {
            fail_starts,
            inventory: Inventory::new(alloc),
        })
    }

    /// What becomes of the start of this number.
    fn planned_outcome(&self, start: u32) -> Outcome
        ensures { result ≡ simulated_outcome self.now start }
    {
        if is_one_of(&self.fail_starts, start) {
            Outcome::Failed
        } else {
            Outcome::Launched(u64::from(start))
        }
    }
}

impl Driver for SimDriver {
    ghost facts = { simulation_facts };

    ghost plan = { simulation_plan };

    ghost sound = { λ _. every_list };

    ghost soundness = { λ driver. soundness_of_every_list (simulation_facts driver) };

    ghost room = { λ _. 0 };

    /// The cost grows with the starts that the pool plans to fail. Besides, the list of what was
    /// launched so far moves now and then as it grows.
    fn launch(&mut self, tag: Tag) -> Result<u64, LaunchFault>
        ensures fixed { self.new.fail_starts ≡ self.old.fail_starts }
        ensures outcome { HasOutcome (simulated_outcome self.old tag.start) self.old.told tag result
            self.new.told }
        ensures counts { KeepsCounts (simulation_facts self.old) (simulation_facts self.new) }
    {
        let outcome = self.planned_outcome(tag.start);
        self.inventory.answer(tag, outcome)
    }

    /// It never fails. The cost grows with the servers.
    fn remove(&mut self, number: u64) -> Result<(), RemoveFailed>
        ensures ok { IsOk result }
        ensures removal { self.new ≡ record self.old { told = after_removal self.old.told number } }
    {
        self.inventory.remove(number);
        Ok(())
    }

    /// Takes constant time.
    fn server(&self, at: u32) -> Option<Server>
        ensures { result ≡ slice_get self.now.told.servers at }
    {
        self.inventory.server(at)
    }
}
