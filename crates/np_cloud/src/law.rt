//! What is known of every simulated cloud. Each function does nothing: its contract is the law.

ghost use Rattle.std.specs.Prelude.{◌≡◌, ℕ, List, [], map, All, Some, Err};
ghost use Rattle.np_config.specs.Configuration.{Configuration};
ghost use Rattle.np_cloud.specs.declared.driver.RemoveFailed.{RemoveFailed};
ghost use Rattle.np_cloud.specs.Calls.{Removes};
ghost use Rattle.np_cloud.specs.Inventory.{facts_of, ArePlanned, simulations, Simulation};

use crate::driver::Driver;
use crate::sim::SimDriver;

/// A simulated cloud always reports its launches and its servers.
pub fn a_simulated_cloud_tells_all()
    ensures { (cloud : Simulation) → ⟦<SimDriver as Driver>⟧.facts cloud ≡ facts_of cloud.told 0 }
{}

/// No removal of a simulated cloud fails.
pub fn no_removal_of_a_simulated_cloud_fails()
    ensures { (cloud later : Simulation) (number : ℕ) (fault : RemoveFailed) →
        Removes (⟦<SimDriver as Driver>⟧.facts cloud) number (Err fault)
        (⟦<SimDriver as Driver>⟧.facts later) → ⊥ }
{}

/// The simulated clouds of a configuration plan what it does.
pub fn simulated_clouds_follow_the_configuration()
    ensures { (c : Configuration) (n : ℕ) →
        ArePlanned c 0 (map ⟦<SimDriver as Driver>⟧.plan (simulations c n)) }
{}

/// They report their servers, of which there are none before the first launch.
pub fn simulated_clouds_begin_without_servers()
    ensures { (c : Configuration) (n : ℕ) →
        All (λ (cloud : Simulation). (⟦<SimDriver as Driver>⟧.facts cloud).servers ≡ Some [])
        (simulations c n) }
{}
