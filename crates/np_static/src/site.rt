//! The driver of a pool, with hosts or without.

ghost use Rattle.std.specs.Prelude.{◌≡◌, IsOk, slice_get};
ghost use Rattle.np_static.specs.Lower.{FailsOnlyFull, HasOutcome, IsAsPlanned, KeepsCounts, Launches, Removes, after_removal};
ghost use Rattle.np_static.specs.Site.{site_of, told_of, with_told, site_outcome, site_facts, site_plan, site_sound, site_soundness, site_room};

use crate::driver::HostDriver;
use np_cloud::{Driver, LaunchFault, RemoveFailed, Server, SimDriver, Tag};

/// The driver of a pool, which has hosts or not. Contracts see it as a `Site`.
#[derive(Drop)]
pub enum SiteDriver {
    /// The simulated cloud of a pool without hosts.
    Sim(SimDriver),
    /// The hosts of a pool.
    Hosts(HostDriver),
}

impl Driver for SiteDriver {
    ghost facts = { site_facts };

    ghost plan = { site_plan };

    ghost sound = { site_sound };

    ghost soundness = { site_soundness };

    ghost room = { site_room };

    /// The cost is that of the cloud or of the hosts.
    fn launch(&mut self, tag: Tag) -> Result<u64, LaunchFault>
        ensures outcome { HasOutcome (site_outcome (site_of self.old) tag)
            (told_of (site_of self.old)) tag result (told_of (site_of self.new)) }
        ensures fixed { site_of self.new
            ≡ with_told (told_of (site_of self.new)) (site_of self.old) }

        // What each driver promises.
        ensures plan { site_plan self.new ≡ site_plan self.old }
        ensures sound { site_sound self.new ≡ site_sound self.old }
        ensures room { site_room self.new ≡ site_room self.old }
        ensures launch { Launches (site_facts self.old) tag result (site_facts self.new) }
        ensures planned { IsAsPlanned (site_plan self.old tag) result }
        ensures full { FailsOnlyFull (site_facts self.old) (site_room self.old) result }
        ensures counts { KeepsCounts (site_facts self.old) (site_facts self.new) }
    {
        match self {
            SiteDriver::Sim(cloud) => cloud.launch(tag),
            SiteDriver::Hosts(hosts) => hosts.launch(tag),
        }
    }

    /// It never fails. The cost grows with the servers.
    fn remove(&mut self, number: u64) -> Result<(), RemoveFailed>
        ensures ok { IsOk result }
        ensures removal { site_of self.new
            ≡ with_told (after_removal (told_of (site_of self.old)) number) (site_of self.old) }

        // What each driver promises.
        ensures plan { site_plan self.new ≡ site_plan self.old }
        ensures sound { site_sound self.new ≡ site_sound self.old }
        ensures room { site_room self.new ≡ site_room self.old }
        ensures removes { Removes (site_facts self.old) number result (site_facts self.new) }
        ensures counts { KeepsCounts (site_facts self.old) (site_facts self.new) }
    {
        match self {
            SiteDriver::Sim(cloud) => cloud.remove(number),
            SiteDriver::Hosts(hosts) => hosts.remove(number),
        }
    }

    /// Takes constant time.
    fn server(&self, at: u32) -> Option<Server>
        ensures { result ≡ slice_get (told_of (site_of self.now)).servers at }
    {
        match self {
            SiteDriver::Sim(cloud) => cloud.server(at),
            SiteDriver::Hosts(hosts) => hosts.server(at),
        }
    }
}
