//! The driver of a pool's hosts.

ghost use Rattle.std.specs.Prelude.{◌≡◌, ◌≤◌, ◌<◌, suc, true, length, slice_get, IfOk, IsOk};
ghost use Rattle.np_static.specs.Lower.{numbers_of};
ghost use Rattle.np_static.specs.Loads.{IsFirstFree, KeepsLoads, are_numbered, server_number};

use crate::limit::HOSTS;
use np_cloud::{Driver, Inventory, LaunchFault, MOST_LAUNCHES, RemoveFailed, Server, Tag};
use np_event::Outcome;
use np_text::{NoMemory, PoolId};
use std::alloc::Global;

/// The hosts of a pool: a launch takes the first host that has fewer servers than it carries. What
/// contracts see of it is a `Hosting`, by `hosting`.
#[derive(Drop)]
pub struct HostDriver {
    /// The pool that they serve. It never changes.
    pool: PoolId,
    /// How many servers each host carries at once. It never changes.
    hosts: Vec<u32>,
    /// How many servers each host has.
    loads: Vec<u32>,
    /// All hosts before this one have as many servers as they carry.
    from: usize,
    inventory: Inventory,
    ghost keeps: { KeepsLoads hosts.items loads.items from (numbers_of inventory.servers) },
    ghost numbered: { are_numbered 1 inventory.answered ≡ true },
}

/// The first host from `from` on that has fewer servers than it carries, or the number of hosts.
/// The cost grows with the hosts that it passes.
fn first_free(hosts: &[u32], loads: &[u32], from: usize) -> usize
    requires lengths { length loads.now ≡ length hosts.now }
    requires within { from ≤ length hosts.now }
    ensures { IsFirstFree hosts.now loads.now from result }
{
    let mut host = from;
    while host < hosts.len() && hosts[host] <= loads[host] {
        host += 1;
    }
    host
}

/// The number of the server that a launch makes on a host, where so many were answered before.
fn server_number(launches: usize, host: usize) -> u64
    requires few { launches < MOST_LAUNCHES }
    requires known { host < HOSTS }
    ensures { result ≡ server_number (suc launches) host }
{
    (launches as u64 + 1) * HOSTS + host as u64
}

impl HostDriver {
    ghost use Rattle.np_static.specs.Site.{hosting, hosting_of};

    /// The driver of these hosts, before the first launch: each number says how many servers a host
    /// carries at once. The cost grows with the hosts.
    pub fn new(alloc: Global, pool: PoolId, hosts: Vec<u32>) -> Result<HostDriver, NoMemory>
        requires { length hosts.items ≤ HOSTS }
        ensures { IfOk result (λ driver. hosting driver ≡ hosting_of pool hosts.items) }
    {
        let loads = vec![in alloc; 0; hosts.len()]?;
        Ok(HostDriver {
            pool,
            hosts,
            loads,
            from: 0,
            inventory: Inventory::new(alloc),
        })
    }
}

impl Driver for HostDriver {
    ghost use Rattle.std.specs.Prelude.{None};
    ghost use Rattle.np_static.specs.Lower.{FailsOnlyFull, HasOutcome, KeepsCounts, after_removal};
    ghost use Rattle.np_static.specs.Site.{hosting, hosted_outcome, host_facts, host_sound, host_soundness, host_room};

    ghost facts = { host_facts };

    ghost plan = { λ _ _. None };

    ghost sound = { host_sound };

    ghost soundness = { host_soundness };

    ghost room = { host_room };

    /// The cost grows with the full hosts that it passes, from the first whose server was removed
    /// since the last launch, or else from the host of that launch: at most 1,024 hosts. It doesn't
    /// grow with the servers, but the list of what was launched so far moves now and then as it
    /// grows.
    fn launch(&mut self, tag: Tag) -> Result<u64, LaunchFault>
        ensures outcome { HasOutcome (hosted_outcome (hosting self.old)) (hosting self.old).told
            tag result (hosting self.new).told }
        ensures fixed { hosting self.new
            ≡ record (hosting self.old) { told = (hosting self.new).told } }
        ensures full { FailsOnlyFull (host_facts self.old) (host_room self.old) result }
        ensures counts { KeepsCounts (host_facts self.old) (host_facts self.new) }
    {
        self.from = first_free(&self.hosts, &self.loads, self.from);
        let host = self.from;
        let launches = self.inventory.launches();
        if host == self.hosts.len() || MOST_LAUNCHES <= launches as u64 {
            return self.inventory.answer(tag, Outcome::Failed);
        }
        let number = server_number(launches, host);
        let answer = self.inventory.answer(tag, Outcome::Launched(number))?;
        self.loads[host] += 1;
        Ok(answer)
    }

    /// It never fails. The cost grows with the servers.
    fn remove(&mut self, number: u64) -> Result<(), RemoveFailed>
        ensures ok { IsOk result }
        ensures removal { hosting self.new ≡ record (hosting self.old)
            { told = after_removal (hosting self.old).told number } }
    {
        let before = self.inventory.server_count();
        self.inventory.remove(number);
        let gone = before - self.inventory.server_count();
        let host = (number % HOSTS) as usize;
        if host < self.loads.len() {
            let load = self.loads[host];
            self.loads[host] = load - gone as u32;
            self.from = self.from.min(host);
        }
        Ok(())
    }

    /// Takes constant time.
    fn server(&self, at: u32) -> Option<Server>
        ensures { result ≡ slice_get (hosting self.now).told.servers at }
    {
        self.inventory.server(at)
    }
}
