//! What a driver in memory reports.

ghost use Rattle.std.specs.Prelude.{◌≡◌, ◌≤◌, length, slice_get};
ghost use Rattle.np_cloud.specs.Calls.{without_number};

use crate::driver::{Launch, LaunchFault, Server, Tag};
use np_event::Outcome;
use std::alloc::Global;
use std::marker::Model;

/// The launches that were answered, the servers, and how many launches failed. Contracts see it as
/// a `Told`.
#[derive(Drop)]
pub struct Inventory {
    /// In the order of the launches. It only grows.
    answered: Vec<Launch>,
    /// In the order of their launches.
    servers: Vec<Server>,
    /// It only rises, and stops at `u64::MAX`.
    launch_faults: u64,
}

impl Model for Inventory {
    ghost use Rattle.np_cloud.specs.Inventory.{Told};

    ghost Value = { Told };

    ghost view = { λ r. record {
      answered = r.answered.items;
      servers = r.servers.items;
      launch_faults = r.launch_faults;
    } };
}

impl Inventory {
    ghost use Rattle.np_cloud.specs.Inventory.{told_nothing, after_removal, HasOutcome};

    /// Before the first launch.
    pub fn new(alloc: Global) -> Inventory
        ensures { result ≡ told_nothing }
    {
        Inventory {
            answered: Vec::new(alloc),
            servers: Vec::new(alloc),
            launch_faults: 0,
        }
    }

    /// Keeps a launch with this outcome, and returns it.
    pub fn answer(&mut self, tag: Tag, outcome: Outcome) -> Result<u64, LaunchFault>
        ensures outcome { HasOutcome outcome self.old tag result self.new }
        ensures later { self.old.launch_faults ≤ self.new.launch_faults }
    {
        if self.answered.reserve(1).is_err() || self.servers.reserve(1).is_err() {
            return Err(LaunchFault::NoMemory);
        }
        let _ = self.answered.push(Launch { tag, outcome });
        match outcome {
            Outcome::Launched(number) => {
                let _ = self.servers.push(Server { tag, number });
                Ok(number)
            }
            Outcome::Failed => {
                self.launch_faults = self.launch_faults.saturating_add(1);
                Err(LaunchFault::Failed)
            }
        }
    }

    /// How many launches were answered.
    pub fn launches(&self) -> usize
        ensures { result ≡ length self.now.answered }
    {
        self.answered.len()
    }

    /// How many servers there are.
    pub fn server_count(&self) -> usize
        ensures { result ≡ length self.now.servers }
    {
        self.servers.len()
    }

    /// Takes out each server of this number. The cost grows with the servers.
    pub fn remove(&mut self, number: u64)
        ensures { self.new ≡ after_removal self.old number }
    {
        drop_servers(&mut self.servers, number);
    }

    /// The server at a place: `None` if and only if it is past the last.
    pub fn server(&self, at: u32) -> Option<Server>
        ensures { result ≡ slice_get self.now.servers at }
    {
        self.servers.get(at as usize).copied()
    }
}

fn drop_servers(servers: &mut Vec<Server>, number: u64)
    ensures { servers.new.items ≡ without_number number servers.old.items }
{
    servers.retain(|server| server.number != number);
}
