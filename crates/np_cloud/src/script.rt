//! A driver that answers from a list.

ghost use Rattle.std.specs.Prelude.{◌≡◌, ◌↔◌, Option, None, Contains, IsTrue, IsErr, OnOk, OnErr, slice_get};
ghost use Rattle.np_io.specs.Memory.{counted};
ghost use Rattle.np_cloud.specs.Calls.{KeepsCounts};
ghost use Rattle.np_cloud.specs.Sound.{every_list, soundness_of_every_list};
ghost use Rattle.np_cloud.specs.Inventory.{HasOutcome, script_of, next_outcome, after_scripted_removal, after_failed_removal, script_facts};

use crate::driver::{Driver, LaunchFault, RemoveFailed, Server, Tag};
use crate::inventory::Inventory;
use np_event::Outcome;
use std::alloc::Global;
use std::marker::Model;

/// Whether the removal of this number is one of those that fail. The cost grows with them.
fn is_planned(failing: &[u32], number: u64) -> bool
    ensures { IsTrue result ↔ Contains failing.now number }
{
    failing.iter().any(|planned| u64::from(*planned) == number)
}

/// A driver that answers launches from a list, and fails at planned removals. Contracts see it as a
/// `Script`.
#[derive(Drop)]
pub struct ScriptDriver {
    /// The answers to the launches. They never change.
    answers: Vec<Option<u64>>,
    /// The numbers of the removals that fail, counted from 1. It never changes.
    failing: Vec<u32>,
    /// How many removals were made. It only rises, and stops at `u64::MAX`.
    removals: u64,
    /// How many of them failed. It only rises, and stops at `u64::MAX`.
    remove_faults: u64,
    inventory: Inventory,
}

impl Model for ScriptDriver {
    ghost use Rattle.np_cloud.specs.Inventory.{Script};

    ghost Value = { Script };

    ghost view = { λ d. record {
      answers = d.answers.items;
      failing = d.failing.items;
      removals = d.removals;
      remove_faults = d.remove_faults;
      told = d.inventory;
    } };
}

impl ScriptDriver {
    /// A driver that answers its launches from `answers` in order: a server's number, or that the
    /// launch fails; past their end every launch fails. The removals with the numbers in
    /// `failing_removals`, counted from 1, fail too. It takes no memory.
    pub fn new(alloc: Global, answers: Vec<Option<u64>>, failing_removals: Vec<u32>) -> ScriptDriver
        ensures { result ≡ script_of answers.items failing_removals.items }
    {
        ScriptDriver {
            answers,
            failing: failing_removals,
            removals: 0,
            remove_faults: 0,
            inventory: Inventory::new(alloc),
        }
    }

    /// The answer to the next launch.
    fn next_outcome(&self) -> Outcome
        ensures { result ≡ next_outcome self.now }
    {
        match self.answers.get(self.inventory.launches()).copied() {
            Some(Some(number)) => Outcome::Launched(number),
            Some(None) => Outcome::Failed,
            None => Outcome::Failed,
        }
    }
}

impl Driver for ScriptDriver {
    ghost facts = { script_facts };

    ghost plan = { λ _ _. None };

    ghost sound = { λ _. every_list };

    ghost soundness = { λ driver. soundness_of_every_list (script_facts driver) };

    ghost room = { λ _. 0 };

    /// Takes constant time, except that the list of what was launched so far moves now and then as
    /// it grows.
    fn launch(&mut self, tag: Tag) -> Result<u64, LaunchFault>
        ensures outcome { HasOutcome (next_outcome self.old) self.old.told tag result
            self.new.told }
        ensures rest { self.new ≡ record self.old { told = self.new.told } }
        ensures counts { KeepsCounts (script_facts self.old) (script_facts self.new) }
    {
        let outcome = self.next_outcome();
        self.inventory.answer(tag, outcome)
    }

    /// The cost grows with the servers and with the plan's length.
    fn remove(&mut self, number: u64) -> Result<(), RemoveFailed>
        ensures planned { IsErr result ↔ Contains self.old.failing (counted self.old.removals) }
        ensures ok { OnOk result (self.new ≡ after_scripted_removal self.old number) }
        ensures err { OnErr result (self.new ≡ after_failed_removal self.old) }
        ensures counts { KeepsCounts (script_facts self.old) (script_facts self.new) }
    {
        self.removals = self.removals.saturating_add(1);
        if is_planned(&self.failing, self.removals) {
            self.remove_faults = self.remove_faults.saturating_add(1);
            return Err(RemoveFailed);
        }
        self.inventory.remove(number);
        Ok(())
    }

    /// Takes constant time.
    fn server(&self, at: u32) -> Option<Server>
        ensures { result ≡ slice_get self.now.told.servers at }
    {
        self.inventory.server(at)
    }
}
