//! The calls of a disk in memory, and from which on they fail.

ghost use Rattle.std.specs.Prelude.{◌≡◌, ◌≤◌, ◌↔◌, IsTrue};
ghost use Rattle.np_io.specs.Memory.{counted};
ghost use Rattle.np_io.specs.Streams.{Stops, after_count};

use crate::disk::DiskFailed;

/// The calls so far, and the plan of when they stop.
#[derive(Clone, Copy)]
pub struct Plan {
    /// The number of the first call that fails, counted from 1. It never changes.
    pub stop_at: Option<u32>,
    /// How many calls were made. It only rises, and stops at `u64::MAX`.
    pub made: u64,
    /// How many calls failed. It only rises, and stops at `u64::MAX`.
    pub faults: u64,
}

impl Plan {
    pub fn new(stop_at: Option<u32>) -> Plan
        ensures { result ≡ record { stop_at = stop_at; made = 0; faults = 0 } }
    {
        Plan {
            stop_at,
            made: 0,
            faults: 0,
        }
    }

    /// Counts a call, and says whether it is to fail.
    pub fn next_stops(&mut self) -> bool
        ensures answer { IsTrue result ↔ Stops self.old }
        ensures counts { self.new ≡ after_count self.old }
    {
        self.made = self.made.saturating_add(1);
        matches!(self.stop_at, Some(stop) if u64::from(stop) <= self.made)
    }

    /// Counts a fault, and answers it.
    pub fn fault(&mut self) -> DiskFailed
        ensures counts { self.new ≡ record self.old { faults = counted self.old.faults } }
        ensures later { self.old.faults ≤ self.new.faults }
    {
        self.faults = self.faults.saturating_add(1);
        DiskFailed
    }
}
