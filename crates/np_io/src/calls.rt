//! The calls of a stream in memory, and which of them fail.

ghost use Rattle.std.specs.Prelude.{◌≡◌, ◌↔◌, IsTrue, Contains};
ghost use Rattle.np_io.specs.Memory.{counted};

/// The calls so far, and the plan of those that fail.
#[derive(Drop)]
pub struct Calls {
    /// The numbers of the calls that fail, counted from 1. It never changes.
    pub failing: Vec<u32>,
    /// How many calls were made. It only rises, and stops at `u64::MAX`.
    pub made: u64,
    /// How many calls failed. It only rises, and stops at `u64::MAX`.
    pub faults: u64,
}

impl Calls {
    pub fn new(failing: Vec<u32>) -> Calls
        ensures { result ≡ record { failing = failing; made = 0; faults = 0 } }
    {
        Calls {
            failing,
            made: 0,
            faults: 0,
        }
    }

    /// Counts a call, and says whether it is one of those that fail.
    pub fn next_fails(&mut self) -> bool
        ensures answer { IsTrue result ↔ Contains self.old.failing.items (counted self.old.made) }
        ensures counts { self.new ≡ record self.old { made = counted self.old.made } }
    {
        self.made = self.made.saturating_add(1);
        self.failing
            .iter()
            .any(|number| u64::from(*number) == self.made)
    }

    /// Counts a fault.
    pub fn count_fault(&mut self)
        ensures { self.new ≡ record self.old { faults = counted self.old.faults } }
    {
        self.faults = self.faults.saturating_add(1);
    }
}
