//! The place of a log.

ghost use Rattle.std.specs.Prelude.{◌≡◌, ◌≤◌, ◌+◌, ◌*◌};

use std::marker::Model;

/// A log on a disk, at its last gate. Contracts see it as a `Place`.
#[derive(Drop)]
pub struct Log {
    /// How many bytes are before the last gate. It only rises.
    pub(crate) gate: u64,
    /// How many events are before it, at most 262,144. It only rises.
    pub(crate) events: u32,
}

impl Model for Log {
    ghost use Rattle.std.specs.Prelude.{◌≤◌, ◌+◌, ◌*◌};
    ghost use Rattle.np_log.specs.Place.{Place};

    ghost Value = { Place };

    ghost view = { λ log. record { gate = log.gate; events = log.events } };

    // A record takes at most 2 ^ 32 + 4 bytes, and each but record 0 has an event.
    ghost invariant = { λ log. (log.events ≤ 262144) × (log.gate ≤ (log.events + 1) * 4294967300) };
}

impl Log {
    ghost use Rattle.std.specs.Prelude.{◌≡◌};

    /// How many events the log has. It makes no call of the disk.
    pub fn events(&self) -> u32
        ensures { result ≡ self.now.events }
    {
        self.events
    }
}

/// The log behind a record that was written at this gate, with the gate behind it: `size` bytes and
/// `added` events more.
pub(crate) fn log_behind(gate: u64, events: u32, size: usize, added: usize) -> Log
    requires size { size ≤ added * 4294967300 }
    requires near { gate ≤ (events + 1) * 4294967300 }
    requires few { events + added ≤ 262144 }
    ensures { result ≡ record { gate = gate + size; events = events + added } }
{
    Log {
        gate: gate + size as u64,
        events: events + added as u32,
    }
}
