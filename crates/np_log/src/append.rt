//! Appending events.

ghost use Rattle.std.specs.Prelude.{◌≡◌, ◌≤◌, ◌+◌, length, IfOk, IfErr, IfSome, OnOk};
ghost use Rattle.std.specs.List.{AllByRecursion};
ghost use Rattle.std.specs.Option.{option_map};
ghost use Rattle.np_log.specs.Lower.{HasEventLine, LeavesOnly};
ghost use Rattle.np_log.specs.Cause.{AppendCause};
ghost use Rattle.np_log.specs.Log.{content_of, content_with};
ghost use Rattle.np_log.specs.Place.{IsSettled, SaysAllOrNone};

use crate::bytes::batch_record;
use crate::fault::AppendFault;
use crate::gate::write_behind;
use crate::log::{Log, log_behind};
use np_event::Event;
use np_io::Disk;
use std::alloc::Global;

impl Log {
    /// Appends these events as one record. At `Ok` they are on the disk.
    ///
    /// It makes four calls of the disk: the record and a closed gate behind it are written and
    /// synced, and then the gate before the record is opened and synced. The time and the memory
    /// grow with the events alone, not with the log.
    pub fn append<D: Disk>(
        self,
        alloc: Global,
        disk: &mut D,
        events: &[Event],
    ) -> Result<Log, AppendFault>
        requires settled { IsSettled (D.facts disk.old) self }
        requires some { 1 ≤ length events.now }
        requires batch { length events.now ≤ 64 }
        requires lines { AllByRecursion HasEventLine events.now }
        requires room { self.events + length events.now ≤ 262144 }

        ensures content { OnOk result (option_map content_of (D.facts disk.new).now
            ≡ option_map (λ file. content_with (content_of file) events.now)
            (D.facts disk.old).now) }
        ensures settled { IfOk result (λ log. IsSettled (D.facts disk.new) log) }
        ensures count { IfOk result (λ log. log.events ≡ self.events + length events.now) }

        // At every moment, and after a failure, a crash leaves the log with all of the events or
        // with none of them.
        ensures any_moment { IfSome (D.facts disk.old).now (λ file.
            LeavesOnly (D.facts disk.old) (D.facts disk.new)
            (SaysAllOrNone (content_of file) events.now)) }
        ensures cause { IfErr result (AppendCause D.facts disk.old disk.new self) }
        ensures later { (D.facts disk.old).faults ≤ (D.facts disk.new).faults }
    {
        let Ok(bytes) = batch_record(alloc, events) else {
            return Err(AppendFault::NoMemory(self));
        };
        let (gate, count) = (self.gate, self.events);
        write_behind(disk, gate, &bytes)?;
        Ok(log_behind(gate, count, bytes.len(), events.len()))
    }
}
