//! Appending any number of events.

ghost use Rattle.std.specs.Prelude.{◌≡◌, ◌≤◌, ◌+◌, length, IfOk, IfErr, IfSome, OnOk};
ghost use Rattle.std.specs.List.{AllByRecursion};
ghost use Rattle.std.specs.Option.{option_map};
ghost use Rattle.np_log.specs.Lower.{HasEventLine, LeavesOnly};
ghost use Rattle.np_log.specs.Cause.{AppendAllCause};
ghost use Rattle.np_log.specs.Log.{content_of, content_with};
ghost use Rattle.np_log.specs.Place.{IsSettled, SaysFirst};

use crate::fault::AppendFault;
use crate::log::Log;
use np_event::Event;
use np_io::Disk;
use std::alloc::Global;

impl Log {
    /// Appends these events in records of at most 64. At `Ok` they are on the disk.
    ///
    /// It makes four calls of the disk for each record. The time grows with the events, and the
    /// memory holds one record.
    pub fn append_all<D: Disk>(
        self,
        alloc: Global,
        disk: &mut D,
        events: &[Event],
    ) -> Result<Log, AppendFault>
        requires settled { IsSettled (D.facts disk.old) self }
        requires lines { AllByRecursion HasEventLine events.now }
        requires room { self.events + length events.now ≤ 262144 }

        ensures content { OnOk result (option_map content_of (D.facts disk.new).now
            ≡ option_map (λ file. content_with (content_of file) events.now)
            (D.facts disk.old).now) }
        ensures settled { IfOk result (λ log. IsSettled (D.facts disk.new) log) }
        ensures count { IfOk result (λ log. log.events ≡ self.events + length events.now) }

        // At every moment, and after a failure, a crash leaves the log with the first n of the
        // events, for some n.
        ensures any_moment { IfSome (D.facts disk.old).now (λ file.
            LeavesOnly (D.facts disk.old) (D.facts disk.new)
            (SaysFirst (content_of file) events.now)) }
        ensures cause { IfErr result
            (AppendAllCause (D.facts disk.old) (D.facts disk.new) self events.now) }
        ensures later { (D.facts disk.old).faults ≤ (D.facts disk.new).faults }
    {
        let mut log = self;
        let mut at = 0;
        while at < events.len() {
            let rest = events.split_at(at).1;
            let count = rest.len().min(64);
            log = log.append(alloc, disk, rest.split_at(count).0)?;
            at += count;
        }
        Ok(log)
    }
}
