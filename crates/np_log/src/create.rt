//! Making a log.

ghost use Rattle.std.specs.Prelude.{◌≡◌, ◌≤◌, ◌<◌, ◌^◌, [], length, Ok, IfOk, IfErr, IfSome, OnOk};
ghost use Rattle.std.specs.Option.{option_map};
ghost use Rattle.np_log.specs.Lower.{LeavesOnly};
ghost use Rattle.np_log.specs.Cause.{CreateCause};
ghost use Rattle.np_log.specs.Log.{content_of};
ghost use Rattle.np_log.specs.Place.{IsSettled, SaysNewLog};

use crate::bytes::record_and_gate;
use crate::fault::CreateFault;
use crate::gate::write_first;
use crate::log::Log;
use np_io::Disk;
use std::alloc::Global;

impl Log {
    /// Makes a log of this configuration and no events, in an empty file. At `Ok` it is on the
    /// disk.
    ///
    /// It makes eight calls of the disk: one for the length, a sync, and three writes with a sync
    /// after each. The time and the memory grow with the configuration. After a crash in the
    /// middle, the file has the whole log, or the log in it is damaged at record 0.
    pub fn create<D: Disk>(alloc: Global, disk: &mut D, config: &[u8]) -> Result<Log, CreateFault>
        requires { length config.now < 2 ^ 32 }

        ensures empty { OnOk result (IfSome (D.facts disk.old).now (λ file. file ≡ [])) }
        ensures content { OnOk result (option_map content_of (D.facts disk.new).now
            ≡ option_map (λ _. Ok (record { config = config.now; events = [] })) (D.facts disk.old).now) }
        ensures settled { IfOk result (λ log. IsSettled (D.facts disk.new) log) }
        ensures count { IfOk result (λ log. log.events ≡ 0) }

        // At every moment, and after a failure, a crash leaves what it might have left before, or a
        // log that lacks record 0, or the whole new log.
        ensures any_moment { IfSome (D.facts disk.old).now (λ _.
            LeavesOnly (D.facts disk.old) (D.facts disk.new)
            (SaysNewLog (D.facts disk.old).may_leave config.now)) }
        ensures cause { IfErr result (CreateCause D.facts disk.old disk.new) }
        ensures later { (D.facts disk.old).faults ≤ (D.facts disk.new).faults }
    {
        let record = record_and_gate(alloc, config)?;
        if disk.length()? > 0 {
            return Err(CreateFault::NotEmpty);
        }
        write_first(disk, &record)?;
        Ok(Log {
            gate: config.len() as u64 + 5,
            events: 0,
        })
    }
}
