//! Loading a log.

ghost use Rattle.std.specs.Prelude.{◌≡◌, ◌≤◌, Ok, length, IfOk, IfErr, IfSome, OnOk};
ghost use Rattle.std.specs.List.{AllByRecursion};
ghost use Rattle.np_log.specs.Lower.{HasEventLine, LeavesOnly, Only, Stays};
ghost use Rattle.np_log.specs.Cause.{LoadCause, ReadCause};
ghost use Rattle.np_log.specs.Log.{content_of};
ghost use Rattle.np_log.specs.Place.{IsSettled};

use crate::fault::LoadFault;
use crate::log::Log;
use crate::walk::{LogWalk, walk_of};
use np_event::Event;
use np_io::{Disk, read_full};
use std::alloc::Global;

/// A log that was loaded, and what it says.
#[derive(Drop)]
pub struct Loaded {
    /// The log, to append to.
    pub log: Log,
    /// The bytes of its configuration.
    pub config: Vec<u8>,
    /// Its events in order, at most 262,144.
    pub events: Vec<Event>,
}

/// All bytes of the file.
fn read_whole<D: Disk>(alloc: Global, disk: &mut D) -> Result<Vec<u8>, LoadFault>
    ensures all { IfOk result (λ bytes. IfSome (D.facts disk.old).now (λ file.
        bytes.items ≡ file)) }
    ensures stays { Stays (D.facts disk.old) (D.facts disk.new) }
    ensures cause { IfErr result (ReadCause (D.facts disk.old) (D.facts disk.new)) }
    ensures later { (D.facts disk.old).faults ≤ (D.facts disk.new).faults }
{
    let length = disk.length()?;
    let mut bytes = vec![in alloc; 0u8; length as usize]?;
    let count = read_full(disk, 0, &mut bytes)?;
    bytes.truncate(count);
    Ok(bytes)
}

/// Syncs, so that a crash leaves only what reads give, and then reads all bytes of the file.
#[tactic(auto, using(crate::proofs::Walks::only_kept))]
fn sync_and_read<D: Disk>(alloc: Global, disk: &mut D) -> Result<Vec<u8>, LoadFault>
    ensures all { IfOk result (λ bytes. IfSome (D.facts disk.old).now (λ file.
        bytes.items ≡ file)) }
    ensures durable { OnOk result (IfSome (D.facts disk.new).now (λ file.
        Only file (D.facts disk.new).may_leave)) }
    ensures kept { (D.facts disk.new).now ≡ (D.facts disk.old).now }
    ensures any_moment { LeavesOnly (D.facts disk.old) (D.facts disk.new)
        (D.facts disk.old).may_leave }
    ensures cause { IfErr result (ReadCause (D.facts disk.old) (D.facts disk.new)) }
    ensures later { (D.facts disk.old).faults ≤ (D.facts disk.new).faults }
{
    disk.sync()?;
    read_whole(alloc, disk)
}

impl Log {
    /// Loads the log of the file. It changes no byte, but it begins with a sync: what it returns is
    /// on the disk.
    ///
    /// Beside the sync it makes two calls of the disk, one for the length and one that reads the
    /// whole file, and more reads if that one returns fewer bytes. The time grows with the file.
    /// The memory holds the file, and beside it what is returned.
    pub fn load<D: Disk>(alloc: Global, disk: &mut D) -> Result<Loaded, LoadFault>
        ensures content { IfOk result (λ loaded. IfSome (D.facts disk.old).now (λ file.
            content_of file ≡ Ok (record {
              config = loaded.config.items;
              events = loaded.events.items;
            }))) }
        ensures settled { IfOk result (λ loaded. IsSettled (D.facts disk.new) loaded.log) }
        ensures count { IfOk result (λ loaded. loaded.log.events ≡ length loaded.events.items) }
        ensures few { IfOk result (λ loaded. length loaded.events.items ≤ 262144) }
        ensures lines { IfOk result (λ loaded. AllByRecursion HasEventLine loaded.events.items) }
        ensures kept { (D.facts disk.new).now ≡ (D.facts disk.old).now }

        // No image is new, at any moment.
        ensures any_moment { LeavesOnly (D.facts disk.old) (D.facts disk.new)
            (D.facts disk.old).may_leave }
        ensures cause { IfErr result (LoadCause (D.facts disk.old) (D.facts disk.new)) }
        ensures later { (D.facts disk.old).faults ≤ (D.facts disk.new).faults }
    {
        let bytes = sync_and_read(alloc, disk)?;
        let walk = walk_of(alloc, &bytes)?;
        let LogWalk {
            config,
            events,
            gate,
            ..
        } = walk;
        Ok(Loaded {
            log: Log {
                gate,
                events: events.len() as u32,
            },
            config,
            events,
        })
    }
}
