//! A disk in memory.

ghost use Rattle.std.specs.Prelude.{◌≡◌, ◌≤◌, ◌<◌, ◌↔◌, Some, length, take, IsErr, IfOk, IfSome, OnOk, OnErr};
ghost use Rattle.std.specs.Option.{option_map};
ghost use Rattle.np_io.specs.DiskCalls.{now_at};
ghost use Rattle.np_io.specs.Disk.{Only, Reads, Settles, Stays, Tears, put_at};
ghost use Rattle.np_io.specs.MemDisk.{image_by, mem_facts, mem_lawful, plan_of};
ghost use Rattle.np_io.specs.Streams.{Stops, after_call};

use crate::disk::{Disk, DiskFailed};
use crate::disk_calls::{Call, image_after, keep, keep_write, put_at};
use crate::plan::Plan;
use std::alloc::{AllocError, Global};

/// A file in memory, which fails from a planned call on, and makes images that a crash may leave.
///
/// All its calls are counted together, from 1, also those that fail. It keeps a record of each
/// write and each sync, with all the bytes before it, so its memory grows with their number times
/// the file's length. A call that finds no memory for its record, or for the file, fails, and is
/// counted as a fault like a planned one.
#[derive(Drop)]
pub struct MemDisk {
    /// What reads give.
    bytes: Vec<u8>,
    /// The writes and syncs so far, but those that found no memory for their record, and the syncs
    /// that failed.
    calls: Vec<Call>,
    plan: Plan,
}

impl MemDisk {
    /// A file with these bytes, all of them on the disk. The call with the number `stop_at`,
    /// counted from 1, and each after it fail. With `None` none is planned to fail.
    pub fn new(bytes: Vec<u8>, stop_at: Option<u32>) -> MemDisk
        ensures bytes { (mem_facts result).now ≡ Some bytes.items }
        ensures durable { Only bytes.items (mem_facts result).may_leave }
        ensures plan { plan_of result ≡ record { stop_at = stop_at; made = 0; faults = 0 } }
    {
        MemDisk {
            calls: Vec::new(*bytes.allocator()),
            bytes,
            plan: Plan::new(stop_at),
        }
    }

    /// What reads give.
    pub fn bytes(&self) -> &[u8]
        ensures { Some result.now ≡ (mem_facts self.now).now }
    {
        &self.bytes
    }

    /// An image of the disk: one that a crash now may leave. The same pick makes the same image,
    /// and different picks mostly different ones, if not all is synced.
    ///
    /// Pick 0 leaves nothing of the writes since the last sync, and pick 1 leaves all of them, also
    /// those that failed. Any other pick leaves some whole, loses some, and tears the rest: it
    /// leaves a prefix of the write, with arbitrary bytes before a cut or behind it. The time grows
    /// with the number of calls times the file's length.
    pub fn image(&self, alloc: Global, pick: u64) -> Result<Vec<u8>, AllocError>
        ensures image { IfOk result (λ image. (mem_facts self.now).may_leave image.items) }
        ensures share { pick ≤ 1 → IfOk result (λ image. image.items ≡ image_by pick self.now) }
    {
        let image = image_after(alloc, self.start(), &self.calls, pick)?;
        Ok(image)
    }

    /// The file before the first call.
    fn start(&self) -> &[u8]
        ensures { result.now ≡ now_at self.now.calls.items self.now.bytes.items 0 }
    {
        match self.calls.first() {
            None => &self.bytes,
            Some(call) => &call.before,
        }
    }
}

impl Disk for MemDisk {
    ghost facts = { mem_facts };

    ghost lawful = { mem_lawful };

    /// Any name opens the file. Constant time.
    fn open_file(&mut self, name: &str) -> Result<(), DiskFailed>
        ensures planned { IsErr result ↔ Stops (plan_of self.old) }
        ensures plan { plan_of self.new ≡ after_call (plan_of self.old) result }
        ensures stays { Stays (mem_facts self.old) (mem_facts self.new) }
        ensures later { (mem_facts self.old).faults ≤ (mem_facts self.new).faults }
    {
        if self.plan.next_stops() {
            return Err(self.plan.fault());
        }
        Ok(())
    }

    /// Constant time.
    fn length(&mut self) -> Result<u64, DiskFailed>
        ensures planned { IsErr result ↔ Stops (plan_of self.old) }
        ensures plan { plan_of self.new ≡ after_call (plan_of self.old) result }
        ensures answer { IfOk result (λ n. IfSome (mem_facts self.old).now (λ file.
            n ≡ length file)) }
        ensures stays { Stays (mem_facts self.old) (mem_facts self.new) }
        ensures later { (mem_facts self.old).faults ≤ (mem_facts self.new).faults }
    {
        if self.plan.next_stops() {
            return Err(self.plan.fault());
        }
        Ok(self.bytes.len() as u64)
    }

    /// Reads as many bytes as the file and the buffer allow. The time grows with them.
    fn read_at(&mut self, at: u64, buf: &mut [u8]) -> Result<usize, DiskFailed>
        requires { 0 < length buf.old }
        ensures planned { IsErr result ↔ Stops (plan_of self.old) }
        ensures plan { plan_of self.new ≡ after_call (plan_of self.old) result }
        ensures bound { IfOk result (λ n. n ≤ length buf.new) }
        ensures read { IfOk result (λ n. IfSome (mem_facts self.old).now (λ file.
            Reads file at n (take n buf.new))) }
        ensures stays { Stays (mem_facts self.old) (mem_facts self.new) }
        ensures later { (mem_facts self.old).faults ≤ (mem_facts self.new).faults }
    {
        if self.plan.next_stops() {
            return Err(self.plan.fault());
        }
        let start = (at as usize).min(self.bytes.len());
        let rest = self.bytes.split_at(start).1;
        let count = rest.len().min(buf.len());
        buf[..count].copy_from_slice(rest.split_at(count).0);
        Ok(count)
    }

    /// A write that fails changes nothing that reads give, but a crash may leave it torn. The time
    /// and the memory grow with the file.
    fn write_at(&mut self, at: u64, bytes: &[u8]) -> Result<(), DiskFailed>
        requires { IfSome (mem_facts self.old).now (λ file. at ≤ length file) }
        ensures planned { Stops (plan_of self.old) → IsErr result }
        ensures plan { plan_of self.new ≡ after_call (plan_of self.old) result }
        ensures written { OnOk result ((mem_facts self.new).now
            ≡ option_map (put_at at bytes.now) (mem_facts self.old).now) }
        ensures kept { OnErr result ((mem_facts self.new).now ≡ (mem_facts self.old).now) }
        ensures tears { Tears at (length bytes.now) (mem_facts self.old) (mem_facts self.new) }
        ensures later { (mem_facts self.old).faults ≤ (mem_facts self.new).faults }
    {
        let stops = self.plan.next_stops();
        let Ok(()) = keep_write(&mut self.calls, &self.bytes, at, bytes) else {
            return Err(self.plan.fault());
        };
        if stops {
            return Err(self.plan.fault());
        }
        let alloc = *self.bytes.allocator();
        let Ok(next) = put_at(alloc, &self.bytes, at as usize, bytes) else {
            return Err(self.plan.fault());
        };
        self.bytes = next;
        Ok(())
    }

    /// The time and the memory grow with the file.
    fn sync(&mut self) -> Result<(), DiskFailed>
        ensures planned { Stops (plan_of self.old) → IsErr result }
        ensures plan { plan_of self.new ≡ after_call (plan_of self.old) result }
        ensures durable { OnOk result (IfSome (mem_facts self.old).now (λ file.
            Only file (mem_facts self.new).may_leave)) }
        ensures settles { Settles (mem_facts self.old) (mem_facts self.new) }
        ensures later { (mem_facts self.old).faults ≤ (mem_facts self.new).faults }
    {
        if self.plan.next_stops() {
            return Err(self.plan.fault());
        }
        let Ok(()) = keep(&mut self.calls, &self.bytes, None) else {
            return Err(self.plan.fault());
        };
        Ok(())
    }
}
