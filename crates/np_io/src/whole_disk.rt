//! Reading until a buffer is full, and writing through to the disk.

ghost use Rattle.std.specs.Prelude.{◌≡◌, ◌≤◌, ◌^◌, length, take, drop, IfOk, IfSome, OnOk, OnErr};
ghost use Rattle.std.specs.Option.{option_map};
ghost use Rattle.np_io.specs.Memory.{Rose};
ghost use Rattle.np_io.specs.Disk.{LeavesOnly, Only, Stays, AfterTornWrite, put_at};

use crate::disk::{Disk, DiskFailed};

/// Reads the bytes at this place until `buf` is full or the file ends, and answers how many.
///
/// After a failure the front of `buf` may have some of them. The time grows with the bytes, and
/// with the number of reads that bring them.
pub fn read_full<D: Disk>(disk: &mut D, at: u64, buf: &mut [u8]) -> Result<usize, DiskFailed>
    requires { at ≤ 2 ^ 62 }
    ensures bound { IfOk result (λ n. n ≤ length buf.new) }
    ensures read { IfOk result (λ n. IfSome (D.facts disk.old).now (λ file.
        take n buf.new ≡ take (length buf.new) (drop at file))) }
    ensures stays { Stays (D.facts disk.old) (D.facts disk.new) }
    ensures cause { OnErr result (Rose (D.facts disk.old).faults (D.facts disk.new).faults) }
    ensures later { (D.facts disk.old).faults ≤ (D.facts disk.new).faults }
{
    let mut done = 0;
    while done < buf.len() {
        let count = disk.read_at(at + done as u64, &mut buf[done..])?;
        if count == 0 {
            return Ok(done);
        }
        done += count;
    }
    Ok(done)
}

/// Writes all of `bytes` at this place, and syncs once: a crash after it leaves what reads give.
pub fn write_through<D: Disk>(disk: &mut D, at: u64, bytes: &[u8]) -> Result<(), DiskFailed>
    requires { IfSome (D.facts disk.old).now (λ file. at ≤ length file) }
    ensures written { OnOk result ((D.facts disk.new).now
        ≡ option_map (put_at at bytes.now) (D.facts disk.old).now) }
    ensures durable { OnOk result (IfSome (D.facts disk.new).now (λ file.
        Only file (D.facts disk.new).may_leave)) }

    // At every moment of the call, each image is one from before, torn in the range at most.
    ensures any_moment { LeavesOnly (D.facts disk.old) (D.facts disk.new)
        (AfterTornWrite (D.facts disk.old).may_leave at (length bytes.now)) }
    ensures cause { OnErr result (Rose (D.facts disk.old).faults (D.facts disk.new).faults) }
    ensures later { (D.facts disk.old).faults ≤ (D.facts disk.new).faults }
{
    disk.write_at(at, bytes)?;
    disk.sync()
}
