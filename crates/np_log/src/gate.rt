//! A record is written behind a closed gate, and the gate is opened by a write of its own.

ghost use Rattle.std.specs.Prelude.{◌≡◌, ◌≤◌, ◌+◌, [], ◌∷◌, length, IfSome, OnOk, OnErr};
ghost use Rattle.std.specs.Option.{option_map};
ghost use Rattle.np_log.specs.Lower.{LeavesOnly, Only, Rose};
ghost use Rattle.np_log.specs.Writing.{TornBehindOrAt, TornFirst, behind_open_gate};

use np_io::{Disk, DiskFailed, write_through};

/// Writes these bytes behind the gate at this place, and then opens the gate. It makes four calls
/// of the disk: two writes, each with a sync after it.
///
/// The bytes are on the disk before the gate is touched. So no crash leaves an open gate with torn
/// bytes behind it.
pub(crate) fn write_behind<D: Disk>(disk: &mut D, gate: u64, bytes: &[u8]) -> Result<(), DiskFailed>
    requires within { IfSome (D.facts disk.old).now (λ file. gate + 1 ≤ length file) }
    requires fits { gate + 1 ≤ u64.MAX }
    ensures written { OnOk result ((D.facts disk.new).now
        ≡ option_map (behind_open_gate gate bytes.now) (D.facts disk.old).now) }
    ensures durable { OnOk result (IfSome (D.facts disk.new).now (λ file.
        Only file (D.facts disk.new).may_leave)) }
    ensures any_moment { LeavesOnly (D.facts disk.old) (D.facts disk.new)
        (TornBehindOrAt (D.facts disk.old) gate bytes.now) }
    ensures cause { OnErr result (Rose (D.facts disk.old).faults (D.facts disk.new).faults) }
    ensures later { (D.facts disk.old).faults ≤ (D.facts disk.new).faults }
{
    write_through(disk, gate + 1, bytes)?;
    write_through(disk, gate, &[1])
}

/// Writes these bytes behind the gate of record 0 in an empty file, and then opens the gate. It
/// makes seven calls of the disk: a sync, and three writes with a sync after each. The first of
/// them writes the gate, closed.
pub(crate) fn write_first<D: Disk>(disk: &mut D, bytes: &[u8]) -> Result<(), DiskFailed>
    requires { IfSome (D.facts disk.old).now (λ file. file ≡ []) }
    ensures written { OnOk result ((D.facts disk.new).now
        ≡ option_map (λ _. behind_open_gate 0 bytes.now (0 ∷ [])) (D.facts disk.old).now) }
    ensures durable { OnOk result (IfSome (D.facts disk.new).now (λ file.
        Only file (D.facts disk.new).may_leave)) }
    ensures any_moment { LeavesOnly (D.facts disk.old) (D.facts disk.new)
        (TornFirst (D.facts disk.old) bytes.now) }
    ensures cause { OnErr result (Rose (D.facts disk.old).faults (D.facts disk.new).faults) }
    ensures later { (D.facts disk.old).faults ≤ (D.facts disk.new).faults }
{
    disk.sync()?;
    write_through(disk, 0, &[0])?;
    write_behind(disk, 0, bytes)
}
