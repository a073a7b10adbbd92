//! A disk with one file, and what a crash leaves of it.

ghost use Rattle.std.specs.Prelude.{◌≡◌, ◌≤◌, ◌<◌, length, take, IfOk, IfSome, OnOk, OnErr};
ghost use Rattle.std.specs.Option.{option_map};
ghost use Rattle.np_io.specs.Memory.{Rose};
ghost use Rattle.np_io.specs.Disk.{DiskFacts, IsDisk, Only, Reads, Settles, Stays, Tears, put_at};

/// A call of a disk failed. The disk's count of faults rose.
#[derive(Clone, Copy, Debug, PartialEq, Eq)]
pub struct DiskFailed;

/// A disk with one file. A crash may come at any moment, also during a call.
///
/// What reads give and what a crash leaves are two things. A write changes what reads give at once,
/// but until a sync succeeds a crash may leave any bytes where it wrote. What a crash may leave is
/// called an image of the disk. Places and lengths are in bytes.
pub trait Disk {
    /// What is known of the disk: what reads give, if it is known, which images a crash may leave
    /// now, and might have left since an earlier moment, and how many calls failed.
    ghost facts: { Self → DiskFacts };

    /// What always holds of a disk.
    ghost lawful: { (disk : Self) → IsDisk (facts disk) };

    /// Opens the file with this name, and an empty one if there is none. It changes no byte.
    fn open_file(&mut self, name: &str) -> Result<(), DiskFailed>
        ensures stays { Stays (facts self.old) (facts self.new) }
        ensures cause { OnErr result (Rose (facts self.old).faults (facts self.new).faults) }
        ensures later { (facts self.old).faults ≤ (facts self.new).faults };

    /// The file's length.
    fn length(&mut self) -> Result<u64, DiskFailed>
        ensures answer { IfOk result (λ n. IfSome (facts self.old).now (λ file. n ≡ length file)) }
        ensures stays { Stays (facts self.old) (facts self.new) }
        ensures cause { OnErr result (Rose (facts self.old).faults (facts self.new).faults) }
        ensures later { (facts self.old).faults ≤ (facts self.new).faults };

    /// Reads the bytes at this place into the front of `buf`, and answers how many: 0 at the file's
    /// end or past it, and only there. It may read fewer bytes than `buf` has room for at any time.
    fn read_at(&mut self, at: u64, buf: &mut [u8]) -> Result<usize, DiskFailed>
        requires { 0 < length buf.old }
        ensures bound { IfOk result (λ n. n ≤ length buf.new) }
        ensures read { IfOk result (λ n. IfSome (facts self.old).now (λ file.
            Reads file at n (take n buf.new))) }
        ensures stays { Stays (facts self.old) (facts self.new) }
        ensures cause { OnErr result (Rose (facts self.old).faults (facts self.new).faults) }
        ensures later { (facts self.old).faults ≤ (facts self.new).faults };

    /// Writes all of `bytes` at this place, over what is there and past the end. A crash may leave
    /// any bytes in that range until a sync succeeds, also if the write failed.
    fn write_at(&mut self, at: u64, bytes: &[u8]) -> Result<(), DiskFailed>
        requires { IfSome (facts self.old).now (λ file. at ≤ length file) }
        ensures written { OnOk result ((facts self.new).now
            ≡ option_map (put_at at bytes.now) (facts self.old).now) }
        ensures tears { Tears at (length bytes.now) (facts self.old) (facts self.new) }
        ensures cause { OnErr result (Rose (facts self.old).faults (facts self.new).faults) }
        ensures later { (facts self.old).faults ≤ (facts self.new).faults };

    /// Makes durable what was written: a crash then leaves exactly what reads give. If it fails, a
    /// crash may leave what it might have left before.
    fn sync(&mut self) -> Result<(), DiskFailed>
        ensures durable { OnOk result (IfSome (facts self.old).now (λ file.
            Only file (facts self.new).may_leave)) }
        ensures settles { Settles (facts self.old) (facts self.new) }
        ensures cause { OnErr result (Rose (facts self.old).faults (facts self.new).faults) }
        ensures later { (facts self.old).faults ≤ (facts self.new).faults };
}
