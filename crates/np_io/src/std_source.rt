//! A real stream to read from: the trusted edge of input.
//!
//! No contract says which bytes a real stream returns, so its content is unknown. What is promised
//! is that each failure is counted, and that the caller gets what the reader returned.

ghost use Rattle.std.specs.Prelude.{◌≡◌, ◌≤◌, ◌<◌, length, is_ok, if◌then◌else◌, IfOk, false};
ghost use Rattle.std.specs.Io.KnownBytes.{ReadConsumes};
ghost use Rattle.np_io.specs.Memory.{counted};
ghost use Rattle.np_io.specs.Ends.{ended_by};

use crate::source::{ReadFailed, Source};
use std::io::Read;

/// A real stream to read from, such as a runtime's `stdin()`. Its content is unknown.
///
/// A read that is interrupted by a signal is a failure like any other.
#[derive(Drop)]
pub struct StdSource<R: Read + Drop> {
    reader: R,
    /// How many reads failed. It only rises, and stops at `u64::MAX`.
    faults: u64,
    /// Whether the last read that succeeded returned no byte.
    ended: bool,
}

impl<R: Read + Drop> StdSource<R> {
    ghost use Rattle.np_io.specs.Streams.{reader_of, read_faults, read_ended};

    /// A source that reads from `reader`, and from nothing else.
    pub fn new(reader: R) -> StdSource<R>
        ensures reader { reader_of result ≡ reader }
        ensures faults { read_faults result ≡ 0 }
        ensures at_end { read_ended result ≡ false }
    {
        StdSource {
            reader,
            faults: 0,
            ended: false,
        }
    }
}

impl<R: Read + Drop> Source for StdSource<R> {
    ghost use Rattle.np_io.specs.Streams.{reader_of, read_faults, read_ended, source_facts};

    ghost facts = { source_facts };

    /// Reads from the reader once.
    fn read(&mut self, buf: &mut [u8]) -> Result<usize, ReadFailed>
        requires { 0 < length buf.old }
        ensures bound { IfOk result (λ n. n ≤ length buf.new) }
        ensures passed { ReadConsumes (R.remaining (reader_of self.old))
            (R.remaining (reader_of self.new)) result buf.new }
        ensures faults { read_faults self.new
            ≡ (if is_ok result then read_faults self.old else counted (read_faults self.old)) }
        ensures at_end { read_ended self.new ≡ ended_by (read_ended self.old) result }
        ensures later { read_faults self.old ≤ read_faults self.new }
    {
        match self.reader.read(buf) {
            Ok(count) => {
                self.ended = count == 0;
                Ok(count)
            }
            Err(_) => {
                self.faults = self.faults.saturating_add(1);
                Err(ReadFailed)
            }
        }
    }
}
