//! A real stream to write to: the trusted edge of output and of diagnostics.
//!
//! No contract says which bytes a real stream takes, so its content is unknown. What is promised is
//! that each failure is counted, that the writer gets what the caller gave, and that the output is
//! finished only by a flush.

ghost use Rattle.std.specs.Prelude.{◌≡◌, ◌≤◌, ◌<◌, length, is_ok, if◌then◌else◌, IfOk, false};
ghost use Rattle.std.specs.Io.KnownBytes.{WriteAppends, Keeps};
ghost use Rattle.np_io.specs.Memory.{counted};
ghost use Rattle.np_io.specs.Ends.{opened_by, finished_by};

use crate::sink::{Sink, WriteFailed};
use std::io::Write;

/// A real stream to write to, such as a runtime's `stdout()` or `stderr()`. Its content is unknown.
#[derive(Drop)]
pub struct StdSink<W: Write + Drop> {
    writer: W,
    /// How many calls failed. It only rises, and stops at `u64::MAX`.
    faults: u64,
    /// Whether the writer was flushed after the last byte.
    finished: bool,
}

impl<W: Write + Drop> StdSink<W> {
    ghost use Rattle.np_io.specs.Streams.{writer_of, write_faults, write_finished};

    /// A sink that writes to `writer`, and to nothing else.
    pub fn new(writer: W) -> StdSink<W>
        ensures writer { writer_of result ≡ writer }
        ensures faults { write_faults result ≡ 0 }
        ensures finished { write_finished result ≡ false }
    {
        StdSink {
            writer,
            faults: 0,
            finished: false,
        }
    }
}

impl<W: Write + Drop> Sink for StdSink<W> {
    ghost use Rattle.np_io.specs.Streams.{writer_of, write_faults, write_finished, sink_facts};

    ghost facts = { sink_facts };

    /// Writes to the writer once. A write that takes nothing is a failure too.
    fn write(&mut self, bytes: &[u8]) -> Result<usize, WriteFailed>
        requires { 0 < length bytes.now }
        ensures some { IfOk result (λ n. 0 < n) }
        ensures bound { IfOk result (λ n. n ≤ length bytes.now) }
        ensures passed { WriteAppends (W.contents (writer_of self.old))
            (W.contents (writer_of self.new)) result bytes.now }
        ensures faults { write_faults self.new
            ≡ (if is_ok result then write_faults self.old else counted (write_faults self.old)) }
        ensures finished { write_finished self.new ≡ opened_by (write_finished self.old) result }
        ensures later { write_faults self.old ≤ write_faults self.new }
    {
        match self.writer.write(bytes) {
            Ok(0) | Err(_) => {
                self.faults = self.faults.saturating_add(1);
                Err(WriteFailed)
            }
            Ok(count) => {
                self.finished = false;
                Ok(count)
            }
        }
    }

    /// Flushes the writer.
    fn finish(&mut self) -> Result<(), WriteFailed>
        ensures passed { Keeps (W.contents (writer_of self.old))
            (W.contents (writer_of self.new)) }
        ensures faults { write_faults self.new
            ≡ (if is_ok result then write_faults self.old else counted (write_faults self.old)) }
        ensures finished { write_finished self.new ≡ finished_by (write_finished self.old) result }
        ensures later { write_faults self.old ≤ write_faults self.new }
    {
        match self.writer.flush() {
            Ok(()) => {
                self.finished = true;
                Ok(())
            }
            Err(_) => {
                self.faults = self.faults.saturating_add(1);
                Err(WriteFailed)
            }
        }
    }
}
