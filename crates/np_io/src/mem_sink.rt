//! A sink in memory.

ghost use Rattle.std.specs.Prelude.{◌≡◌, ◌≤◌, ◌<◌, ◌↔◌, Some, length, take, min, Contains, IsErr, IfOk, OnOk, OnErr};
ghost use Rattle.np_io.specs.Memory.{counted, empty_output, after_write, after_finish, after_failed_call};

use crate::calls::Calls;
use crate::sink::{Sink, WriteFailed};
use std::alloc::Global;
use std::marker::Model;

/// Memory to write to, with a plan of the calls that fail.
///
/// Contracts see it as an `Output`. The calls of `write` and of `finish` are counted together, from
/// 1, also those that fail. It reserves nothing ahead: a write that runs out of memory fails, and
/// is counted as a fault like a planned one.
#[derive(Drop)]
pub struct MemSink {
    bytes: Vec<u8>,
    /// The most that one write takes. It never changes.
    piece: usize,
    calls: Calls,
    /// Whether `finish` succeeded, and nothing was written after it.
    finished: bool,
}

impl Model for MemSink {
    ghost use Rattle.std.specs.Prelude.{◌<◌};
    ghost use Rattle.np_io.specs.Memory.{Output};

    ghost Value = { Output };

    ghost view = { λ s. record {
      written = s.bytes.items;
      piece = s.piece;
      failing = s.calls.failing.items;
      calls = s.calls.made;
      faults = s.calls.faults;
      finished = s.finished;
    } };

    ghost invariant = { λ s. 0 < s.piece };
}

impl MemSink {
    /// An empty sink, which fails at the calls with the numbers in `failing`. A write takes all the
    /// bytes that it gets.
    pub fn new(alloc: Global, failing: Vec<u32>) -> MemSink
        ensures { result ≡ empty_output failing.items usize.MAX }
    {
        MemSink::in_pieces(alloc, failing, usize::MAX)
    }

    /// The same, but a write takes at most `piece` bytes.
    pub fn in_pieces(alloc: Global, failing: Vec<u32>, piece: usize) -> MemSink
        requires { 0 < piece }
        ensures { result ≡ empty_output failing.items piece }
    {
        MemSink {
            bytes: Vec::new(alloc),
            piece,
            calls: Calls::new(failing),
            finished: false,
        }
    }

    /// What was written so far.
    pub fn bytes(&self) -> &[u8]
        ensures { result.now ≡ self.now.written }
    {
        self.bytes.as_slice()
    }
}

impl Sink for MemSink {
    ghost facts = { λ s. record {
      written = Some s.written;
      faults = s.faults;
      finished = s.finished;
    } };

    /// Takes as many of the bytes as the piece allows. The cost grows with them and with the plan's
    /// length. What was written so far is also moved now and then, as it grows.
    fn write(&mut self, bytes: &[u8]) -> Result<usize, WriteFailed>
        requires { 0 < length bytes.now }
        ensures planned { Contains self.old.failing (counted self.old.calls) → IsErr result }
        ensures count { IfOk result (λ n. n ≡ min (length bytes.now) self.old.piece) }
        ensures some { IfOk result (λ n. 0 < n) }
        ensures ok { IfOk result (λ n. self.new ≡ after_write self.old (take n bytes.now)) }
        ensures err { OnErr result (self.new ≡ after_failed_call self.old) }
        ensures later { self.old.faults ≤ self.new.faults }
    {
        let count = bytes.len().min(self.piece);
        if self.calls.next_fails() || self.bytes.extend_from_slice(&bytes[..count]).is_err() {
            self.calls.count_fault();
            return Err(WriteFailed);
        }
        self.finished = false;
        Ok(count)
    }

    fn finish(&mut self) -> Result<(), WriteFailed>
        ensures planned { IsErr result ↔ Contains self.old.failing (counted self.old.calls) }
        ensures ok { OnOk result (self.new ≡ after_finish self.old) }
        ensures err { OnErr result (self.new ≡ after_failed_call self.old) }
        ensures later { self.old.faults ≤ self.new.faults }
    {
        if self.calls.next_fails() {
            self.calls.count_fault();
            return Err(WriteFailed);
        }
        self.finished = true;
        Ok(())
    }
}
