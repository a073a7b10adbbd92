//! A source in memory.

ghost use Rattle.std.specs.Prelude.{◌≡◌, ◌≤◌, ◌<◌, ◌↔◌, [], ◌++◌, Some, length, take, drop, min, Contains, IsErr, IfOk, OnErr};
ghost use Rattle.np_io.specs.Memory.{counted, input_of, after_read, after_failed_read};

use crate::calls::Calls;
use crate::source::{ReadFailed, Source};
use std::marker::Model;

/// Bytes in memory to read from, with a plan of the calls that fail.
///
/// Contracts see it as an `Input`. The calls of `read` are counted from 1, also those that fail.
#[derive(Drop)]
pub struct MemSource {
    bytes: Vec<u8>,
    /// How many of the bytes were read. It only rises.
    place: usize,
    /// The most bytes that one read returns. It never changes.
    piece: usize,
    calls: Calls,
    /// Whether the last read that succeeded returned no byte.
    at_end: bool,
}

impl Model for MemSource {
    ghost use Rattle.std.specs.Prelude.{◌≤◌, ◌<◌, drop, vec_len};
    ghost use Rattle.np_io.specs.Memory.{Input};

    ghost Value = { Input };

    ghost view = { λ s. record {
      left = drop s.place s.bytes.items;
      piece = s.piece;
      failing = s.calls.failing.items;
      calls = s.calls.made;
      faults = s.calls.faults;
      at_end = s.at_end;
    } };

    ghost invariant = { λ s. (s.place ≤ vec_len s.bytes) × (0 < s.piece) };
}

impl MemSource {
    /// A source of `bytes`, which fails at the calls with the numbers in `failing`. A read returns
    /// as many bytes as its buffer has room for.
    pub fn new(bytes: Vec<u8>, failing: Vec<u32>) -> MemSource
        ensures { result ≡ input_of bytes.items failing.items usize.MAX }
    {
        MemSource::in_pieces(bytes, failing, usize::MAX)
    }

    /// The same, but a read returns at most `piece` bytes.
    pub fn in_pieces(bytes: Vec<u8>, failing: Vec<u32>, piece: usize) -> MemSource
        requires { 0 < piece }
        ensures { result ≡ input_of bytes.items failing.items piece }
    {
        MemSource {
            bytes,
            place: 0,
            piece,
            calls: Calls::new(failing),
            at_end: false,
        }
    }
}

impl Source for MemSource {
    ghost facts = { λ s. record {
      left = Some s.left;
      faults = s.faults;
      at_end = s.at_end;
    } };

    /// Returns as many of the bytes as the piece and the buffer allow. The cost grows with them and
    /// with the plan's length.
    fn read(&mut self, buf: &mut [u8]) -> Result<usize, ReadFailed>
        requires { 0 < length buf.old }
        ensures planned { IsErr result ↔ Contains self.old.failing (counted self.old.calls) }
        ensures count { IfOk result (λ n.
            n ≡ min (min (length buf.old) self.old.piece) (length self.old.left)) }
        ensures end { IfOk result (λ n. (n ≡ 0) ↔ (self.old.left ≡ [])) }
        ensures bytes { IfOk result (λ n. buf.new ≡ take n self.old.left ++ drop n buf.old) }
        ensures ok { IfOk result (λ n. self.new ≡ after_read self.old n) }
        ensures err { OnErr result (self.new ≡ after_failed_read self.old) }
        ensures later { self.old.faults ≤ self.new.faults }
    {
        if self.calls.next_fails() {
            self.calls.count_fault();
            return Err(ReadFailed);
        }
        let count = buf.len().min(self.piece).min(self.bytes.len() - self.place);
        let end = self.place + count;
        buf[..count].copy_from_slice(&self.bytes[self.place..end]);
        self.place = end;
        self.at_end = count == 0;
        Ok(count)
    }
}
