//! Reading to the end, and writing all.

ghost use Rattle.std.specs.Prelude.{◌≡◌, ◌+◌, ◌≤◌, ◌<◌, ℕ, true, List, [], Some, length, take, drop, IfOk, IfSome, OnOk, OnErr, IsErrOf, vec_len};
ghost use Rattle.np_io.specs.Memory.{Takes, Rose, IsWritten, IsCutShort};

use crate::sink::{Sink, WriteFailed};
use crate::source::{ReadFailed, Source};
use std::alloc::{AllocError, Global};

/// Why `read_all` gave up.
#[derive(Clone, Copy, Debug, PartialEq, Eq)]
pub enum ReadAll {
    /// A read failed: the source's count of faults rose.
    ReadFault,
    /// There are more bytes than the limit allows.
    TooLong,
    /// Memory for the bytes ran out. Those that were read are lost.
    NoMemory,
}

impl From<ReadFailed> for ReadAll {
    ghost use Rattle.np_io.specs.declared.whole.ReadAll.TheVariants.{ReadFault};

    ghost from_gives = { λ _ e. e ≡ ReadFault };

    fn from(_: ReadFailed) -> ReadAll {
        ReadAll::ReadFault
    }
}

impl From<AllocError> for ReadAll {
    ghost use Rattle.np_io.specs.declared.whole.ReadAll.TheVariants.{NoMemory};

    ghost from_gives = { λ _ e. e ≡ NoMemory };

    fn from(_: AllocError) -> ReadAll {
        ReadAll::NoMemory
    }
}

/// The most bytes that one read requests.
const PIECE: usize = 65_536;

/// Reads to the end, and answers all that was left.
///
/// Beside the bytes themselves it takes one piece of 64 KiB. The time grows with the bytes, and
/// with the number of reads that bring them.
pub fn read_all<S: Source>(alloc: Global, source: &mut S, limit: usize) -> Result<Vec<u8>, ReadAll>
    ensures all { IfOk result (λ bytes. IfSome (S.facts source.old).left (λ came.
        bytes.items ≡ came)) }
    ensures end { OnOk result (IfSome (S.facts source.old).left (λ _.
        (S.facts source.new).left ≡ Some [])) }
    ensures at_end { OnOk result ((S.facts source.new).at_end ≡ true) }
    ensures fits { IfOk result (λ bytes. vec_len bytes ≤ limit) }

    // One byte past the limit is taken.
    ensures too_long { IsErrOf result ReadAll.TooLong → IfSome (S.facts source.old).left (λ came.
        (limit < length came) × ((S.facts source.new).left ≡ Some (drop (limit + 1) came))) }
    ensures fault { IsErrOf result ReadAll.ReadFault
        → Rose (S.facts source.old).faults (S.facts source.new).faults }

    // Whatever the answer, the bytes were taken from the front.
    ensures taken { (bytes : List ℕ) × (length bytes ≤ limit + 1)
        × Takes (S.facts source.old).left (S.facts source.new).left bytes }
    ensures later { (S.facts source.old).faults ≤ (S.facts source.new).faults }
{
    let mut piece = vec![in alloc; 0u8; PIECE]?;
    let mut bytes = Vec::new(alloc);
    read_pieces(source, limit, &mut piece, &mut bytes)?;
    Ok(bytes)
}

/// Reads to the end piece by piece, and appends each to `bytes`.
fn read_pieces<S: Source>(
    source: &mut S,
    limit: usize,
    piece: &mut [u8],
    bytes: &mut Vec<u8>,
) -> Result<(), ReadAll>
    requires room { 0 < length piece.old }
    requires empty { bytes.old.items ≡ [] }

    ensures all { OnOk result (IfSome (S.facts source.old).left (λ came. bytes.new.items ≡ came)) }
    ensures end { OnOk result (IfSome (S.facts source.old).left (λ _.
        (S.facts source.new).left ≡ Some [])) }
    ensures at_end { OnOk result ((S.facts source.new).at_end ≡ true) }
    ensures fits { OnOk result (vec_len bytes.new ≤ limit) }
    ensures too_long { IsErrOf result ReadAll.TooLong → IfSome (S.facts source.old).left (λ came.
        (limit < length came) × ((S.facts source.new).left ≡ Some (drop (limit + 1) came))) }
    ensures fault { IsErrOf result ReadAll.ReadFault
        → Rose (S.facts source.old).faults (S.facts source.new).faults }
    ensures taken { (bytes : List ℕ) × (length bytes ≤ limit + 1)
        × Takes (S.facts source.old).left (S.facts source.new).left bytes }
    ensures later { (S.facts source.old).faults ≤ (S.facts source.new).faults }
{
    'pieces: loop {
        let room = limit - bytes.len();
        let asked = room.min(piece.len() - 1) + 1;
        let count = source.read(&mut piece[..asked])?;
        if count == 0 {
            return Ok(());
        }
        if room < count {
            return Err(ReadAll::TooLong);
        }
        bytes.extend_from_slice(&piece[..count])?;
    }
}

/// Writes all of `bytes`, and finishes the sink. It takes no memory.
///
/// The time grows with the bytes, and with the number of writes that take them.
pub fn write_all<K: Sink>(sink: &mut K, bytes: &[u8]) -> Result<(), WriteFailed>
    ensures ok { OnOk result (IsWritten (K.facts sink.old) (K.facts sink.new) bytes.now) }

    // The bytes before the fault are written.
    ensures err { OnErr result (IsCutShort (K.facts sink.old) (K.facts sink.new) bytes.now) }
    ensures later { (K.facts sink.old).faults ≤ (K.facts sink.new).faults }
{
    let mut written = 0;
    while written < bytes.len() {
        written += sink.write(&bytes[written..])?;
    }
    sink.finish()
}
