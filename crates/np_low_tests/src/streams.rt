//! Whole reads and writes, with a call that fails, and the adapters of std's readers and writers.

use np_io::{MemSink, MemSource, ReadAll, StdSink, StdSource, WriteFailed, read_all, write_all};
use std::alloc::{AllocError, Global};
use std::io;
use std::io::{ErrorKind, Read, Write};

const KIB_64: usize = 65_536;

// The most that one call moves, how many bytes there are, the call that fails, counted from 1, and
// how many bytes were moved before it.
const FAULTS: [(usize, usize, u32, usize); 6] = [
    (1, 0, 1, 0),
    (7, 20, 1, 0),
    (7, 20, 2, 7),
    (7, 20, 4, 20),
    (KIB_64, 150_000, 3, 131_072),
    (KIB_64, 150_000, 4, 150_000),
];

// So many bytes, in which neighbours differ.
fn sample(alloc: Global, len: usize) -> Result<Vec<u8>, AllocError> {
    let mut bytes = Vec::with_capacity(alloc, len)?;
    for place in 0..len {
        bytes.push((place % 251) as u8)?;
    }
    Ok(bytes)
}

fn is_read(alloc: Global, source: &mut MemSource, want: &[u8]) -> bool {
    matches!(read_all(alloc, source, usize::MAX), Ok(bytes) if bytes.as_slice() == want)
}

fn is_refused(alloc: Global, source: &mut MemSource, limit: usize, want: ReadAll) -> bool {
    match read_all(alloc, source, limit) {
        Ok(_) => false,
        Err(fault) => fault == want,
    }
}

// A read fails, and the next whole read answers the rest: no byte is lost by the fault itself.
fn a_read_fails(alloc: Global, bytes: Vec<u8>, piece: usize, call: u32, moved: usize) -> bool {
    match (
        bytes.get(moved..).unwrap_or_default().to_vec(alloc),
        [call].to_vec(alloc),
    ) {
        (Ok(rest), Ok(plan)) => {
            let mut source = MemSource::in_pieces(bytes, plan, piece.max(1));
            is_refused(alloc, &mut source, usize::MAX, ReadAll::ReadFault)
                && is_read(alloc, &mut source, &rest)
        }
        (Ok(_), Err(_)) | (Err(_), _) => false,
    }
}

// A write fails, and the bytes before it are out.
fn a_write_fails(alloc: Global, bytes: &[u8], piece: usize, call: u32, moved: usize) -> bool {
    match [call].to_vec(alloc) {
        Ok(plan) => {
            let mut sink = MemSink::in_pieces(alloc, plan, piece.max(1));
            write_all(&mut sink, bytes) == Err(WriteFailed)
                && Some(sink.bytes()) == bytes.get(..moved)
        }
        Err(_) => false,
    }
}

fn a_call_fails(alloc: Global, bytes: Vec<u8>, piece: usize, call: u32, moved: usize) -> bool {
    let is_write = a_write_fails(alloc, &bytes, piece, call, moved);
    let is_read = a_read_fails(alloc, bytes, piece, call, moved);
    is_write && is_read
}

fn each_call_fails(alloc: Global) -> bool {
    every!((piece, len, call, moved) in &FAULTS => match sample(alloc, *len) {
        Ok(bytes) => a_call_fails(alloc, bytes, *piece, *call, *moved),
        Err(_) => false,
    })
}

// 150,000 bytes are written, and then read within a limit that they pass by one.
fn the_limit_is_exact(alloc: Global) -> bool {
    match sample(alloc, 150_000) {
        Ok(bytes) => {
            let mut sink = MemSink::new(alloc, Vec::new(alloc));
            let is_written = write_all(&mut sink, &bytes).is_ok()
                && sink.bytes() == bytes.as_slice();
            let mut source = MemSource::new(bytes, Vec::new(alloc));
            is_written
                && is_refused(alloc, &mut source, 149_999, ReadAll::TooLong)
                && is_read(alloc, &mut source, b"")
        }
        Err(_) => false,
    }
}

#[test]
fn whole_reads_and_writes(rt: HostRuntime) {
    assert!(rt; each_call_fails(rt.alloc()), "each call fails");
    assert!(rt; the_limit_is_exact(rt.alloc()), "the limit");
}

// A stream that fails.
#[derive(Clone, Copy)]
enum Broken {
    Always,
    AtFlush,
}

impl Read for Broken {
    fn read(&mut self, _: &mut [u8]) -> io::Result<usize> {
        Err(ErrorKind::Other.into())
    }
}

impl Write for Broken {
    fn write(&mut self, buf: &[u8]) -> io::Result<usize> {
        match self {
            Broken::Always => Err(ErrorKind::Other.into()),
            Broken::AtFlush => Ok(buf.len()),
        }
    }

    fn flush(&mut self) -> io::Result<()> {
        Err(ErrorKind::Other.into())
    }
}

fn a_reader_is_read(alloc: Global) -> bool {
    read_all(alloc, &mut StdSource::new(b"from a reader".as_slice()), 13).is_ok_and(
        |bytes| bytes.as_slice() == b"from a reader".as_slice(),
    )
}

fn a_broken_reader_fails(alloc: Global) -> bool {
    match read_all(alloc, &mut StdSource::new(Broken::Always), 13) {
        Ok(_) => false,
        Err(fault) => fault == ReadAll::ReadFault,
    }
}

// The array has room for four bytes, and then takes nothing.
fn an_array_is_written() -> bool {
    let mut four = [0u8; 4];
    write_all(&mut StdSink::new(four.as_mut_slice()), b"abcd").is_ok()
        && four == *b"abcd"
        && write_all(&mut StdSink::new(four.as_mut_slice()), b"ijklm") == Err(WriteFailed)
}

fn broken_writers_fail() -> bool {
    write_all(&mut StdSink::new(Broken::Always), b"a") == Err(WriteFailed)
        && write_all(&mut StdSink::new(Broken::AtFlush), b"a") == Err(WriteFailed)
}

#[test]
fn adapters_pass_bytes_and_failures(rt: HostRuntime) {
    assert!(rt; a_reader_is_read(rt.alloc()), "a reader");
    assert!(rt; a_broken_reader_fails(rt.alloc()), "a reader that fails");
    assert!(rt; an_array_is_written(), "a writer");
    assert!(rt; broken_writers_fail(), "writers that fail");
    let _source = StdSource::new(rt.stdin());
    assert!(rt;
        write_all(&mut StdSink::new(rt.stdout()), b"").is_ok(),
        "standard output"
    );
    assert!(rt;
        write_all(&mut StdSink::new(rt.stderr()), b"").is_ok(),
        "standard error"
    );
}
