//! A case is played, and what it comes to is compared with what it says.

use crate::case::Case;
use crate::fates;
use crate::meeting::Meeting;
use np_io::{MemDisk, MemSink, MemSource, Source, StdSource};
use np_top::poolsim;
use std::alloc::{AllocError, Global};
use std::io::Read;
use std::sync::Wait;
use std::thread::Threads;
use std::{io, mem};

/// What a run comes to.
#[derive(Drop)]
struct Ran {
    status: u8,
    out: MemSink,
    err: MemSink,
    disk: MemDisk,
}

/// A terminal: its bytes, an end, and then more bytes.
#[derive(Clone, Copy)]
struct Terminal<'a> {
    bytes: &'a [u8],
    later: &'a [u8],
}

impl Read for Terminal<'_> {
    fn read(&mut self, buf: &mut [u8]) -> io::Result<usize> {
        let count = self.bytes.read(buf)?;
        if count == 0 {
            self.bytes = self.later;
        }
        Ok(count)
    }
}

/// The words of a line.
fn words_of(alloc: Global, line: &str) -> Result<Vec<String>, AllocError> {
    let mut words = Vec::new(alloc);
    for word in line.split(' ') {
        if !word.is_empty() {
            words.push(String::from_str(alloc, word)?)?;
        }
    }
    Ok(words)
}

/// An empty sink that fails at this call, and takes at most so many bytes at once.
fn sink(alloc: Global, call: u32, piece: usize) -> Result<MemSink, AllocError> {
    let failing = Vec::from_array(alloc, [call])?;
    Ok(MemSink::in_pieces(alloc, failing, piece.max(1)))
}

/// The source of a case whose input is taken out.
fn source(alloc: Global, case: &mut Case) -> Result<MemSource, AllocError> {
    let failing = Vec::from_array(alloc, [case.read])?;
    let input = case.take_input(alloc);
    Ok(MemSource::in_pieces(input, failing, case.piece.max(1)))
}

/// The file with these bytes, damaged as the case says. Its calls fail from one on.
fn disk(case: &Case, mut file: Vec<u8>) -> MemDisk {
    file.truncate(file.len().saturating_sub(case.cut));
    if let Some((at, value)) = case.poke {
        if let Some(byte) = file.get_mut(at) {
            *byte = value;
        }
    }
    let stop = if case.disk == 0 {
        None
    } else {
        Some(case.disk)
    };
    MemDisk::new(file, stop)
}

/// Before a run of the case over the file with these bytes.
fn before(alloc: Global, case: &Case, file: Vec<u8>) -> Result<Ran, AllocError> {
    let out = sink(alloc, case.write, case.piece)?;
    let err = sink(alloc, case.tell, case.piece)?;
    Ok(Ran {
        status: 0,
        out,
        err,
        disk: disk(case, file),
    })
}

/// Runs the words of a line over this source. Launches pass the gate.
fn run<R: Threads + Wait + Sync + AllocGlobal, S: Source>(
    rt: &R,
    line: &str,
    source: &mut S,
    gate: &Meeting,
    ran: &mut Ran,
) -> Result<(), AllocError> {
    let words = words_of(rt.alloc(), line)?;
    let words = words.as_slice();
    ran.status = poolsim(
        rt,
        rt.alloc(),
        words,
        source,
        &mut ran.out,
        &mut ran.err,
        gate,
        &mut ran.disk,
    );
    Ok(())
}

/// Plays a case over memory, or, where something comes after the end of its input, over a terminal.
fn play<R: Threads + Wait + Sync + AllocGlobal>(
    rt: &R,
    case: &mut Case,
    gate: &Meeting,
    ran: &mut Ran,
) -> Result<(), AllocError> {
    if case.later.is_empty() {
        let mut source = source(rt.alloc(), case)?;
        return run(rt, case.words, &mut source, gate, ran);
    }
    let mut source = StdSource::new(Terminal {
        bytes: case.input.as_slice(),
        later: case.later.as_bytes(),
    });
    run(rt, case.words, &mut source, gate, ran)
}

/// What is written of a text if a call fails: what the calls before it take.
fn written(text: &[u8], call: u32, piece: usize) -> &[u8] {
    if call == 0 {
        return text;
    }
    let taken = piece.saturating_mul(call as usize - 1);
    text.get(..taken).unwrap_or(text)
}

/// Whether a run ended as the case says, whatever it printed to standard output.
fn ends_as_said(case: &Case, ran: &Ran) -> bool {
    let err = written(case.err.as_slice(), case.tell, case.piece);
    u64::from(ran.status) == case.status && ran.err.bytes() == err
}

/// Whether a run printed what the case says.
fn prints_as_said(case: &Case, out: &[u8]) -> bool {
    if case.is_text {
        return fates::are_as_said(out, case.jobs.as_slice())
            && (case.reports.is_empty()
                || fates::reports_are_as_said(out, case.reports.as_slice()));
    }
    out == written(case.out.as_slice(), case.write, case.piece)
}

/// Whether what a run printed is the Text of a run, if it is to be: `audit` accepts it.
fn is_text<R: Threads + Wait + Sync + AllocGlobal>(
    rt: &R,
    case: &Case,
    out: &[u8],
) -> Result<bool, AllocError> {
    if !case.is_text {
        return Ok(true);
    }
    let mut audited = Case::audit(rt.alloc(), out)?;
    let mut ran = before(rt.alloc(), &audited, Vec::new(rt.alloc()))?;
    play(rt, &mut audited, &Meeting::new(false), &mut ran)?;
    Ok(ends_as_said(&audited, &ran) && prints_as_said(&audited, ran.out.bytes()))
}

/// Prints what a run came to in place of what its case says.
fn print_wrong<R: AllocGlobal + Print>(rt: &R, lines: &str, ran: &Ran) -> io::Result<()> {
    let out = std::str::from_utf8(ran.out.bytes()).unwrap_or("not UTF-8");
    let err = std::str::from_utf8(ran.err.bytes()).unwrap_or("not UTF-8");
    let status = ran.status;
    println!(rt; "{lines}\ncame to status {status}, and printed\n{out}and\n{err}")
}

/// Plays a case over the file with these bytes, which are then those that it left, and returns
/// whether it came to what it says.
fn come_as_said<R: Threads + Wait + Sync + AllocGlobal + Print>(
    rt: &R,
    lines: &str,
    case: &mut Case,
    file: &mut Vec<u8>,
) -> io::Result<bool> {
    let gate = Meeting::new(case.meets);
    let bytes = mem::replace(file, Vec::new(rt.alloc()));
    let mut ran = before(rt.alloc(), case, bytes)?;
    play(rt, case, &gate, &mut ran)?;
    let well = case.is_clear
        && gate.is_over()
        && ends_as_said(case, &ran)
        && prints_as_said(case, ran.out.bytes())
        && is_text(rt, case, ran.out.bytes())?;
    if !well {
        print_wrong(rt, lines, &ran)?;
    }
    file.extend_from_slice(ran.disk.bytes())?;
    Ok(well)
}

/// Plays the runs of these lines with this number over one file, which is empty at first, and
/// returns whether each came to what it says. What one came to otherwise is printed.
pub fn plays_as_said<R: Threads + Wait + Sync + AllocGlobal + Print>(
    rt: &R,
    lines: &str,
    number: u64,
) -> io::Result<bool> {
    let number = format!(in rt.alloc(); "{number}")?;
    let lines = lines.replace(rt.alloc(), "@", number.as_str())?;
    let mut file = Vec::new(rt.alloc());
    for run in lines.as_str().split("\nthen\n") {
        let mut case = Case::read(rt.alloc(), run)?;
        if !come_as_said(rt, run, &mut case, &mut file)? {
            return Ok(false);
        }
    }
    Ok(true)
}
