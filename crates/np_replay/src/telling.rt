//! Writing how a command ended.

ghost use Rattle.std.specs.Prelude.{◌≡◌};
ghost use Rattle.np_replay.specs.Told.{IsSaid, IsShown, IsShownFull, IsTold, usage_line, write_line};

use crate::ending::Ending;
use np_io::{Sink, write_all};

/// The line that says which words are a command.
fn usage() -> &'static [u8]
    ensures { result.now ≡ usage_line }
{
    b"poolsim: usage: poolsim replay | run [hosts | planned] | audit | drill N | keep FILE | resume FILE\n"
}

/// Writes a line to err, and returns the status, or 6 if err failed.
fn say<E: Sink>(err: &mut E, line: &[u8], status: u8) -> u8
    ensures { IsSaid (E.facts err.old) (E.facts err.new) line.now status result }
{
    match write_all(err, line) {
        Ok(()) => status,
        Err(_) => 6,
    }
}

/// Writes to err that out failed, and returns the status 6.
fn say_write_fault<E: Sink>(err: &mut E) -> u8
    ensures { IsSaid (E.facts err.old) (E.facts err.new) write_line 6 result }
{
    say(err, b"poolsim: write fault\n", 6)
}

/// Writes a text to out, and returns the status, or 6 if out failed, which is then written to err.
fn show<K: Sink, E: Sink>(out: &mut K, err: &mut E, text: &[u8], status: u8) -> u8
    ensures { IsShown K.facts E.facts out.old out.new err.old err.new text.now status result }
{
    match write_all(out, text) {
        Ok(()) => status,
        Err(_) => say_write_fault(err),
    }
}

/// Writes a text to out, and then to err that the journal was full, with the status 9. If out
/// failed, err says so, with the status 6.
fn show_full<K: Sink, E: Sink>(out: &mut K, err: &mut E, text: &[u8]) -> u8
    ensures { IsShownFull K.facts E.facts out.old out.new err.old err.new text.now result }
{
    match write_all(out, text) {
        Ok(()) => say(err, b"poolsim: journal is full\n", 9),
        Err(_) => say_write_fault(err),
    }
}

/// Writes how a command ended, and returns the program's status: a text to out, or a line to err,
/// or both if the journal was full. If out fails, a line on err says so. The status is 6 if out or
/// err failed. It takes no memory, and its time grows with the length of what is written.
pub fn tell<K: Sink, E: Sink>(out: &mut K, err: &mut E, ending: &Ending) -> u8
    ensures { IsTold K.facts E.facts out.old out.new err.old err.new ending.now result }
{
    match ending {
        Ending::Prints { text, status } => show(out, err, text.as_slice(), *status),
        Ending::Full { text } => show_full(out, err, text.as_slice()),
        Ending::Says { line, status } => say(err, line.as_slice(), *status),
        Ending::NoCommand => say(err, usage(), 2),
        Ending::ReadFault => say(err, b"poolsim: read fault\n", 5),
        Ending::TooLong => say(err, b"poolsim: input is longer than 67108864 bytes\n", 5),
        Ending::NoMemory => say(err, b"poolsim: out of memory\n", 7),
    }
}
