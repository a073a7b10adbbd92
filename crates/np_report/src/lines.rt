//! Reading a text line by line.

ghost use Rattle.std.specs.Prelude.{◌≡◌, ◌≤◌, ◌<◌, ◌-◌, ◌^◌, List, ℕ, Result, IfOk, take, drop, length};
ghost use Rattle.np_report.specs.Lower.{lines_of};
ghost use Rattle.np_report.specs.Lines.{lines_read};

use np_lists::Items;
use np_text::{NoMemory, line_at};
use std::alloc::Global;

/// What can be read from one line of a text.
pub trait FromLine: Drop {
    /// Why a line cannot be read.
    type Fault: Drop;

    /// What a line says, or its fault.
    ghost said: { List ℕ → Result Self Self.Fault };

    /// Reads a line, which has no newline.
    fn from_line(line: &[u8]) -> Result<Self, Self::Fault>
    where
        Self: Sized,
        ensures { result ≡ said line.now };
}

/// Why the lines of a text cannot be read.
#[derive(Drop)]
pub enum LinesFault<F> {
    /// The line of this number, from 1, has this fault.
    Line { line: u32, fault: F },
    /// The line of this number, from 1, is one more than there may be.
    TooMany { line: u32 },
}

/// The bytes between two places.
fn between(text: &[u8], start: usize, end: usize) -> &[u8]
    requires { (start ≤ end) × (end ≤ length text.now) }
    ensures { result.now ≡ take (end - start) (drop start text.now) }
{
    let (_, rest) = text.split_at(start);
    rest.split_at(end - start).0
}

/// What each line of the text says, or the first line that is at fault or one more than `most`. The
/// last line may lack its newline. The time grows with the text.
pub fn read_lines<L: FromLine>(
    alloc: Global,
    text: &[u8],
    most: u32,
) -> Result<Result<Items<L>, LinesFault<L::Fault>>, NoMemory>
    requires { most < 2 ^ 32 - 1 }
    ensures { IfOk result (λ read. read ≡ lines_read L.said most 1 (lines_of text.now)) }
{
    let mut read = Vec::new(alloc);
    let mut from = 0;
    let mut line = 1;
    while let Some((start, end)) = line_at(text, from) {
        if most < line {
            return Ok(Err(LinesFault::TooMany { line }));
        }
        match L::from_line(between(text, start, end)) {
            Ok(item) => read.push(item)?,
            Err(fault) => return Ok(Err(LinesFault::Line { line, fault })),
        }
        from = (end + 1).min(text.len());
        line += 1;
    }
    Ok(Ok(Items::new(read)))
}
