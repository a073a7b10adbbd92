//! What is no Text, and where.

ghost use Rattle.std.specs.Prelude.{◌≡◌, ◌++◌, IfOk};
ghost use Rattle.np_explain.specs.Answers.{fault_head};

use crate::entries::numbered_line;
use np_explain_lines::put;
use np_json::ConfigFault;
use np_replay::line_of_config;
use np_text::{Ample, NoMemory, put_number};
use std::alloc::Global;

/// The most bytes of a line that are shown.
const SHOWN: usize = 160;

/// Appends a line's beginning, or that there is none.
fn put_shown(out: &mut Vec<u8>, line: Option<&[u8]>) -> Ample {
    let Some(line) = line else {
        return put(out, b"  nothing\n");
    };
    put(out, b"  ")?;
    let (shown, left) = line.split_at(line.len().min(SHOWN));
    put(out, shown)?;
    if !left.is_empty() {
        put(out, b" ..")?;
    }
    put(out, b"\n")
}

/// What the text would go on with, and what it goes on with.
pub(crate) fn shown_lines(
    alloc: Global,
    number: u32,
    expected: &[u8],
    found: &[u8],
) -> Result<Vec<u8>, NoMemory> {
    let mut out = Vec::new(alloc);
    put(&mut out, b" is not that of a run\nexpected:\n")?;
    put_shown(&mut out, numbered_line(expected, number))?;
    put(&mut out, b"found:\n")?;
    put_shown(&mut out, numbered_line(found, number))?;
    Ok(out)
}

/// What is wrong with the first line.
pub(crate) fn shown_fault(
    alloc: Global,
    fault: &ConfigFault,
    found: &[u8],
) -> Result<Vec<u8>, NoMemory> {
    let mut out = Vec::new(alloc);
    put(&mut out, b" is no configuration\n")?;
    let line = line_of_config(alloc, fault)?;
    put(&mut out, line.as_slice())?;
    put(&mut out, b"found:\n")?;
    put_shown(&mut out, numbered_line(found, 1))?;
    Ok(out)
}

/// The line that says that the input is no Text, and at which line, with more lines after it.
#[tactic(auto, unfolding(crate::specs::Answers::fault_head))]
pub(crate) fn fault_text(alloc: Global, number: u32, rest: &[u8]) -> Result<Vec<u8>, NoMemory>
    ensures { IfOk result (λ text. text.items ≡ fault_head number ++ rest.now) }
{
    let mut out = Vec::from_slice(alloc, b"poolsim-explain: no Text: line ")?;
    put_number(&mut out, u64::from(number))?;
    out.extend_from_slice(rest)?;
    Ok(out)
}
