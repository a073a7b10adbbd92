//! The whole input.

ghost use Rattle.std.specs.Prelude.{IfOk, IfErr};
ghost use Rattle.np_replay.specs.Input.{IsInput, Stops};

use crate::ending::Ending;
use np_io::{Source, read_all};
use np_text::INPUT_BYTES;
use std::alloc::Global;

/// All that the source has left, or why there is no input. The time grows with the input.
pub fn input<S: Source>(alloc: Global, source: &mut S) -> Result<Vec<u8>, Ending>
    ensures came { IfOk result (λ bytes.
        IsInput (S.facts source.old) (S.facts source.new) bytes.items) }
    ensures stops { IfErr result (Stops (S.facts source.old) (S.facts source.new)) }
{
    Ok(read_all(alloc, source, INPUT_BYTES)?)
}
