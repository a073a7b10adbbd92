//! The script that a source has left.

ghost use Rattle.std.specs.Prelude.{IfOk, IfErr};
ghost use Rattle.np_replay.specs.Input.{Stops};
ghost use Rattle.np_replay.specs.Lower.{IsPlayable};
ghost use Rattle.np_replay.specs.Faults.{TellsScript};
ghost use Rattle.np_replay.specs.Keeping.{HasCome};

use crate::{Ending, input, line_of_script, status_of_script};
use np_io::Source;
use np_report::{Script, ScriptFault, read_script};
use np_text::NoMemory;
use std::alloc::Global;

/// The script that the source has left, or its first fault. The bytes are freed.
pub(crate) fn script_come<S: Source>(
    alloc: Global,
    source: &mut S,
) -> Result<Result<Script, ScriptFault>, Ending>
    ensures read { IfOk result (λ read. HasCome (S.facts source.old) (S.facts source.new) read) }
    ensures playable { IfOk result (λ read. IfOk read IsPlayable) }
    ensures stops { IfErr result (Stops (S.facts source.old) (S.facts source.new)) }
{
    let bytes = input(alloc, source)?;
    Ok(read_script(alloc, bytes.as_slice())?)
}

/// How a command ends whose script has this fault.
pub(crate) fn ending_of_script_fault(alloc: Global, fault: &ScriptFault) -> Ending
    ensures { TellsScript fault.now result }
{
    match line_of_script(alloc, fault) {
        Ok(line) => Ending::Says {
            line,
            status: status_of_script(fault),
        },
        Err(NoMemory) => Ending::NoMemory,
    }
}
