//! The command `replay`.

ghost use Rattle.std.specs.Prelude.{IfOk, IfErr};
ghost use Rattle.np_replay.specs.Replay.{EndsReplay, Replays};

use crate::{Ending, input, line_of_script, status_of_script, tell};
use np_io::{Sink, Source};
use np_report::{read_script, text_of_script};
use std::alloc::Global;

/// How a replay of what the source has left ends.
fn replayed<S: Source>(alloc: Global, source: &mut S) -> Result<Ending, Ending>
    ensures ok { IfOk result (EndsReplay (S.facts source.old) (S.facts source.new)) }
    ensures err { IfErr result (EndsReplay (S.facts source.old) (S.facts source.new)) }
{
    let bytes = input(alloc, source)?;
    match read_script(alloc, bytes.as_slice())? {
        Ok(script) => {
            let text = text_of_script(alloc, script)?;
            Ok(Ending::Prints { text, status: 0 })
        }
        Err(fault) => {
            let line = line_of_script(alloc, &fault)?;
            Ok(Ending::Says {
                line,
                status: status_of_script(&fault),
            })
        }
    }
}

/// The same, whichever way it came.
fn ending_of<S: Source>(alloc: Global, source: &mut S) -> Ending
    ensures { EndsReplay (S.facts source.old) (S.facts source.new) result }
{
    match replayed(alloc, source) {
        Ok(ending) => ending,
        Err(ending) => ending,
    }
}

/// Reads a configuration and a script of events from the source, plays them, and prints the whole
/// Text of the run to out, or says on err why not. It returns the status: 0 if the Text was
/// printed, 3 for a fault of the configuration, 4 for one of the script, 5 for a failed source or
/// an input that is too long, 6 for a failed sink, 7 if memory ran out. The input is read to its
/// end first, then come the configuration, the separator and the lines, and last the writing. The
/// time grows with the input, and by `np_report::play` with the events.
pub fn replay<S: Source, K: Sink, E: Sink>(
    alloc: Global,
    source: &mut S,
    out: &mut K,
    err: &mut E,
) -> u8
    ensures { Replays S.facts K.facts E.facts source.old source.new out.old out.new err.old err.new
        result }
{
    let ending = ending_of(alloc, source);
    tell(out, err, &ending)
}
