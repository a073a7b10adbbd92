//! The top call.

ghost use Rattle.std.specs.Prelude.{IfErr, IfOk};
ghost use Rattle.np_explain.specs.Answers.{Ends, Explains};

use crate::answer::answer;
use crate::command::Asked;
use crate::progress::Progress;
use np_io::{Sink, Source};
use np_replay::{Ending, input, tell};
use std::alloc::Global;

/// How it ends with what the source has left.
fn ended<S: Source, P: Progress>(
    alloc: Global,
    asked: Asked,
    source: &mut S,
    progress: &mut P,
) -> Result<Ending, Ending>
    ensures ok { IfOk result (Ends asked (S.facts source.old) (S.facts source.new)) }
    ensures err { IfErr result (Ends asked (S.facts source.old) (S.facts source.new)) }
{
    let bytes = input(alloc, source)?;
    let ending = answer(alloc, asked, bytes.as_slice(), progress)?;
    Ok(ending)
}

/// The same, whichever way it came.
fn ending_of<S: Source, P: Progress>(
    alloc: Global,
    asked: Asked,
    source: &mut S,
    progress: &mut P,
) -> Ending
    ensures { Ends asked (S.facts source.old) (S.facts source.new) result }
{
    match ended(alloc, asked, source, progress) {
        Ok(ending) => ending,
        Err(ending) => ending,
    }
}

/// Reads a Text from the source, and prints why its jobs wait and what its run took, or the tables of
/// the state after some of its entries; or reads a configuration, and prints what will surprise in
/// it. It returns the status: of an explanation 1 if a job is not over or failed, otherwise 0; of
/// tables 0; of a configuration 1 if something will surprise, otherwise 0; 3 for an input that is no
/// Text or no configuration, with its fault on err; 2 for a Text that has fewer entries; 5 for a
/// failed source or an input that is too long, 6 for a failed sink, 7 if memory ran out.
///
/// The source is read to its end first. The time is that of `answer`, which tells `progress` of each
/// entry that it played.
pub fn explain<S: Source, K: Sink, E: Sink, P: Progress>(
    alloc: Global,
    asked: Asked,
    source: &mut S,
    out: &mut K,
    err: &mut E,
    progress: &mut P,
) -> u8
    ensures { Explains S.facts K.facts E.facts asked source.old source.new out.old out.new
        err.old err.new result }
{
    let ending = ending_of(alloc, asked, source, progress);
    progress.done();
    tell(out, err, &ending)
}
