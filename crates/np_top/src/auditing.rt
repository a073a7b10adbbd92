//! The command `audit`.

ghost use Rattle.std.specs.Prelude.{◌≡◌, IfOk, IfErr};
ghost use Rattle.np_top.specs.Audit.{Audits, EndsAudit, no_line, yes_line};

use np_io::{Sink, Source};
use np_replay::{Ending, input, tell};
use np_report::Finding;
use np_text::{NoMemory, put_number};
use std::alloc::Global;

/// What is printed for the Text of a run.
fn text_of_yes(alloc: Global) -> Result<Vec<u8>, NoMemory>
    ensures { IfOk result (λ text. text.items ≡ yes_line) }
{
    Ok(Vec::from_slice(alloc, b"yes\n")?)
}

/// The line for an input that is the Text of no run.
#[tactic(auto, unfolding(crate::specs::Audit::no_line))]
fn line_of_no(alloc: Global, number: u32) -> Result<Vec<u8>, NoMemory>
    ensures { IfOk result (λ line. line.items ≡ no_line number) }
{
    let mut line = Vec::from_slice(alloc, b"poolsim: audit: line ")?;
    put_number(&mut line, u64::from(number))?;
    line.push(b'\n')?;
    Ok(line)
}

/// How an audit of what the source has left ends.
fn audit_input<S: Source>(alloc: Global, source: &mut S) -> Result<Ending, Ending>
    ensures ok { IfOk result (EndsAudit (S.facts source.old) (S.facts source.new)) }
    ensures err { IfErr result (EndsAudit (S.facts source.old) (S.facts source.new)) }
{
    let bytes = input(alloc, source)?;
    match np_report::audit(alloc, bytes.as_slice())? {
        Finding::Yes => {
            let text = text_of_yes(alloc)?;
            Ok(Ending::Prints { text, status: 0 })
        }
        Finding::No { line: number } => {
            let line = line_of_no(alloc, number)?;
            Ok(Ending::Says { line, status: 8 })
        }
    }
}

/// The same, whichever way it came.
fn ending_of<S: Source>(alloc: Global, source: &mut S) -> Ending
    ensures { EndsAudit (S.facts source.old) (S.facts source.new) result }
{
    match audit_input(alloc, source) {
        Ok(ending) => ending,
        Err(ending) => ending,
    }
}

/// Reads the source to its end, and prints `yes` to out if the bytes are the Text of a run, or
/// names on err the first line that shows that they are not. It returns the status: 0 for a Text, 8
/// for other bytes, 5 for a failed source or an input that is too long, 6 for a failed sink, 7 if
/// memory ran out. The time is that of reading, and by `np_report::audit` that of playing the
/// events.
pub fn audit<S: Source, K: Sink, E: Sink>(
    alloc: Global,
    source: &mut S,
    out: &mut K,
    err: &mut E,
) -> u8
    ensures { Audits S.facts K.facts E.facts source.old source.new out.old out.new err.old err.new
        result }
{
    let ending = ending_of(alloc, source);
    tell(out, err, &ending)
}
