//! What is answered to bytes that were read.

ghost use Rattle.std.specs.Prelude.{◌≡◌, [], ◌+◌, ◌≤◌, ◌<◌, length, IfOk};
ghost use Rattle.np_explain.specs.Answers.{Answered, AreTables, few_line};
ghost use Rattle.np_explain.specs.Explained.{IsPlayed};
ghost use Rattle.np_explain.specs.declared.command.Asked.TheVariants as the;
ghost use Rattle.np_explain.specs.declared.command.Query.TheVariants as query;

use crate::command::{Asked, Query};
use crate::entries::events_of;
use crate::progress::Progress;
use crate::run::{Run, begin, close, play};
use crate::status::status_of;
use crate::text::{fault_of, message_of_fault};
use crate::whole::explanation;
use np_check::{Report, Verdict, check};
use np_event::Event;
use np_listing::listing;
use np_look::Look;
use np_replay::Ending;
use np_report::{read_config, split_line};
use np_rules::Plain;
use np_text::{NoMemory, put_number};
use std::alloc::Global;

/// Plays all events, and says why jobs wait or failed.
fn explain_run<P: Progress>(
    alloc: Global,
    bytes: &[u8],
    run: &mut Run,
    events: &[Event],
    progress: &mut P,
) -> Result<Ending, NoMemory>
    requires played { IsPlayed run.old.machine run.old.tally }
    requires none { run.old.machine.journal ≡ [] }
    requires room { length events.now ≤ 262144 }
    ensures { IfOk result (Answered (the.Text query.Explanation) bytes.now) }
{
    play(run, events, progress)?;
    if let Some(line) = fault_of(alloc, bytes, &run.machine)? {
        return Ok(Ending::Says { line, status: 3 });
    }
    let text = explanation(alloc, run)?;
    let status = status_of(run.machine.rows());
    Ok(Ending::Prints { text, status })
}

/// The message that the Text has fewer entries.
#[tactic(auto, unfolding(crate::specs::Answers::few_line))]
fn line_of_few(alloc: Global, entries: usize) -> Result<Vec<u8>, NoMemory>
    ensures { IfOk result (λ line. line.items ≡ few_line entries) }
{
    let mut line = Vec::from_slice(alloc, b"poolsim-explain: the Text's entries are only ")?;
    put_number(&mut line, entries as u64)?;
    line.push(b'\n')?;
    Ok(line)
}

/// Plays all events, which are fewer than the entries asked for, and says so.
fn list_none<P: Progress>(
    alloc: Global,
    bytes: &[u8],
    run: &mut Run,
    events: &[Event],
    entries: u32,
    progress: &mut P,
) -> Result<Ending, NoMemory>
    requires played { IsPlayed run.old.machine run.old.tally }
    requires none { run.old.machine.journal ≡ [] }
    requires room { length events.now ≤ 262144 }
    requires few { length events.now < entries }
    ensures { IfOk result (Answered (the.Text (query.State entries)) bytes.now) }
{
    play(run, events, progress)?;
    match fault_of(alloc, bytes, &run.machine)? {
        Some(line) => Ok(Ending::Says { line, status: 3 }),
        None => {
            let line = line_of_few(alloc, run.machine.journal().len())?;
            Ok(Ending::Says { line, status: 2 })
        }
    }
}

/// The tables of the machine's state.
fn tables_of(alloc: Global, machine: &Plain) -> Result<Vec<u8>, NoMemory>
    requires { machine.now.earlier ≡ 0 }
    ensures { IfOk result (λ text.
        AreTables machine.now.configuration machine.now.journal text.items) }
{
    machine.know_soundness();
    let text = listing(alloc, machine.rows())?;
    Ok(text)
}

/// Plays some events, lists the tables of the state after them, and plays the others.
fn list_after<P: Progress>(
    alloc: Global,
    bytes: &[u8],
    run: &mut Run,
    before: &[Event],
    later: &[Event],
    progress: &mut P,
) -> Result<Ending, NoMemory>
    requires played { IsPlayed run.old.machine run.old.tally }
    requires none { run.old.machine.journal ≡ [] }
    requires room { length before.now + length later.now ≤ 262144 }
    ensures { IfOk result (Answered (the.Text (query.State (length before.now))) bytes.now) }
{
    play(run, before, progress)?;
    let text = tables_of(alloc, &run.machine)?;
    play(run, later, progress)?;
    match fault_of(alloc, bytes, &run.machine)? {
        Some(line) => Ok(Ending::Says { line, status: 3 }),
        None => Ok(Ending::Prints { text, status: 0 }),
    }
}

/// Plays all events, and lists the tables of the state after so many entries.
fn list_run<P: Progress>(
    alloc: Global,
    bytes: &[u8],
    run: &mut Run,
    events: &[Event],
    entries: u32,
    progress: &mut P,
) -> Result<Ending, NoMemory>
    requires played { IsPlayed run.old.machine run.old.tally }
    requires none { run.old.machine.journal ≡ [] }
    requires room { length events.now ≤ 262144 }
    ensures { IfOk result (Answered (the.Text (query.State entries)) bytes.now) }
{
    match events.split_at_checked(entries as usize) {
        Some((before, later)) => list_after(alloc, bytes, run, before, later, progress),
        None => list_none(alloc, bytes, run, events, entries, progress),
    }
}

/// Plays all events, and answers what is asked.
fn answer_run<P: Progress>(
    alloc: Global,
    asked: Query,
    bytes: &[u8],
    run: &mut Run,
    progress: &mut P,
) -> Result<Ending, NoMemory>
    requires played { IsPlayed run.old.machine run.old.tally }
    requires none { run.old.machine.journal ≡ [] }
    ensures { IfOk result (Answered (the.Text asked) bytes.now) }
{
    let events = events_of(alloc, bytes)?;
    match asked {
        Query::Explanation => explain_run(alloc, bytes, run, events.as_slice(), progress),
        Query::State { entries } => {
            list_run(alloc, bytes, run, events.as_slice(), entries, progress)
        }
    }
}

/// What is answered about a Text, or that the bytes are none.
fn answer_text<P: Progress>(
    alloc: Global,
    asked: Query,
    bytes: &[u8],
    progress: &mut P,
) -> Result<Ending, NoMemory>
    ensures { IfOk result (Answered (the.Text asked) bytes.now) }
{
    match read_config(alloc, split_line(bytes).0)? {
        Err(fault) => {
            let line = message_of_fault(alloc, bytes, &fault)?;
            Ok(Ending::Says { line, status: 3 })
        }
        Ok(config) => {
            let mut run = begin(alloc, config)?;
            let ending = answer_run(alloc, asked, bytes, &mut run, progress);
            close(run);
            ending
        }
    }
}

/// What will surprise in a configuration, or its first fault.
fn checked(alloc: Global, bytes: &[u8]) -> Result<Ending, NoMemory>
    ensures { IfOk result (Answered the.Check bytes.now) }
{
    let Report { text, verdict } = check(alloc, bytes)?;
    match verdict {
        Verdict::Quiet => Ok(Ending::Prints { text, status: 0 }),
        Verdict::Surprising => Ok(Ending::Prints { text, status: 1 }),
        Verdict::Faulty => Ok(Ending::Says {
            line: text,
            status: 3,
        }),
    }
}

/// What is answered to the bytes of an input. The time is that of playing the Text, and if the bytes
/// are none that of the audit, too; or that of np_check. No clause says when it fails: if memory
/// runs out.
pub(crate) fn answer<P: Progress>(
    alloc: Global,
    asked: Asked,
    bytes: &[u8],
    progress: &mut P,
) -> Result<Ending, NoMemory>
    ensures { IfOk result (Answered asked bytes.now) }
{
    match asked {
        Asked::Text(query) => answer_text(alloc, query, bytes, progress),
        Asked::Check => checked(alloc, bytes),
    }
}
