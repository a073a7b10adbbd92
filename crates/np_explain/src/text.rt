//! Whether bytes are the Text of what a machine played, and what shows that they are none.

ghost use Rattle.std.specs.Prelude.{◌≡◌, IfOk, MatchOption, true};
ghost use Rattle.std.specs.List.{AllByRecursion};
ghost use Rattle.np_explain.specs.Lower.{HasEventLine};
ghost use Rattle.np_explain.specs.Answers.{IsFaultOf, IsTextOf};

use crate::fault::{fault_text, shown_fault, shown_lines};
use np_event::{Entry, event_has_line};
use np_json::ConfigFault;
use np_look::Look;
use np_report::{Finding, audit, text};
use np_rules::Plain;
use np_text::NoMemory;
use std::alloc::Global;

/// Whether each entry's event has a line.
fn have_lines(journal: &[Entry]) -> bool
    ensures { result ≡ true → AllByRecursion (λ e. HasEventLine e.event) journal.now }
{
    for entry in journal {
        if !event_has_line(entry.event) {
            return false;
        }
    }
    true
}

/// The message about bytes that are no Text.
fn message(alloc: Global, bytes: &[u8], text: &[u8]) -> Result<Vec<u8>, NoMemory>
    ensures { IfOk result (λ message. IsFaultOf bytes.now message.items) }
{
    match audit(alloc, bytes)? {
        Finding::Yes => Err(NoMemory),
        Finding::No { line } => {
            let rest = shown_lines(alloc, line, text, bytes)?;
            let message = fault_text(alloc, line, rest.as_slice())?;
            Ok(message)
        }
    }
}

/// The message about bytes whose first line is no configuration.
pub(crate) fn message_of_fault(
    alloc: Global,
    bytes: &[u8],
    fault: &ConfigFault,
) -> Result<Vec<u8>, NoMemory>
    ensures { IfOk result (λ message. IsFaultOf bytes.now message.items) }
{
    match audit(alloc, bytes)? {
        Finding::Yes => Err(NoMemory),
        Finding::No { line } => {
            let rest = shown_fault(alloc, fault, bytes)?;
            let message = fault_text(alloc, line, rest.as_slice())?;
            Ok(message)
        }
    }
}

fn is_same_text(text: &[u8], bytes: &[u8]) -> bool
    ensures { result ≡ true → text.now ≡ bytes.now }
{
    text == bytes
}

/// The Text of what the machine has played.
fn text_of(alloc: Global, machine: &Plain) -> Result<Vec<u8>, NoMemory>
    requires { machine.now.earlier ≡ 0 }
    ensures { IfOk result (λ text. IsTextOf machine.now.configuration machine.now.journal
        machine.now.state text.items) }
{
    machine.know_soundness();
    let journal = machine.journal();
    if have_lines(journal) {
        let made = text(alloc, machine.rows(), journal)?;
        return Ok(made);
    }
    Err(NoMemory)
}

/// The message about the bytes if they are not the Text of what the machine has played, and nothing
/// if they are. The time is that of printing the Text, and for a message that of the audit, too.
/// No clause says when it fails: if memory runs out.
pub(crate) fn fault_of(
    alloc: Global,
    bytes: &[u8],
    machine: &Plain,
) -> Result<Option<Vec<u8>>, NoMemory>
    requires { machine.now.earlier ≡ 0 }
    ensures { IfOk result (λ fault. MatchOption fault
        (IsTextOf machine.now.configuration machine.now.journal machine.now.state bytes.now)
        (λ message. IsFaultOf bytes.now message.items)) }
{
    let text = text_of(alloc, machine)?;
    if is_same_text(text.as_slice(), bytes) {
        return Ok(None);
    }
    let message = message(alloc, bytes, text.as_slice())?;
    Ok(Some(message))
}
