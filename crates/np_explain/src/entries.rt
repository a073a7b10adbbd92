//! The lines of a text, and the events of its entries.

ghost use Rattle.std.specs.Prelude.{◌≤◌, length, IfOk};

use np_event::{Event, read_entry};
use np_report::split_line;
use np_text::{JOURNAL_ENTRIES, NoMemory};
use std::alloc::Global;

/// The line with this number, from 1, or nothing if there is none.
pub(crate) fn numbered_line(text: &[u8], number: u32) -> Option<&[u8]> {
    let mut rest = text;
    for _ in 1..number {
        rest = split_line(rest).1;
    }
    if rest.is_empty() {
        return None;
    }
    Some(split_line(rest).0)
}

/// What comes after the first two lines: the entries of a Text, and what follows them.
fn entries_of(text: &[u8]) -> &[u8] {
    split_line(split_line(text).1).1
}

/// The events of the Text's entries: those of the lines after the first two, up to the first that is
/// no entry. The time and the memory grow with the text.
pub(crate) fn events_of(alloc: Global, text: &[u8]) -> Result<Vec<Event>, NoMemory>
    ensures { IfOk result (λ events. length events.items ≤ 262144) }
{
    let mut events = Vec::new(alloc);
    let mut rest = entries_of(text);
    for at in 0..JOURNAL_ENTRIES {
        let _at = at;
        let (line, later) = split_line(rest);
        let Some(entry) = read_entry(line) else {
            return Ok(events);
        };
        events.push(entry.event)?;
        rest = later;
    }
    Ok(events)
}
