//! The events of the entries that a text begins with.

ghost use Rattle.std.specs.Prelude.{◌≡◌, IfOk};
ghost use Rattle.np_report.specs.Summary.{event_told, first_line, later_lines, leading_events};

use np_event::{Event, read_entry};
use np_lists::Items;
use np_text::{JOURNAL_ENTRIES, NoMemory, line_at};
use std::alloc::Global;

/// The first line, without its newline, and what comes after it. The time grows with the line.
pub fn split_line(text: &[u8]) -> (&[u8], &[u8])
    ensures line { result.0.now ≡ first_line text.now }
    ensures later { result.1.now ≡ later_lines text.now }
{
    let Some((_, end)) = line_at(text, 0) else {
        return (text, text);
    };
    let (line, rest) = text.split_at(end);
    (line, rest.split_at(rest.len().min(1)).1)
}

fn event_told(line: &[u8]) -> Option<Event>
    ensures { result ≡ event_told line.now }
{
    read_entry(line).map(|entry| entry.event)
}

/// The events of the entries that the text begins with, at most as many as a journal holds. The
/// time and the memory grow with the text.
pub(crate) fn leading_events(alloc: Global, text: &[u8]) -> Result<Items<Event>, NoMemory>
    ensures { IfOk result (λ events. events ≡ leading_events text.now) }
{
    let mut events = Vec::new(alloc);
    let mut rest = text;
    while !rest.is_empty() {
        if events.len() == JOURNAL_ENTRIES {
            return Ok(Items::new(events));
        }
        let (line, later) = split_line(rest);
        let Some(event) = event_told(line) else {
            return Ok(Items::new(events));
        };
        events.push(event)?;
        rest = later;
    }
    Ok(Items::new(events))
}
