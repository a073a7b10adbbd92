//! The lines of events and entries.

use np_event::{Entry, Event, entry_has_line, event_has_line, put_entry, put_event};
use std::alloc::Global;

/// Appends the entry's line, and says whether it did.
fn put_line(out: &mut Vec<u8>, entry: Entry) -> bool {
    entry_has_line(entry) && put_entry(out, entry).is_ok()
}

/// The lines of the entries, each with a newline, or none if one has no line.
fn lines_of(alloc: Global, entries: &[Entry]) -> Option<Vec<u8>> {
    let mut text = Vec::new(alloc);
    for entry in entries {
        if !put_line(&mut text, *entry) || text.push(b'\n').is_err() {
            return None;
        }
    }
    Some(text)
}

/// Whether the entries of both have the same lines.
pub fn have_equal_lines(alloc: Global, one: &[Entry], other: &[Entry]) -> bool {
    match (lines_of(alloc, one), lines_of(alloc, other)) {
        (Some(one), Some(other)) => one.as_slice() == other.as_slice(),
        _ => false,
    }
}

/// Whether this is the line of the entry.
pub fn is_line(alloc: Global, entry: Entry, line: &str) -> bool {
    let mut text = Vec::new(alloc);
    put_line(&mut text, entry) && text.as_slice() == line.as_bytes()
}

/// Whether this is the line of the event.
pub fn is_event_line(alloc: Global, event: Event, line: &str) -> bool {
    let mut text = Vec::new(alloc);
    event_has_line(event)
        && put_event(&mut text, event).is_ok()
        && text.as_slice() == line.as_bytes()
}
