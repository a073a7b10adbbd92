//! A log's bytes are read in memory.

ghost use Rattle.std.specs.Prelude.{◌≡◌, ◌≤◌, ◌<◌, ◌-◌, ◌^◌, [], ◌∷◌, Ok, length, take, drop, IfOk, IfErr, IfNone, IfSome, OnOk};
ghost use Rattle.std.specs.Option.{option_map};
ghost use Rattle.np_log.specs.Lower.{lines_of};
ghost use Rattle.np_log.specs.Batch.{batch_of, ends_in_newline, events_of};
ghost use Rattle.np_log.specs.Log.{after_record, first_bytes, first_record, go_on, is_open, record_in, walk_of};
ghost use Rattle.np_log.specs.Walking.{Fails, IsNear, Walks, walk_view};

use crate::fault::LoadFault;
use np_event::{Event, read_event};
use np_text::{JOURNAL_ENTRIES, line_at};
use std::alloc::{AllocError, Global};

/// A place at a gate, and what the records before it say.
#[derive(Drop)]
pub(crate) struct LogWalk {
    pub(crate) config: Vec<u8>,
    pub(crate) events: Vec<Event>,
    /// How many bytes are before the gate.
    pub(crate) gate: u64,
    /// How many records are before the gate.
    pub(crate) number: u32,
}

/// The first bytes and what follows them, unless there are fewer.
fn first_bytes(count: usize, bytes: &[u8]) -> Option<(&[u8], &[u8])>
    ensures parts { option_map (λ parts. (parts.0.now, parts.1.now)) result
        ≡ first_bytes count bytes.now }
    ensures length { IfSome result (λ parts. length parts.0.now ≡ count) }
{
    if count <= bytes.len() {
        Some(bytes.split_at(count))
    } else {
        None
    }
}

/// The payload of the record at the front, and what follows the record.
#[tactic(auto, unfolding(crate::specs::Log::record_in))]
fn record_in(bytes: &[u8]) -> Option<(&[u8], &[u8])>
    ensures parts { option_map (λ parts. (parts.0.now, parts.1.now)) result ≡ record_in bytes.now }
    ensures short { IfSome result (λ parts. length parts.0.now < 2 ^ 32) }
{
    let (size, rest) = bytes.split_first_chunk::<4>()?;
    first_bytes(u32::from_be_bytes(*size) as usize, rest)
}

fn is_open(gate: u8) -> bool
    ensures { result ≡ is_open gate }
{
    gate == 1
}

/// The payload of record 0, and what follows the record.
fn first_record(bytes: &[u8]) -> Option<(&[u8], &[u8])>
    ensures parts { option_map (λ parts. (parts.0.now, parts.1.now)) result
        ≡ first_record bytes.now }
    ensures short { IfSome result (λ parts. length parts.0.now < 2 ^ 32) }
{
    match bytes {
        [gate, rest @ ..] if is_open(*gate) => record_in(rest),
        _ => None,
    }
}

/// The bytes between two places.
fn between(text: &[u8], start: usize, end: usize) -> &[u8]
    requires { (start ≤ end) × (end ≤ length text.now) }
    ensures { result.now ≡ take (end - start) (drop start text.now) }
{
    let (_, rest) = text.split_at(start);
    rest.split_at(end - start).0
}

/// The events of a text's lines, and `None` if one of them is no event's.
fn events_of(alloc: Global, text: &[u8]) -> Result<Option<Vec<Event>>, AllocError>
    ensures { IfOk result (λ found. option_map (λ events. events.items) found
        ≡ events_of (lines_of text.now)) }
{
    let mut events = Vec::new(alloc);
    let mut from = 0;
    while let Some((start, end)) = line_at(text, from) {
        let Ok(event) = read_event(between(text, start, end)) else {
            return Ok(None);
        };
        events.push(event)?;
        from = (end + 1).min(text.len());
    }
    Ok(Some(events))
}

fn ends_in_newline(text: &[u8]) -> bool
    ensures { result ≡ ends_in_newline text.now }
{
    matches!(text.last(), Some(byte) if *byte == b'\n')
}

/// The events of a payload of 1 to 64 event lines, each with its newline, and `None` for any other
/// payload.
fn batch_of(alloc: Global, payload: &[u8]) -> Result<Option<Vec<Event>>, AllocError>
    ensures { IfOk result (λ found. option_map (λ events. events.items) found
        ≡ batch_of payload.now) }
{
    if !ends_in_newline(payload) {
        return Ok(None);
    }
    let Some(events) = events_of(alloc, payload)? else {
        return Ok(None);
    };
    if events.is_empty() || events.len() > 64 {
        return Ok(None);
    }
    Ok(Some(events))
}

/// Walks past a record with this payload.
fn go_past(alloc: Global, walk: &mut LogWalk, payload: &[u8]) -> Result<(), LoadFault>
    requires near { IsNear (walk_view walk.old) }
    requires short { length payload.now < 2 ^ 32 }
    ensures ok { OnOk result (after_record (walk_view walk.old) payload.now
        ≡ Ok (walk_view walk.new)) }
    ensures near { OnOk result (IsNear (walk_view walk.new)) }
    ensures err { IfErr result (λ fault.
        Fails fault (after_record (walk_view walk.old) payload.now)) }
{
    let Some(batch) = batch_of(alloc, payload)? else {
        return Err(LoadFault::Damaged {
            number: walk.number,
        });
    };
    if walk.events.len() + batch.len() > JOURNAL_ENTRIES {
        return Err(LoadFault::Damaged {
            number: walk.number,
        });
    }
    walk.events.extend_from_slice(&batch)?;
    walk.gate += payload.len() as u64 + 5;
    walk.number += 1;
    Ok(())
}

/// The gate at the front, and what is behind it.
fn at_gate(bytes: &[u8]) -> Option<(u8, &[u8])>
    ensures found { IfSome result (λ parts. bytes.now ≡ parts.0 ∷ parts.1.now) }
    ensures none { IfNone result (bytes.now ≡ []) }
{
    match bytes {
        [gate, body @ ..] => Some((*gate, body)),
        [] => None,
    }
}

/// Walks from a gate to the first closed one.
fn go_on(alloc: Global, start: LogWalk, bytes: &[u8]) -> Result<LogWalk, LoadFault>
    requires near { IsNear (walk_view start) }
    ensures walks { Walks result (go_on (walk_view start) bytes.now) }
    ensures near { IfOk result (λ walk. IsNear (walk_view walk)) }
{
    let mut walk = start;
    let mut rest = bytes;
    'records: loop {
        let Some((gate, body)) = at_gate(rest) else {
            return Err(LoadFault::Damaged {
                number: walk.number,
            });
        };
        if !is_open(gate) {
            return Ok(walk);
        }
        let Some((payload, more)) = record_in(body) else {
            return Err(LoadFault::Damaged {
                number: walk.number,
            });
        };
        go_past(alloc, &mut walk, payload)?;
        rest = more;
    }
}

/// Walks to the end of a log. The time grows with its bytes.
#[tactic(auto, unfolding(crate::specs::Log::walk_of))]
pub(crate) fn walk_of(alloc: Global, bytes: &[u8]) -> Result<LogWalk, LoadFault>
    ensures walks { Walks result (walk_of bytes.now) }
    ensures near { IfOk result (λ walk. IsNear (walk_view walk)) }
{
    let Some((config, rest)) = first_record(bytes) else {
        return Err(LoadFault::Damaged { number: 0 });
    };
    let start = LogWalk {
        config: config.to_vec(alloc)?,
        events: Vec::new(alloc),
        gate: config.len() as u64 + 5,
        number: 1,
    };
    go_on(alloc, start, rest)
}
