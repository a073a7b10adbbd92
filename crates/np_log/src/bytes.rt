//! Records as bytes.

ghost use Rattle.std.specs.Prelude.{◌≡◌, ◌≤◌, ◌<◌, ◌^◌, length, IfOk, OnOk};
ghost use Rattle.std.specs.List.{AllByRecursion};
ghost use Rattle.np_log.specs.Lower.{HasEventLine};
ghost use Rattle.np_log.specs.Batch.{batch_text};
ghost use Rattle.np_log.specs.Writing.{record_and_gate};

use np_event::{Event, put_event};
use np_text::NoMemory;
use std::alloc::Global;

/// The lines of these events, each with its newline.
pub(crate) fn batch_text(alloc: Global, events: &[Event]) -> Result<Vec<u8>, NoMemory>
    requires { AllByRecursion HasEventLine events.now }
    ensures { IfOk result (λ text. text.items ≡ batch_text events.now) }
{
    let mut text = Vec::new(alloc);
    for event in events {
        put_event(&mut text, *event)?;
        text.push(b'\n')?;
    }
    Ok(text)
}

/// A record with this payload, and a closed gate behind it.
pub(crate) fn record_and_gate(alloc: Global, payload: &[u8]) -> Result<Vec<u8>, NoMemory>
    requires { length payload.now < 2 ^ 32 }
    ensures { IfOk result (λ bytes. bytes.items ≡ record_and_gate payload.now) }
{
    let size = payload.len() as u32;
    let mut bytes = Vec::with_capacity(alloc, payload.len() + 5)?;
    bytes.extend_from_slice(&size.to_be_bytes())?;
    bytes.extend_from_slice(payload)?;
    bytes.push(0)?;
    Ok(bytes)
}

/// The record of these events, and a closed gate behind it.
#[tactic(auto, using(crate::proofs::Writes::batch_fits))]
pub(crate) fn batch_record(alloc: Global, events: &[Event]) -> Result<Vec<u8>, NoMemory>
    requires few { length events.now ≤ 64 }
    requires lines { AllByRecursion HasEventLine events.now }
    ensures short { OnOk result (length (batch_text events.now) < 2 ^ 32) }
    ensures bytes { IfOk result (λ bytes. bytes.items ≡ record_and_gate (batch_text events.now)) }
{
    let payload = batch_text(alloc, events)?;
    record_and_gate(alloc, &payload)
}
