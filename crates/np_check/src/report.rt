//! What is printed about a configuration's text.

ghost use Rattle.std.specs.Prelude.{◌≡◌, ◌≤◌, IfOk, length};
ghost use Rattle.np_check.specs.Lower.{reads};
ghost use Rattle.np_check.specs.Report.{IsFaultReport, Tells, TellsFault, TellsFindings, fault_text, kind_text, status_of, verdict_of};

use crate::find::findings;
use crate::finding::Finding;
use crate::keys::keys_at;
use crate::line::put_lines;
use crate::near::{is_near, nearest};
use crate::place::{find, steps_of};
use crate::spot::{Spot, spot_of};
use np_config::Config;
use np_config_read::read_config;
use np_json::{ConfigFault, ConfigKind, ConfigRead};
use np_text::{NoMemory, put_number};
use serde_json::Value;
use std::alloc::Global;

/// What comes of a configuration's text.
#[derive(Clone, Copy, Debug, PartialEq, Eq)]
pub enum Verdict {
    /// Nothing was found.
    Quiet,
    /// Something will surprise the author.
    Surprising,
    /// The text is no configuration.
    Faulty,
}

impl Verdict {
    /// The exit status of a program that checks a configuration.
    pub fn status(self) -> u8
        ensures { result ≡ status_of self }
    {
        match self {
            Verdict::Quiet => 0,
            Verdict::Surprising => 1,
            Verdict::Faulty => 3,
        }
    }
}

/// The lines about a configuration's text, and what comes of it.
#[derive(Drop)]
pub struct Report {
    pub text: Vec<u8>,
    pub verdict: Verdict,
}

fn kind_name(kind: ConfigKind) -> &'static [u8]
    ensures { result.now ≡ kind_text kind }
{
    match kind {
        ConfigKind::NotJson => b"not-json",
        ConfigKind::Missing => b"missing",
        ConfigKind::UnknownKey => b"unknown-key",
        ConfigKind::WrongType => b"wrong-type",
        ConfigKind::OutOfRange => b"out-of-range",
        ConfigKind::BadName => b"bad-name",
        ConfigKind::Repeated => b"repeated",
        ConfigKind::UnknownName => b"unknown-name",
        ConfigKind::TooMany => b"too-many",
    }
}

/// The line of the fault, without its end.
fn fault_line(alloc: Global, fault: &ConfigFault, spot: Spot) -> Result<Vec<u8>, NoMemory>
    ensures { IfOk result (λ line. line.items ≡ fault_text fault.now spot) }
{
    let mut line = Vec::from_slice(alloc, b"line ")?;
    put_number(&mut line, spot.line)?;
    line.extend_from_slice(b", column ")?;
    put_number(&mut line, spot.column)?;
    line.extend_from_slice(b": ")?;
    line.extend_from_slice(kind_name(fault.kind))?;
    line.extend_from_slice(b" #")?;
    line.extend_from_slice(fault.pointer.items())?;
    Ok(line)
}

/// The place of this column of this line, or the end of the text if that has none; both count
/// from 1.
fn place_in(text: &[u8], line: usize, column: usize) -> usize
    ensures { result ≤ length text.now }
{
    let mut left = line;
    let mut start: usize = 0;
    for (at, byte) in text.iter().enumerate() {
        if *byte == b'\n' && left > 1 {
            left -= 1;
            start = at + 1;
        }
    }
    start
        .saturating_add(column.saturating_sub(1))
        .min(text.len())
}

/// Where a text stops being JSON.
fn place_of_no_json(alloc: Global, text: &[u8]) -> usize
    ensures { result ≤ length text.now }
{
    match Value::from_slice(alloc, text) {
        Ok(_) => 0,
        Err(error) => place_in(text, error.line(), error.column()),
    }
}

/// The nearest of these keys, if one is near: what is said of it.
fn nearest_key(alloc: Global, key: &str, keys: &[&str]) -> Result<Vec<u8>, NoMemory> {
    let mut more = Vec::new(alloc);
    if keys.is_empty() || key.len() > LONG {
        return Ok(more);
    }
    let at = nearest(alloc, key, keys)?;
    let Some(near) = keys.get(at) else {
        return Ok(more);
    };
    if is_near(alloc, key, near)? {
        more.extend_from_slice(b"; the nearest key is \"")?;
        more.extend_from_slice(near.as_bytes())?;
        more.push(b'"')?;
    }
    Ok(more)
}

/// The most bytes of a key that is compared with others.
const LONG: usize = 64;

/// What is said of a key that means nothing: how it was written, and the nearest one.
fn unknown_key(alloc: Global, key: &[u8], keys: &[&str]) -> Result<Vec<u8>, NoMemory> {
    let mut more = Vec::from_slice(alloc, b": \"")?;
    more.extend_from_slice(key)?;
    more.push(b'"')?;
    if let Ok(word) = std::str::from_utf8(key) {
        let near = nearest_key(alloc, word, keys)?;
        more.extend_from_slice(near.as_slice())?;
    }
    Ok(more)
}

/// The place of a fault in the text, and what is said behind its line.
#[derive(Drop)]
struct Told {
    at: usize,
    more: Vec<u8>,
}

/// What is said of a fault of this kind at the end of these steps.
fn told_at(alloc: Global, text: &[u8], kind: ConfigKind, steps: &[&[u8]]) -> Result<Told, NoMemory>
    ensures { IfOk result (λ t. t.at ≤ length text.now) }
{
    let keys = keys_at(steps);
    let found = find(text, steps, keys);
    let more = Vec::new(alloc);
    let at = found.at.min(text.len());
    if kind != ConfigKind::UnknownKey {
        return Ok(Told { at, more });
    }
    let Some((from, end)) = found.stranger else {
        return Ok(Told { at, more });
    };
    let key = text.get(from..end).unwrap_or(b"");
    let at = from.min(text.len());
    let more = unknown_key(alloc, key, keys)?;
    Ok(Told { at, more })
}

fn told_of(alloc: Global, text: &[u8], fault: &ConfigFault) -> Result<Told, NoMemory>
    ensures { IfOk result (λ t. t.at ≤ length text.now) }
{
    if fault.kind == ConfigKind::NotJson {
        let at = place_of_no_json(alloc, text);
        let more = Vec::new(alloc);
        return Ok(Told { at, more });
    }
    let steps = steps_of(alloc, fault.pointer.items())?;
    told_at(alloc, text, fault.kind, steps.as_slice())
}

/// The line of the fault, with more behind it.
fn fault_report(
    alloc: Global,
    fault: &ConfigFault,
    spot: Spot,
    more: &[u8],
) -> Result<Report, NoMemory>
    ensures { IfOk result (λ r. IsFaultReport fault.now spot more.now r) }
{
    let mut line = fault_line(alloc, fault, spot)?;
    line.extend_from_slice(more)?;
    line.push(b'\n')?;
    Ok(Report {
        text: line,
        verdict: Verdict::Faulty,
    })
}

fn report_of_fault(alloc: Global, text: &[u8], fault: &ConfigFault) -> Result<Report, NoMemory>
    ensures { IfOk result (λ r. TellsFault text.now fault.now r) }
{
    let told = told_of(alloc, text, fault)?;
    let spot = spot_of(text, told.at);
    fault_report(alloc, fault, spot, told.more.as_slice())
}

fn verdict_of(found: &[Finding]) -> Verdict
    ensures { result ≡ verdict_of found.now }
{
    match found {
        [] => Verdict::Quiet,
        _ => Verdict::Surprising,
    }
}

fn report_of(alloc: Global, config: &Config) -> Result<Report, NoMemory>
    ensures { IfOk result (λ r. TellsFindings config.now r) }
{
    let found = findings(alloc, config)?;
    let mut text = Vec::new(alloc);
    put_lines(config, found.as_slice(), &mut text)?;
    let verdict = verdict_of(found.as_slice());
    Ok(Report { text, verdict })
}

/// What to print about a configuration's text: a line for each finding, with the configuration's
/// own names. If it has a fault: the line and the column, the fault and its JSON pointer, and of a
/// key that means nothing how it was written, and the nearest key that has a meaning there, if one
/// is near. A column counts bytes. Takes the time of `read_config` and `findings`.
pub fn check(alloc: Global, text: &[u8]) -> Result<Report, NoMemory>
    ensures { IfOk result (λ r. Tells text.now (reads text.now) r) }
{
    match read_config(alloc, text) {
        Ok(config) => report_of(alloc, &config),
        Err(ConfigRead::NoMemory) => Err(NoMemory),
        Err(ConfigRead::Fault(fault)) => report_of_fault(alloc, text, &fault),
    }
}
