//! The log on a disk in memory: its bytes, where they are damaged, and what a crash leaves.

ghost use Rattle.std.specs.Prelude.{◌≤◌};

use np_event::{Event, event_has_line, put_event};
use np_io::MemDisk;
use np_log::{AppendFault, CreateFault, LoadFault, Loaded, Log};
use np_text::{JobId, SessionId};
use std::alloc::{AllocError, Global};

// The log of `{}` and no events.
const START: [u8; 8] = [1, 0, 0, 0, 2, b'{', b'}', 0];

// The log of `{}` and one tick.
const TICK: [u8; 18] = [
    1, 0, 0, 0, 2, b'{', b'}', 1, 0, 0, 0, 5, b't', b'i', b'c', b'k', b'\n', 0,
];

const LINES: &[u8] = b"tick\nsubmit s1 j3\ncrash s4294967295\n";

const EVENTS: [Event; 3] = [
    Event::Tick,
    Event::Submit {
        session: SessionId(1),
        job: JobId(3),
    },
    Event::Crash {
        session: SessionId(4_294_967_295),
    },
];

// So many picks of an image that a crash leaves.
const PICKS: u64 = 8;

fn load(alloc: Global, bytes: Vec<u8>) -> Result<Loaded, LoadFault> {
    Log::load(alloc, &mut MemDisk::new(bytes, None))
}

// The lines of these events, and nothing if one of them has none.
fn lines_of(alloc: Global, events: &[Event]) -> Vec<u8> {
    let mut lines = Vec::new(alloc);
    for event in events {
        let is_put = event_has_line(*event)
            && put_event(&mut lines, *event).is_ok()
            && lines.push(b'\n').is_ok();
        if !is_put {
            return Vec::new(alloc);
        }
    }
    lines
}

fn says(alloc: Global, bytes: Vec<u8>, config: &[u8], lines: &[u8]) -> bool {
    match load(alloc, bytes) {
        Ok(loaded) => {
            loaded.config.as_slice() == config
                && lines_of(alloc, &loaded.events).as_slice() == lines
                && loaded.log.events() as usize == loaded.events.len()
        }
        Err(_) => false,
    }
}

fn is_damaged(alloc: Global, bytes: Vec<u8>, number: u32) -> bool {
    match load(alloc, bytes) {
        Ok(_) => false,
        Err(fault) => fault == LoadFault::Damaged { number },
    }
}

// ---- worked bytes

// The bytes with another one at this place.
fn with_byte(alloc: Global, bytes: &[u8], at: usize, byte: u8) -> Result<Vec<u8>, AllocError> {
    let mut changed = bytes.to_vec(alloc)?;
    if let Some(old) = changed.get_mut(at) {
        *old = byte;
    }
    Ok(changed)
}

fn start_is_written(alloc: Global) -> bool {
    let mut disk = MemDisk::new(Vec::new(alloc), None);
    match Log::create(alloc, &mut disk, b"{}") {
        Ok(log) => log.events() == 0 && disk.bytes() == START.as_slice(),
        Err(_) => false,
    }
}

fn tick_is_written(alloc: Global) -> bool {
    let mut disk = MemDisk::new(Vec::new(alloc), None);
    let Ok(log) = Log::create(alloc, &mut disk, b"{}") else {
        return false;
    };
    match log.append(alloc, &mut disk, &[Event::Tick]) {
        Ok(log) => log.events() == 1 && disk.bytes() == TICK.as_slice(),
        Err(_) => false,
    }
}

fn only_an_empty_file_is_made_a_log(alloc: Global) -> bool {
    match [0u8].to_vec(alloc) {
        Ok(bytes) => {
            let mut disk = MemDisk::new(bytes, None);
            match Log::create(alloc, &mut disk, b"{}") {
                Ok(_) => false,
                Err(fault) => fault == CreateFault::NotEmpty && disk.bytes() == [0].as_slice(),
            }
        }
        Err(_) => false,
    }
}

// The worked log is read with another byte at this place.
fn a_byte_is_changed(alloc: Global, at: usize, byte: u8) -> Result<Loaded, LoadFault> {
    match with_byte(alloc, &TICK, at, byte) {
        Ok(bytes) => load(alloc, bytes),
        Err(_) => Err(LoadFault::NoMemory),
    }
}

fn changed_bytes_are_judged(alloc: Global) -> bool {
    let closed = match a_byte_is_changed(alloc, 7, 7) {
        Ok(loaded) => loaded.config.as_slice() == b"{}".as_slice() && loaded.events.is_empty(),
        Err(_) => false,
    };
    let no_newline = match a_byte_is_changed(alloc, 16, 11) {
        Ok(_) => false,
        Err(fault) => fault == LoadFault::Damaged { number: 1 },
    };
    let closed_first = match a_byte_is_changed(alloc, 0, 0) {
        Ok(_) => false,
        Err(fault) => fault == LoadFault::Damaged { number: 0 },
    };
    closed && no_newline && closed_first
}

// The number of the record that the first bytes of the worked log lack.
fn missing_number(len: usize) -> u32 {
    match len {
        0..=6 => 0,
        7..=16 => 1,
        _ => 2,
    }
}

fn each_front_is_damaged(alloc: Global) -> bool {
    for len in 0..TICK.len() {
        let is_as_said = match TICK.get(..len).unwrap_or_default().to_vec(alloc) {
            Ok(front) => is_damaged(alloc, front, missing_number(len)),
            Err(_) => false,
        };
        if !is_as_said {
            return false;
        }
    }
    true
}

#[test]
fn a_log_has_the_worked_bytes(rt: HostRuntime) {
    let alloc = rt.alloc();
    assert!(rt; start_is_written(alloc), "no events");
    assert!(rt; tick_is_written(alloc), "one tick");
    assert!(rt;
        only_an_empty_file_is_made_a_log(alloc),
        "a file with a byte"
    );
    assert!(rt; changed_bytes_are_judged(alloc), "a byte is changed");
    assert!(rt; each_front_is_damaged(alloc), "bytes are cut off");
}

// ---- damage

// An open gate and a record, by hand.
fn put_record(out: &mut Vec<u8>, payload: &[u8]) -> Result<(), AllocError> {
    let [high, low] = (payload.len().min(65_535) as u16).to_be_bytes();
    out.extend_from_slice(&[1, 0, 0, high, low])?;
    out.extend_from_slice(payload)
}

// The log of `{}` and so many records of these lines.
fn sample(alloc: Global, records: usize, lines: &[u8]) -> Result<Vec<u8>, AllocError> {
    let mut bytes = Vec::new(alloc);
    put_record(&mut bytes, b"{}")?;
    for _ in 0..records {
        put_record(&mut bytes, lines)?;
    }
    bytes.push(0)?;
    Ok(bytes)
}

// How many bytes a record of these lines and the gate before it have.
const RECORD_BYTES: usize = 41;

// Where the gate of a record is in a log of 100 records with three events each.
fn gate_of(number: u32) -> usize
    requires { number ≤ 100 }
    ensures { result ≤ 5000 }
{
    match number {
        0 => 0,
        _ => 7 + (number as usize - 1) * RECORD_BYTES,
    }
}

// The log's bytes up to this place.
fn front_is_damaged(alloc: Global, bytes: &[u8], len: usize, number: u32) -> bool {
    match bytes.get(..len).unwrap_or_default().to_vec(alloc) {
        Ok(front) => is_damaged(alloc, front, number),
        Err(_) => false,
    }
}

// A byte of the log is another.
fn change_is_damage(alloc: Global, bytes: &[u8], at: usize, byte: u8, number: u32) -> bool {
    match with_byte(alloc, bytes, at, byte) {
        Ok(changed) => is_damaged(alloc, changed, number),
        Err(_) => false,
    }
}

// The record's gate is missing, or its bytes end early in the length or in the payload; or, behind
// record 0, the last line has no newline, or an empty line is in front of the first.
fn record_is_damaged(alloc: Global, bytes: &[u8], number: u32) -> bool
    requires { number ≤ 100 }
{
    let gate = gate_of(number);
    let end = gate + RECORD_BYTES - 1;
    let is_short = front_is_damaged(alloc, bytes, gate, number)
        && front_is_damaged(alloc, bytes, gate + 1, number)
        && front_is_damaged(alloc, bytes, gate + 3, number)
        && front_is_damaged(alloc, bytes, gate + 6, number);
    if number == 0 {
        return is_short && change_is_damage(alloc, bytes, 0, 2, 0);
    }
    is_short
        && change_is_damage(alloc, bytes, end, b' ', number)
        && change_is_damage(alloc, bytes, gate + 5, b'\n', number)
}

fn each_record_is_damaged(alloc: Global) -> bool {
    let Ok(bytes) = sample(alloc, 100, LINES) else {
        return false;
    };
    for number in 0..101 {
        if !record_is_damaged(alloc, &bytes, number) {
            return false;
        }
    }
    match load(alloc, bytes) {
        Ok(loaded) => loaded.events.len() == 300,
        Err(_) => false,
    }
}

// Payloads that no record behind record 0 may have.
const FAULTY: [&[u8]; 6] = [b"", b"\n", b"tick", b"tick\ntick", b"tick\n\n", b"tock\n"];

fn faulty_payloads_are_damage(alloc: Global) -> bool {
    for payload in &FAULTY {
        let is_damage = match sample(alloc, 2, payload) {
            Ok(bytes) => is_damaged(alloc, bytes, 1),
            Err(_) => false,
        };
        if !is_damage {
            return false;
        }
    }
    true
}

// So many lines `tick`.
fn ticks(alloc: Global, count: usize) -> Result<Vec<u8>, AllocError> {
    let mut lines = Vec::new(alloc);
    for _ in 0..count {
        lines.extend_from_slice(b"tick\n")?;
    }
    Ok(lines)
}

fn a_batch_of_65_is_damage(alloc: Global) -> bool {
    let Ok(lines) = ticks(alloc, 65) else {
        return false;
    };
    match sample(alloc, 1, &lines) {
        Ok(bytes) => is_damaged(alloc, bytes, 1),
        Err(_) => false,
    }
}

// 4,096 records of 64 events, which are as many as a log may have, and then one record more.
fn a_full_log_is_loaded(alloc: Global) -> bool {
    let Ok(lines) = ticks(alloc, 64) else {
        return false;
    };
    let is_full = match sample(alloc, 4_096, &lines) {
        Ok(bytes) => match load(alloc, bytes) {
            Ok(loaded) => loaded.events.len() == 262_144 && loaded.log.events() == 262_144,
            Err(_) => false,
        },
        Err(_) => false,
    };
    match sample(alloc, 4_097, &lines) {
        Ok(bytes) => is_full && is_damaged(alloc, bytes, 4_097),
        Err(_) => false,
    }
}

#[test]
fn damage_has_its_number(rt: HostRuntime) {
    let alloc = rt.alloc();
    assert!(rt; each_record_is_damaged(alloc), "each record");
    assert!(rt; faulty_payloads_are_damage(alloc), "payloads");
    assert!(rt; a_batch_of_65_is_damage(alloc), "65 events");
    assert!(rt; a_full_log_is_loaded(alloc), "a full log");
}

// ---- crashes

// What the images of a disk say.
#[derive(Clone, Copy, PartialEq, Eq)]
struct Found {
    // Some image is the log without the new events, or, of a new log, lacks record 0.
    before: bool,
    // Some image is the log with all of them.
    after: bool,
    // Some image is anything else.
    other: bool,
}

const NOTHING: Found = Found {
    before: false,
    after: false,
    other: false,
};

const BEFORE: Found = Found {
    before: true,
    ..NOTHING
};

const AFTER: Found = Found {
    after: true,
    ..NOTHING
};

const EITHER: Found = Found {
    before: true,
    after: true,
    other: false,
};

fn add_image(alloc: Global, found: Found, image: Vec<u8>, old: &[u8], all: &[u8]) -> Found {
    let lines = match load(alloc, image) {
        Ok(loaded) => lines_of(alloc, &loaded.events),
        Err(_) => Vec::new(alloc),
    };
    let (before, after) = (lines.as_slice() == old, lines.as_slice() == all);
    Found {
        before: found.before || before,
        after: found.after || after,
        other: found.other || !(before || after),
    }
}

fn images_say(alloc: Global, disk: &MemDisk, old: &[u8], all: &[u8]) -> Found {
    let mut found = NOTHING;
    for pick in 0..PICKS {
        found = match disk.image(alloc, pick) {
            Ok(image) => add_image(alloc, found, image, old, all),
            Err(_) => Found {
                other: true,
                ..found
            },
        };
    }
    found
}

// Loading makes three calls of the disk, and an append four. The call of this number stops, and each
// after it.
const APPENDS: [(u32, Found); 5] = [
    (4, BEFORE),
    (5, BEFORE),
    (6, EITHER),
    (7, EITHER),
    (8, AFTER),
];

// So many times the lines of a record.
fn repeated(alloc: Global, records: usize) -> Result<Vec<u8>, AllocError> {
    let mut lines = Vec::new(alloc);
    for _ in 0..records {
        lines.extend_from_slice(LINES)?;
    }
    Ok(lines)
}

fn append_stops(alloc: Global, disk: &mut MemDisk, is_done: bool) -> bool {
    match Log::load(alloc, disk) {
        Ok(loaded) => {
            if loaded.log.events() != 300 {
                return false;
            }
            match loaded.log.append(alloc, disk, &EVENTS) {
                Ok(log) => is_done && log.events() == 303,
                Err(AppendFault::DiskFault) => !is_done,
                Err(AppendFault::NoMemory(_)) => false,
            }
        }
        Err(_) => false,
    }
}

fn an_append_stops(alloc: Global, stop: u32, want: Found) -> bool {
    match (
        sample(alloc, 100, LINES),
        repeated(alloc, 100),
        repeated(alloc, 101),
    ) {
        (Ok(bytes), Ok(old), Ok(all)) => {
            let mut disk = MemDisk::new(bytes, Some(stop));
            append_stops(alloc, &mut disk, stop == 8)
                && images_say(alloc, &disk, &old, &all) == want
        }
        _ => false,
    }
}

fn each_append_stops(alloc: Global) -> bool {
    every!((stop, want) in &APPENDS => an_append_stops(alloc, *stop, *want))
}

fn add_new_image(alloc: Global, found: Found, image: Vec<u8>) -> Found {
    match load(alloc, image) {
        Ok(loaded) if loaded.config.as_slice() == b"{}".as_slice() && loaded.events.is_empty() => {
            Found {
                after: true,
                ..found
            }
        }
        Err(LoadFault::Damaged { number: 0 }) => Found {
            before: true,
            ..found
        },
        _ => Found {
            other: true,
            ..found
        },
    }
}

fn new_images_say(alloc: Global, disk: &MemDisk) -> Found {
    let mut found = NOTHING;
    for pick in 0..PICKS {
        found = match disk.image(alloc, pick) {
            Ok(image) => add_new_image(alloc, found, image),
            Err(_) => Found {
                other: true,
                ..found
            },
        };
    }
    found
}

// Making a log takes eight calls of the disk.
const CREATES: [(u32, Found); 9] = [
    (1, BEFORE),
    (2, BEFORE),
    (3, BEFORE),
    (4, BEFORE),
    (5, BEFORE),
    (6, BEFORE),
    (7, EITHER),
    (8, EITHER),
    (9, AFTER),
];

fn a_create_stops(alloc: Global, stop: u32, want: Found) -> bool {
    let mut disk = MemDisk::new(Vec::new(alloc), Some(stop));
    let is_done = Log::create(alloc, &mut disk, b"{}").is_ok();
    is_done == (stop == 9) && new_images_say(alloc, &disk) == want
}

fn each_create_stops(alloc: Global) -> bool {
    every!((stop, want) in &CREATES => a_create_stops(alloc, *stop, *want))
}

// The events of a log are appended to a new one, and loaded again.
fn a_log_is_copied(alloc: Global, bytes: Vec<u8>, lines: &[u8]) -> bool {
    let mut source = MemDisk::new(bytes, None);
    let mut disk = MemDisk::new(Vec::new(alloc), None);
    let Ok(loaded) = Log::load(alloc, &mut source) else {
        return false;
    };
    let Ok(log) = Log::create(alloc, &mut disk, b"[]") else {
        return false;
    };
    match log.append_all(alloc, &mut disk, &loaded.events) {
        Ok(_) => match disk.bytes().to_vec(alloc) {
            Ok(bytes) => says(alloc, bytes, b"[]", lines),
            Err(_) => false,
        },
        Err(_) => false,
    }
}

fn many_are_appended(alloc: Global) -> bool {
    match (sample(alloc, 100, LINES), repeated(alloc, 100)) {
        (Ok(bytes), Ok(lines)) => a_log_is_copied(alloc, bytes, &lines),
        _ => false,
    }
}

#[test]
fn a_crash_leaves_all_or_none(rt: HostRuntime) {
    let alloc = rt.alloc();
    assert!(rt; each_create_stops(alloc), "a new log");
    assert!(rt; each_append_stops(alloc), "an append");
    assert!(rt; many_are_appended(alloc), "300 events");
}
