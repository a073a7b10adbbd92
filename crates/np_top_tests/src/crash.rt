//! A keep that stops at each of its calls of the disk, and what a crash leaves then.

use np_cloud::OpenGate;
use np_io::{MemDisk, MemSink, MemSource};
use np_top::poolsim;
use std::alloc::{AllocError, Global};
use std::sync::Wait;
use std::thread::Threads;

/// One pool, one label, one job.
const SITE: &str =
    r#"{"labels":[{"name":"a"}],"providers":[{"name":"c","pools":[{"name":"m","labels":[{"name":"a"}]}]}],"requesters":[{"name":"z","jobs":[{"name":"j","labels":["a"]}]}]}"#;

/// Events, in one record.
const EVENTS: &str = "open launcher p0\nopen requester q0\nregister s1\nsubmit s2 j0\n";

/// The calls of a keep of these events: one opens the file, eight make the log, and four append.
const CALLS: u32 = 13;

/// How many images of each disk are looked at.
const PICKS: u64 = 8;

/// What the images say, counted.
#[derive(Clone, Copy)]
pub struct Found {
    /// No log: record 0 is damaged.
    pub none: u32,
    /// The configuration and no event.
    pub begun: u32,
    /// The configuration and all events.
    pub whole: u32,
    /// Anything else.
    pub wrong: u32,
}

/// What the program comes to.
#[derive(Drop)]
struct Ran {
    status: u8,
    out: MemSink,
}

/// Runs a command on this input, over this disk.
fn run<R: Threads + Wait + Sync + AllocGlobal>(
    rt: &R,
    words: &[&str],
    input: &[&str],
    disk: &mut MemDisk,
) -> Result<Ran, AllocError> {
    let alloc = rt.alloc();
    let mut texts = Vec::new(alloc);
    for word in words {
        texts.push(String::from_str(alloc, word)?)?;
    }
    let mut bytes = Vec::new(alloc);
    for part in input {
        bytes.extend_from_slice(part.as_bytes())?;
    }
    let mut source = MemSource::new(bytes, Vec::new(alloc));
    let mut out = MemSink::new(alloc, Vec::new(alloc));
    let mut err = MemSink::new(alloc, Vec::new(alloc));
    let status = poolsim(
        rt,
        alloc,
        texts.as_slice(),
        &mut source,
        &mut out,
        &mut err,
        &OpenGate,
        disk,
    );
    Ok(Ran { status, out })
}

/// The disk after a keep that stops at this call.
fn stopped<R: Threads + Wait + Sync + AllocGlobal>(
    rt: &R,
    call: u32,
) -> Result<MemDisk, AllocError> {
    let mut disk = MemDisk::new(Vec::new(rt.alloc()), Some(call));
    let input = [SITE, "\n%%\n", EVENTS];
    run(rt, &["keep", "f"], &input, &mut disk)?;
    Ok(disk)
}

/// The Text of the site after these events.
fn text_of<R: Threads + Wait + Sync + AllocGlobal>(
    rt: &R,
    events: &str,
) -> Result<MemSink, AllocError> {
    let mut disk = MemDisk::new(Vec::new(rt.alloc()), None);
    let input = [SITE, "\n%%\n", events];
    Ok(run(rt, &["replay"], &input, &mut disk)?.out)
}

impl Found {
    /// Counts what the program says of an image.
    fn count(&mut self, call: u32, ran: &Ran, begun: &MemSink, whole: &MemSink) {
        let is_begun = ran.status == 0 && ran.out.bytes() == begun.bytes();
        let is_whole = ran.status == 0 && ran.out.bytes() == whole.bytes();
        let counted = if is_begun {
            &mut self.begun
        } else if is_whole {
            &mut self.whole
        } else if ran.status == 11 && call <= CALLS - 4 {
            &mut self.none
        } else {
            &mut self.wrong
        };
        *counted = counted.saturating_add(1);
    }
}

/// Stops a keep at each of its calls, and resumes the images that a crash may leave then. Once the
/// log is made, an image has all of the events or none of them.
pub fn images_are_whole<R: Threads + Wait + Sync + AllocGlobal>(
    rt: &R,
) -> Result<Found, AllocError> {
    let begun = text_of(rt, "")?;
    let whole = text_of(rt, EVENTS)?;
    let mut found = Found {
        none: 0,
        begun: 0,
        whole: 0,
        wrong: 0,
    };
    for call in 1..=CALLS + 1 {
        let disk = stopped(rt, call)?;
        for pick in 0..PICKS {
            let image = disk.image(rt.alloc(), pick)?;
            let mut disk = MemDisk::new(image, None);
            let ran = run(rt, &["resume", "f"], &[], &mut disk)?;
            found.count(call, &ran, &begun, &whole);
        }
    }
    Ok(found)
}
