//! Events and entries as lines (docs/SCRIPTS.md).

use np_event::Event::{Accept, MinReady, OpenSession, Revise, Start, Tick};
use np_event::Refusal::{QuotaShort, TenantShort, WrongState};
use np_event::Reply::Refused;
use np_event::{
    Done, Entry, Event, Found, LineFault, Outcome, Reply, entry_has_line, event_has_line,
    put_entry, put_event, read_entry, read_event,
};
use np_text::{
    Ending, JobId, LabelId, NodeId, NodeState, RequestId, RequestState, RequesterId, Role,
    SessionId,
};
use std::alloc::Global;

// Each form of an event and each reply.
const ENTRIES: [&[u8]; 55] = [
    b"tick = ok",
    b"open launcher p0 = session s1",
    b"submit s1 j3 = request 200-0000000000",
    b"create s1 200-0000000000 = node n0",
    b"start s1 n0 = started 3 4294967295",
    b"lock-request s1 200-0000000000 = held",
    b"lock-node s1 n0 = queued 1",
    b"sweep s1 n0 7 = keep",
    b"sweep s1 n0 18446744073709551615 = remove",
    b"finish s1 j3 = ended served",
    b"finish s1 j0 = ended lost",
    b"finish s1 j4294967295 = ended failed",
    b"register s0 = refused no-session",
    b"expire s4294967295 = refused expired",
    b"crash s1 = refused crashed",
    b"open janitor p65535 = refused wrong-role",
    b"accept s1 200-0000000000 = refused no-request",
    b"gone s1 n0 = refused no-node",
    b"withdraw s1 j3 = refused no-job",
    b"release s1 j3 = refused not-owner",
    b"fulfil s1 200-0000000000 = refused not-registered",
    b"register s1 = refused taken s1",
    b"lock-request s1 999-4294967295 = refused busy s1",
    b"unlock-request s1 100-0000000000 = refused not-held",
    b"fail-declined s1 200-0000000000 = refused wrong-state requested",
    b"revise s1 j3 0 = refused wrong-state pending",
    b"reset s1 200-0000000000 = refused wrong-state fulfilled",
    b"take s1 j3 = refused wrong-state failed",
    b"done s1 n0 1 failed = refused wrong-state building",
    b"start s1 n0 = refused wrong-state in-flight",
    b"free-node s1 n0 = refused wrong-state ready",
    b"gone s1 n0 = refused wrong-state in-use",
    b"end-node s1 n0 used = refused wrong-state used",
    b"end-node s1 n0 hold = refused wrong-state hold",
    b"mark-deleting s1 n0 = refused wrong-state deleting",
    b"revise s1 j3 1000000 = refused wrong-state new",
    b"submit s0 j0 = refused wrong-state asked",
    b"withdraw s1 j3 = refused wrong-state using",
    b"acquire s1 j3 = refused wrong-state over",
    b"decline s1 200-0000000000 no-label l65535 = refused declined",
    b"lock-request s1 300-0000000000 = refused not-first 100-0000000003",
    b"decline s1 200-0000000000 never-fits = refused false-reason",
    b"take-ready s1 200-0000000000 n0 = refused no-label l65535",
    b"decline s1 200-0000000000 spent n0 = refused never-fits",
    b"create s1 200-0000000000 = refused quota-short 1 4294967296 18446744073709551615",
    b"free-node s1 n0 = refused allocated 200-0000000000",
    b"done s1 n0 255 ok 18446744073709551615 = refused wrong-attempt 2",
    b"fulfil s1 200-0000000000 = refused not-all 2",
    b"acquire s1 j3 = refused semaphore-full x1",
    b"mark-deleting s1 n0 = refused not-due 0",
    b"min-ready s1 l65535 = refused enough 1",
    b"min-ready s1 l0 = refused spent",
    b"open requester q2 = refused full",
    b"accept s1 200-0000000000 = refused tenant-short 1 4294967296 18446744073709551615",
    b"decline s1 200-0000000000 tenant-never-fits = refused tenant-never-fits",
];

fn entry_is_written_again(alloc: Global, line: &[u8]) -> bool {
    match read_entry(line) {
        Some(entry) => {
            let mut out = Vec::new(alloc);
            put_entry(&mut out, entry).is_ok() && out.as_slice() == line
        }
        None => false,
    }
}

fn entries_are_written_again(alloc: Global) -> bool {
    every!(line in &ENTRIES => entry_is_written_again(alloc, line))
}

fn event_is_written_again(alloc: Global, line: &[u8]) -> bool {
    match read_event(line) {
        Ok(event) => {
            let mut out = Vec::new(alloc);
            put_event(&mut out, event).is_ok() && out.as_slice() == line
        }
        Err(_) => false,
    }
}

const S: SessionId = SessionId(1);

const N: NodeId = NodeId(0);

// Entries whose words are alike, so that one could be taken for another, with their lines.
const SAID: [(Event, Reply, &[u8]); 6] = [
    (
        Start {
            session: S,
            node: N,
        },
        Reply::Done(Done::Started {
            attempt: 3,
            start: 7,
        }),
        b"start s1 n0 = started 3 7",
    ),
    (
        Event::Done {
            session: S,
            node: N,
            attempt: 2,
            outcome: Outcome::Launched(5),
        },
        Refused(QuotaShort {
            instances: 1,
            cores: 2,
            ram: 3,
        }),
        b"done s1 n0 2 ok 5 = refused quota-short 1 2 3",
    ),
    (
        OpenSession {
            role: Role::Requester(RequesterId(2)),
        },
        Refused(TenantShort {
            instances: 1,
            cores: 2,
            ram: 3,
        }),
        b"open requester q2 = refused tenant-short 1 2 3",
    ),
    (
        Revise {
            session: S,
            job: JobId(3),
            relative: 5,
        },
        Reply::Done(Done::Ended(Ending::Lost)),
        b"revise s1 j3 5 = ended lost",
    ),
    (
        MinReady {
            session: S,
            label: LabelId(4),
        },
        Refused(WrongState(Found::InFlight)),
        b"min-ready s1 l4 = refused wrong-state in-flight",
    ),
    (
        Tick,
        Refused(WrongState(Found::Node(NodeState::Failed))),
        b"tick = refused wrong-state failed",
    ),
];

fn is_said(alloc: Global, event: Event, reply: Reply, line: &[u8]) -> bool {
    let entry = Entry { event, reply };
    let mut out = Vec::new(alloc);
    entry_has_line(entry) && put_entry(&mut out, entry).is_ok() && out.as_slice() == line
}

fn entries_are_said(alloc: Global) -> bool {
    every!((event, reply, line) in &SAID => is_said(alloc, *event, *reply, line))
}

// A failed node looks like a failed request, and is read as that.
fn failed_is_a_request() -> bool {
    matches!(read_entry(b"tick = refused wrong-state failed"), Some(entry)
        if matches!(entry.reply, Refused(WrongState(Found::Request(RequestState::Failed)))))
}

fn some_values_have_no_line() -> bool {
    let far = RequestId {
        priority: 1_000,
        seq: 0,
    };
    !event_has_line(OpenSession { role: Role::Reaper })
        && !event_has_line(Accept {
            session: S,
            request: far,
        })
        && !event_has_line(Revise {
            session: S,
            job: JobId(3),
            relative: 1_000_001,
        })
        && !entry_has_line(Entry {
            event: Tick,
            reply: Reply::Done(Done::Ended(Ending::Withdrawn)),
        })
}

#[test]
fn lines_are_read_and_written_again(rt: HostRuntime) {
    let alloc = rt.alloc();
    assert!(rt; entries_are_written_again(alloc), "entries");
    let done = event_is_written_again(alloc, b"done s1 n0 255 ok 7");
    assert!(rt; done, "an event");
    assert!(rt; entries_are_said(alloc), "entries as values");
    assert!(rt; failed_is_a_request(), "failed");
    assert!(rt; some_values_have_no_line(), "no line");
}

const UNKNOWN: [&[u8]; 4] = [b"", b" tick", b"tick\t", b"Tick"];

const MISCOUNTED: [&[u8]; 12] = [
    b"tick ",
    b"register",
    b"register s1 s2",
    b"register  s1",
    b"open launcher",
    b"revise s2 j0 1 1",
    b"decline a b",
    b"decline a b no-label",
    b"decline s1 200-0000000000 never-fits l0",
    b"done x y z",
    b"done x y z ok",
    b"end-node s1 n0",
];

// Lines with the first of their words that does not fit its place, counted from 1.
const MISPLACED: [(&[u8], u32); 25] = [
    (b"register s01", 2),
    (b"register s4294967296", 2),
    (b"register s", 2),
    (b"register 1", 2),
    (b"register S1", 2),
    (b"register s1\xff", 2),
    (b"open launch p", 2),
    (b"open launcher q0", 3),
    (b"open launcher p65536", 3),
    (b"min-ready s1 l65536", 3),
    (b"submit x y", 2),
    (b"revise s2 j0 1000001", 4),
    (b"revise s2 j0 01", 4),
    (b"accept s1 099-0000000000", 3),
    (b"accept s1 200-4294967296", 3),
    (b"decline a b c", 4),
    (b"decline a b c d e f", 4),
    (b"decline a b never-fits", 2),
    (b"decline s1 200-0000000000 tenant-spent n0", 4),
    (b"decline s1 200-0000000000 spent l0", 5),
    (b"done x y z w", 5),
    (b"done s1 n0 256 failed", 4),
    (b"done s1 n0 1 ok 18446744073709551616", 6),
    (b"end-node x n0 foo", 2),
    (b"end-node s1 n0 foo", 4),
];

fn events_are_unknown() -> bool {
    every!(line in &UNKNOWN => matches!(read_event(line), Err(LineFault::UnknownEvent)))
}

fn words_are_miscounted() -> bool {
    every!(line in &MISCOUNTED => matches!(read_event(line), Err(LineFault::WrongCount)))
}

fn words_are_misplaced() -> bool {
    every!((line, at) in &MISPLACED =>
        matches!(read_event(line), Err(LineFault::BadArgument { word }) if word == *at))
}

const OTHERS: [&[u8]; 11] = [
    b"tick",
    b"tick = ",
    b"tick =ok",
    b"tick  = ok",
    b"tick = ok ",
    b"tick = ok = ok",
    b"tock = ok",
    b"tick = refused wrong-state withdrawn",
    b"tick = ended withdrawn",
    b"tick = queued 4294967296",
    b"tick = refused tenant-short 1 2",
];

fn others_are_no_entries() -> bool {
    every!(line in &OTHERS => read_entry(line).is_none())
}

#[test]
fn the_first_fault_is_named(rt: HostRuntime) {
    assert!(rt; events_are_unknown(), "unknown events");
    assert!(rt; words_are_miscounted(), "counts of words");
    assert!(rt; words_are_misplaced(), "words");
    assert!(rt; others_are_no_entries(), "entries");
}
