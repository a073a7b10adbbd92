//! What is printed: each finding once, and faults with their places.

use crate::{Verdict, check};
use std::alloc::Global;

fn is_told(alloc: Global, text: &[u8], want: &[u8], verdict: Verdict) -> bool {
    match check(alloc, text) {
        Ok(report) => report.text.as_slice() == want && report.verdict == verdict,
        Err(_) => false,
    }
}

const ALL: &[u8] =
    b"{\"labels\":[{\"name\":\"a\"},{\"name\":\"b\"},{\"name\":\"r\",\"min-ready\":100,\"max-ready-age\":1},{\"name\":\"z\"}],\"providers\":[{\"name\":\"c\",\"pools\":[{\"name\":\"m\",\"max-cores\":4,\"labels\":[{\"name\":\"a\"},{\"name\":\"b\",\"cores\":8},{\"name\":\"r\",\"cores\":0}]},{\"name\":\"n\",\"max-servers\":0,\"labels\":[{\"name\":\"a\"}]}]}],\"semaphores\":[{\"name\":\"s\"},{\"name\":\"t\"}],\"tenants\":[{\"name\":\"u\",\"max-servers\":1},{\"name\":\"v\"}],\"requesters\":[{\"name\":\"q\",\"jobs\":[{\"name\":\"x\",\"labels\":[\"a\",\"z\"]},{\"name\":\"y\",\"labels\":[\"a\",\"a\",\"a\",\"a\",\"a\"]},{\"name\":\"w\",\"labels\":[\"a\",\"a\"],\"tenant\":\"u\",\"semaphores\":[\"s\"]},{\"name\":\"fine\",\"labels\":[\"a\"]}]}]}";

const ALL_TOLD: &[u8] =
    b"label r: max-ready-age is too low for min-ready, so that nodes are made and removed again and again\nlabel z: no pool offers it\npool c/m, label b: one node exceeds a limit of the pool\npool c/n: it can have no node, since it offers no label that is within its limits\nsemaphore t: no job takes it\ntenant v: no job is of it\njob q/x: no pool offers all its labels\njob q/y: its nodes together exceed a limit of each pool that offers all its labels\njob q/w: its nodes together exceed a limit of its tenant in each pool that could serve it\n";

const PLAIN: &[u8] =
    b"{\"labels\":[{\"name\":\"a\"}],\"providers\":[{\"name\":\"c\",\"pools\":[{\"name\":\"m\",\"labels\":[{\"name\":\"a\"}]}]}]}";

#[test]
fn each_finding_has_its_line(rt: HostRuntime) {
    assert!(&rt; is_told(rt.alloc(), ALL, ALL_TOLD, Verdict::Surprising));
    assert!(&rt; is_told(rt.alloc(), PLAIN, b"", Verdict::Quiet));
}

const NEAR: &[u8] =
    b"{\n  \"labels\": [{\"name\": \"a\", \"min-redy\": 2}],\n  \"providers\": []\n}";

const NEAR_TOLD: &[u8] =
    b"line 2, column 29: unknown-key #/labels/0: \"min-redy\"; the nearest key is \"min-ready\"\n";

const SWAPPED: &[u8] = b"{\n  \"labels\": [],\n  \"lables\": {\"labels\": [1, {\"x\": 2}]}\n}";

const SWAPPED_TOLD: &[u8] =
    b"line 3, column 4: unknown-key #: \"lables\"; the nearest key is \"labels\"\n";

const FAR: &[u8] = b"{\"labels\":[{\"name\":\"a\",\"colour\":[{\"a\":\"]}\"},1]}]}";

const FAR_TOLD: &[u8] = b"line 1, column 25: unknown-key #/labels/0: \"colour\"\n";

const MISSING: &[u8] = b"{\n  \"labels\": [\n    {}\n  ]\n}";

const MISSING_TOLD: &[u8] = b"line 3, column 5: missing #/labels/0/name\n";

const RANGE: &[u8] = b"{\"labels\":[],\n\"max-hold-age\" : 1000001}";

const RANGE_TOLD: &[u8] = b"line 2, column 18: out-of-range #/max-hold-age\n";

const LAST: &[u8] = b"{\"labels\":[{\"name\":7}],\"labels\":[{\"name\":\"\\\"a]\"},{\"name\":8}]}";

const LAST_TOLD: &[u8] = b"line 1, column 42: bad-name #/labels/0/name\n";

const BROKEN: &[u8] = b"{\n  \"labels\": [,]\n}";

const BROKEN_TOLD: &[u8] = b"line 2, column 14: not-json #\n";

const DEEP: &[u8] =
    b"{\"labels\":[{\"name\":\"a\"}],\"providers\":[{\"name\":\"c\",\"pools\":[{\"name\":\"m\",\"fail-starts\":[1,2],\"labels\":[{\"name\":\"a\"},{\"cores\":1001,\"name\":\"a\"}]},{}]}]}";

const DEEP_TOLD: &[u8] = b"line 1, column 136: repeated #/providers/0/pools/0/labels/1/name\n";

#[test]
fn a_fault_is_located(rt: HostRuntime) {
    assert!(&rt; is_told(rt.alloc(), NEAR, NEAR_TOLD, Verdict::Faulty));
    assert!(&rt; is_told(rt.alloc(), SWAPPED, SWAPPED_TOLD, Verdict::Faulty));
    assert!(&rt; is_told(rt.alloc(), FAR, FAR_TOLD, Verdict::Faulty));
    assert!(&rt; is_told(rt.alloc(), MISSING, MISSING_TOLD, Verdict::Faulty));
    assert!(&rt; is_told(rt.alloc(), RANGE, RANGE_TOLD, Verdict::Faulty));
    assert!(&rt; is_told(rt.alloc(), LAST, LAST_TOLD, Verdict::Faulty));
    assert!(&rt; is_told(rt.alloc(), BROKEN, BROKEN_TOLD, Verdict::Faulty));
    assert!(&rt; is_told(rt.alloc(), DEEP, DEEP_TOLD, Verdict::Faulty));
}
