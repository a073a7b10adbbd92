//! The five records, in all their forms and at their full sizes.

ghost use Rattle.std.specs.Prelude.{ℕ, List};

use np_record::{JobRecord, NodeRecord, NodeRow, RequestRecord, RoleRecord, SessionRecord};
use np_spelling::{BadRecord, Record};
use np_text::NodeId;
use std::alloc::{AllocError, Global};

const ROLES: [&[u8]; 2] = [
    b"{\"acts\":5,\"starts\":2,\"strikes\":0}",
    b"{\"acts\":4294967295,\"starts\":0,\"strikes\":10}",
];

const SESSIONS: [&[u8]; 3] = [
    b"{\"mute\":false,\"role\":\"launcher-0\"}",
    b"{\"mute\":true,\"role\":\"janitor-65535\"}",
    b"{\"mute\":false,\"role\":\"requester-12\"}",
];

const NODES: [&[u8]; 4] = [
    b"{\"allocated-to\":\"200-0000000000\",\"attempts\":1,\"in-flight\":false,\"label\":0,\"pool\":0,\"server\":1,\"since\":0,\"start\":1,\"state\":\"ready\",\"tenant\":0}",
    b"{\"attempts\":255,\"in-flight\":true,\"label\":3,\"pool\":2,\"since\":7,\"start\":0,\"state\":\"building\",\"tenant\":\"none\"}",
    b"{\"allocated-to\":\"999-4294967295\",\"attempts\":0,\"in-flight\":false,\"label\":0,\"pool\":0,\"since\":0,\"start\":0,\"state\":\"in-use\",\"tenant\":64}",
    b"{\"attempts\":0,\"in-flight\":false,\"label\":0,\"pool\":0,\"server\":18446744073709551615,\"since\":0,\"start\":0,\"state\":\"deleting\",\"tenant\":1}",
];

const JOBS: [&[u8]; 6] = [
    b"{\"nodes\":[],\"phase\":\"new\"}",
    b"{\"nodes\":[],\"phase\":\"asked\",\"request\":\"100-0000000001\"}",
    b"{\"nodes\":[[0,false],[4294967295,true]],\"phase\":\"using\",\"pool\":0,\"request\":\"200-0000000000\"}",
    b"{\"ending\":\"served\",\"nodes\":[[0,true]],\"phase\":\"over\",\"pool\":0,\"request\":\"200-0000000000\"}",
    b"{\"ending\":\"failed\",\"nodes\":[],\"phase\":\"over\",\"request\":\"200-0000000000\"}",
    b"{\"ending\":\"withdrawn\",\"nodes\":[],\"phase\":\"over\"}",
];

const REQUESTS: [&[u8]; 4] = [
    b"{\"declined\":[[0,\"never-fits\"]],\"job\":0,\"labels\":[0,0],\"nodes\":[],\"relative-priority\":0,\"state\":\"failed\"}",
    b"{\"declined\":[],\"labels\":[0],\"nodes\":[0],\"pinned\":0,\"pool\":0,\"relative-priority\":0,\"state\":\"pending\"}",
    b"{\"declined\":[[1,\"no-label-l3\"],[2,\"spent-n7\"],[3,\"tenant-never-fits\"]],\"job\":9,\"labels\":[1],\"nodes\":[5],\"pool\":63,\"relative-priority\":12,\"state\":\"fulfilled\"}",
    b"{\"declined\":[],\"labels\":[],\"nodes\":[],\"pinned\":5,\"relative-priority\":1000000,\"state\":\"requested\"}",
];

// Whether the bytes are read as a record that is written as the same bytes.
fn is_written_again<T: Record + Drop>(alloc: Global, bytes: &[u8]) -> bool
    requires { (v : T) (spelled : List ℕ) → T.spells v spelled → T.is_sound v }
{
    matches!(T::read(bytes), Ok(found)
        if matches!(found.text(alloc), Ok(text) if text.as_slice() == bytes))
}

fn are_written_again<T: Record + Drop>(alloc: Global, rows: &[&[u8]]) -> bool
    requires { (v : T) (spelled : List ℕ) → T.spells v spelled → T.is_sound v }
{
    every!(bytes in rows => is_written_again::<T>(alloc, bytes))
}

// Texts that are no role, and the places where no role goes on.
const FAULTS: [(&[u8], usize); 5] = [
    (b"", 0),
    (b"{\"acts\": 5}", 8),
    (b"{\"acts\":4294967296,", 17),
    (b"{\"acts\":01,", 9),
    (b"{\"acts\":5,\"starts\":2,\"strikes\":0} ", 33),
];

fn roles_stop_where_none_goes_on() -> bool {
    every!((bytes, place) in &FAULTS =>
        RoleRecord::read(bytes).err() == Some(BadRecord { place: *place }))
}

#[test]
fn records_are_read_and_written_again(rt: HostRuntime) {
    let alloc = rt.alloc();
    assert!(rt; are_written_again::<RoleRecord>(alloc, &ROLES), "roles");
    assert!(rt;
        are_written_again::<SessionRecord>(alloc, &SESSIONS),
        "sessions"
    );
    assert!(rt; are_written_again::<NodeRecord>(alloc, &NODES), "nodes");
    assert!(rt; are_written_again::<JobRecord>(alloc, &JOBS), "jobs");
    assert!(rt;
        are_written_again::<RequestRecord>(alloc, &REQUESTS),
        "requests"
    );
    assert!(rt; roles_stop_where_none_goes_on(), "faults");
}

// Puts the item so many times, with commas between, in brackets.
fn put_items(text: &mut Vec<u8>, item: &[u8], count: usize) -> Result<(), AllocError> {
    text.extend_from_slice(b"[")?;
    text.extend_from_slice(item)?;
    for _ in 1..count {
        text.extend_from_slice(b",")?;
        text.extend_from_slice(item)?;
    }
    text.extend_from_slice(b"]")
}

// A job with so many nodes.
fn put_job(text: &mut Vec<u8>, count: usize) -> Result<(), AllocError> {
    text.extend_from_slice(b"{\"nodes\":")?;
    put_items(text, b"[4294967295,false]", count)?;
    text.extend_from_slice(b",\"phase\":\"new\"}")
}

// A request that so many pools declined.
fn put_request(text: &mut Vec<u8>, count: usize) -> Result<(), AllocError> {
    text.extend_from_slice(b"{\"declined\":")?;
    put_items(text, b"[65535,\"spent-n4294967295\"]", count)?;
    text.extend_from_slice(
        b",\"labels\":[0],\"nodes\":[],\"pinned\":1,\"relative-priority\":4294967295,\"state\":\"failed\"}",
    )
}

fn jobs_take_32_nodes(alloc: Global) -> bool {
    let mut full = Vec::new(alloc);
    let mut longer = Vec::new(alloc);
    put_job(&mut full, 32).is_ok()
        && is_written_again::<JobRecord>(alloc, &full)
        && put_job(&mut longer, 33).is_ok()
        && JobRecord::read(&longer).err() == Some(BadRecord { place: 617 })
}

fn requests_take_64_declines(alloc: Global) -> bool {
    let mut full = Vec::new(alloc);
    let mut longer = Vec::new(alloc);
    put_request(&mut full, 64).is_ok()
        && is_written_again::<RequestRecord>(alloc, &full)
        && put_request(&mut longer, 65).is_ok()
        && RequestRecord::read(&longer).err() == Some(BadRecord { place: 1_804 })
}

fn a_copy_is_its_own_row() -> bool {
    let mut row = NodeRow::new();
    let mut other = row;
    row.push(NodeId(7))
        && other.is_empty()
        && other.push(NodeId(8))
        && row.items() == [NodeId(7)].as_slice()
        && other.at(0) == Some(NodeId(8))
        && other.len() == 1
}

#[test]
fn full_lists_end(rt: HostRuntime) {
    assert!(rt; jobs_take_32_nodes(rt.alloc()), "jobs");
    assert!(rt; requests_take_64_declines(rt.alloc()), "requests");
    assert!(rt; a_copy_is_its_own_row(), "copies");
}
