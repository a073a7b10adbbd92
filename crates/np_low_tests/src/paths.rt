//! Paths of ZooKeeper's grammar, and those of a machine's places.

use np_layout::{PathText, Place, to_path};
use np_path::{Path, PathFault, halves};
use np_text::{JobId, NodeId, PoolId, RequestId, Role, SemId, SessionId};
use std::alloc::Global;

// Paths with their parents and names.
const PATHS: [(&str, Option<&str>, &str); 6] = [
    ("/", None, ""),
    ("/a", Some("/"), "a"),
    ("/a/b-c/0000000007", Some("/a/b-c"), "0000000007"),
    ("/...", Some("/"), "..."),
    ("/.a/b..", Some("/.a"), "b.."),
    ("/é/ü", Some("/é"), "ü"),
];

fn has_parts(alloc: Global, text: &str, parent: Option<&str>, name: &str) -> bool {
    matches!(Path::new(alloc, text), Ok(path)
        if path.text() == text && path.parent() == parent && path.name() == name)
}

fn paths_have_parents_and_names(alloc: Global) -> bool {
    every!((text, parent, name) in &PATHS => has_parts(alloc, text, *parent, name))
}

// What stands on both sides of a text's last slash, and of a path's.
fn texts_have_halves(alloc: Global) -> bool {
    halves(b"//x") == Some((b"/".as_slice(), b"x".as_slice()))
        && halves(b"x").is_none()
        && matches!(Path::new(alloc, "/a/b"), Ok(path)
            if path.halves() == (b"/a".as_slice(), b"b".as_slice()))
}

// Texts that are no path (ZooKeeper Programmer's Guide), and the places of their first faults.
const FAULTS: [(&str, usize); 14] = [
    ("", 0),
    ("a/b", 0),
    ("//", 1),
    ("/a/", 3),
    ("/a//b", 3),
    ("/a/..", 3),
    ("/./a", 1),
    ("/..", 1),
    ("/a/..b//", 7),
    ("/a\u{1f}", 2),
    ("/\u{7f}", 1),
    ("/a\n//", 2),
    ("/a//\n", 3),
    ("/é/\n", 4),
];

fn is_bad(made: Result<Path, PathFault>, place: usize) -> bool {
    match made {
        Ok(_) => false,
        Err(fault) => fault == PathFault::Bad { place },
    }
}

fn faults_have_places(alloc: Global) -> bool {
    every!((text, place) in &FAULTS => is_bad(Path::new(alloc, text), *place))
}

fn has_text(made: Result<Path, PathFault>, text: &str) -> bool {
    matches!(made, Ok(path) if path.text() == text)
}

// A child is named by an element, and a sequence node's name ends in ten digits.
fn names_its_children(queue: &Path) -> bool {
    has_text(queue.child("..b"), "/q/..b")
        && is_bad(queue.child(""), 0)
        && is_bad(queue.child(".."), 0)
        && is_bad(queue.child("b/c"), 0)
        && has_text(queue.sequence_child("t-", 42), "/q/t-0000000042")
        && has_text(queue.sequence_child("..", u32::MAX), "/q/..4294967295")
        && is_bad(queue.sequence_child("a/", 1), 0)
}

fn a_path_names_its_children(alloc: Global) -> bool {
    matches!(Path::new(alloc, "/q"), Ok(queue) if names_its_children(&queue))
}

#[test]
fn paths_are_read(rt: HostRuntime) {
    let alloc = rt.alloc();
    assert!(rt; paths_have_parents_and_names(alloc), "parents and names");
    assert!(rt; texts_have_halves(alloc), "halves");
    assert!(rt; faults_have_places(alloc), "faults");
    assert!(rt; a_path_names_its_children(alloc), "children");
}

const ID: RequestId = RequestId {
    priority: 200,
    seq: 7,
};

// Places and their texts (docs/LAYOUT.md).
const PLACES: [(Place, &str); 7] = [
    (Place::Root, "/"),
    (
        Place::RequestWait(ID, 3),
        "/nodepool/requests-lock/200-0000000007/lock-0000000003",
    ),
    (
        Place::NodeWait(NodeId(12), 3),
        "/nodepool/nodes/0000000012/lock/lock-0000000003",
    ),
    (Place::Handle(SemId(0), JobId(30)), "/zuul/semaphores/0/30"),
    (Place::JanitorRole(PoolId(2)), "/poolsim/roles/janitor-2"),
    (Place::Session(SessionId(1)), "/poolsim/sessions/0000000001"),
    (
        Place::Swept(NodeId(0), u64::MAX),
        "/poolsim/swept/0000000000-18446744073709551615",
    ),
];

fn places_have_texts() -> bool {
    every!((place, text) in PLACES => PathText::of(place).text() == text)
}

fn a_place_has_a_path(alloc: Global) -> bool {
    matches!(to_path(alloc, Place::Job(JobId(7))), Ok(path) if path.text() == "/poolsim/jobs/7")
}

#[test]
fn places_are_paths(rt: HostRuntime) {
    assert!(rt; places_have_texts(), "texts");
    assert!(rt; a_place_has_a_path(rt.alloc()), "a path");
    let role = Place::of_role(Role::Janitor(PoolId(2)));
    assert!(rt; role == Some(Place::JanitorRole(PoolId(2))), "a role");
    assert!(rt; Place::of_role(Role::Reaper).is_none(), "the reaper");
}
