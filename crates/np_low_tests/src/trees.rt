//! The coordination tree: each call, several in one call, the order of children, full sizes, and
//! ZooKeeper's codes.

ghost use Rattle.std.specs.Prelude.{◌≡◌, true, IfOk};
ghost use Rattle.np_layout.specs.Prelude.{OnTrue, is_numbered, list_all};

use Call::{Check, Create, CreateUnder, Delete, Raise, Set};
use Told::{At, Done, No, Not, Version};
use np_path::{Path, PathFault};
use np_tree::Expect::Exactly;
use np_tree::Mode::{Ephemeral, EphemeralSequential};
use np_tree::TreeRefusal::{
    BadVersion, ChangesSpent, NoChildrenForEphemerals, NoNode, NodeExists, NotEmpty, RootKept,
    SequenceSpent, SessionExpired, TooLarge,
};
use np_tree::{Bytes, Expect, Mode, MultiFault, Op, Stat, Tree, TreeFault, TreeRefusal};
use std::alloc::{AllocError, Global};

/// A call with no bytes.
#[derive(Clone, Copy)]
pub(crate) enum Call {
    Create(&'static str, Mode),
    CreateUnder(&'static str),
    Set(&'static str, Expect),
    Delete(&'static str, Expect),
    Check(&'static str, Expect),
    Raise(&'static str, u32),
}

/// What it is answered.
#[derive(Clone, Copy)]
pub(crate) enum Told {
    At(&'static str),
    Version(u64),
    Done,
    Not,
    No(TreeRefusal),
}

fn path_of(call: Call) -> &'static str {
    match call {
        Create(path, _)
        | CreateUnder(path)
        | Set(path, _)
        | Delete(path, _)
        | Check(path, _)
        | Raise(path, _) => path,
    }
}

fn tells_fault(fault: TreeFault, told: Told) -> bool {
    matches!(told, No(want) if fault == TreeFault::Refused(want))
}

fn tells_path(answer: Result<Path, TreeFault>, told: Told) -> bool {
    match answer {
        Ok(path) => matches!(told, At(want) if path.text() == want),
        Err(fault) => tells_fault(fault, told),
    }
}

fn tells_version(answer: Result<u64, TreeFault>, told: Told) -> bool {
    match answer {
        Ok(version) => matches!(told, Version(want) if version == want),
        Err(fault) => tells_fault(fault, told),
    }
}

fn tells_done(answer: Result<(), TreeFault>, told: Told) -> bool {
    match answer {
        Ok(()) => matches!(told, Done),
        Err(fault) => tells_fault(fault, told),
    }
}

fn tells_raised(raised: bool, told: Told) -> bool {
    match told {
        Done => raised,
        Not => !raised,
        At(_) | Version(_) | No(_) => false,
    }
}

fn tells_at(tree: &mut Tree, session: u32, path: &Path, call: Call, told: Told) -> bool {
    match call {
        Create(_, mode) => tells_path(tree.create(session, path, b"", mode), told),
        CreateUnder(_) => {
            let answer = tree.create_under(session, path, b"", Mode::PersistentSequential);
            tells_path(answer, told)
        }
        Set(_, expect) => tells_version(tree.set(session, path, b"", expect), told),
        Delete(_, expect) => tells_done(tree.delete(session, path, expect), told),
        Check(_, expect) => {
            let answer = tree.check(session, path, expect);
            tells_done(answer.map_err(TreeFault::Refused), told)
        }
        Raise(_, to) => tells_raised(tree.raise_counter(path, to), told),
    }
}

fn tells(alloc: Global, tree: &mut Tree, session: u32, call: Call, told: Told) -> bool {
    matches!(Path::new(alloc, path_of(call)), Ok(path)
        if tells_at(tree, session, &path, call, told))
}

/// Whether each call is told what stands beside it.
pub(crate) fn tells_all(alloc: Global, tree: &mut Tree, rows: &[(u32, Call, Told)]) -> bool {
    every!((session, call, told) in rows => tells(alloc, tree, *session, *call, *told))
}

/// Whether so many sessions begin, the first of the tree among them.
pub(crate) fn begins(tree: &mut Tree, count: u32) -> bool {
    every!(want in 1..=count =>
        tree.reserve_session().is_ok() && tree.begin_session() == Ok(want))
}

const ANY: Expect = Expect::Any;

/// Nodes that stay.
pub(crate) const PLAIN: Mode = Mode::Persistent;

const NUMBERED: Mode = Mode::PersistentSequential;

// Calls in turn, by session: 1 is live and 2 is over.
const ROWS: [(u32, Call, Told); 25] = [
    (1, Create("/a", PLAIN), At("/a")),
    (1, Set("/a", ANY), Version(1)),
    (1, Set("/a", Exactly(0)), No(BadVersion { kept: 1 })),
    (1, Check("/a", Exactly(1)), Done),
    (1, Create("/a/b", PLAIN), At("/a/b")),
    (1, Delete("/a", ANY), No(NotEmpty { children: 1 })),
    (1, Delete("/a/b", ANY), Done),
    (1, Delete("/a", Exactly(1)), Done),
    (1, Check("/a", ANY), No(NoNode)),
    (1, Create("/e", Ephemeral), At("/e")),
    (1, Create("/e/x", PLAIN), No(NoChildrenForEphemerals)),
    (1, Create("/q", PLAIN), At("/q")),
    (1, CreateUnder("/q"), At("/q/0000000000")),
    (
        1,
        Create("/q/t-", EphemeralSequential),
        At("/q/t-0000000001"),
    ),
    (1, Create("/q/t-0000000002", PLAIN), At("/q/t-0000000002")),
    (1, Create("/q/t-", NUMBERED), No(NodeExists)),
    (1, Raise("/q", 2_147_483_647), Done),
    (1, Raise("/q", 2_147_483_647), Not),
    (1, Raise("/q", 2_147_483_649), Not),
    (1, Raise("/zz", 1), Not),
    (1, Create("/q/t-", NUMBERED), At("/q/t-2147483647")),
    (1, CreateUnder("/q"), No(SequenceSpent)),
    (1, Create("/", PLAIN), No(NodeExists)),
    (1, Delete("/", ANY), No(RootKept)),
    (2, Set("/zz", ANY), No(SessionExpired)),
];

// Eight creates, a set, two deletes, and the end of session 2.
fn is_changed(tree: &Tree) -> bool {
    tree.counter("/q") == Some(2_147_483_648) && tree.changes() == 12 && tree.is_live(1)
}

fn takes_calls(alloc: Global, tree: &mut Tree) -> bool {
    begins(tree, 3)
        && tree.end_session(2)
        && tells_all(alloc, tree, &ROWS)
        && is_changed(tree)
        && tree.end_session(3)
        && tree.exists("/e").is_some()
        && tree.end_session(1)
        && tree.exists("/e").is_none()
        && !tree.end_session(1)
}

// The tree is borrowed by what may fail in many places, here and below.
fn calls_are_answered(alloc: Global) -> bool {
    match Tree::new(alloc) {
        Ok(mut tree) => takes_calls(alloc, &mut tree),
        Err(_) => false
    }
}

// A part of a call, with no bytes.
fn part_of(alloc: Global, call: Call) -> Result<Op, PathFault>
    ensures { IfOk result (λ part. is_numbered part ≡ true) }
{
    let path = Path::new(alloc, path_of(call))?;
    let bytes = Bytes::new(Vec::new(alloc));
    Ok(match call {
        Create(_, mode) => Op::Create { path, bytes, mode },
        CreateUnder(_) | Raise(_, _) => Op::CreateUnder {
            parent: path,
            bytes,
            mode: EphemeralSequential,
        },
        Set(_, expect) => Op::Set {
            path,
            bytes,
            expect,
        },
        Delete(_, expect) => Op::Delete { path, expect },
        Check(_, expect) => Op::Check { path, expect },
    })
}

// Adds these parts, as long as memory is found.
fn adds(alloc: Global, ops: &mut Vec<Op>, calls: &[Call]) -> bool
    requires { list_all is_numbered ops.old.items ≡ true }
    ensures { OnTrue result (list_all is_numbered ops.new.items ≡ true) }
{
    for call in calls {
        let Ok(part) = part_of(alloc, *call) else {
            return false;
        };
        if ops.push(part).is_err() {
            return false;
        }
    }
    true
}

// Whether session 1 does all parts.
fn does(tree: &mut Tree, ops: &[Op]) -> bool
    requires { list_all is_numbered ops.now ≡ true }
{
    if ops.len() > 4_294_967_295 {
        return false;
    }
    matches!(tree.multi(1, ops), Ok(done) if done.len() == ops.len())
}

// Whether it is stopped at a part, which is refused.
fn stops(tree: &mut Tree, ops: &[Op], want: MultiFault) -> bool
    requires { list_all is_numbered ops.now ≡ true }
{
    if ops.len() > 4_294_967_295 {
        return false;
    }
    match tree.multi(1, ops) {
        Ok(_) => false,
        Err(fault) => fault == want,
    }
}

/// Whether session 1 does all these calls as the parts of one.
fn does_all(alloc: Global, tree: &mut Tree, calls: &[Call]) -> bool {
    let mut ops = Vec::new(alloc);
    adds(alloc, &mut ops, calls) && does(tree, &ops)
}

fn stops_at(alloc: Global, tree: &mut Tree, calls: &[Call], want: MultiFault) -> bool {
    let mut ops = Vec::new(alloc);
    adds(alloc, &mut ops, calls) && stops(tree, &ops, want)
}

const MADE: [(u32, Call, Told); 2] = [
    (1, Create("/a", PLAIN), At("/a")),
    (1, Create("/a/e", Ephemeral), At("/a/e")),
];

// A part of each kind.
const PARTS: [Call; 5] = [
    Delete("/a/e", ANY),
    CreateUnder("/a"),
    Set("/a", Exactly(0)),
    Create("/c", PLAIN),
    Check("/c", Exactly(0)),
];

const LAST: [Call; 2] = [Delete("/c", ANY), Check("/c", Exactly(0))];

const REFUSED: MultiFault = MultiFault::Refused {
    index: 1,
    refusal: NoNode,
};

// Created by the first change, and changed by the third, which removed one child and made another.
const CHANGED: Stat = Stat {
    czxid: 1,
    mzxid: 3,
    pzxid: 3,
    version: 1,
    owner: None,
    children: 1,
};

fn takes_parts(alloc: Global, tree: &mut Tree) -> bool {
    begins(tree, 1)
        && tells_all(alloc, tree, &MADE)
        && does_all(alloc, tree, &PARTS)
        && tree.get("/a") == Some((b"".as_slice(), CHANGED))
        && stops_at(alloc, tree, &LAST, REFUSED)
        && tree.exists("/c").is_some()
}

fn parts_are_all_done_or_none(alloc: Global) -> bool {
    match Tree::new(alloc) {
        Ok(mut tree) => takes_parts(alloc, &mut tree),
        Err(_) => false
    }
}

const PARENTS: [(u32, Call, Told); 6] = [
    (1, Create("/a", PLAIN), At("/a")),
    (1, Create("/a-", PLAIN), At("/a-")),
    (1, Create("/a/c", PLAIN), At("/a/c")),
    (1, Create("/a/B", PLAIN), At("/a/B")),
    (1, Create("/a/c/d", PLAIN), At("/a/c/d")),
    (1, Create("/a/c-", PLAIN), At("/a/c-")),
];

// Paths, places, and the names of the children there.
const CHILDREN: [(&str, u32, Option<&str>); 9] = [
    ("/a", 0, Some("B")),
    ("/a", 1, Some("c")),
    ("/a", 2, Some("c-")),
    ("/a", 3, None),
    ("/", 0, Some("a")),
    ("/", 1, Some("a-")),
    ("/a/c", 0, Some("d")),
    ("", 0, None),
    ("/a/", 0, None),
];

fn has_children(tree: &Tree) -> bool {
    every!((path, at, want) in &CHILDREN =>
        tree.child_at(path, *at) == *want
            && tree.child_stat(path, *at).is_some() == want.is_some())
}

fn children_stand_in_byte_order(alloc: Global) -> bool {
    match Tree::new(alloc) {
        Ok(mut tree) => begins(&mut tree, 1)
            && tells_all(alloc, &mut tree, &PARENTS)
            && has_children(&tree),
        Err(_) => false
    }
}

#[test]
fn calls_are_answered_in_turn(rt: HostRuntime) {
    let alloc = rt.alloc();
    assert!(rt; calls_are_answered(alloc), "each call");
    assert!(rt; parts_are_all_done_or_none(alloc), "several in one");
    assert!(rt; children_stand_in_byte_order(alloc), "children");
}

// A prefix of 54 bytes, so that its sequence nodes have names of 64.
const LONG: &str = "/q/aaaaaaaaaabbbbbbbbbbccccccccccddddddddddeeeeeeeeeeffff";

const PARENT: [(u32, Call, Told); 1] = [(1, Create("/q", PLAIN), At("/q"))];

const FORTY: [Call; 40] = [Create(LONG, EphemeralSequential); 40];

fn creates(tree: &mut Tree, path: &Path, bytes: &[u8], count: u32) -> bool {
    every!(_ in 0..count => tree.create(1, path, bytes, EphemeralSequential).is_ok())
}

fn has_as_many_as(tree: &Tree, count: u32) -> bool {
    matches!(tree.exists("/q"), Some(stat) if stat.children == count)
}

// 340 nodes with names of 64 bytes.
fn takes_nodes(alloc: Global, tree: &mut Tree, path: &Path) -> bool {
    begins(tree, 1)
        && tells_all(alloc, tree, &PARENT)
        && creates(tree, path, b"7", 300)
        && does_all(alloc, tree, &FORTY)
        && has_as_many_as(tree, 340)
        && tree.child_stat("/q", 339).is_some()
}

// A node may have 65,536 bytes, and not one more.
fn takes_bytes(tree: &mut Tree, path: &Path, bytes: &[u8]) -> bool {
    match bytes {
        [most @ .., _] => {
            most.len() == 65_536
                && !creates(tree, path, bytes, 1)
                && creates(tree, path, most, 1)
                && has_as_many_as(tree, 341)
        }
        [] => false,
    }
}

fn grows(alloc: Global, tree: &mut Tree) -> bool {
    match (Path::new(alloc, LONG), large(alloc)) {
        (Ok(path), Ok(bytes)) => {
            takes_nodes(alloc, tree, &path)
                && takes_bytes(tree, &path, &bytes)
                && tree.end_session(1)
                && has_as_many_as(tree, 0)
        }
        (Ok(_), Err(_)) | (Err(_), _) => false,
    }
}

// One byte more than a node may have.
fn large(alloc: Global) -> Result<Vec<u8>, AllocError> {
    vec![in alloc; 7u8; 65_537]
}

fn a_tree_grows(alloc: Global) -> bool {
    match Tree::new(alloc) {
        Ok(mut tree) => grows(alloc, &mut tree),
        Err(_) => false
    }
}

#[test]
fn a_tree_at_full_size(rt: HostRuntime) {
    assert!(rt; a_tree_grows(rt.alloc()));
}

// ZooKeeper's codes.
const CODES: [(TreeRefusal, Option<i32>); 10] = [
    (SessionExpired, Some(-112)),
    (NoNode, Some(-101)),
    (NoChildrenForEphemerals, Some(-108)),
    (NodeExists, Some(-110)),
    (BadVersion { kept: 7 }, Some(-103)),
    (NotEmpty { children: 7 }, Some(-111)),
    (SequenceSpent, None),
    (TooLarge, None),
    (ChangesSpent, None),
    (RootKept, None),
];

fn refusals_have_codes() -> bool {
    every!((refusal, code) in &CODES => refusal.code() == *code)
}

#[test]
fn codes_are_those_of_zookeeper(rt: HostRuntime) {
    assert!(rt; refusals_have_codes());
}
