//! Locks: each call, parts that join and leave, and 340 sessions in a queue.

ghost use Rattle.std.specs.Prelude.{◌≡◌, true};
ghost use Rattle.np_layout.specs.Prelude.{OnTrue, is_numbered};
ghost use Rattle.np_lock.specs.Calls.{IsLock};

use crate::trees::{Call as TreeCall, PLAIN, Told as TreeTold, begins, tells_all};
use np_lock::{
    LockFault, Place, Tried, enqueue, enqueue_op, holder, release, release_op, try_lock, waiting_at,
};
use np_path::Path;
use np_tree::{Op, Tree, TreeRefusal};
use std::alloc::Global;

// A call of a lock.
#[derive(Clone, Copy)]
enum Call {
    Enqueue,
    TryLock,
    Release,
    End,
    Holder,
    WaitingAt(u32),
}

// What it is answered.
#[derive(Clone, Copy)]
enum Told {
    Place(Place),
    Tried(Tried),
    Was(bool),
    Session(Option<u32>),
    No(TreeRefusal),
}

fn tells_fault(fault: LockFault, told: Told) -> bool {
    matches!(told, Told::No(want) if fault == LockFault::Refused(want))
}

fn tells_place(answer: Result<Place, LockFault>, told: Told) -> bool {
    match answer {
        Ok(place) => matches!(told, Told::Place(want) if place == want),
        Err(fault) => tells_fault(fault, told),
    }
}

fn tells_tried(answer: Result<Tried, LockFault>, told: Told) -> bool {
    match answer {
        Ok(tried) => matches!(told, Told::Tried(want) if tried == want),
        Err(fault) => tells_fault(fault, told),
    }
}

fn tells_was(answer: Result<bool, LockFault>, told: Told) -> bool {
    match answer {
        Ok(was) => matches!(told, Told::Was(want) if was == want),
        Err(fault) => tells_fault(fault, told),
    }
}

fn tells_session(session: Option<u32>, told: Told) -> bool {
    matches!(told, Told::Session(want) if session == want)
}

fn ends(tree: &mut Tree, dir: &Path, session: u32) -> bool
    requires { IsLock tree.old dir.now }
    ensures { IsLock tree.new dir.now }
{
    let _ = dir.text();
    let _ = tree.changes();
    tree.end_session(session)
}

fn tells(tree: &mut Tree, dir: &Path, session: u32, call: Call, told: Told) -> bool
    requires { IsLock tree.old dir.now }
    ensures { IsLock tree.new dir.now }
{
    match call {
        Call::Enqueue => tells_place(enqueue(tree, session, dir), told),
        Call::TryLock => tells_tried(try_lock(tree, session, dir), told),
        Call::Release => tells_was(release(tree, session, dir), told),
        Call::End => tells_was(Ok(ends(tree, dir, session)), told),
        Call::Holder => tells_session(holder(tree, dir.text()), told),
        Call::WaitingAt(at) => tells_session(waiting_at(tree, dir.text(), at), told),
    }
}

// Whether each call is told what stands beside it.
fn tell_all(tree: &mut Tree, dir: &Path, rows: &[(u32, Call, Told)]) -> bool
    requires { IsLock tree.old dir.now }
    ensures { IsLock tree.new dir.now }
{
    let mut all = true;
    for (session, call, told) in rows {
        let is_told = tells(tree, dir, *session, *call, *told);
        all = all && is_told;
    }
    all
}

// A directory without children is a lock.
fn is_lock(tree: &Tree, dir: &Path) -> bool
    ensures { OnTrue result (IsLock tree.now dir.now) }
{
    match tree.child_stat(dir.text(), 0) {
        Some(_) => false,
        None => true,
    }
}

// The same of a directory by its path.
fn tell_all_at(alloc: Global, tree: &mut Tree, path: &str, rows: &[(u32, Call, Told)]) -> bool {
    matches!(Path::new(alloc, path), Ok(dir) if is_lock(tree, &dir) && tell_all(tree, &dir, rows))
}

// Directories, and one whose counter is spent.
const DIRECTORIES: [(u32, TreeCall, TreeTold); 4] = [
    (1, TreeCall::Create("/k", PLAIN), TreeTold::At("/k")),
    (1, TreeCall::Create("/l", PLAIN), TreeTold::At("/l")),
    (1, TreeCall::Create("/s", PLAIN), TreeTold::At("/s")),
    (1, TreeCall::Raise("/s", 2_147_483_648), TreeTold::Done),
];

// Each call, of sessions 1 to 3 of four.
const CALLS: [(u32, Call, Told); 22] = [
    (1, Call::Holder, Told::Session(None)),
    (1, Call::Release, Told::Was(false)),
    (1, Call::TryLock, Told::Tried(Tried::Held)),
    (1, Call::TryLock, Told::Tried(Tried::Held)),
    (1, Call::Enqueue, Told::Place(Place::Held)),
    (2, Call::Enqueue, Told::Place(Place::Queued { ahead: 1 })),
    (3, Call::Enqueue, Told::Place(Place::Queued { ahead: 2 })),
    (3, Call::Enqueue, Told::Place(Place::Queued { ahead: 2 })),
    (2, Call::TryLock, Told::Tried(Tried::Busy { holder: 1 })),
    (1, Call::Holder, Told::Session(Some(1))),
    (1, Call::WaitingAt(2), Told::Session(Some(3))),
    (1, Call::WaitingAt(3), Told::Session(None)),
    (2, Call::Release, Told::Was(true)),
    (2, Call::Release, Told::Was(false)),
    (2, Call::Enqueue, Told::Place(Place::Queued { ahead: 2 })),
    (1, Call::End, Told::Was(true)),
    (1, Call::Holder, Told::Session(Some(3))),
    (1, Call::Enqueue, Told::No(TreeRefusal::SessionExpired)),
    (1, Call::TryLock, Told::Tried(Tried::Busy { holder: 3 })),
    (3, Call::Release, Told::Was(true)),
    (2, Call::Release, Told::Was(true)),
    (1, Call::TryLock, Told::No(TreeRefusal::SessionExpired)),
];

// The same where no directory stands.
const NOWHERE: [(u32, Call, Told); 3] = [
    (2, Call::TryLock, Told::No(TreeRefusal::NoNode)),
    (2, Call::Release, Told::Was(false)),
    (2, Call::Holder, Told::Session(None)),
];

// And where the counter is spent.
const SPENT: [(u32, Call, Told); 2] = [
    (2, Call::Enqueue, Told::No(TreeRefusal::SequenceSpent)),
    (2, Call::TryLock, Told::No(TreeRefusal::SequenceSpent)),
];

fn does(alloc: Global, tree: &mut Tree, session: u32, part: Op) -> bool
    requires { is_numbered part ≡ true }
{
    let mut ops = Vec::new(alloc);
    ops.push(part).is_ok() && tree.multi(session, &ops).is_ok()
}

fn owner(tree: &Tree) -> Option<u32> {
    tree.child_stat("/l", 0)?.owner
}

fn joins(alloc: Global, tree: &mut Tree, session: u32, dir: &Path) -> bool {
    match enqueue_op(alloc, dir) {
        Ok(part) => does(alloc, tree, session, part),
        Err(_) => false,
    }
}

fn has_nothing_to_leave(tree: &Tree, dir: &Path) -> bool
    requires { IsLock tree.now dir.now }
{
    matches!(release_op(tree, 2, dir), Ok(None))
}

fn leaves(alloc: Global, tree: &mut Tree, dir: &Path) -> bool
    requires { IsLock tree.old dir.now }
{
    match release_op(tree, 2, dir) {
        Ok(Some(part)) => does(alloc, tree, 2, part),
        Ok(None) | Err(_) => false,
    }
}

// Session 2 leaves /l by a part, once it is in, and joins it again by another.
fn leaves_and_joins(alloc: Global, tree: &mut Tree, dir: &Path) -> bool {
    is_lock(tree, dir)
        && has_nothing_to_leave(tree, dir)
        && enqueue(tree, 2, dir) == Ok(Place::Held)
        && leaves(alloc, tree, dir)
        && owner(tree).is_none()
        && joins(alloc, tree, 2, dir)
        && owner(tree) == Some(2)
}

fn takes_calls(alloc: Global, tree: &mut Tree) -> bool {
    begins(tree, 4)
        && tells_all(alloc, tree, &DIRECTORIES)
        && tell_all_at(alloc, tree, "/k", &CALLS)
        && tell_all_at(alloc, tree, "/zz", &NOWHERE)
        && tell_all_at(alloc, tree, "/s", &SPENT)
}

fn takes_parts(alloc: Global, tree: &mut Tree) -> bool {
    matches!(Path::new(alloc, "/l"), Ok(dir) if leaves_and_joins(alloc, tree, &dir))
}

// The tree is borrowed by what may fail in many places, here and below.
fn calls_are_answered(alloc: Global) -> bool {
    match Tree::new(alloc) {
        Ok(mut tree) => takes_calls(alloc, &mut tree) && takes_parts(alloc, &mut tree),
        Err(_) => false
    }
}

fn enqueues_all(tree: &mut Tree, dir: &Path, count: u32) -> bool
    requires { IsLock tree.old dir.now }
    ensures { IsLock tree.new dir.now }
{
    let mut all = true;
    for ahead in 1..count {
        let place = enqueue(tree, ahead + 1, dir);
        all = all && place == Ok(Place::Queued { ahead });
    }
    all
}

const LAST: [(u32, Call, Told); 3] = [
    (1, Call::WaitingAt(339), Told::Session(Some(340))),
    (1, Call::Release, Told::Was(true)),
    (1, Call::Holder, Told::Session(Some(2))),
];

fn fills(tree: &mut Tree, dir: &Path) -> bool {
    is_lock(tree, dir)
        && enqueue(tree, 1, dir) == Ok(Place::Held)
        && enqueues_all(tree, dir, 340)
        && tell_all(tree, dir, &LAST)
}

fn grows(alloc: Global, tree: &mut Tree) -> bool {
    matches!(Path::new(alloc, "/k"), Ok(dir)
        if begins(tree, 340) && tells_all(alloc, tree, &DIRECTORIES) && fills(tree, &dir))
}

fn a_queue_grows(alloc: Global) -> bool {
    match Tree::new(alloc) {
        Ok(mut tree) => grows(alloc, &mut tree),
        Err(_) => false
    }
}

#[test]
fn sessions_take_turns(rt: HostRuntime) {
    assert!(rt; calls_are_answered(rt.alloc()), "each call");
    assert!(rt; a_queue_grows(rt.alloc()), "340 sessions");
}
