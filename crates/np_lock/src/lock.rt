//! The queue of a directory.

ghost use Rattle.std.specs.Prelude.{◌≡◌, [], ◌∷◌, ◌++◌, Some, true, false, is_some, length, slice_get, IfOk, OnOk, OnErr};
ghost use Rattle.np_tree.specs.Prelude.{after_delete, is_in, is_owner, is_path, with_next_number, without};
ghost use Rattle.np_lock.specs.Calls.{IsLock, queue_at, wait_path, Enqueues, Joins, Leaves, LeavesBy, Releases, Tries, after_enqueue, after_join, after_release, after_try, ahead_in, first_of, held_by, join_answer, join_part, joined, path_in, place_with};

use crate::answer::{LockFault, Place, Tried};
use np_path::Path;
use np_text::NoMemory;
use np_tree::{Bytes, Expect, Mode, Op, Tree};
use std::alloc::Global;

/// The session that holds the lock: the first of the queue.
pub fn holder(tree: &Tree, dir: &str) -> Option<u32>
    requires { IsLock tree.now dir.now }
    ensures { result ≡ first_of (queue_at tree.now dir.now) }
{
    waiting_at(tree, dir, 0)
}

/// The session at a place of the queue, and none past its end.
pub fn waiting_at(tree: &Tree, dir: &str, at: u32) -> Option<u32>
    requires { IsLock tree.now dir.now }
    ensures { result ≡ slice_get (queue_at tree.now dir.now) at }
{
    let Some(stat) = tree.child_stat(dir, at) else {
        return None;
    };
    stat.owner
}

/// Puts the session at the end of the queue, unless it is there, and answers its place. Scans the
/// queue; each step takes time logarithmic in the number of nodes.
pub fn enqueue(tree: &mut Tree, session: u32, dir: &Path) -> Result<Place, LockFault>
    requires { IsLock tree.old dir.now }
    ensures answer { Enqueues (ahead_in (queue_at tree.old dir.now) session)
        (join_answer tree.old session dir.now)
        (length (queue_at tree.old dir.now)) result }
    ensures ok { OnOk result (tree.new ≡ after_enqueue tree.old session dir.now) }
    ensures queue { OnOk result
        (queue_at tree.new dir.now ≡ joined (queue_at tree.old dir.now) session) }
    ensures lock { IsLock tree.new dir.now }
    ensures err { OnErr result (tree.new ≡ tree.old) }
{
    if let Some(others) = ahead(tree, session, dir.text()) {
        return Ok(place_with(others));
    }
    let others = count(tree, dir.text());
    join(tree, session, dir)?;
    Ok(place_with(others))
}

/// Takes the lock if nobody holds it; otherwise answers which session does.
pub fn try_lock(tree: &mut Tree, session: u32, dir: &Path) -> Result<Tried, LockFault>
    requires { IsLock tree.old dir.now }
    ensures answer { Tries (first_of (queue_at tree.old dir.now))
        (join_answer tree.old session dir.now) session result }
    ensures ok { OnOk result (tree.new ≡ after_try tree.old session dir.now) }
    ensures queue { OnOk result
        (queue_at tree.new dir.now ≡ held_by (queue_at tree.old dir.now) session) }
    ensures lock { IsLock tree.new dir.now }
    ensures err { OnErr result (tree.new ≡ tree.old) }
{
    let Some(holder) = holder(tree, dir.text()) else {
        join(tree, session, dir)?;
        return Ok(Tried::Held);
    };
    if holder == session {
        return Ok(Tried::Held);
    }
    Ok(Tried::Busy { holder })
}

/// Takes the session out of the queue, and answers whether it was there. Refused only with
/// `ChangesSpent`. Scans the queue.
pub fn release(tree: &mut Tree, session: u32, dir: &Path) -> Result<bool, LockFault>
    requires { IsLock tree.old dir.now }
    ensures answer { Releases (is_in (queue_at tree.old dir.now) session) tree.old.changes result }
    ensures ok { OnOk result (tree.new ≡ after_release tree.old session dir.now) }
    ensures queue { OnOk result
        (queue_at tree.new dir.now ≡ without (queue_at tree.old dir.now) session) }
    ensures lock { IsLock tree.new dir.now }
    ensures err { OnErr result (tree.new ≡ tree.old) }
{
    let Some(at) = ahead(tree, session, dir.text()) else {
        return Ok(false);
    };
    let path = path_at(tree, session, dir, at)?;
    leave(tree, session, dir, &path)?;
    Ok(true)
}

/// The part of a `multi` that puts its session at the end of the queue.
pub fn enqueue_op(alloc: Global, dir: &Path) -> Result<Op, NoMemory>
    ensures { IfOk result (λ part. part ≡ join_part dir.now) }
{
    Ok(Op::Create {
        path: new_path(dir)?,
        bytes: Bytes::new(Vec::new(alloc)),
        mode: Mode::EphemeralSequential,
    })
}

/// The part of a `multi` that takes the session out of the queue, and none if it isn't there.
/// Scans the queue.
pub fn release_op(tree: &Tree, session: u32, dir: &Path) -> Result<Option<Op>, NoMemory>
    requires { IsLock tree.now dir.now }
    ensures { LeavesBy (path_in tree.now session dir.now) result }
{
    let Some(at) = ahead(tree, session, dir.text()) else {
        return Ok(None);
    };
    Ok(Some(Op::Delete {
        path: path_at(tree, session, dir, at)?,
        expect: Expect::Any,
    }))
}

/// How many sessions wait.
fn count(tree: &Tree, dir: &str) -> u32
    requires { IsLock tree.now dir.now }
    ensures { result ≡ length (queue_at tree.now dir.now) }
{
    // The contract of `changes` also says what is always true of a tree.
    let _ = tree.changes();
    match tree.exists(dir) {
        Some(stat) => stat.children,
        None => 0,
    }
}

/// How many sessions are ahead of one that waits.
fn ahead(tree: &Tree, session: u32, dir: &str) -> Option<u32>
    requires { IsLock tree.now dir.now }
    ensures { result ≡ ahead_in (queue_at tree.now dir.now) session }
{
    for at in 0..count(tree, dir) {
        if waits_at(tree, session, dir, at) {
            return Some(at);
        }
    }
    None
}

/// Whether the session is at a place of the queue.
fn waits_at(tree: &Tree, session: u32, dir: &str, at: u32) -> bool
    requires { IsLock tree.now dir.now }
    ensures { result ≡ is_owner session (slice_get (queue_at tree.now dir.now) at) }
{
    match waiting_at(tree, dir, at) {
        Some(waiting) => waiting == session,
        None => false,
    }
}

/// The place of a session that has this many ahead.
fn place_with(ahead: u32) -> Place
    ensures { result ≡ place_with ahead }
{
    if ahead == 0 {
        Place::Held
    } else {
        Place::Queued { ahead }
    }
}

/// The path that a session's node is created by.
fn new_path(dir: &Path) -> Result<Path, NoMemory>
    ensures path { IfOk result (λ path. path ≡ wait_path dir.now) }
    ensures directory { is_path dir.now ≡ true }
{
    let _ = dir.text();
    match dir.child("lock-") {
        Ok(path) => Ok(path),
        Err(_) => Err(NoMemory),
    }
}

/// The path of the child at a place.
fn path_at(tree: &Tree, session: u32, dir: &Path, at: u32) -> Result<Path, NoMemory>
    requires lock { IsLock tree.now dir.now }
    requires at { ahead_in (queue_at tree.now dir.now) session ≡ Some at }
    ensures path { IfOk result (λ path. path_in tree.now session dir.now ≡ Some path) }
    ensures some { is_some (path_in tree.now session dir.now) ≡ true }
{
    let Some(name) = tree.child_at(dir.text(), at) else {
        return Err(NoMemory);
    };
    match dir.child(name) {
        Ok(path) => Ok(path),
        Err(_) => Err(NoMemory),
    }
}

/// Makes the node of a session that isn't in the queue.
fn join(tree: &mut Tree, session: u32, dir: &Path) -> Result<(), LockFault>
    requires lock { IsLock tree.old dir.now }
    requires new { is_in (queue_at tree.old dir.now) session ≡ false }
    ensures answer { Joins (join_answer tree.old session dir.now) result }
    ensures ok { OnOk result (tree.new ≡ after_join tree.old session dir.now) }
    ensures queue { OnOk result
        (queue_at tree.new dir.now ≡ queue_at tree.old dir.now ++ session ∷ []) }
    ensures lock { IsLock tree.new dir.now }
    ensures err { OnErr result (tree.new ≡ tree.old) }
{
    let path = new_path(dir)?;
    // The contract of `changes` also says what is always true of a tree.
    let _ = tree.changes();
    let made = tree.create(session, &path, b"", Mode::EphemeralSequential);
    match made {
        Ok(_) => Ok(()),
        Err(fault) => Err(LockFault::from(fault)),
    }
}

/// Deletes the node of a session that is in the queue.
fn leave(tree: &mut Tree, session: u32, dir: &Path, path: &Path) -> Result<(), LockFault>
    requires lock { IsLock tree.old dir.now }
    requires path { path_in tree.old session dir.now ≡ Some path.now }
    ensures answer { Leaves tree.old.changes result }
    ensures ok { OnOk result (tree.new ≡ with_next_number (after_delete tree.old path.now)) }
    ensures queue { OnOk result
        (queue_at tree.new dir.now ≡ without (queue_at tree.old dir.now) session) }
    ensures lock { IsLock tree.new dir.now }
    ensures err { OnErr result (tree.new ≡ tree.old) }
{
    let _ = dir.text();
    // The contract of `changes` also says what is always true of a tree.
    let _ = tree.changes();
    match tree.delete(session, path, Expect::Any) {
        Ok(()) => Ok(()),
        Err(fault) => Err(LockFault::from(fault)),
    }
}
