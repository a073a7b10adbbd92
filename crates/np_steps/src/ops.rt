//! Single parts of a call, put behind others. If memory runs out, nothing is promised of the parts.

ghost use Rattle.std.specs.Prelude.{◌≡◌, ◌++◌, ◌∷◌, [], codes, find, IfOk, OnOk};
ghost use Rattle.np_steps.specs.Lower.{IsGood, below, delete, delete_parts, is_owner, leave_parts, list_any, make, option_copied, option_map, path_of, rows_at, set, tree_session, under, wait_at};
ghost use Rattle.np_tree_nodes.specs.declared.kind.Expect.TheVariants as expects;
ghost use Rattle.np_tree_nodes.specs.declared.op.Op.TheVariants as op;

use np_layout::{PathText, Place, to_path};
use np_lock::enqueue_op;
use np_path::Path;
use np_spelling::Record;
use np_text::{Ample, NoMemory, SessionId};
use np_tree::Tree;
use np_tree_nodes::{Bytes, Expect, Mode, Op};
use np_tree_rows::{children, waits_at};
use std::alloc::Global;

/// Sets the bytes of a place to the record's text, whatever the version there.
pub(crate) fn push_set<R: Record>(alloc: Global, ops: &mut Vec<Op>, place: Place, kept: &R) -> Ample
    requires good { IsGood place }
    requires sound { R.is_sound kept.now }
    ensures { OnOk result (ops.new.items ≡ ops.old.items ++ set (R.written kept.now) place ∷ []) }
{
    let path = to_path(alloc, place)?;
    let bytes = Bytes::new(kept.text(alloc)?);
    let expect = Expect::Any;
    ops.push(Op::Set {
        path,
        bytes,
        expect,
    })?;
    Ok(())
}

/// Makes a persistent node without bytes.
pub(crate) fn push_make(alloc: Global, ops: &mut Vec<Op>, place: Place) -> Ample
    requires { IsGood place }
    ensures { OnOk result (ops.new.items ≡ ops.old.items ++ make [] place ∷ []) }
{
    let path = to_path(alloc, place)?;
    let bytes = Bytes::new(Vec::new(alloc));
    let mode = Mode::Persistent;
    ops.push(Op::Create { path, bytes, mode })?;
    Ok(())
}

/// Deletes the node of a place, whatever its version.
pub(crate) fn push_delete(alloc: Global, ops: &mut Vec<Op>, place: Place) -> Ample
    requires { IsGood place }
    ensures { OnOk result (ops.new.items ≡ ops.old.items ++ delete place ∷ []) }
{
    let path = to_path(alloc, place)?;
    let expect = Expect::Any;
    ops.push(Op::Delete { path, expect })?;
    Ok(())
}

/// Waits at a lock: the session that makes the call comes to the end of its queue.
pub(crate) fn push_wait(alloc: Global, ops: &mut Vec<Op>, lock: Place) -> Ample
    requires { IsGood lock }
    ensures { OnOk result (ops.new.items ≡ ops.old.items ++ wait_at lock ∷ []) }
{
    let dir = to_path(alloc, lock)?;
    ops.push(enqueue_op(alloc, &dir)?)?;
    Ok(())
}

/// Deletes each node below a lock, whatever their versions.
pub(crate) fn push_deletes(alloc: Global, ops: &mut Vec<Op>, tree: &Tree, lock: Place) -> Ample
    requires { IsGood lock }
    ensures { OnOk result
        (ops.new.items ≡ ops.old.items ++ delete_parts (path_of lock) (under lock tree.now)) }
{
    let dir = to_path(alloc, lock)?;
    push_child_deletes(ops, tree, &dir)
}

/// Deletes the session's wait at a lock, if it waits there. Reads the waits from the first one to
/// the session's.
pub(crate) fn push_leave(
    alloc: Global,
    ops: &mut Vec<Op>,
    tree: &Tree,
    lock: Place,
    session: SessionId,
) -> Ample
    requires { IsGood lock }
    ensures { OnOk result (ops.new.items ≡ ops.old.items ++ leave_parts lock tree.now session) }
{
    let dir = to_path(alloc, lock)?;
    match wait_name(tree, dir.text(), session) {
        Some(name) => push_child_delete(ops, &dir, name),
        None => Ok(()),
    }
}

/// Whether the session waits at a lock. Reads the waits from the first one to the session's.
pub(crate) fn waits(tree: &Tree, lock: Place, session: SessionId) -> bool
    requires { IsGood lock }
    ensures { result
        ≡ list_any (λ row. is_owner (tree_session session) row.owner) (under lock tree.now) }
{
    let path = PathText::of(lock);
    wait_name(tree, path.text(), session).is_some()
}

/// The path of a child. The name must be an element, as each name in a tree is; else it answers as
/// if memory ran out.
pub(crate) fn child(dir: &Path, name: &str) -> Result<Path, NoMemory>
    ensures { IfOk result (λ path. path ≡ below dir.now name.now) }
{
    match dir.child(name) {
        Ok(path) => Ok(path),
        Err(_) => Err(NoMemory),
    }
}

/// Deletes each child of the node at a path, whatever their versions.
fn push_child_deletes(ops: &mut Vec<Op>, tree: &Tree, dir: &Path) -> Ample
    ensures { OnOk result
        (ops.new.items ≡ ops.old.items ++ delete_parts dir.now (rows_at tree.now dir.now)) }
{
    for at in 0..children(tree, dir.text()) {
        let Some(name) = tree.child_at(dir.text(), at) else {
            return Ok(());
        };
        push_child_delete(ops, dir, name)?;
    }
    Ok(())
}

/// Deletes the child of that name, whatever its version.
fn push_child_delete(ops: &mut Vec<Op>, dir: &Path, name: &str) -> Ample
    ensures { OnOk result
        (ops.new.items ≡ ops.old.items ++ op.Delete (below dir.now name.now) expects.Any ∷ []) }
{
    let path = child(dir, name)?;
    let expect = Expect::Any;
    ops.push(Op::Delete { path, expect })?;
    Ok(())
}

/// The name of the session's first wait at a lock. `None` if it does not wait there.
fn wait_name<'a>(tree: &'a Tree, lock: &str, session: SessionId) -> Option<&'a str>
    ensures { option_copied result
        ≡ option_map (λ row. row.name)
        (find (λ row. is_owner (tree_session session) row.owner) (rows_at tree.now lock.now)) }
{
    for at in 0..children(tree, lock) {
        if waits_at(tree, lock, session, at) {
            return tree.child_at(lock, at);
        }
    }
    None
}
