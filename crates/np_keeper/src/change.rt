//! The changes of an event, made in the tree.

ghost use Rattle.std.specs.Prelude.{◌≡◌, ◌<◌, ◌≤◌, true, length, OnOk, OnErr};
ghost use Rattle.np_keeper.specs.Lower.{Goes, IsLater, after_multi, after_parts, changed, decoded, is_numbered, list_all, with_begin, with_end, with_spare, writer};
ghost use Rattle.np_keeper.specs.Keeper.{CanBegin, CanEnd, CanMake, HasSpare, Holds, IsHeld, MayChange, made};

use crate::range::parts_are_proper;
use np_changes::{Changes, Growth, Maker, SessionsChange};
use np_config::Config;
use np_look::Rows;
use np_steps::parts;
use np_text::{Ample, NoMemory};
use np_tree::Tree;
use np_tree_nodes::{MultiFault, Op};
use np_tree_rows::TreeRows;
use std::alloc::Global;

/// The tree's session that makes the changes: the maker's, or the first one if nobody makes them.
fn writer_of(maker: Option<Maker>) -> u32
    requires { writer maker < 4294967296 }
    ensures { result ≡ writer maker }
{
    match maker {
        Some(maker) => maker.session.0 + 1,
        None => 1,
    }
}

/// Takes the memory for the session that is opened, if one is.
fn reserve(tree: &mut Tree, grows: &Growth) -> Ample
    ensures same { tree.new ≡ with_spare tree.old tree.new.spare }
    ensures ok { OnOk result (HasSpare grows.now tree.new) }
{
    if let Growth::Session { role: _ } = grows {
        return tree.reserve_session();
    }
    Ok(())
}

/// One call of parts that are accepted. If memory runs out, nothing changes.
pub(crate) fn call(tree: &mut Tree, session: u32, ops: &[Op]) -> Ample
    requires few { length ops.now ≤ 4294967295 }
    requires numbered { list_all is_numbered ops.now ≡ true }
    requires goes { Goes tree.old session ops.now (after_parts tree.old session ops.now) }
    ensures ok { OnOk result (tree.new ≡ after_multi tree.old session ops.now) }
    ensures err { OnErr result (tree.new ≡ tree.old) }
{
    match tree.multi(session, ops) {
        Ok(_) => Ok(()),
        Err(MultiFault::NoMemory) => Err(NoMemory),
        Err(
            MultiFault::Refused {
                index: _,
                refusal: _,
            },
        ) => unreachable!(),
    }
}

/// Begins the session that is opened, if one is.
fn begin(tree: &mut Tree, grows: &Growth)
    requires { CanBegin grows.now tree.old }
    ensures { tree.new ≡ with_spare (with_begin grows.now tree.old) tree.new.spare }
{
    if let Growth::Session { role: _ } = grows {
        match tree.begin_session() {
            Ok(_) => {}
            Err(_) => unreachable!(),
        }
    }
}

/// Ends the session that expires, if one does.
fn end(tree: &mut Tree, change: &SessionsChange)
    requires { CanEnd change.now tree.old }
    ensures { tree.new ≡ with_end change.now tree.old }
{
    if let SessionsChange::End { session } = change {
        tree.end_session(session.0 + 1);
    }
}

/// Makes the parts of an event's changes in one call, and then begins the session that is opened or
/// ends the one that expires. If memory runs out, nothing changes.
fn make(tree: &mut Tree, changes: &Changes, ops: &[Op]) -> Ample
    requires few { length ops.now ≤ 4294967295 }
    requires numbered { list_all is_numbered ops.now ≡ true }
    requires can { CanMake changes.now ops.now tree.old }
    ensures ok { OnOk result
        (tree.new ≡ with_spare (made changes.now ops.now tree.old) tree.new.spare) }
    ensures err { OnErr result (tree.new ≡ tree.old) }
    ensures later { IsLater tree.old tree.new }
{
    // The contract of `changes` also says what is always true of a tree.
    let _ = tree.changes();
    parts_are_proper(ops);
    call(tree, writer_of(changes.maker), ops)?;
    let _ = tree.changes();
    begin(tree, &changes.grows);
    end(tree, &changes.sessions);
    Ok(())
}

/// Makes the changes of an event in a tree that holds the state of the rows: one call of the tree, and
/// then a session begins or ends. If memory runs out, only the memory for a session may be there that
/// was not.
pub(crate) fn write<R: Rows>(alloc: Global, tree: &mut Tree, rows: &R, changes: &Changes) -> Ample
    requires holds { Holds (R.site rows.now) (R.state rows.now) tree.old }
    requires low { tree.old.changes < 16777214 }
    requires ready { MayChange (R.site rows.now) changes.now (R.state rows.now) }
    ensures ok { OnOk result (Holds (R.site rows.now)
        (changed (R.site rows.now) changes.now (R.state rows.now)) tree.new) }
    ensures err { OnErr result (tree.new ≡ with_spare tree.old tree.new.spare) }
    ensures later { IsLater tree.old tree.new }
{
    reserve(tree, &changes.grows)?;
    let ops = parts(alloc, tree, rows, changes)?;
    make(tree, changes, ops.as_slice())
}

/// Makes the changes of an event in a tree that the caller has: one call of the tree, and then a
/// session begins or ends. Fewer than 16,777,214 changes were made before. An error says that memory
/// ran out, and then only the memory for a session may be there that was not. The cost is that of
/// reading what the parts need from the tree (np_tree_rows), and of the call.
pub(crate) fn enact_changes(
    alloc: Global,
    tree: &mut Tree,
    config: &Config,
    changes: &Changes,
) -> Ample
    requires held { IsHeld config.now tree.old }
    requires low { tree.old.changes < 16777214 }
    requires ready { MayChange config.now changes.now (decoded config.now tree.old) }
    ensures held { IsHeld config.now tree.new }
    ensures ok { OnOk result (decoded config.now tree.new
        ≡ changed config.now changes.now (decoded config.now tree.old)) }
    ensures err { OnErr result (decoded config.now tree.new ≡ decoded config.now tree.old) }
    ensures same { OnErr result (tree.new ≡ with_spare tree.old tree.new.spare) }
{
    reserve(tree, &changes.grows)?;
    let ops = parts(alloc, tree, &TreeRows::new(config, tree), changes)?;
    make(tree, changes, ops.as_slice())
}
