//! All parts for the changes of an event.

ghost use Rattle.std.specs.Prelude.{◌≡◌, ◌≤◌, ◌++◌, true, length, IfOk, OnOk};
ghost use Rattle.np_steps.specs.Lower.{IsCarried, IsReady, IsStored, is_numbered, list_all, parts_of, settled_parts};

use crate::grow::push_growth;
use crate::nodes::push_nodes;
use crate::records::{push_deed, push_handles, push_jobs, push_session, push_tick};
use crate::requests::push_requests;
use np_changes::Changes;
use np_look::Rows;
use np_text::{Ample, NoMemory};
use np_tree::Tree;
use np_tree_nodes::Op;
use std::alloc::Global;

/// What the tree is asked to do for the changes of an event: the parts of one call, in the order of
/// the changes. What they need of the state is read from the rows; from the tree only who waits at
/// a lock, and the names of what is below one that goes. An error says that memory ran out; more
/// than 4,294,967,295 parts, which is more than a call takes, count as that too.
pub fn parts<R: Rows>(
    alloc: Global,
    tree: &Tree,
    rows: &R,
    changes: &Changes,
) -> Result<Vec<Op>, NoMemory>
    requires stored { IsStored (R.site rows.now) (R.state rows.now) tree.now }
    requires ready { IsReady (R.site rows.now) changes.now (R.state rows.now) }
    ensures parts { IfOk result (λ ops.
        ops.items ≡ parts_of (R.site rows.now) changes.now (R.state rows.now) tree.now) }
    ensures numbered { IfOk result (λ ops. list_all is_numbered ops.items ≡ true) }
    ensures few { IfOk result (λ ops. length ops.items ≤ 4294967295) }
{
    let mut ops = Vec::new(alloc);
    push_growth(alloc, &mut ops, tree, rows, changes.maker, &changes.grows)?;
    push_settled(alloc, &mut ops, tree, rows, changes)?;
    if ops.len() > u32::MAX as usize {
        return Err(NoMemory);
    }
    Ok(ops)
}

/// Puts the parts for what may not fail behind others. If memory runs out nothing is promised of
/// them.
fn push_settled<R: Rows>(
    alloc: Global,
    ops: &mut Vec<Op>,
    tree: &Tree,
    rows: &R,
    changes: &Changes,
) -> Ample
    requires carried { IsCarried (R.site rows.now) (R.state rows.now) }
    requires ready { IsReady (R.site rows.now) changes.now (R.state rows.now) }
    ensures { OnOk result (ops.new.items ≡ ops.old.items
        ++ settled_parts (R.site rows.now) changes.now (R.state rows.now) tree.now) }
{
    push_requests(alloc, ops, tree, rows, changes.maker, &changes.requests)?;
    push_nodes(alloc, ops, tree, rows, changes.maker, &changes.nodes)?;
    push_jobs(alloc, ops, rows, &changes.jobs)?;
    push_handles(alloc, ops, rows, &changes.handles)?;
    push_deed(alloc, ops, rows, changes.maker, changes.deed)?;
    push_session(alloc, ops, rows, &changes.sessions)?;
    push_tick(alloc, ops, rows, changes.ticks)?;
    Ok(())
}
