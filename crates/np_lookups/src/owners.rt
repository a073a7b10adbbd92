//! For each node, by its number, the job that has it.

ghost use Rattle.std.specs.Prelude.{◌≡◌, IfOk, OnErr, OnOk};
ghost use Rattle.np_lookups.specs.Lower.{IsReached};
ghost use Rattle.np_lookups.specs.Lookups.{owners_changed, owners_grown, owners_taken_back, AreOwners};

use np_changes::{Growth, JobsChange};
use np_look::{Look, Rows, Scan};
use np_text::{JobId, NodeId, Phase};
use std::alloc::{AllocError, Global};

/// The owner of each node that was made, by a walk over the jobs for each.
pub(crate) fn list_owners<R: Rows>(
    alloc: Global,
    rows: &R,
) -> Result<Vec<Option<JobId>>, AllocError>
    requires { IsReached (R.site rows.now) (R.state rows.now) }
    ensures { IfOk result (λ owners. AreOwners (R.state rows.now) owners.items) }
{
    let scan = Scan::over(rows);
    let mut owners = Vec::new(alloc);
    for number in 0..rows.next_node() {
        owners.push(scan.owner(NodeId(number)))?;
    }
    Ok(owners)
}

/// A new node has a place at the end, and no owner.
pub(crate) fn grow_owners(
    owners: &mut Vec<Option<JobId>>,
    growth: &Growth,
) -> Result<(), AllocError>
    ensures ok { OnOk result (owners.new.items ≡ owners_grown growth.now owners.old.items) }
    ensures undo { OnOk result (owners_taken_back growth.now owners.new.items ≡ owners.old.items) }
    ensures err { OnErr result (owners.new.items ≡ owners.old.items) }
{
    if let Growth::Node { .. } = growth {
        owners.push(None)?;
    }
    Ok(())
}

/// Its place leaves the end again.
pub(crate) fn take_back_owner(owners: &mut Vec<Option<JobId>>, growth: &Growth)
    ensures { owners.new.items ≡ owners_taken_back growth.now owners.old.items }
{
    if let Growth::Node { .. } = growth {
        owners.pop();
    }
}

/// A job that takes nodes over becomes their owner: a write for each.
pub(crate) fn settle_owners(owners: &mut Vec<Option<JobId>>, change: &JobsChange)
    ensures { owners.new.items ≡ owners_changed change.now owners.old.items }
{
    let JobsChange::Put { job, kept } = change else {
        return;
    };
    if kept.phase != Phase::Using {
        return;
    }
    for marked in kept.nodes.items() {
        let at = marked.node.0 as usize;
        if at < owners.len() {
            owners[at] = Some(*job);
        }
    }
}
