//! The nodes that were given to requesters, kept as events change the state.

ghost use Rattle.std.specs.Prelude.{◌≡◌, true, IfOk};
ghost use Rattle.np_active.specs.Lower.{Changes, Configuration, Fits, IsPlanned, IsReached, State, changed, list_any, same_node, touches_node};
ghost use Rattle.np_active.specs.Given.{AreGiven, HasRoom, IsPrepared};

use crate::members::{all_nodes, move_nodes};
use crate::prepare::{Prepared, prepared_by};
use np_changes::Changes;
use np_lists::{Group, Groups};
use np_look::{ByNode, Rows};
use np_text::NodeId;
use std::alloc::{AllocError, Global};
use std::marker::Model;

/// Which nodes were given to each requester, and for each session in whose queues of these it is.
#[derive(Drop)]
pub struct Given {
    pub(crate) nodes: Groups<ByNode>,
    list: Vec<Option<Group>>,
}

impl Model for Given {
    ghost use Rattle.std.specs.Prelude.{vec_capacity};
    ghost use Rattle.np_active.specs.Given.{GivenOf};

    ghost Value = { GivenOf };

    ghost view = { λ given. record {
      members = given.nodes.members;
      room = given.nodes.room;
      list_room = vec_capacity given.list;
    } };
}

impl Given {
    /// The groups of the state. It costs a few lookups for each node, and for each session in its
    /// queue two more and, if the node is given, a few binary searches.
    pub fn rebuild<R: Rows>(alloc: Global, rows: &R) -> Result<Given, AllocError>
        requires reached { IsReached (R.site rows.now) (R.state rows.now) }
        requires fits { Fits (R.site rows.now) (R.state rows.now) }
        ensures { IfOk result (λ x. AreGiven (R.site rows.now) (R.state rows.now) x) }
    {
        let nodes = all_nodes(alloc, rows)?;
        Ok(Given {
            nodes,
            list: Vec::new(alloc),
        })
    }

    /// Lists what the changes touch, before the state changes, and takes the memory for `note`. The
    /// members stay as they are, so nothing need be undone if the change fails. `touched` are the
    /// nodes whose records or queues may change; those of a request whose state changes, and of
    /// the request of a job whose record is put, are listed beside them. It costs a few lookups for
    /// each listed node, and three for each session in its queue. The memory taken for each is as
    /// much as the node with the longest queue may need.
    pub fn prepare<R: Rows>(
        &mut self,
        alloc: Global,
        rows: &R,
        changes: &Changes,
        touched: &[NodeId],
    ) -> Result<Prepared, AllocError>
        requires reached { IsReached (R.site rows.now) (R.state rows.now) }
        requires fits { Fits (R.site rows.now) (R.state rows.now) }
        requires touched { (n : NodeId) → touches_node changes.now (R.state rows.now) n ≡ true
            → list_any (λ m. same_node m n) touched.now ≡ true }
        ensures members { self.new.members ≡ self.old.members }
        ensures prepared { IfOk result (λ prepared.
            IsPrepared (R.site rows.now) (R.state rows.now) changes.now prepared) }
        ensures room { IfOk result (λ prepared. HasRoom prepared self.new) }
    {
        let prepared = prepared_by(alloc, rows, changes, touched)?;
        let each = prepared.most as usize + 1;
        let Some(room) = prepared.past.len().checked_mul(each) else {
            return Err(AllocError);
        };
        self.nodes.reserve(room)?;
        self.list.reserve(each)?;
        Ok(prepared)
    }

    /// Moves what was listed to where it is now, after the state has changed. It takes no memory. It
    /// costs a few lookups for each listed node and one for each session in its queue, and each of its
    /// groups before the change is compared with those after it. A group that is left or joined costs
    /// a few binary searches; where a node stays, nothing is searched.
    pub fn note<R: Rows>(&mut self, rows: &R, prepared: &Prepared)
        requires { HasRoom prepared.now self.old }
        ensures { (c : Configuration) (s : State) (ch : Changes)
            → IsReached c s → IsPlanned c s ch → IsPrepared c s ch prepared.now
            → R.site rows.now ≡ c → R.state rows.now ≡ changed c ch s
            → AreGiven c s self.old → AreGiven c (changed c ch s) self.new }
    {
        let moved = prepared.past.as_slice();
        move_nodes(&mut self.nodes, &mut self.list, rows, moved, prepared.most);
    }
}
