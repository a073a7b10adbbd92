//! What the groups answer.

ghost use Rattle.std.specs.Prelude.{◌≡◌};
ghost use Rattle.np_active.specs.Lower.{Configuration, State, node_to_leave, node_to_lock, queued_nodes};
ghost use Rattle.np_active.specs.Given.{AreGiven};

use crate::given::Given;
use crate::group::{given_group, locked_group};
use np_lists::{outside_at, outside_list_at};
use np_text::{NodeId, RequesterId, SessionId};

impl Given {
    /// The first node, by number, that was given to the requester and in whose queue the session is
    /// not. A few binary searches for each step of one among the nodes that were given to the
    /// requester, so it does not grow with their number, except that binary searches do.
    pub fn node_to_lock(&self, requester: RequesterId, session: SessionId) -> Option<NodeId>
        ensures { (c : Configuration) (s : State) → AreGiven c s self.now
            → result ≡ node_to_lock c requester session s }
    {
        let given = given_group(requester);
        let locked = locked_group(requester, session);
        outside_at(&self.nodes, given, locked, 0)
    }

    /// The node at a place among those in whose queues the session is and that were not given to the
    /// requester, in order of their numbers, counted from 0; `None` if there are no more. `queued`
    /// are all nodes in whose queues the session is. A binary search for each step of one among
    /// these.
    pub fn node_to_leave(
        &self,
        queued: &[NodeId],
        requester: RequesterId,
        session: SessionId,
        at: u32,
    ) -> Option<NodeId>
        ensures { (c : Configuration) (s : State) → AreGiven c s self.now
            → queued.now ≡ queued_nodes session s
            → result ≡ node_to_leave c requester session at s }
    {
        let locked = locked_group(requester, session);
        outside_list_at(&self.nodes, queued, locked, at as usize)
    }
}
