//! The lookups of a state.

ghost use Rattle.std.specs.Prelude.{◌≡◌, IfOk, OnOk, length};
ghost use Rattle.np_lookups.specs.Lower.{Configuration, Fits, IsReached, State, owner_of, queued_nodes, queued_requests, unfinished_of};
ghost use Rattle.np_lookups.specs.Lookups.{AreNodesOf, AreRequestsOf, HasRoom, AreLookupsOf};

use crate::lists::list_of;
use crate::owners::list_owners;
use crate::unfinished::list_unfinished;
use np_lists::KeyTable;
use np_look::{ByNode, ByRequest, JobTable, Rows};
use np_text::{JobId, NoMemory, NodeId, RequestId, RequesterId, SessionId};
use std::alloc::{AllocError, Global};
use std::marker::Model;

/// What stands beside a state, so that readers need not search the state.
#[derive(Drop)]
pub struct Lookups {
    pub(crate) alloc: Global,
    pub(crate) unfinished: Vec<JobTable>,
    pub(crate) requests: Vec<KeyTable<ByRequest>>,
    pub(crate) nodes: Vec<KeyTable<ByNode>>,
    pub(crate) owners: Vec<Option<JobId>>,
}

impl Model for Lookups {
    ghost use Rattle.np_lookups.specs.Lookups.{LookupsOf};

    ghost Value = { LookupsOf };

    ghost view = { λ lookups. record {
      unfinished = lookups.unfinished.items;
      requests = lookups.requests.items;
      nodes = lookups.nodes.items;
      owners = lookups.owners.items;
    } };
}

/// The requests in whose queues the session is.
fn list_requests<R: Rows>(
    alloc: Global,
    rows: &R,
    session: SessionId,
) -> Result<KeyTable<ByRequest>, AllocError>
    requires { IsReached (R.site rows.now) (R.state rows.now) }
    ensures { IfOk result (λ list. list ≡ queued_requests session (R.state rows.now)) }
{
    let mut list = KeyTable::new(alloc);
    for at in 0..rows.queued_requests(session) {
        if let Some(request) = rows.queued_request_at(session, at) {
            list.insert(request)?;
        }
    }
    Ok(list)
}

/// The nodes in whose queues the session is.
fn list_nodes<R: Rows>(
    alloc: Global,
    rows: &R,
    session: SessionId,
) -> Result<KeyTable<ByNode>, AllocError>
    requires { IsReached (R.site rows.now) (R.state rows.now) }
    ensures { IfOk result (λ list. list ≡ queued_nodes session (R.state rows.now)) }
{
    let mut list = KeyTable::new(alloc);
    for at in 0..rows.queued_nodes(session) {
        if let Some(node) = rows.queued_node_at(session, at) {
            list.insert(node)?;
        }
    }
    Ok(list)
}

/// The requests of each session, by number.
fn requests_by_session<R: Rows>(
    alloc: Global,
    rows: &R,
) -> Result<Vec<KeyTable<ByRequest>>, AllocError>
    requires reached { IsReached (R.site rows.now) (R.state rows.now) }
    requires fits { Fits (R.site rows.now) (R.state rows.now) }
    ensures { IfOk result (λ lists. AreRequestsOf (R.state rows.now) lists.items) }
{
    let mut lists = Vec::new(alloc);
    for number in 0..rows.sessions() + 1 {
        lists.push(list_requests(alloc, rows, SessionId(number))?)?;
    }
    Ok(lists)
}

/// The nodes of each session, by number.
fn nodes_by_session<R: Rows>(alloc: Global, rows: &R) -> Result<Vec<KeyTable<ByNode>>, AllocError>
    requires reached { IsReached (R.site rows.now) (R.state rows.now) }
    requires fits { Fits (R.site rows.now) (R.state rows.now) }
    ensures { IfOk result (λ lists. AreNodesOf (R.state rows.now) lists.items) }
{
    let mut lists = Vec::new(alloc);
    for number in 0..rows.sessions() + 1 {
        lists.push(list_nodes(alloc, rows, SessionId(number))?)?;
    }
    Ok(lists)
}

impl Lookups {
    /// The lookups of the state. It reads each job once, and asks the keeper for what each session
    /// queues for and for the owner of each node that was made. A keeper that scans reads all queues
    /// for each answer of the first kind, and all jobs for each node.
    pub fn rebuild<R: Rows>(alloc: Global, rows: &R) -> Result<Lookups, NoMemory>
        requires reached { IsReached (R.site rows.now) (R.state rows.now) }
        requires fits { Fits (R.site rows.now) (R.state rows.now) }
        ensures { IfOk result (λ x. AreLookupsOf (R.site rows.now) (R.state rows.now) x) }
    {
        let unfinished = list_unfinished(alloc, rows)?;
        let requests = requests_by_session(alloc, rows)?;
        let nodes = nodes_by_session(alloc, rows)?;
        let owners = list_owners(alloc, rows)?;
        Ok(Lookups {
            alloc,
            unfinished,
            requests,
            nodes,
            owners,
        })
    }

    /// Makes room for one more session: its lists are empty. Whether or not memory runs out, they are
    /// those of the same states.
    pub(crate) fn make_room(&mut self, sessions: u32) -> Result<(), AllocError>
        ensures same { (c : Configuration) (s : State) → AreLookupsOf c s self.old → AreLookupsOf c s self.new }
        ensures room { OnOk result ((c : Configuration) (s : State) → AreLookupsOf c s self.old
            → length s.sessions ≡ sessions → HasRoom s self.new) }
    {
        let wanted = sessions as usize + 2;
        if self.requests.len() < wanted {
            self.requests.push(KeyTable::new(self.alloc))?;
        }
        if self.nodes.len() < wanted {
            self.nodes.push(KeyTable::new(self.alloc))?;
        }
        Ok(())
    }

    /// The job at a place among those of the requester that are not over, in order of their numbers.
    /// It costs one lookup.
    pub fn unfinished(&self, requester: RequesterId, at: u32) -> Option<JobId>
        ensures { (c : Configuration) (s : State) → AreLookupsOf c s self.now
            → result ≡ unfinished_of c requester at s }
    {
        list_of(&self.unfinished, requester.0 as usize)
            .get(at as usize)
            .copied()
    }

    /// The requests in whose queues the session is, by priority and then sequence. It costs one
    /// lookup.
    pub fn requests_of(&self, session: SessionId) -> &[RequestId]
        ensures { (c : Configuration) (s : State) → AreLookupsOf c s self.now
            → result.now ≡ queued_requests session s }
    {
        list_of(&self.requests, session.0 as usize)
    }

    /// The nodes in whose queues the session is, by number. It costs one lookup.
    pub fn nodes_of(&self, session: SessionId) -> &[NodeId]
        ensures { (c : Configuration) (s : State) → AreLookupsOf c s self.now
            → result.now ≡ queued_nodes session s }
    {
        list_of(&self.nodes, session.0 as usize)
    }

    /// The job that has the node. It costs one lookup.
    pub fn owner(&self, node: NodeId) -> Option<JobId>
        ensures { (c : Configuration) (s : State) → AreLookupsOf c s self.now
            → result ≡ owner_of node s.jobs }
    {
        *self.owners.get(node.0 as usize)?
    }
}
