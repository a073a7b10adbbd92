//! The groups of a state's nodes and requests, kept as events change the state.

ghost use Rattle.std.specs.Prelude.{◌≡◌, IfOk, length, slice_get};
ghost use Rattle.np_classes.specs.Lower.{Changes, Configuration, IsReached, State, changed, group_after, group_from, ids_in};
ghost use Rattle.np_classes.specs.Classes.{AreClasses};
ghost use Rattle.np_classes.specs.Listed.{HasRoom, IsPast, IsTouched, TouchedOf};

use crate::Touched;
use crate::members::{all_nodes, all_requests, move_nodes, move_queues, move_requests};
use crate::past::{Past, past_of};
use np_lists::{Group, Groups};
use np_look::{ByNode, ByRequest, Rows};
use np_text::{NodeId, RequestId};
use std::alloc::{AllocError, Global};
use std::marker::Model;

/// Which nodes and which requests are in each group.
#[derive(Drop)]
pub struct Classes {
    nodes: Groups<ByNode>,
    requests: Groups<ByRequest>,
}

impl Model for Classes {
    ghost use Rattle.np_classes.specs.Classes.{ClassesOf};

    ghost Value = { ClassesOf };

    ghost view = { λ classes. record {
      nodes = classes.nodes.members;
      requests = classes.requests.members;
      node_room = classes.nodes.room;
      request_room = classes.requests.room;
    } };
}

impl Classes {
    /// The groups of the state. A few lookups for each node and two for each request.
    pub fn rebuild<R: Rows>(alloc: Global, rows: &R) -> Result<Classes, AllocError>
        requires { IsReached (R.site rows.now) (R.state rows.now) }
        ensures { IfOk result (λ x. AreClasses (R.site rows.now) (R.state rows.now) x) }
    {
        let nodes = all_nodes(alloc, rows)?;
        let requests = all_requests(alloc, rows)?;
        Ok(Classes { nodes, requests })
    }

    /// How many nodes are in the group. Two binary searches.
    pub fn nodes_in(&self, group: Group) -> usize
        ensures { result ≡ length (ids_in group self.now.nodes) }
    {
        self.nodes.count(group)
    }

    /// The node at this place of the group, counted from 0 in order of their numbers. One binary
    /// search.
    pub fn node_at(&self, group: Group, at: usize) -> Option<NodeId>
        ensures { result ≡ slice_get (ids_in group self.now.nodes) at }
    {
        self.nodes.at(group, at)
    }

    /// The first group from this one on that a node is in. One binary search.
    pub fn node_group_from(&self, group: Group) -> Option<Group>
        ensures { result ≡ group_from group self.now.nodes }
    {
        self.nodes.group_from(group)
    }

    /// The first group after this one that a node is in. One binary search.
    pub fn node_group_after(&self, group: Group) -> Option<Group>
        ensures { result ≡ group_after group self.now.nodes }
    {
        self.nodes.group_after(group)
    }

    /// How many requests are in the group. Two binary searches.
    pub fn requests_in(&self, group: Group) -> usize
        ensures { result ≡ length (ids_in group self.now.requests) }
    {
        self.requests.count(group)
    }

    /// The request at this place of the group, counted from 0 by priority and then sequence. One
    /// binary search.
    pub fn request_at(&self, group: Group, at: usize) -> Option<RequestId>
        ensures { result ≡ slice_get (ids_in group self.now.requests) at }
    {
        self.requests.at(group, at)
    }

    /// The first group from this one on that a request is in. One binary search.
    pub fn request_group_from(&self, group: Group) -> Option<Group>
        ensures { result ≡ group_from group self.now.requests }
    {
        self.requests.group_from(group)
    }

    /// The first group after this one that a request is in. One binary search.
    pub fn request_group_after(&self, group: Group) -> Option<Group>
        ensures { result ≡ group_after group self.now.requests }
    {
        self.requests.group_after(group)
    }

    /// Lists what an event's changes touch with the groups that it is in, before the state changes,
    /// and takes the memory for `note`. The members stay as they are, so nothing need be undone if
    /// the change fails. It costs a few lookups for each node that is touched and for a request
    /// whose record may change, for one that pools declined a scan of its declines for each of the
    /// 64 pools, and two lookups for each request whose queue alone changes.
    pub fn prepare<R: Rows>(
        &mut self,
        alloc: Global,
        rows: &R,
        touched: &Touched,
    ) -> Result<Past, AllocError>
        ensures nodes { self.new.nodes ≡ self.old.nodes }
        ensures requests { self.new.requests ≡ self.old.requests }
        ensures past { IfOk result
            (λ past. IsPast (R.site rows.now) (R.state rows.now) touched.now past) }
        ensures room { IfOk result (λ past. HasRoom past self.new) }
    {
        let past = past_of(alloc, rows, touched)?;
        self.nodes.reserve(5 * past.nodes.len())?;
        self.requests
            .reserve(7 * past.requests.len() + past.queues.len())?;
        Ok(past)
    }

    /// Moves what was touched to where it is now, after the state has changed. It takes no memory.
    /// It costs a few lookups for each node that was touched and for a request whose record may have
    /// changed, for one that pools declined a scan of its declines for each of the 64 pools, and two
    /// lookups for a request whose queue alone was touched. A group that is left or joined costs a
    /// few binary searches; where an id stays, nothing is searched.
    pub fn note<R: Rows>(&mut self, rows: &R, past: &Past)
        requires { HasRoom past.now self.old }
        ensures { (c : Configuration) (s : State) (ch : Changes) (touched : TouchedOf)
            → IsReached c s → IsTouched s ch touched → IsPast c s touched past.now
            → R.site rows.now ≡ c → R.state rows.now ≡ changed c ch s
            → AreClasses c s self.old → AreClasses c (changed c ch s) self.new }
    {
        move_nodes(&mut self.nodes, rows, past.nodes.as_slice());
        move_requests(&mut self.requests, rows, past.requests.as_slice());
        move_queues(&mut self.requests, rows, past.queues.as_slice());
    }
}
