//! The tables, and the orders of rows under locks: by their ids.

ghost use Rattle.np_tables.specs.Lower.{NodeEntry, RequestEntry, is_id_before, is_node_before, node_equal, node_one_way, node_some_way, node_transitive, request_equal, request_one_way, request_some_way, request_transitive, same_node, same_request};

use np_lists::{Order, RoomyTable};
use np_look::{ByJob, ByNode, ByRequest, BySwept};
use np_machine::{NodeEntry, RequestEntry};
use np_text::{NodeId, RequestId};

/// Nodes under their locks, by number.
pub struct ByNodeEntry;

/// Requests under their locks, by priority and then sequence.
pub struct ByRequestEntry;

/// The nodes under their locks.
pub type NodeTable = RoomyTable<ByNodeEntry>;

/// The requests under their locks.
pub type RequestTable = RoomyTable<ByRequestEntry>;

/// The jobs that have a handle of one semaphore.
pub type HandleTable = RoomyTable<ByJob>;

/// The swept pairs.
pub type SweptTable = RoomyTable<BySwept>;

impl Order for ByNodeEntry {
    type Key = NodeId;

    type Row = NodeEntry;

    ghost key = { λ row. row.id };

    ghost before = { is_node_before };

    ghost same = { same_node };

    fn key(row: &NodeEntry) -> NodeId {
        row.id
    }

    fn is_before(first: NodeId, second: NodeId) -> bool {
        ByNode::is_before(first, second)
    }

    fn is_same(first: NodeId, second: NodeId) -> bool {
        ByNode::is_same(first, second)
    }

    ghost transitive = { node_transitive };

    ghost one_way = { node_one_way };

    ghost some_way = { node_some_way };

    ghost equal = { node_equal };
}

impl Order for ByRequestEntry {
    type Key = RequestId;

    type Row = RequestEntry;

    ghost key = { λ row. row.id };

    ghost before = { is_id_before };

    ghost same = { same_request };

    fn key(row: &RequestEntry) -> RequestId {
        row.id
    }

    fn is_before(first: RequestId, second: RequestId) -> bool {
        ByRequest::is_before(first, second)
    }

    fn is_same(first: RequestId, second: RequestId) -> bool {
        ByRequest::is_same(first, second)
    }

    ghost transitive = { request_transitive };

    ghost one_way = { request_one_way };

    ghost some_way = { request_some_way };

    ghost equal = { request_equal };
}
