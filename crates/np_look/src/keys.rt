//! The orders of ids and of swept pairs: what a table of them is sorted by.

ghost use Rattle.np_look.specs.Lower.{Swept, is_id_before, same_request};
ghost use Rattle.np_look.specs.Keys.{is_job_before, is_node_before, is_pair_before, is_session_before, job_equal, job_one_way, job_some_way, job_transitive, node_equal, node_one_way, node_some_way, node_transitive, pair_equal, pair_one_way, pair_some_way, pair_transitive, request_equal, request_one_way, request_some_way, request_transitive, same_job, same_node, same_pair, same_session, session_equal, session_one_way, session_some_way, session_transitive};

use np_lists::{KeyTable, Order};
use np_machine::Swept;
use np_text::{JobId, NodeId, RequestId, SessionId};

/// Nodes, by number.
pub struct ByNode;

/// Requests, by priority and then sequence, which is the byte order of their texts.
pub struct ByRequest;

/// Jobs, by number.
pub struct ByJob;

/// Sessions, by number.
pub struct BySession;

/// Swept pairs, by node and then server.
pub struct BySwept;

/// Jobs in order.
pub type JobTable = KeyTable<ByJob>;

/// Swept pairs in order.
pub type SweptTable = KeyTable<BySwept>;

impl Order for ByNode {
    type Key = NodeId;

    type Row = NodeId;

    ghost key = { λ node. node };

    ghost before = { is_node_before };

    ghost same = { same_node };

    fn key(node: &NodeId) -> NodeId {
        *node
    }

    fn is_before(first: NodeId, second: NodeId) -> bool {
        first.0 < second.0
    }

    fn is_same(first: NodeId, second: NodeId) -> bool {
        first.0 == second.0
    }

    ghost transitive = { node_transitive };

    ghost one_way = { node_one_way };

    ghost some_way = { node_some_way };

    ghost equal = { node_equal };
}

impl Order for ByRequest {
    type Key = RequestId;

    type Row = RequestId;

    ghost key = { λ request. request };

    ghost before = { is_id_before };

    ghost same = { same_request };

    fn key(request: &RequestId) -> RequestId {
        *request
    }

    fn is_before(first: RequestId, second: RequestId) -> bool {
        if first.priority == second.priority {
            first.seq < second.seq
        } else {
            first.priority < second.priority
        }
    }

    fn is_same(first: RequestId, second: RequestId) -> bool {
        first.priority == second.priority && first.seq == second.seq
    }

    ghost transitive = { request_transitive };

    ghost one_way = { request_one_way };

    ghost some_way = { request_some_way };

    ghost equal = { request_equal };
}

impl Order for ByJob {
    type Key = JobId;

    type Row = JobId;

    ghost key = { λ job. job };

    ghost before = { is_job_before };

    ghost same = { same_job };

    fn key(job: &JobId) -> JobId {
        *job
    }

    fn is_before(first: JobId, second: JobId) -> bool {
        first.0 < second.0
    }

    fn is_same(first: JobId, second: JobId) -> bool {
        first.0 == second.0
    }

    ghost transitive = { job_transitive };

    ghost one_way = { job_one_way };

    ghost some_way = { job_some_way };

    ghost equal = { job_equal };
}

impl Order for BySession {
    type Key = SessionId;

    type Row = SessionId;

    ghost key = { λ session. session };

    ghost before = { is_session_before };

    ghost same = { same_session };

    fn key(session: &SessionId) -> SessionId {
        *session
    }

    fn is_before(first: SessionId, second: SessionId) -> bool {
        first.0 < second.0
    }

    fn is_same(first: SessionId, second: SessionId) -> bool {
        first.0 == second.0
    }

    ghost transitive = { session_transitive };

    ghost one_way = { session_one_way };

    ghost some_way = { session_some_way };

    ghost equal = { session_equal };
}

impl Order for BySwept {
    type Key = Swept;

    type Row = Swept;

    ghost key = { λ pair. pair };

    ghost before = { is_pair_before };

    ghost same = { same_pair };

    fn key(pair: &Swept) -> Swept {
        *pair
    }

    fn is_before(first: Swept, second: Swept) -> bool {
        if first.node.0 == second.node.0 {
            first.server < second.server
        } else {
            first.node.0 < second.node.0
        }
    }

    fn is_same(first: Swept, second: Swept) -> bool {
        first.node.0 == second.node.0 && first.server == second.server
    }

    ghost transitive = { pair_transitive };

    ghost one_way = { pair_one_way };

    ghost some_way = { pair_some_way };

    ghost equal = { pair_equal };
}
