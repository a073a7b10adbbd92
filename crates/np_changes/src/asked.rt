//! A request as it is made, before any pool declines it.

use np_record::{LabelRow, NodeRow};
use np_text::{JobId, PoolId, RequestState};

/// A request's record without its declines.
#[derive(Clone, Copy)]
pub struct Asked {
    /// The job that makes it, or `None` for a min-ready request.
    pub job: Option<JobId>,
    pub labels: LabelRow,
    /// A node for each of the first labels.
    pub nodes: NodeRow,
    /// The one pool that may serve it, or `None` if any may.
    pub pinned: Option<PoolId>,
    /// The pool that serves it.
    pub pool: Option<PoolId>,
    pub relative_priority: u32,
    pub state: RequestState,
}
