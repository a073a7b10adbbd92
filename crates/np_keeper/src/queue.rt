//! The queues of locks.

ghost use Rattle.std.specs.Prelude.{◌≡◌, IfOk};
ghost use Rattle.np_keeper.specs.Lower.{Fits, node_queue, request_queue};

use np_look::Rows;
use np_machine::Queue;
use np_text::{NodeId, RequestId, SessionId};
use std::alloc::{AllocError, Global};

/// The request's queue. It costs one call of the rows for each session in it, and one more.
pub(crate) fn request_queue_of<R: Rows>(
    alloc: Global,
    rows: &R,
    request: RequestId,
) -> Result<Queue<SessionId>, AllocError>
    requires { Fits (R.site rows.now) (R.state rows.now) }
    ensures { IfOk result
        (λ queue. queue ≡ request_queue request (R.state rows.now).requests) }
{
    let mut queue = Queue::new(alloc);
    let mut at = 0;
    while let Some(session) = rows.request_queue(request, at) {
        queue.push(session)?;
        at += 1;
    }
    Ok(queue)
}

/// The node's queue. It costs one call of the rows for each session in it, and one more.
pub(crate) fn node_queue_of<R: Rows>(
    alloc: Global,
    rows: &R,
    node: NodeId,
) -> Result<Queue<SessionId>, AllocError>
    requires { Fits (R.site rows.now) (R.state rows.now) }
    ensures { IfOk result (λ queue. queue ≡ node_queue node (R.state rows.now).nodes) }
{
    let mut queue = Queue::new(alloc);
    let mut at = 0;
    while let Some(session) = rows.node_queue(node, at) {
        queue.push(session)?;
        at += 1;
    }
    Ok(queue)
}
