//! The rooms of the records' rows. A caller calls these for the facts that they state: each takes
//! as long as reading a length.
ghost use Rattle.std.specs.Prelude.{◌≤◌, length};

use crate::record::{JobRecord, RequestRecord};
use np_text::{JOB_LABELS, POOLS};

/// A request has at most as many labels, and nodes, as a job may have labels, and at most one
/// decline for each pool.
pub fn a_request_keeps_its_rooms(request: &RequestRecord)
    ensures labels { length request.now.labels ≤ JOB_LABELS }
    ensures nodes { length request.now.nodes ≤ JOB_LABELS }
    ensures declined { length request.now.declined ≤ POOLS }
{
    request.labels.len();
    request.nodes.len();
    request.declined.len();
}

/// A job has at most as many nodes as it may have labels.
pub fn a_job_keeps_its_room(job: &JobRecord)
    ensures { length job.now.nodes ≤ JOB_LABELS }
{
    job.nodes.len();
}
