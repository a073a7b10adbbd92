//! The records that the machine keeps of requests, nodes, jobs, roles and sessions.
//!
//! All are plain values: their lists are rows of fixed room, held in place, which contracts see as
//! lists. Read `row` for a row's calls, `record` for the five records, and `law` for their rooms.
#![tactic(auto)]

mod law;
mod record;
mod row;

pub use law::{a_job_keeps_its_room, a_request_keeps_its_rooms};
pub use record::{
    DeclineRow, Declined, JobRecord, LabelRow, MarkRow, Marked, NodeRecord, NodeRow, RequestRecord,
    RoleRecord, SessionRecord,
};
pub use row::{Item, Row};
