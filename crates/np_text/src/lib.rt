//! The small values that every layer shares, each with its one spelling.
//!
//! Ids are numbers in types of their own; `word` has the enums that records, events and replies
//! share, and their words; `limit` has each limit once. No value here holds memory. `number`,
//! `name`, `request` and `lines` read and write; each answers by a definition of `specs/`. `law`
//! states what these definitions say together: a value has one spelling, a spelling one value, and
//! the texts of sequence numbers and of requests sort as their values do.
#![tactic(auto)]

mod id;
mod law;
mod limit;
mod lines;
mod memory;
mod name;
mod number;
mod request;
mod word;

pub use id::{
    JobId, LabelId, NodeId, PoolId, RequestId, RequesterId, Role, SemId, SessionId, TenantId,
};
pub use law::{
    a_name_is_ascii, a_number_has_one_spelling, a_request_has_one_spelling, a_value_has_one_word,
    a_walk_gives_the_lines, request_texts_stand_in_order, sections_part_at_the_first_bar,
    ten_digits_are_one_spelling, ten_digits_stand_in_order,
};
pub use limit::{
    AGE, CONCURRENCY, FAIL_STARTS, FAULT_ACTS, FAULTS, HANDLES, INPUT_BYTES, JOB_LABELS,
    JOB_SEMAPHORES, JOBS, JOURNAL_ENTRIES, LABELS, LAUNCHES, MIN_READY, NAME_BYTES, NODE_CORES,
    NODE_RAM, POOL_CORES, POOL_RAM, POOL_SERVERS, POOLS, PROVIDERS, RELATIVE_PRIORITY, REQUESTERS,
    SEMAPHORES, SEQUENCE, START_NUMBER, TENANTS, WINDOW, ZNODE_BYTES,
};
pub use lines::{line_at, split_sections};
pub use memory::{Ample, NoMemory};
pub use name::is_name;
pub use number::{put_number, read_number, ten_digits};
pub use request::{read_request, request_text};
pub use word::{
    EndAs, Ending, NodeState, Phase, Reason, ReasonKind, RequestState, RoleKind, put_reason,
};
