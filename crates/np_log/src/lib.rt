//! The log of a site on a disk: its configuration, and its events in order.
//!
//! The bytes are gates and records in turn (docs/LOG.md). A gate is one byte, open if it is 1 and
//! closed otherwise, and the log ends at its first closed gate. A record is synced before its gate
//! is opened, by a write of one byte. So at every moment a crash leaves the log with the whole
//! record or without it.
//!
//! Read `specs/Batch` and `specs/Log`, which say what bytes mean, then `specs/Place`, which says
//! what a crash leaves, and `specs/Cause`. Then read `log`, `create`, `load`, `append` and
//! `append_all` for the calls, and `law` for worked bytes. `specs/Writing` and `specs/Walking` are
//! for the functions below the calls, in `gate` and `walk`.
//!
//! Between calls there is only one image of the disk that a crash may leave, and the log in it ends
//! where the [`Log`] says. After an [`AppendFault::DiskFault`] the log has to be loaded again.
#![tactic(auto)]

mod append;
mod append_all;
mod bytes;
mod create;
mod fault;
mod gate;
mod law;
mod load;
mod log;
mod walk;

pub use fault::{AppendFault, CreateFault, LoadFault};
pub use law::{
    a_batch_is_its_event_lines, a_line_is_short, a_worked_log_says_its_events,
    damage_has_its_number,
};
pub use load::Loaded;
pub use log::Log;
