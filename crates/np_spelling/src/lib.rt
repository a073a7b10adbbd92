//! The records as bytes: the spelling of each, read and written.
//!
//! A record is compact JSON, with its keys in byte order and absent keys left out. Each has one
//! spelling, except that a node has two: the one from before there were tenants is also read.
//! `kind` has the trait, and `specs/Spelling` the spellings and what a place means. The other
//! modules are the five kinds and their parts: a cursor passes what it expects, and stops where no
//! record continues.
#![tactic(auto)]

mod cursor;
mod fault;
mod id;
mod job;
mod kind;
mod law;
mod list;
mod node;
mod request;
mod role;
mod session;
mod text;
mod word;

pub use fault::BadRecord;
pub use kind::Record;
pub use law::{a_spelling_has_one_value, what_is_written_is_a_spelling};
