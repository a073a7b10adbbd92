//! An event with its answer.

use crate::event::Event;
use crate::reply::Reply;

/// One entry of the machine's journal.
#[derive(Clone, Copy)]
pub struct Entry {
    pub event: Event,
    pub reply: Reply,
}
