//! Events, replies and entries: what may happen, what the machine answers, and both together, and
//! the one line that each event and each entry has.
//!
//! `event`, `reply` and `entry` are types alone. `event_form` and `reply_form` are the tables of
//! their lines: one row for each shape of a line, with its first word and the kinds of word after
//! it. `kind` and `field` say what may be at a place, `row` reads and writes by a row, and `line`
//! reads and writes whole lines. Read `specs/EventForm`, `specs/Kind` and `specs/Line`, and then
//! `law`, which also says what a fault means.
//!
//! A line determines its event. It determines its entry except for one word: `failed` is a state of
//! a request and of a node, and is read as the request's.
#![tactic(auto)]

mod entry;
mod event;
mod event_form;
mod fault;
mod field;
mod kind;
mod law;
mod line;
mod reply;
mod reply_form;
mod row;
mod words;

pub use entry::Entry;
pub use event::{Event, Outcome};
pub use fault::LineFault;
pub use law::{
    a_fixed_word_decides_the_form, a_line_is_judged_by_its_form, a_line_is_one_line,
    an_entry_has_one_line, an_event_has_one_line, faults_are_told_by_the_lines,
};
pub use line::{entry_has_line, event_has_line, put_entry, put_event, read_entry, read_event};
pub use reply::{Done, Found, Refusal, Reply};
