//! Scripts, Texts and their audit: what a script's events are played to, how that is printed, and
//! whether bytes are the Text of a run.
//!
//! The Text is the canonical configuration, a line `%%`, one line for each entry, a line `%%`, and one
//! line for each job's fate, in job order. `specs/Summary` says which journal the
//! machine makes of a script's events, and `specs/Told` the Text as a list of bytes, and what the
//! Text shows.
//!
//! A script is a configuration, a line `%%` and event lines. `specs/Script` says which script a text
//! is, or its first fault. `FromLine` is whatever is read line by line (`specs/Lines`).
//!
//! What a run answers can be printed, and each entry has a line. `specs/Told` says which replies have
//! a line, if their numbers are within their types. np_changes bounds the numbers of every state of a
//! run, and np_changes says what they name. `proofs/Named` says that a line can say the ids and labels.
//! `proofs/Rows` goes through the tests of each event by `proofs/Named`: the
//! numbers of each answer are within the ranges that a line has.
//!
//! `audit` reads the configuration and the entries' events from bytes, plays them, and compares the
//! Text of that run with the bytes. `specs/Audit` says what it finds, and `audit_law` that bytes have
//! one finding; `entries` reads the events, and `agreement` compares.
#![tactic(auto)]

mod agreement;
mod audit_law;
mod ends;
mod entries;
mod fate;
mod finding;
mod first_fault;
mod law;
mod lines;
mod played;
mod print;
mod script;
mod script_law;
mod told;

pub use audit_law::bytes_have_one_finding;
pub use ends::summary;
pub use entries::split_line;
pub use finding::{Finding, audit};
pub use first_fault::the_first_line_at_fault_is_told;
pub use law::{a_script_plays_safely, a_text_tells_its_run};
pub use lines::{FromLine, LinesFault, read_lines};
pub use played::{play, text_of_script};
pub use print::text;
pub use script::{EventList, Script, ScriptFault, read_config, read_script};
pub use script_law::each_entry_of_a_run_has_a_line;
pub use told::{a_run_has_a_record_for_each_job, the_replies_of_a_run_can_be_told};
