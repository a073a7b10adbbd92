//! Why the jobs of a Text wait, for people.
//!
//! A Text is played again (`run`) and compared (`text`), so that what is printed is of a run of the
//! machine. Then the chains of np_explain_lines are printed, a line for each fact (`waits`), why the
//! requests of other jobs failed (`fails`), and what the run took (np_listing); or the tables of the
//! state after some entries (np_listing). A configuration alone is checked by np_check.
//!
//! `specs/Answers` says what is printed and which status belongs to it, and what
//! the streams and the status show. `explain` is the top call.
#![tactic(auto)]

mod answer;
mod command;
mod entries;
mod fails;
mod fault;
mod progress;
mod run;
mod status;
mod text;
mod top;
mod waits;
mod whole;

pub use command::{Asked, Command, Query, Words, words_of};
pub use progress::{Progress, Silent};
pub use top::explain;
