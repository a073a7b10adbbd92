//! The machine.
//!
//! np_machine defines the reply to each event and the state that it leaves, and np_decision decides
//! both. A `Machine` keeps the state in tables (np_tables), with an index beside them by which it
//! answers searches (np_index), and the journal that led to it. What an accepted event changes is
//! written to a store before the tables take it: `replay` and `audit` play the machine over no
//! store (`Plain`), and the board (np_board) over a coordination tree. A machine begins before the
//! first event, or goes on from tables in a state that a run reached (`Machine::of_tables`): it then
//! knows how many entries led there and keeps those that follow (`specs/Running`).
//!
//! An event goes so. `decide` reads tables and index, and answers a refusal or what changes. Then
//! index, tables and journal take all memory that the change needs; then the store writes; up to
//! here anything may fail, and the state stays. Last tables, index and journal take the change,
//! which can't fail (`change`).
#![tactic(auto)]

mod change;
mod machine;
mod plain;

pub use machine::{Machine, NotMade};
pub use plain::{Plain, new_plain};
